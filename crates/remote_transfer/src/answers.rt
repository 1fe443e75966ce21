ghost use Rattle.std.specs.Prelude.{◌≡◌};
ghost use Rattle.remote_transfer.specs.Answers.{stop_of};
ghost use Rattle.remote_transfer.specs.declared.answers.Stop.TheVariants.{Memory as StopMemory};

use edge_traits::{Cause, SendFault};
use farm_types::Outcome;
use std::alloc::AllocError;

/// How one exchange with a daemon went.
#[derive(Debug, Drop)]
pub enum Attempt {
    /// The reply came whole.
    Whole(Outcome),
    /// The exchange broke, by this cause.
    Broke(Cause),
    /// Memory ran out, before or after the dial had succeeded.
    Memory { dialed: bool },
}

/// The place of the object of a whole reply.
#[derive(Clone, Copy, Debug, PartialEq, Eq)]
pub enum Landing {
    /// The status is 0, and the keeper's put is pending with the whole object.
    Pending,
    /// The status is 0, and a fault of the keeper ended the put. None is pending.
    Lost,
    /// The status isn't 0, so there is no object. None is pending.
    Nothing,
}

/// How one exchange with a daemon went whose object goes into a file.
#[derive(Debug, Drop)]
pub enum Landed {
    /// The reply came whole. The outcome's own object is empty.
    Whole { outcome: Outcome, landing: Landing },
    /// The exchange broke, by this cause.
    Broke(Cause),
    /// Memory ran out, before or after the dial had succeeded.
    Memory { dialed: bool },
}

/// Why no whole reply came over a link.
#[derive(Clone, Copy, Debug)]
pub(crate) enum Stop {
    Broke(Cause),
    Memory,
}

impl From<AllocError> for Stop {
    ghost from_gives = { λ _ e. e ≡ StopMemory };

    fn from(_: AllocError) -> Self {
        Stop::Memory
    }
}

impl From<SendFault> for Stop {
    ghost from_gives = { λ fault stop. stop ≡ stop_of fault };

    fn from(fault: SendFault) -> Self {
        match fault {
            SendFault::Failed => Stop::Broke(Cause::Send),
            SendFault::Stopped => Stop::Broke(Cause::Stopped),
            SendFault::Memory => Stop::Memory,
        }
    }
}
