//! What can be wrong with a host list.

ghost use Rattle.std.specs.Prelude.{◌≡◌};
ghost use Rattle.host_list.specs.Faults.{host_fault_number};

use std::alloc::AllocError;
use thiserror::Error;

/// Why a word of a host list isn't right.
#[derive(Clone, Copy, Debug, PartialEq, Eq)]
pub enum HostFault {
    /// A host that is reached through ssh, as `@host`.
    Ssh,
    /// A host with options, as `host,lzo`.
    HostOption,
    /// `+zeroconf`.
    Zeroconf,
    /// A port that is no number from 1 to 65,535, or a second one.
    BadPort,
    /// A limit or a number of slots that is no number from 1 to 255, or a second limit.
    BadLimit,
    /// No name, or one that no host can have.
    BadName,
    /// A 17th entry.
    TooMany,
    /// An option that isn't known.
    UnknownOption,
}

impl HostFault {
    /// The number of the fault in messages.
    pub fn number(self) -> u8
        ensures { result ≡ host_fault_number self }
    {
        match self {
            HostFault::Ssh => 1,
            HostFault::HostOption => 2,
            HostFault::Zeroconf => 3,
            HostFault::BadPort => 4,
            HostFault::BadLimit => 5,
            HostFault::BadName => 6,
            HostFault::TooMany => 7,
            HostFault::UnknownOption => 8,
        }
    }
}

/// Why a text is no host list, or that memory ran out.
#[derive(Debug, Drop, Error)]
pub enum HostError {
    /// The text has this fault at this byte.
    #[error("host list: fault {} at byte {at}", .fault.number())]
    Fault { at: u64, fault: HostFault },
    /// Memory ran out.
    #[error("no memory")]
    Memory,
}

/// A fault at a place in a word.
#[derive(Clone, Copy, Debug)]
pub struct FaultAt {
    pub at: usize,
    pub fault: HostFault,
}

impl From<FaultAt> for HostError {
    ghost use Rattle.host_list.specs.declared.fault.HostError.TheVariants.{Fault};

    ghost from_gives = { λ f e. e ≡ Fault f.at f.fault };

    fn from(fault: FaultAt) -> HostError {
        HostError::Fault {
            at: fault.at as u64,
            fault: fault.fault,
        }
    }
}

impl From<AllocError> for HostError {
    ghost use Rattle.host_list.specs.declared.fault.HostError.TheVariants.{Memory};

    ghost from_gives = { λ _ e. e ≡ Memory };

    fn from(_error: AllocError) -> HostError {
        HostError::Memory
    }
}
