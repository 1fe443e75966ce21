ghost use Rattle.std.specs.Prelude.{◌≡◌};
ghost use Rattle.edge_memory.specs.Moments.{moment_at};

use edge_traits::Clock;
use farm_types::Items;

/// The moments that a clock gives.
pub type Moments = Items<u64>;

/// A clock that follows a script.
#[derive(Drop)]
pub struct MemClock {
    moments: Moments,
    given: u64,
}

/// A clock never fails.
pub type MemNeverClock = MemClock;

impl MemClock {
    ghost use Rattle.std.specs.Prelude.{◌≡◌};
    ghost use Rattle.edge_memory.specs.Clocks.{clock_state};

    /// A clock that gives these moments, and then the last of them again and again. One without moments gives 0.
    /// It takes no memory.
    pub fn new(moments: Moments) -> MemClock
        ensures { clock_state result ≡ record { moments = moments; given = 0 } }
    {
        MemClock { moments, given: 0 }
    }
}

/// The moment of a call, counted from 0.
fn moment_of(moments: &Moments, call: u64) -> u64
    ensures { result ≡ moment_at moments.now call }
{
    let moments = moments.as_slice();
    match moments {
        [] => 0,
        [.., last] => {
            if call < moments.len() as u64 {
                moments[call as usize]
            } else {
                *last
            }
        }
    }
}

impl Clock for MemClock {
    ghost use Rattle.std.specs.Prelude.{◌≡◌};
    ghost use Rattle.edge_traits.specs.Calls.{one_more};
    ghost use Rattle.edge_memory.specs.Moments.{moment_at};
    ghost use Rattle.edge_memory.specs.Clocks.{clock_state, clock_shows};

    ghost shows = { λ c. clock_shows (clock_state c) };

    #[tactic(auto, using(crate::proofs::Clocks::moments_more))]
    fn now(&mut self) -> u64
        ensures moment { result ≡ moment_at (clock_state self.old).moments (clock_state self.old).given }
        ensures state { clock_state self.new ≡ record (clock_state self.old) { given = one_more (clock_state self.old).given } }
    {
        let moment = moment_of(&self.moments, self.given);
        if self.given < u64::MAX {
            self.given += 1;
        }
        moment
    }

    fn pause(&mut self)
        ensures { clock_state self.new ≡ clock_state self.old }
    {}
}
