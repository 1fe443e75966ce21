//! The numbers of the workload, one after the other.

ghost use Rattle.std.specs.Prelude.{◌≡◌};
ghost use Rattle.workload.specs.Loads.{next_state, factor_of};

/// A linear congruential generator modulo 2 to the 32.
#[derive(Drop)]
pub(crate) struct Generator {
    pub(crate) state: u32,
}

impl Generator {
    /// The factor of the next job, below 1,000.
    pub(crate) fn next_factor(&mut self) -> u32
        ensures state { self.new.state ≡ next_state self.old.state }
        ensures factor { result ≡ factor_of self.new.state }
    {
        let next = 1_664_525 * u64::from(self.state) + 1_013_904_223;
        self.state = (next % 4_294_967_296) as u32;
        self.state / 65_536 % 1_000
    }
}
