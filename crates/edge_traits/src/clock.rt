ghost use Rattle.std.specs.Prelude.{[], ◌∷◌};
ghost use Rattle.edge_traits.specs.Told.{Grew};
ghost use Rattle.edge_traits.specs.Clocks.{ClockView};

/// Gives the time in whole seconds, and waits a little.
pub trait Clock {
    /// What it shows of its past.
    ghost shows: { Self → ClockView };

    fn now(&mut self) -> u64
        ensures { Grew (shows self.old).moments (shows self.new).moments (result ∷ []) };

    fn pause(&mut self)
        ensures { Grew (shows self.old).moments (shows self.new).moments [] };
}
