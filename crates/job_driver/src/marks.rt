//! What a worker marks of how far it has come. Nothing that it does rests on it.
ghost use Rattle.std.specs.Prelude.{◌≡◌, ◌+◌};
ghost use Rattle.job_driver.specs.Marks.{at_job, between_jobs, ended_in, HasAdded};

use std::sync::Wait;

/// What is marked when a job was drawn, and when its report is there.
pub trait Marks {
    ghost use Rattle.std.specs.Prelude.{List, Bool};
    ghost use Rattle.logbook.specs.Pages.{Book};
    ghost use Rattle.farm_monitor.specs.declared.progress.Progress.{Progress};

    /// The board on which they are.
    ghost board: { Self → Book };

    /// The rows that were shown there.
    ghost rows: { Self → List Progress };

    /// Whether each row was shown.
    ghost all: { Self → Bool };

    /// A job was drawn.
    fn begin<R: Wait>(&mut self, rt: &R, job: u32)
        ensures board { board self.new ≡ board self.old }
        ensures added { HasAdded (all self.old) (all self.new) (at_job job (ended_in (rows self.old))) (rows self.old) (rows self.new) };

    /// Its report is there.
    fn end<R: Wait>(&mut self, rt: &R)
        ensures board { board self.new ≡ board self.old }
        ensures added { HasAdded (all self.old) (all self.new) (between_jobs (ended_in (rows self.old) + 1)) (rows self.old) (rows self.new) };
}

/// No marks, if nobody watches.
#[derive(Drop)]
pub struct Unwatched;

impl Marks for Unwatched {
    ghost use Rattle.std.specs.Prelude.{[], false};

    ghost board = { λ _. record { number = 0; log_name = 0; cells_name = 0 } };

    ghost rows = { λ _. [] };

    ghost all = { λ _. false };

    fn begin<R: Wait>(&mut self, _rt: &R, _job: u32) {}

    fn end<R: Wait>(&mut self, _rt: &R) {}
}
