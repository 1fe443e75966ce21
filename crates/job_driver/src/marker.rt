//! Marks on a board.
ghost use Rattle.std.specs.Prelude.{◌≡◌, ◌≤◌, [], true, length};
ghost use Rattle.farm_monitor.specs.Boards.{board_of, shown_rows};
ghost use Rattle.job_driver.specs.Marks.{ended_in, HasAdded};

use crate::marks::Marks;
use farm_monitor::{Progress, Shower};
use std::sync::Wait;

/// Shows a row on a board when a job was drawn, and when one has ended. Once a row wasn't shown, none is any more. It can't be
/// dropped: its shower is to be ended.
pub struct Marker {
    pub shower: Shower,
    /// Each row was shown.
    pub all: bool,
    pub(crate) ended: u32,
    pub(crate) shown: u32,
    ghost same: { all ≡ true → ended_in (shown_rows shower) ≡ ended },
    ghost counted: { all ≡ true → length (shown_rows shower) ≤ shown },
}

impl Marker {
    /// Marks with this shower, on which nothing was shown.
    pub fn new(shower: Shower) -> Marker
        requires none { shown_rows shower ≡ [] }
        ensures shower { result.shower ≡ shower }
        ensures all { result.all ≡ true }
    {
        Marker {
            shower,
            all: true,
            ended: 0,
            shown: 0,
        }
    }

    // Shows a row with this job, if that many jobs have ended.
    fn mark<R: Wait>(&mut self, rt: &R, job: Option<u32>, ended: u32)
        requires rises { self.old.all ≡ true → ended_in (shown_rows self.old.shower) ≤ ended }
        ensures board { board_of self.new.shower ≡ board_of self.old.shower }
        ensures added { HasAdded self.old.all self.new.all (record { job = job; ended = ended })
            (shown_rows self.old.shower) (shown_rows self.new.shower) }
    {
        let Some(shown) = self.shown.checked_add(1) else {
            self.all = false;
            return;
        };
        if !self.all {
            return;
        }
        match self.shower.show(rt, Progress { job, ended }) {
            Ok(()) => {
                self.ended = ended;
                self.shown = shown;
            }
            Err(_) => self.all = false,
        }
    }
}

impl Marks for Marker {
    ghost board = { λ m. board_of m.shower };

    ghost rows = { λ m. shown_rows m.shower };

    ghost all = { λ m. m.all };

    fn begin<R: Wait>(&mut self, rt: &R, job: u32) {
        self.mark(rt, Some(job), self.ended);
    }

    fn end<R: Wait>(&mut self, rt: &R) {
        match self.ended.checked_add(1) {
            Some(ended) => self.mark(rt, None, ended),
            None => self.all = false,
        }
    }
}
