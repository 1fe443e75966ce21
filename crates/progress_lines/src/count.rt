//! What is read of all boards at one time.
ghost use Rattle.std.specs.Prelude.{◌≡◌, ◌+◌, ◌^◌, ◌<◌, ◌≤◌, length, map, min};
ghost use Rattle.farm_monitor.specs.Boards.{board_watched};
ghost use Rattle.progress_lines.specs.Counts.{known, total, one_for, at_jobs, ReadOn};
ghost use Rattle.progress_lines.specs.Lines.{are_all};

use farm_monitor::{Progress, Watcher};

/// How many jobs have ended, and how many workers are at a job.
#[derive(Clone, Copy, Debug, PartialEq, Eq)]
pub struct Count {
    pub ended: u32,
    pub busy: u32,
}

impl Count {
    /// Whether all of that many jobs have ended, and no worker is at one.
    pub fn are_all(self, jobs: u32) -> bool
        ensures { result ≡ are_all jobs self }
    {
        self.ended == jobs && self.busy == 0
    }

    /// With one row more. No more jobs have ended than there are.
    fn with(self, row: Progress, jobs: u32) -> Count
        requires within { self.ended ≤ jobs }
        requires room { self.busy + 1 < 2 ^ 32 }
        ensures ended { result.ended ≡ min jobs (self.ended + row.ended) }
        ensures busy { result.busy ≡ self.busy + one_for row.job }
    {
        Count {
            ended: self.ended.saturating_add(row.ended).min(jobs),
            busy: if row.job.is_some() {
                self.busy + 1
            } else {
                self.busy
            },
        }
    }
}

// Counts on over these boards.
fn count_on(watchers: &mut [Watcher], jobs: u32, so_far: Count) -> Count
    requires within { so_far.ended ≤ jobs }
    requires room { so_far.busy + length watchers.old < 2 ^ 32 }
    ensures same { map board_watched watchers.new ≡ map board_watched watchers.old }
    ensures ended { result.ended ≡ min jobs (so_far.ended + total (known watchers.new)) }
    ensures busy { result.busy ≡ so_far.busy + at_jobs (known watchers.new) }
    ensures few { result.busy ≤ so_far.busy + length watchers.old }
    ensures rises { total (known watchers.old) ≤ total (known watchers.new) }
    ensures read { ReadOn (known watchers.old) (known watchers.new) }
{
    match watchers.split_first_mut() {
        None => so_far,
        Some((first, rest)) => {
            let row = first.read();
            count_on(rest, jobs, so_far.with(row, jobs))
        }
    }
}

/// Reads each board once. No more than `jobs` jobs are said to have ended, and no fewer than when the boards were read before.
pub fn count_rows(watchers: &mut [Watcher], jobs: u32) -> Count
    requires few { length watchers.old < 2 ^ 32 }
    ensures same { map board_watched watchers.new ≡ map board_watched watchers.old }
    ensures ended { result.ended ≡ min jobs (total (known watchers.new)) }
    ensures busy { result.busy ≡ at_jobs (known watchers.new) }
    ensures few { result.busy ≤ length watchers.old }
    ensures rises { total (known watchers.old) ≤ total (known watchers.new) }
    ensures read { ReadOn (known watchers.old) (known watchers.new) }
{
    count_on(watchers, jobs, Count { ended: 0, busy: 0 })
}
