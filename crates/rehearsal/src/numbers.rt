//! The two numbers of a rehearsal.

ghost use Rattle.std.specs.Prelude.{◌≡◌, ◌≤◌, length, count_by};
ghost use Rattle.std.specs.List.{sum_by};
ghost use Rattle.farm_types.specs.Limits.{object_max, jobs_max};
ghost use Rattle.report_text.specs.Pieces as pieces;
ghost use Rattle.rehearsal.specs.Counts as counts;
ghost use Rattle.rehearsal.specs.Counts.{puts_of, CountsDone};

use crate::RehearsalKit;
use farm_machine::{End, Event, EventList, Report};

/// The two numbers that a rehearsal reports: how many jobs ended with status 0, and how many bytes their objects have together.
#[derive(Clone, Copy, Debug, PartialEq, Eq)]
pub struct Count {
    pub done: u32,
    pub bytes: u64,
}

// The place of the put that is the last of these events.
fn last_put(events: &EventList) -> Option<u32>
    ensures { result ≡ counts.last_put events.now }
{
    match events.get(events.len().saturating_sub(1)) {
        Some(Event::Put(at)) => Some(*at),
        _ => None,
    }
}

// The length of the object that the job of this report put, which is its last act; 0 if it put none.
fn object_len(kits: &[RehearsalKit], report: &Report) -> u64
    ensures len { result ≡ counts.report_len (puts_of kits.now) report.now }
    ensures small { result ≤ object_max }
{
    let Some(at) = last_put(&report.events) else {
        return 0;
    };
    match kits.get(report.worker as usize) {
        Some(kit) => kit.keeper.object_len(at),
        None => 0,
    }
}

// The length of the objects of all jobs together.
fn bytes_put(kits: &[RehearsalKit], reports: &[Report]) -> u64
    requires { length reports.now ≤ jobs_max }
    ensures { result ≡ sum_by (counts.report_len (puts_of kits.now)) reports.now }
{
    let mut bytes = 0;
    for report in reports {
        bytes += object_len(kits, report);
    }
    bytes
}

fn is_done_well(end: &End) -> bool
    ensures { result ≡ pieces.is_done_well end.now }
{
    match end {
        End::Done { status, .. } => *status == 0,
        End::Failed(_) => false,
    }
}

// How many jobs were done with status 0.
fn done_well(reports: &[Report]) -> usize
    ensures count { result ≡ count_by (λ report. pieces.is_done_well report.end) reports.now }
    ensures most { result ≤ length reports.now }
{
    let mut done = 0;
    for report in reports {
        if is_done_well(&report.end) {
            done += 1;
        }
    }
    done
}

/// Counts what the jobs of these reports left, or nothing if one of them failed.
pub(crate) fn count_reports(kits: &[RehearsalKit], reports: &[Report]) -> Option<Count>
    requires { length reports.now ≤ jobs_max }
    ensures { CountsDone (puts_of kits.now) reports.now result }
{
    for report in reports {
        if let End::Failed(_) = &report.end {
            return None;
        }
    }
    Some(Count {
        done: done_well(reports) as u32,
        bytes: bytes_put(kits, reports),
    })
}
