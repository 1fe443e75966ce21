//! After a job: whether its command is run once more.

ghost use Rattle.std.specs.Prelude.{◌≡◌, true};
ghost use Rattle.whole_command.specs.Again.{has_failed, runs_again};
ghost use Rattle.report_text.specs.Pieces as pieces;

use farm_machine::{End, Report};

/// Whether the command of a job is run here as it is, after these reports of it.
///
/// It is, if fallback is on and the one job ended otherwise than with status 0 of a program. Then nothing was put for it. Reports of no job, or
/// of several, are those of no single command.
pub fn runs_again(fallback: bool, reports: &[Report]) -> bool
    ensures { result ≡ runs_again fallback reports.now }
{
    fallback && has_failed(reports)
}

fn has_failed(reports: &[Report]) -> bool
    ensures { result ≡ has_failed reports.now }
{
    match reports {
        [report] => !is_done_well(&report.end),
        _ => false,
    }
}

fn is_done_well(end: &End) -> bool
    ensures { result ≡ pieces.is_done_well end.now }
{
    match end {
        End::Done { status, .. } => *status == 0,
        End::Failed(_) => false,
    }
}
