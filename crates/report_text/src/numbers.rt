//! The exit status of a build.

ghost use Rattle.std.specs.Prelude.{◌≡◌, true};
ghost use Rattle.report_text.specs.Numbers as specs;
ghost use Rattle.report_text.specs.Pieces.{is_done_well};

use crate::pieces::is_done;
use edge_traits::Cause;
use farm_machine::{End, Report, ReportList, Why5};
use farm_types::exit_code;
use farm_types::exits::{BAD_TEXT, FAULT, NO_HOST, NO_LINK, NO_MEMORY, TRUNCATED};

fn cause_number(cause: Cause) -> u8
    ensures { result ≡ specs.cause_number cause }
{
    match cause {
        Cause::Dial => NO_LINK,
        Cause::Send | Cause::Recv | Cause::Stopped => FAULT,
        Cause::Truncated { .. } => TRUNCATED,
        Cause::BadReply { .. } => BAD_TEXT,
    }
}

fn why_number(why: Why5) -> u8
    ensures { result ≡ specs.why_number why }
{
    match why {
        Why5::Station | Why5::Put | Why5::Fetch => FAULT,
        Why5::Broke { cause, .. } => cause_number(cause),
        Why5::NoHost => NO_HOST,
        Why5::Memory => NO_MEMORY,
    }
}

fn end_number(end: &End) -> u8
    ensures { result ≡ specs.end_number end.now }
{
    match end {
        End::Done { status, .. } => exit_code(*status),
        End::Failed(why) => why_number(*why),
    }
}

/// The number of one report: 0 if the job was done with status 0. It takes no memory.
pub fn number_of(report: &Report) -> u8
    ensures number { result ≡ specs.end_number report.now.end }
    ensures good { is_done_well report.now.end ≡ true → result ≡ 0 }
{
    end_number(&report.end)
}

/// The exit status of a build with these reports: 0 if every job was done with status 0, else the number of the first that
/// was not. It takes no memory.
pub fn status(reports: &ReportList) -> u8
    ensures { result ≡ specs.number reports.now }
{
    let mut rest = reports.as_slice();
    'seeking: while let [first, after @ ..] = rest {
        if !is_done(&first.end) {
            return end_number(&first.end);
        }
        rest = after;
    }
    0
}
