//! The printed text of a build's reports.

ghost use Rattle.std.specs.Prelude.{◌≡◌, ◌++◌, IfOk, OnOk};
ghost use Rattle.report_text.specs.Pieces.{err_messages, failure_text, out_messages, line_text, line_text_at, skipped_text, is_done_well, total_text, total_text_of};

use crate::ends::{add_end, add_number};
use farm_machine::{End, Report, ReportList};
use farm_types::{Bytes, Hosts};
use std::alloc::{AllocError, Global};

/// What is printed of one job: `err` on the sink of errors, and then `out` on that of the output.
#[derive(Debug, Drop)]
pub struct Printed {
    pub out: Bytes,
    pub err: Bytes,
}

// The messages of a job for the sink of errors.
fn err_of(alloc: Global, end: &End) -> Result<Bytes, AllocError>
    ensures { IfOk result (λ text. text ≡ err_messages end.now) }
{
    match end {
        End::Done { note, err, .. } => {
            let mut text = note.copy()?;
            text.try_extend(err.as_slice())?;
            Ok(text)
        }
        End::Failed(_) => Ok(Bytes::new(alloc)),
    }
}

// The messages of a job for the sink of the output.
fn out_of(alloc: Global, end: &End) -> Result<Bytes, AllocError>
    ensures { IfOk result (λ text. text ≡ out_messages end.now) }
{
    match end {
        End::Done { out, .. } => out.copy(),
        End::Failed(_) => Ok(Bytes::new(alloc)),
    }
}

/// The printed text of one job, whose line is that of this place: its messages, and its line.
pub fn lines_at(
    alloc: Global,
    hosts: &Hosts,
    report: &Report,
    job: u32,
) -> Result<Printed, AllocError>
    ensures err { IfOk result (λ printed. printed.err ≡ err_messages report.now.end) }
    ensures out { IfOk result (λ printed.
        printed.out ≡ out_messages report.now.end ++ line_text_at hosts.now.list job report.now.end) }
{
    let err = err_of(alloc, &report.end)?;
    let mut out = out_of(alloc, &report.end)?;
    add_number(alloc, &mut out, u64::from(job) + 1)?;
    out.try_extend(b" ")?;
    add_end(alloc, &mut out, hosts, &report.end)?;
    out.try_extend(b"\n")?;
    Ok(Printed { out, err })
}

/// The printed text of one job: its messages, and its line.
pub fn lines(alloc: Global, hosts: &Hosts, report: &Report) -> Result<Printed, AllocError>
    ensures err { IfOk result (λ printed. printed.err ≡ err_messages report.now.end) }
    ensures out { IfOk result (λ printed.
        printed.out ≡ out_messages report.now.end ++ line_text hosts.now.list report.now) }
{
    lines_at(alloc, hosts, report, report.number)
}

/// The line of a job that is not run, since another that it needs is not good.
pub fn skipped(alloc: Global, job: u32, by: u32) -> Result<Bytes, AllocError>
    ensures { IfOk result (λ text. text ≡ skipped_text job by) }
{
    let mut text = Bytes::new(alloc);
    add_number(alloc, &mut text, u64::from(job) + 1)?;
    text.try_extend(b" skipped by ")?;
    add_number(alloc, &mut text, u64::from(by) + 1)?;
    text.try_extend(b"\n")?;
    Ok(text)
}

// Adds the line of a command that was run only and failed.
fn add_failure(alloc: Global, text: &mut Bytes, hosts: &Hosts, end: &End) -> Result<(), AllocError>
    ensures { OnOk result (text.new ≡ text.old ++ failure_text hosts.now.list end.now) }
{
    match end {
        End::Done { .. } => Ok(()),
        End::Failed(_) => {
            text.try_extend(b"farm: ")?;
            add_end(alloc, text, hosts, end)?;
            text.try_extend(b"\n")
        }
    }
}

/// The printed text of one command that was run only: its messages, and if it failed `farm:` and why, on the sink of errors.
/// There is no other line.
pub fn command_lines(alloc: Global, hosts: &Hosts, end: &End) -> Result<Printed, AllocError>
    ensures err { IfOk result (λ printed. printed.err ≡ err_messages end.now ++ failure_text hosts.now.list end.now) }
    ensures out { IfOk result (λ printed. printed.out ≡ out_messages end.now) }
{
    let mut err = err_of(alloc, end)?;
    add_failure(alloc, &mut err, hosts, end)?;
    let out = out_of(alloc, end)?;
    Ok(Printed { out, err })
}

/// Whether a job was done with status 0.
pub fn is_done(end: &End) -> bool
    ensures { result ≡ is_done_well end.now }
{
    match end {
        End::Done { status, .. } => *status == 0,
        End::Failed(_) => false,
    }
}

// The line of the total.
fn total_line(alloc: Global, jobs: u64, good: u64) -> Result<Bytes, AllocError>
    ensures { IfOk result (λ text. text ≡ total_text_of jobs good) }
{
    let mut text = Bytes::from_slice(alloc, b"total ")?;
    add_number(alloc, &mut text, jobs)?;
    text.try_extend(b" ok ")?;
    add_number(alloc, &mut text, good)?;
    text.try_extend(b"\n")?;
    Ok(text)
}

/// The line of the total of that many jobs, of which that many were done with status 0.
pub fn total_of(alloc: Global, jobs: u32, good: u32) -> Result<Bytes, AllocError>
    ensures { IfOk result (λ text. text ≡ total_text_of jobs good) }
{
    total_line(alloc, u64::from(jobs), u64::from(good))
}

/// The line of the total: how many jobs there were, and how many of them were done with status 0.
pub fn total(alloc: Global, reports: &ReportList) -> Result<Bytes, AllocError>
    ensures { IfOk result (λ text. text ≡ total_text reports.now) }
{
    let reports = reports.as_slice();
    let done = reports.iter().filter(|report| is_done(&report.end)).count();
    total_line(alloc, reports.len() as u64, done as u64)
}
