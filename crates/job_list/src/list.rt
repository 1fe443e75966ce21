//! The jobs that a text lists.

ghost use Rattle.std.specs.Prelude.{ℕ, ◌≡◌, ◌≤◌, ◌<◌, ◌+◌, ◌++◌, ◌∷◌, [], List, true, false, length, OnOk, IfOk, IfErr, All};
ghost use Rattle.farm_types.specs.Limits.{jobs_max, job_list_max};
ghost use Rattle.job_list.specs.declared.fault.JobFault.{JobFault};
ghost use Rattle.job_list.specs.Texts as texts;
ghost use Rattle.job_list.specs.Texts.{job_lines};
ghost use Rattle.job_list.specs.Outputs.{AreApart, outputs_of};
ghost use Rattle.job_list.specs.Jobs.{JobOf, IsWrongLine, HasWrongLine, JobsOf, AreJobs, JobFaultStands};
ghost use Rattle.job_list.specs.Steps.{TakesLine, ListedShare, numbers_of};
ghost use Rattle.job_list.specs.Prints.{AreJobWords};
ghost use Rattle.job_list.specs.Answers.{IsError, Gives, GivesFault};

use crate::fault::{JobError, JobFault};
use crate::line::{LineError, read_line};
use crate::outputs::shared_output;
use crate::text::{is_job, is_text, line_end};
use farm_types::limits::{JOB_LIST_MAX, JOBS_MAX};
use farm_types::{Items, Jobs, Words};
use std::alloc::Global;

/// The jobs of some lines, and the number of each job's line.
#[derive(Debug, Drop)]
struct Listed {
    jobs: Jobs,
    lines: Items<u32>,
}

// Reads the words of a job, whose line has this number.
fn read_job(alloc: Global, line: &[u8], number: u32) -> Result<Words, JobError>
    ensures words { IfOk result (λ words. JobOf line.now words) }
    ensures fault { IfErr result (λ e. IsError (λ at fault.
        (at ≡ number) × ((count : ℕ) → IsWrongLine count line.now fault)) e) }
{
    if !is_text(line) {
        return Err(JobError::Fault {
            line: number,
            fault: JobFault::NotText,
        });
    }
    match read_line(alloc, line) {
        Ok(words) => Ok(words),
        Err(LineError::Fault(fault)) => Err(JobError::Fault {
            line: number,
            fault,
        }),
        Err(LineError::Memory) => Err(JobError::Memory),
    }
}

// Reads one line more.
fn take_line(alloc: Global, listed: &mut Listed, line: &[u8], number: u32) -> Result<(), JobError>
    requires few { length listed.old.jobs ≤ jobs_max }
    ensures taken { OnOk result (TakesLine line.now number listed.old listed.new) }
    ensures fault { IfErr result (λ e. IsError (λ at fault. (at ≡ number)
        × (texts.is_job line.now ≡ true) × IsWrongLine (length listed.old.jobs) line.now fault) e) }
{
    if !is_job(line) {
        return Ok(());
    }
    let words = read_job(alloc, line, number)?;
    if listed.jobs.len() == JOBS_MAX {
        return Err(JobError::Fault {
            line: number,
            fault: JobFault::TooMany,
        });
    }
    listed.jobs.try_push(words)?;
    Ok(listed.lines.try_push(number)?)
}

// Reads the lines of a text, one after another.
fn read_lines(alloc: Global, text: &[u8]) -> Result<Listed, JobError>
    requires { length text.now ≤ job_list_max }
    ensures jobs { IfOk result (λ listed. AreJobs (job_lines text.now) listed.jobs) }
    ensures few { IfOk result (λ listed. length listed.jobs ≤ jobs_max) }
    ensures numbers { IfOk result (λ listed. listed.lines ≡ numbers_of (job_lines text.now)) }
    ensures fault { IfErr result (λ e. IsError (HasWrongLine (job_lines text.now)) e) }
{
    let mut listed = Listed {
        jobs: Jobs::new(alloc),
        lines: Items::new(alloc),
    };
    let mut from = 0;
    let mut number = 1;
    while from <= text.len() {
        let end = line_end(text, from);
        take_line(alloc, &mut listed, &text[from..end], number)?;
        from = end + 1;
        number += 1;
    }
    Ok(listed)
}

// Reads the jobs of a text, before their outputs are compared.
fn read_jobs(alloc: Global, text: &[u8]) -> Result<Listed, JobError>
    ensures short { IfOk result (λ _. length text.now ≤ job_list_max) }
    ensures jobs { IfOk result (λ listed. AreJobs (job_lines text.now) listed.jobs) }
    ensures some { IfOk result (λ listed. 1 ≤ length listed.jobs) }
    ensures few { IfOk result (λ listed. length listed.jobs ≤ jobs_max) }
    ensures numbers { IfOk result (λ listed. listed.lines ≡ numbers_of (job_lines text.now)) }
    ensures fault { IfErr result (λ e. IsError (JobFaultStands text.now) e) }
{
    if JOB_LIST_MAX < text.len() {
        return Err(JobError::Fault {
            line: 0,
            fault: JobFault::TooLong {
                bytes: text.len() as u64,
            },
        });
    }
    let listed = read_lines(alloc, text)?;
    if listed.jobs.is_empty() {
        return Err(JobError::Fault {
            line: 0,
            fault: JobFault::NoJobs,
        });
    }
    Ok(listed)
}

// The jobs; no two have the same output.
fn check_outputs(alloc: Global, listed: Listed) -> Result<Jobs, JobError>
    requires few { length listed.jobs ≤ jobs_max }
    requires numbers { length listed.lines ≡ length listed.jobs }
    ensures jobs { IfOk result (λ jobs. jobs ≡ listed.jobs) }
    ensures apart { OnOk result (AreApart (outputs_of listed.jobs)) }
    ensures fault { IfErr result (λ e. IsError (ListedShare listed) e) }
{
    match shared_output(alloc, &listed.jobs)? {
        None => Ok(listed.jobs),
        Some(pair) => Err(JobError::Fault {
            line: listed.lines.as_slice()[pair.second],
            fault: JobFault::SameOutput {
                first: pair.first as u32 + 1,
                second: pair.second as u32 + 1,
            },
        }),
    }
}

// Reads the jobs of a text, and compares their outputs.
fn read_list(alloc: Global, text: &[u8]) -> Result<Jobs, JobError>
    ensures list { IfOk result (λ jobs. JobsOf text.now jobs) }
    ensures fault { IfErr result (λ e. IsError (JobFaultStands text.now) e) }
{
    let listed = read_jobs(alloc, text)?;
    check_outputs(alloc, listed)
}

/// Reads the text of a job list: a command on each line, with quotes as a shell has them, and comments
/// after `#`, by the rules of docs/job-list.md. The place of a fault is a line of the text, from 1, or 0
/// for the whole text. Instead of any result, memory may run out.
pub fn parse(alloc: Global, text: &[u8]) -> Result<Jobs, JobError>
    ensures list { IfOk result (λ jobs. JobsOf text.now jobs) }
    ensures fault { IfErr result (λ e. IsError (JobFaultStands text.now) e) }

    // Nothing else is returned, unless memory ran out.
    ensures only_list { (jobs : List (List (List ℕ))) → JobsOf text.now jobs → Gives jobs result }
    ensures only_fault { (at : ℕ) (fault : JobFault)
        → JobFaultStands text.now at fault → GivesFault at fault result }

    // What `print_words` writes of such a job is read as the same words again.
    ensures within { IfOk result (λ jobs. All AreJobWords jobs) }
{
    read_list(alloc, text)
}
