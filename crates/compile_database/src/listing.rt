//! The job list of jobs.

ghost use Rattle.std.specs.Prelude.{◌≡◌, IfOk, IfErr, All, Some};
ghost use Rattle.job_list.specs.Jobs.{AreJobs, JobsOf};
ghost use Rattle.job_list.specs.Prints.{AreJobWords};
ghost use Rattle.job_list.specs.Texts.{job_lines};
ghost use Rattle.compile_database.specs.Databases.{IsError};
ghost use Rattle.compile_database.specs.Listings.{IsListFault};

use crate::fault::{DatabaseError, DatabaseFault};
use farm_types::{Bytes, Jobs};
use job_list::{JobError, parse, print_words};
use std::alloc::{AllocError, Global};

// The lines of jobs, one each.
fn lines_of(alloc: Global, jobs: &Jobs) -> Result<Bytes, AllocError>
    requires { All AreJobWords jobs.now }
    ensures { IfOk result (λ list. AreJobs (job_lines list) jobs.now) }
{
    let mut list = Bytes::new(alloc);
    'each: for words in jobs.as_slice() {
        list.try_extend(print_words(alloc, words)?.as_slice())?;
        list.try_push(b'\n')?;
    }
    Ok(list)
}

/// The job list of jobs.
pub(crate) fn list_of(alloc: Global, jobs: &Jobs) -> Result<Bytes, DatabaseError>
    requires { All AreJobWords jobs.now }
    ensures list { IfOk result (λ list. JobsOf list jobs.now) }
    ensures fault { IfErr result (IsError (IsListFault jobs.now)) }
{
    let list = lines_of(alloc, jobs)?;
    match parse(alloc, list.as_slice()) {
        Ok(_) => Ok(list),
        Err(JobError::Fault { line, fault }) => {
            Err(DatabaseError::Fault(DatabaseFault::JobList { line, fault }))
        }
        Err(JobError::Memory) => Err(DatabaseError::Memory),
    }
}
