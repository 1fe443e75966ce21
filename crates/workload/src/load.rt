//! The workload of a number.

ghost use Rattle.std.specs.Prelude.{◌≡◌, ◌≤◌, IfOk};
ghost use Rattle.farm_types.specs.Limits.{jobs_max};
ghost use Rattle.workload.specs.Loads.{jobs_of, files_of};

use crate::generator::Generator;
use crate::texts::{job_source, job_words, source_text};
use farm_types::Jobs;
use sample_lang::FileMap;
use std::alloc::{AllocError, Global};

/// Jobs, and the files that they read.
#[derive(Drop)]
pub struct Load {
    pub jobs: Jobs,
    pub files: FileMap,
}

/// The workload of n, which is 1 to 512: n jobs, and a source for each.
///
/// Job K, from 1 to n, has the words `scc -c jK.c -o jK.o`, and its file `jK.c` is `int jK = A * 7 + K;` with a line feed.
/// A is the factor of the generator's Kth number after n.
pub fn make(alloc: Global, n: u32) -> Result<Load, AllocError>
    requires some { 1 ≤ n }
    requires most { n ≤ jobs_max }
    ensures jobs { IfOk result (λ load. load.jobs ≡ jobs_of n) }
    ensures files { IfOk result (λ load. load.files ≡ files_of n) }
{
    let mut jobs = Jobs::new(alloc);
    let mut files = FileMap::new(alloc);
    let mut generator = Generator { state: n };
    for before in 0..n {
        let job = before + 1;
        let factor = generator.next_factor();
        jobs.try_push(job_words(alloc, job)?)?;
        files.try_put(job_source(alloc, job)?, source_text(alloc, job, factor)?)?;
    }
    Ok(Load { jobs, files })
}
