// A job as its parts see it.
ghost use Rattle.std.specs.Prelude.{◌≡◌, ◌<◌, ◌≤◌, length};
ghost use Rattle.farm_types.specs.Limits.{hosts_max};
ghost use Rattle.arg_scan.specs.Class.{IsRemote};
ghost use Rattle.arg_strip.specs.Words.{output_of};
ghost use Rattle.job_run.specs.Sources.{HasSource};

use farm_types::{Bytes, JobConfig, Words};
use std::alloc::Global;

/// What stays the same through a job.
#[derive(Drop)]
pub(crate) struct Command<'a> {
    pub(crate) alloc: Global,
    pub(crate) words: &'a Words,
    pub(crate) number: u32,
    pub(crate) config: &'a JobConfig,
    pub(crate) ghost word: { 0 < length words.now },
    pub(crate) ghost entries: { length config.now.hosts.list ≤ hosts_max },
    pub(crate) ghost some: { 1 ≤ config.now.tries },
    pub(crate) ghost tries: { config.now.tries ≤ hosts_max },
}

/// What stays the same through a job whose command may be sent.
#[derive(Drop)]
pub(crate) struct Task<'a> {
    pub(crate) alloc: Global,
    pub(crate) words: &'a Words,
    pub(crate) number: u32,
    pub(crate) config: &'a JobConfig,
    /// The place of its source among the words.
    pub(crate) input: u64,
    /// Whether that source is preprocessed already.
    pub(crate) preprocessed: bool,
    /// The name of its object.
    pub(crate) output: &'a Bytes,
    pub(crate) ghost remote: { IsRemote words.now },
    pub(crate) ghost source: { HasSource words.now input preprocessed },
    pub(crate) ghost named: { output.now ≡ output_of words.now },
    pub(crate) ghost entries: { length config.now.hosts.list ≤ hosts_max },
    pub(crate) ghost some: { 1 ≤ config.now.tries },
    pub(crate) ghost tries: { config.now.tries ≤ hosts_max },
}
