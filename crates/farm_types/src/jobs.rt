//! The jobs of a build, and how they are run.

use crate::hosts::Hosts;
use crate::items::Items;
use crate::request::Words;

/// The words of each job, in the order of the job list.
pub type Jobs = Items<Words>;

/// How jobs are run: on which hosts, and with how many of them a job may make an exchange, 1 to 16. Whether
/// a job that no host could do is compiled here, and whether one that a host answered with a failure is
/// compiled here once more. For how many seconds a host that broke an exchange isn't used.
#[derive(Debug, Drop)]
pub struct JobConfig {
    pub hosts: Hosts,
    pub fallback: bool,
    pub retry: bool,
    pub period: u32,
    pub tries: u8,
}
