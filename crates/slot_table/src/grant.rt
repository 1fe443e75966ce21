//! Slots that were given out. Only the calls of the slots make them, and they have to be given back: a program that drops one isn't
//! compiled.
ghost use Rattle.std.specs.Prelude.{◌≡◌};
ghost use Rattle.slot_table.specs.Grants.{host_of, job_of, caller_of, local_job_of, local_caller_of, reply_of};

use crate::calls::SlotReply;

/// A slot of a host, given out for a job.
#[derive(Debug)]
pub struct Grant {
    pub(crate) caller: u32,
    pub(crate) job: u32,
    pub(crate) host: u32,
}

impl Grant {
    /// The host's place among the entries.
    pub fn host(&self) -> u32
        ensures { result ≡ host_of self.now }
    {
        self.host
    }

    /// The job that it was given out for.
    pub fn job(&self) -> u32
        ensures { result ≡ job_of self.now }
    {
        self.job
    }

    /// The caller that it was given to.
    pub fn caller(&self) -> u32
        ensures { result ≡ caller_of self.now }
    {
        self.caller
    }

    /// Its host. The grant is no more.
    pub(crate) fn spend(self) -> u32
        ensures { result ≡ host_of self }
    {
        let Grant {
            caller: _,
            job: _,
            host,
        } = self;
        host
    }
}

/// A local slot, given out for a job.
#[derive(Debug)]
pub struct LocalGrant {
    pub(crate) caller: u32,
    pub(crate) job: u32,
}

impl LocalGrant {
    /// The job that it was given out for.
    pub fn job(&self) -> u32
        ensures { result ≡ local_job_of self.now }
    {
        self.job
    }

    /// The caller that it was given to.
    pub fn caller(&self) -> u32
        ensures { result ≡ local_caller_of self.now }
    {
        self.caller
    }

    /// The grant is no more.
    pub(crate) fn spend(self) {
        let LocalGrant { caller: _, job: _ } = self;
    }
}

/// The answer of a take.
#[derive(Debug)]
pub enum Take {
    /// A slot of a host.
    Got(Grant),
    /// No entry of the mask has a free slot now, and not all of them are in back-off.
    Full,
    /// Every entry of the mask is in back-off, or it has none.
    Down,
}

impl Take {
    /// The answer as a reply.
    pub fn reply(&self) -> SlotReply
        ensures { result ≡ reply_of self.now }
    {
        match self {
            Take::Got(grant) => SlotReply::Got(grant.host),
            Take::Full => SlotReply::Full,
            Take::Down => SlotReply::Down,
        }
    }

    /// The answer as a reply. Its grant is no more.
    pub(crate) fn into_reply(self) -> SlotReply
        ensures { result ≡ reply_of self }
    {
        match self {
            Take::Got(grant) => SlotReply::Got(grant.spend()),
            Take::Full => SlotReply::Full,
            Take::Down => SlotReply::Down,
        }
    }
}
