//! How the jobs of a rehearsal are run.

ghost use Rattle.std.specs.Prelude.{◌≡◌, IfOk};
ghost use Rattle.rehearsal.specs.Rehearsals.{rehearsal_config};

use farm_types::limits::{PERIOD_DEFAULT, PORT_DEFAULT};
use farm_types::{Bytes, Host, HostName, HostVec, Hosts, JobConfig};
use std::alloc::{AllocError, Global};

/// The configuration of a rehearsal: the host list `loop:3632/4`, with fallback and retry, a period of 60 seconds, and one
/// host for each job.
pub(crate) fn rehearsal_config(alloc: Global) -> Result<JobConfig, AllocError>
    ensures { IfOk result (λ config. config ≡ rehearsal_config) }
{
    let mut list = HostVec::new(alloc);
    list.try_push(Host {
        name: HostName {
            text: Bytes::from_slice(alloc, b"loop")?,
        },
        port: PORT_DEFAULT,
        limit: 4,
        local: false,
    })?;
    Ok(JobConfig {
        hosts: Hosts {
            list,
            local_slots: 4,
            local_cpp: 8,
            randomize: false,
        },
        fallback: true,
        retry: true,
        period: PERIOD_DEFAULT,
        tries: 1,
    })
}
