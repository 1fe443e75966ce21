//! The kits of a rehearsal.

ghost use Rattle.std.specs.Prelude.{◌≡◌, ◌≤◌, All, IfOk, length};
ghost use Rattle.farm_types.specs.Limits.{jobs_max};
ghost use Rattle.loop_link.specs.Replies.{AreOwnNames};
ghost use Rattle.workload.specs.Loads.{files_of};
ghost use Rattle.rehearsal.specs.Rehearsals.{IsFresh, scc_table};

use crate::{StillKeeper, StillStation};
use daemon_service::{Compiler, CompilerVec, Compilers};
use edge_memory::{MemClock, Moments};
use edge_traits::Kit;
use farm_types::Bytes;
use loop_link::LoopDialer;
use sample_compiler::SampleStation;
use std::alloc::{AllocError, Global};
use workload::make;

/// A kit of a rehearsal: a loop over the sample compiler, the sample compiler, a keeper in memory, and a clock that stays at 0.
pub type RehearsalKit = Kit<LoopDialer<SampleStation>, StillStation, StillKeeper, MemClock>;

/// The table of a loop, which names the sample compiler `scc`.
pub fn compiler_table(alloc: Global) -> Result<Compilers, AllocError>
    ensures names { IfOk result (λ table. AreOwnNames table.rows) }
    ensures rows { IfOk result (λ table. table.rows ≡ scc_table) }
{
    let name = Bytes::from_slice(alloc, b"scc")?;
    let program = name.copy()?;
    let mut rows = CompilerVec::new(alloc);
    rows.try_push(Compiler { name, program })?;
    Ok(Compilers { rows })
}

// A kit over the workload's files, of which the loop and the station each have a copy.
fn kit(alloc: Global, n: u32) -> Result<RehearsalKit, AllocError>
    requires some { 1 ≤ n }
    requires most { n ≤ jobs_max }
    ensures { IfOk result (λ kit. IsFresh (files_of n) kit) }
{
    let there = SampleStation::new(make(alloc, n)?.files);
    let here = StillStation::new(make(alloc, n)?.files);
    Ok(Kit {
        dialer: LoopDialer::new(there, compiler_table(alloc)?),
        station: here,
        keeper: StillKeeper::new(alloc),
        clock: MemClock::new(Moments::new(alloc)),
    })
}

/// That many kits over the workload's files.
pub(crate) fn kits(alloc: Global, n: u32, count: usize) -> Result<Vec<RehearsalKit>, AllocError>
    requires some { 1 ≤ n }
    requires most { n ≤ jobs_max }
    ensures count { IfOk result (λ kits. length kits.items ≡ count) }
    ensures fresh { IfOk result (λ kits. All (λ kit. IsFresh (files_of n) kit) kits.items) }
{
    let mut kits = Vec::new(alloc);
    'making: while kits.len() < count {
        kits.push(kit(alloc, n)?)?;
    }
    Ok(kits)
}
