//! Devices of a kit, as the tests begin with them, and kits of a loop.

ghost use Rattle.std.specs.Prelude.{◌≤◌, length, All, IfOk};
ghost use Rattle.farm_types.specs.Limits.{workers_max};
ghost use Rattle.edge_traits.specs.Keepers.{IsIdle};
ghost use Rattle.edge_memory.specs.Keepers.{keeper_state, keeper_shows};
ghost use Rattle.rehearsal.specs.Loops.{IsLoop};

use edge_memory::{MemClock, MemKeeper, Moments};
use edge_traits::{CallNumbers, FileList, Kit};
use loop_link::LoopDialer;
use rehearsal::compiler_table;
use sample_compiler::SampleStation;
use std::alloc::{AllocError, Global};
use workload::make;

/// A keeper without files.
pub fn empty_keeper(alloc: Global) -> MemKeeper
    ensures { IsIdle (keeper_shows (keeper_state result)) }
{
    MemKeeper::new(FileList::new(alloc), CallNumbers::new(alloc))
}

/// A clock that stays at 0.
pub fn standing_clock(alloc: Global) -> MemClock {
    MemClock::new(Moments::new(alloc))
}

/// That many, but 1 at least and 16 at most.
pub fn kit_count(asked: usize) -> usize
    ensures some { 1 ≤ result }
    ensures most { result ≤ workers_max }
{
    if asked == 0 {
        1
    } else if asked > 16 {
        16
    } else {
        asked
    }
}

/// A kit of a loop: the peer of its dialer is the service over the sample compiler, and its station is the sample compiler.
pub type LoopKit = Kit<LoopDialer<SampleStation>, SampleStation, MemKeeper, MemClock>;

/// A kit whose loop and station run the compiler over the files of one job of the workload.
pub fn loop_kit(alloc: Global) -> Result<LoopKit, AllocError>
    ensures loops { IfOk result (λ kit. IsLoop kit) }
    ensures idle { IfOk result (λ kit. IsIdle (keeper_shows (keeper_state kit.keeper))) }
{
    let there = SampleStation::new(make(alloc, 1)?.files);
    let here = SampleStation::new(make(alloc, 1)?.files);
    Ok(Kit {
        dialer: LoopDialer::new(there, compiler_table(alloc)?),
        station: here,
        keeper: empty_keeper(alloc),
        clock: standing_clock(alloc),
    })
}

/// A list of one such kit.
pub fn one_kit(alloc: Global) -> Result<Vec<LoopKit>, AllocError>
    ensures one { IfOk result (λ kits. length kits.items ≤ 1) }
    ensures some { IfOk result (λ kits. 1 ≤ length kits.items) }
    ensures loops { IfOk result (λ kits. All (λ kit. IsLoop kit) kits.items) }
    ensures idle { IfOk result (λ kits. All (λ kit. IsIdle (keeper_shows (keeper_state kit.keeper))) kits.items) }
{
    let mut kits = Vec::new(alloc);
    kits.push(loop_kit(alloc)?)?;
    Ok(kits)
}
