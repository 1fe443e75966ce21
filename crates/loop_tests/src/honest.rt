//! A build over the daemon's own service, of which it is proved what each object is.

ghost use Rattle.std.specs.Prelude.{ℕ, List, ◌≤◌, length, All, IfOk};
ghost use Rattle.farm_types.specs.declared.jobs.JobConfig.{JobConfig};
ghost use Rattle.edge_traits.specs.Keepers.{IsIdle};
ghost use Rattle.edge_memory.specs.Clocks.{clock_state, clock_shows};
ghost use Rattle.edge_memory.specs.Keepers.{keeper_state, keeper_shows};
ghost use Rattle.farm_program.specs.Builds.{JobsDone};
ghost use Rattle.farm_machine.specs.Usable.{job_at};
ghost use Rattle.rehearsal.specs.Loops.{IsLoop, loop_kits, AllCompilers};

use crate::same::{same, same_items};
use edge_memory::MemSource;
use edge_traits::{CallNumbers, Keeper};
use farm_calls::{LoopKit, Page, content_of, one_kit, strings};
use farm_program::{Ended, farm};
use farm_types::Bytes;
use job_driver::run_means;
use rehearsal::{loops_answer_as_the_compiler, loops_are_fully_honest};
use std::alloc::Global;
use std::process::Abort;
use std::sync::Wait;
use std::test::Fail;
use std::thread::Threads;

// A build over such kits. Each object that a job puts is the sample compiler's, of the job's own preprocessed source and words.
fn build_over_loops<W: Threads + Wait + Sync>(
    rt: &W,
    alloc: Global,
    kits: &mut Vec<LoopKit>,
    out: &mut Page,
    err: &mut Page,
) -> Result<Ended, Fail>
    requires one { length kits.old.items ≤ 1 }
    requires some { 1 ≤ length kits.old.items }
    requires loops { All (λ kit. IsLoop kit) kits.old.items }
    requires idle { All (λ kit. IsIdle (keeper_shows (keeper_state kit.keeper))) kits.old.items }
    ensures { IfOk result (λ ended. (config : JobConfig) (jobs : List (List (List ℕ))) (workers : ℕ)
        (done : JobsDone (loop_kits (λ k. keeper_shows (keeper_state k)) (λ c. clock_shows (clock_state c))) config jobs workers ended.built kits.old.items kits.new.items)
        → workers ≤ length kits.old.items
        → AllCompilers done.one.last.limits (job_at jobs config) done.ran.read.worker done.ran.read.acts kits.old.items) }
{
    let words = strings(alloc, &["build", "--hosts", "loop"])?;
    let text = Bytes::from_slice(alloc, b"scc -c j1.c -o j1.o\n")?;
    let mut input = MemSource::new(text, CallNumbers::new(alloc), 4_096);
    loops_answer_as_the_compiler(&kits[0].keeper, &kits[0].clock);
    Ok(farm(rt, alloc, words.as_slice(), &[], &mut input, kits, out, err))
}

// The status of a build over these kits.
fn status_of<W: Threads + Wait + Sync>(
    rt: &W,
    alloc: Global,
    kits: &mut Vec<LoopKit>,
) -> Result<u8, Fail>
    requires one { length kits.old.items ≤ 1 }
    requires some { 1 ≤ length kits.old.items }
    requires loops { All (λ kit. IsLoop kit) kits.old.items }
    requires idle { All (λ kit. IsIdle (keeper_shows (keeper_state kit.keeper))) kits.old.items }
{
    let mut out = Page::new(alloc);
    let mut err = Page::new(alloc);
    let ended = build_over_loops(rt, alloc, kits, &mut out, &mut err)?;
    Ok(ended.status)
}

fn expect_object<R: Abort, K: Keeper>(rt: &R, alloc: Global, keeper: &mut K) -> Result<(), Fail> {
    let Some(object) = content_of(alloc, keeper, b"j1.o")? else {
        return Err("the object stands".into());
    };
    same_items(
        rt,
        object.as_slice(),
        b"SCO1\ndef j1 496 7 * 1 +\n",
        &"j1.o",
    );
    Ok(())
}

fn expect_objects<R: Abort>(rt: &R, alloc: Global, kits: &mut [LoopKit]) -> Result<(), Fail> {
    for kit in kits.iter_mut() {
        expect_object(rt, alloc, &mut kit.keeper)?;
    }
    Ok(())
}

fn tell_what_runs_mean(kits: &[LoopKit]) {
    for kit in kits {
        run_means(&kit.dialer, &kit.station, &kit.keeper, &kit.clock);
        loops_are_fully_honest(&kit.station);
    }
}

fn expect_build<R: Abort + Threads + Wait + Sync>(rt: &R, alloc: Global) -> Result<(), Fail> {
    let mut kits = one_kit(alloc)?;
    tell_what_runs_mean(kits.as_slice());
    let status = status_of(rt, alloc, &mut kits)?;
    same(rt, &status, &0, &"the status");
    expect_objects(rt, alloc, kits.as_mut_slice())
}

#[test]
fn a_build_over_loops_puts_what_the_compiler_leaves(rt: HostRuntime) -> Result<(), Fail> {
    expect_build(&rt, rt.alloc())
}
