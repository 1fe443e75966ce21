// The end of a job by its compile.
ghost use Rattle.std.specs.Prelude.{◌≡◌, ℕ, ◌+◌, ◌≤◌, List, []};
ghost use Rattle.edge_traits.specs.Causes.{HasPutCause, Still};
ghost use Rattle.edge_traits.specs.Told.{Grew};
ghost use Rattle.edge_traits.specs.FileMaps.{IsStaged};
ghost use Rattle.edge_traits.specs.Keepers.{IsIdle};
ghost use Rattle.slot_table.specs.declared.limits.Limits.{Limits};
ghost use Rattle.slot_table.specs.declared.calls.CallEntry.{CallEntry};
ghost use Rattle.farm_machine.specs.declared.reports.End.TheVariants.{Done};
ghost use Rattle.job_run.specs.Stages.{outcome_in, by_of, compiled_at, HasObject, CanDeliver, HasPut};
ghost use Rattle.job_run.specs.Seen.{seen, job_in};
ghost use Rattle.job_run.specs.Went.{HasEnded};

use crate::journal::Journal;
use crate::step::{Compiled, why_not_put};
use crate::task::Task;
use edge_traits::{Clock, Dialer, EdgeFault, Keeper, Kit, Station};
use farm_machine::{By, End};
use farm_types::Bytes;
use kit_types::Observed;
use std::alloc::Global;

fn done(compiled: Compiled, note: Bytes) -> End
    ensures { let o = outcome_in compiled in result ≡ Done o.status note o.err o.out (by_of compiled) }
{
    let (by, outcome) = match compiled {
        Compiled::ByHost { host, outcome } => (By::Remote(host), outcome),
        Compiled::OnThisMachine(outcome) => (By::Here, outcome),
    };
    End::Done {
        status: outcome.status,
        note,
        err: outcome.err,
        out: outcome.out,
        by,
    }
}

/// Puts the object: the put of a host's is pending, and is committed.
fn put_object<K: Keeper>(
    alloc: Global,
    compiled: &Compiled,
    output: &Bytes,
    keeper: &mut K,
) -> Result<(), EdgeFault>
    requires output { ¬ (IsStaged output.now) }
    requires status { (outcome_in compiled.now).status ≡ 0 }
    requires object { CanDeliver compiled.now (K.shows keeper.old) }
    ensures put { (object : List ℕ) → HasObject compiled.now output.now object (K.shows keeper.old) →
        HasPut output.now object (K.shows keeper.old) (K.shows keeper.new) result }
    ensures idle { IsIdle (K.shows keeper.new) }
    ensures fetches { Grew (K.shows keeper.old).fetches (K.shows keeper.new).fetches [] }
    ensures overruns { Still (K.shows keeper.old).overruns (K.shows keeper.new).overruns }
    ensures cause { HasPutCause (K.shows keeper.old).faults (K.shows keeper.new).faults result }
{
    match compiled {
        Compiled::ByHost { .. } => keeper.commit(alloc),
        Compiled::OnThisMachine(outcome) => keeper.put(alloc, output, outcome.object.as_slice()),
    }
}

/// Puts the object of status 0, and ends the job.
pub(crate) fn deliver<D: Dialer, S: Station, K: Keeper, C: Clock>(
    task: &Task<'_>,
    compiled: Compiled,
    note: Bytes,
    kit: &mut Kit<D, S, K, C>,
    journal: &mut Journal,
) -> End
    requires object { CanDeliver compiled (K.shows kit.old.keeper) }
    requires left { 1 ≤ journal.old.left }
    ensures left { journal.old.left ≤ journal.new.left + 1 }
    ensures fell { journal.new.left ≤ journal.old.left }
    ensures idle { IsIdle (K.shows kit.new.keeper) }
    ensures ended { (h : ℕ) (l : Limits h) (caller number : ℕ) (mine : List CallEntry) (object : List ℕ) →
        HasObject compiled task.now.output.now object (K.shows kit.old.keeper) →
        HasEnded (job_in task.now) l caller number
        (seen ⟦<Kit<D, S, K, C> as Observed>⟧.devices kit.old mine journal.old)
        (seen ⟦<Kit<D, S, K, C> as Observed>⟧.devices kit.new mine journal.new)
        (compiled_at compiled note object) result }
{
    if compiled.status() != 0 {
        return done(compiled, note);
    }
    match put_object(task.alloc, &compiled, task.output, &mut kit.keeper) {
        Ok(()) => {
            journal.put();
            done(compiled, note)
        }
        Err(fault) => End::Failed(why_not_put(fault)),
    }
}
