// The compile here in place of a host's, in a local slot.
ghost use Rattle.std.specs.Prelude.{ℕ, List};
ghost use Rattle.edge_traits.specs.Keepers.{IsIdle};
ghost use Rattle.farm_machine.specs.Course.{At};
ghost use Rattle.job_run.specs.Events.{local_events};
ghost use Rattle.job_run.specs.Seen.{seen, job_in, IsFree, StaysFree};
ghost use Rattle.job_run.specs.Stages.{IsForHere, LocalIs};

use crate::giving::give_back_local;
use crate::journal::Journal;
use crate::step::{outcome_of, why_not_run};
use crate::task::Task;
use crate::waiting::borrow_local;
use child_runner::compile;
use edge_traits::{Clock, Dialer, Keeper, Kit, Station};
use farm_machine::{Event, Why5};
use farm_types::{Bytes, Outcome};
use kit_types::Observed;
use slot_table::Grants;
use std::sync::Wait;

/// Compiles here, in a local slot.
pub(crate) fn compile_here<R: Wait, D: Dialer, S: Station, K: Keeper, C: Clock, G: Grants>(
    rt: &R,
    task: &Task<'_>,
    source: &Bytes,
    grants: &mut G,
    kit: &mut Kit<D, S, K, C>,
    journal: &mut Journal,
) -> Result<Outcome, Why5>
    requires idle { IsIdle (K.shows kit.old.keeper) }
    requires free { IsFree G.ready G.alone G.spare G.mine grants.old journal.old.left local_events }
    ensures free { StaysFree G.ready G.alone G.spare G.mine grants.old grants.new journal.old.left journal.new.left local_events }
    ensures follows { G.follows grants.old grants.new }
    ensures idle { IsIdle (K.shows kit.new.keeper) }
    ensures compiled { (note : List ℕ) (at : At) → IsForHere (job_in task.now) source.now note at →
        LocalIs (job_in task.now) (G.limits grants.old) (G.caller_number grants.old) task.now.number
        (seen ⟦<Kit<D, S, K, C> as Observed>⟧.devices kit.old (G.mine grants.old) journal.old)
        (seen ⟦<Kit<D, S, K, C> as Observed>⟧.devices kit.new (G.mine grants.new) journal.new)
        at note result }
{
    let grant = borrow_local(rt, task.number, grants, &mut kit.clock);
    journal.note(Event::TookLocal);
    match compile(task.alloc, task.words, source, &mut kit.station) {
        Ok(ran) => {
            journal.ran();
            give_back_local(grant, grants, journal);
            Ok(outcome_of(ran))
        }
        Err(fault) => {
            give_back_local(grant, grants, journal);
            Err(why_not_run(fault))
        }
    }
}
