// The compile in a slot of an entry that is this machine.
ghost use Rattle.std.specs.Prelude.{◌≡◌, ℕ, true, List, [], ◌∷◌, Some};
ghost use Rattle.edge_traits.specs.Keepers.{IsIdle};
ghost use Rattle.slot_table.specs.History.{holding};
ghost use Rattle.slot_table.specs.Grants.{host_of, job_of};
ghost use Rattle.farm_machine.specs.Course.{Tried, Lent};
ghost use Rattle.farm_machine.specs.Jobs.{is_local_host};
ghost use Rattle.job_run.specs.Events.{lent_events};
ghost use Rattle.job_run.specs.Seen.{seen, job_in, IsHolding, StaysFree};
ghost use Rattle.job_run.specs.Stages.{StepIs};

use crate::giving::give_back;
use crate::journal::Journal;
use crate::step::{Compiled, Step, outcome_of, why_not_run};
use crate::task::Task;
use child_runner::compile;
use edge_traits::{Clock, Dialer, Keeper, Kit, Station};
use farm_types::Bytes;
use kit_types::Observed;
use slot_table::{Grant, Grants};

/// Compiles here, in a slot of an entry that is this machine.
pub(crate) fn compile_lent<D: Dialer, S: Station, K: Keeper, C: Clock, G: Grants>(
    task: &Task<'_>,
    source: &Bytes,
    grant: Grant,
    grants: &mut G,
    kit: &mut Kit<D, S, K, C>,
    journal: &mut Journal,
) -> Step
    requires here { is_local_host (job_in task.now) (host_of grant) ≡ true }
    requires idle { IsIdle (K.shows kit.old.keeper) }
    requires lent { IsHolding G.ready G.alone G.spare G.mine
        (holding (G.caller_number grants.old) (job_of grant) (Some (host_of grant)) ∷ []) grants.old journal.old.left lent_events }
    ensures free { StaysFree G.ready G.alone G.spare G.mine grants.old grants.new journal.old.left journal.new.left lent_events }
    ensures follows { G.follows grants.old grants.new }
    ensures idle { IsIdle (K.shows kit.new.keeper) }
    ensures compiled { (note : List ℕ) (tried : List Tried) →
        StepIs (job_in task.now) (G.limits grants.old) (G.caller_number grants.old) (job_of grant)
        (seen ⟦<Kit<D, S, K, C> as Observed>⟧.devices kit.old (G.mine grants.old) journal.old)
        (seen ⟦<Kit<D, S, K, C> as Observed>⟧.devices kit.new (G.mine grants.new) journal.new)
        (Lent (host_of grant) source.now note tried) source.now note result }
{
    match compile(task.alloc, task.words, source, &mut kit.station) {
        Ok(ran) => {
            journal.ran();
            give_back(grant, grants, journal);
            Step::Compiled(Compiled::OnThisMachine(outcome_of(ran)))
        }
        Err(fault) => {
            give_back(grant, grants, journal);
            Step::Failed(why_not_run(fault))
        }
    }
}
