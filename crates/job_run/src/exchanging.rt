// One exchange with a host, in a slot of it.
ghost use Rattle.std.specs.Prelude.{◌≡◌, ℕ, List, [], ◌∷◌, Some};
ghost use Rattle.edge_traits.specs.Keepers.{IsIdle};
ghost use Rattle.slot_table.specs.History.{holding};
ghost use Rattle.slot_table.specs.Grants.{host_of, job_of};
ghost use Rattle.farm_machine.specs.Course.{Tried, Lent};
ghost use Rattle.job_run.specs.Events.{lent_events};
ghost use Rattle.job_run.specs.Seen.{seen, job_in, IsElsewhere, IsHolding, StaysFree};
ghost use Rattle.job_run.specs.Stages.{AskedIs, AskedIdle};

use crate::giving::{give_back, give_broken};
use crate::journal::Journal;
use crate::sending::Sending;
use crate::step::{Asked, Step, after_whole};
use edge_traits::{Clock, Dialer, Keeper, Kit, Station};
use farm_machine::Why5;
use farm_types::Host;
use kit_types::Observed;
use remote_transfer::{Landed, attempt_into};
use slot_table::{Grant, Grants};

/// Makes one exchange with the host that the slot is of, with the object into a put of the output's name, and gives the slot back.
pub(crate) fn exchange<D: Dialer, S: Station, K: Keeper, C: Clock, G: Grants>(
    sending: &Sending<'_>,
    host: &Host,
    grant: Grant,
    grants: &mut G,
    kit: &mut Kit<D, S, K, C>,
    journal: &mut Journal,
) -> Asked
    requires elsewhere { IsElsewhere (job_in sending.now.task.now) (G.limits grants.old) host.now grant }
    requires idle { IsIdle (K.shows kit.old.keeper) }
    requires lent { IsHolding G.ready G.alone G.spare G.mine
        (holding (G.caller_number grants.old) (job_of grant) (Some (host_of grant)) ∷ []) grants.old journal.old.left lent_events }
    ensures free { StaysFree G.ready G.alone G.spare G.mine grants.old grants.new journal.old.left journal.new.left lent_events }
    ensures follows { G.follows grants.old grants.new }
    ensures idle { AskedIdle result (K.shows kit.new.keeper) }
    ensures asked { (note : List ℕ) (tried : List Tried) →
        AskedIs (job_in sending.now.task.now) (G.limits grants.old) (G.caller_number grants.old) (job_of grant)
        (seen ⟦<Kit<D, S, K, C> as Observed>⟧.devices kit.old (G.mine grants.old) journal.old)
        (seen ⟦<Kit<D, S, K, C> as Observed>⟧.devices kit.new (G.mine grants.new) journal.new)
        (Lent (host_of grant) sending.now.request.now.source note tried) sending.now.request.now.source note tried result }
{
    let Sending { task, request, .. } = *sending;
    let at = grant.host();
    match attempt_into(
        task.alloc,
        request,
        host,
        task.output,
        &mut kit.dialer,
        &mut kit.keeper,
    ) {
        Landed::Whole { outcome, landing } => {
            journal.exchanged();
            give_back(grant, grants, journal);
            Asked::Over(after_whole(task.config, at, outcome, landing))
        }
        Landed::Broke(cause) => {
            journal.exchanged();
            give_broken(grant, task.config.period, grants, &mut kit.clock, journal);
            Asked::Broke { host: at, cause }
        }
        Landed::Memory { dialed: true } => {
            journal.exchanged();
            give_back(grant, grants, journal);
            Asked::Over(Step::Failed(Why5::Memory))
        }
        Landed::Memory { dialed: false } => {
            give_back(grant, grants, journal);
            Asked::Over(Step::Failed(Why5::Memory))
        }
    }
}
