//! One worker.
ghost use Rattle.std.specs.Prelude.{length};
ghost use Rattle.edge_traits.specs.Kits.{kit_view};
ghost use Rattle.edge_traits.specs.Told.{SameRelation, SameRelation3};
ghost use Rattle.farm_machine.specs.Usable.{job_at};
ghost use Rattle.job_driver.specs.Workers.{AreSlotsFor, CanWork, HasFinished};
ghost use Rattle.job_driver.specs.Marks.{HasMarked};
ghost use Rattle.job_driver.specs.Works.{WorkedOff};

use crate::marks::Marks;
use crate::run::JobPlan;
use crate::workers::Reserve;
use edge_traits::{Clock, Dialer, Keeper, Kit, Station};
use farm_machine::Places;
use job_run::run_job;
use slot_table::Grants;
use std::sync::Wait;

/// No entry was counted yet.
const FIRST: Places = Places {
    runs: 0,
    fetches: 0,
    exchanges: 0,
    puts: 0,
};

/// Draws jobs until there are none, and does each. The reserve has room for the events and the report of each job that it may draw, so it
/// takes no memory but that of the jobs themselves, and that of what is marked.
pub fn work<R: Wait, D: Dialer, S: Station, K: Keeper, C: Clock, G: Grants, M: Marks>(
    rt: &R,
    plan: JobPlan<'_>,
    grants: &mut G,
    kit: &mut Kit<D, S, K, C>,
    reserve: &mut Reserve,
    marks: &mut M,
)
    requires slots { AreSlotsFor plan.jobs.now plan.config.now (G.limits grants.old) }
    requires begins { CanWork G.ready G.alone G.spare G.mine (length plan.jobs.now) grants.old reserve.old (K.shows kit.old.keeper) }
    ensures worked { WorkedOff (D.may_give kit.old.dialer) (S.ran kit.old.station) (job_at plan.entry.jobs.now plan.entry.config.now)
        plan.entry.config.now.period (G.limits grants.old) (G.caller_number grants.old) reserve.new.reports.items (G.mine grants.new)
        (kit_view D.shows S.shows K.shows C.shows kit.old)
        (kit_view D.shows S.shows K.shows C.shows kit.new) }
    ensures finished { HasFinished G.ready G.mine G.follows grants.old grants.new (K.shows kit.new.keeper) }
    ensures marked { HasMarked M.board M.all M.rows marks.old marks.new reserve.new.reports.items }

    // What peers may give and programs leave stays the same.
    ensures peers { SameRelation (D.may_give kit.old.dialer) (D.may_give kit.new.dialer) }
    ensures programs { SameRelation3 (S.ran kit.old.station) (S.ran kit.new.station) }
{
    let mut places = FIRST;
    'working: for _ in rt.forever() {
        let Some(job) = grants.draw() else {
            return;
        };
        marks.begin(rt, job);
        let Some(room) = reserve.rooms.pop() else {
            unreachable!()
        };
        let words = &plan.jobs.as_slice()[job as usize];
        let report = run_job(
            rt,
            plan.alloc,
            words,
            job,
            plan.config,
            grants,
            kit,
            &mut places,
            room,
        );
        reserve.reports.push_reserved(report);
        marks.end(rt);
    }
    unreachable!()
}
