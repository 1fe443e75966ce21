// The compile elsewhere, of a request within its limits: which hosts are asked, and what follows from their answers.
ghost use Rattle.std.specs.Prelude.{◌≡◌, ℕ, List, []};
ghost use Rattle.arg_strip.specs.Words.{stripped};
ghost use Rattle.edge_traits.specs.Keepers.{IsIdle};
ghost use Rattle.farm_machine.specs.Course.{Tried, Send};
ghost use Rattle.farm_machine.specs.Jobs.{AreLimitsOf};
ghost use Rattle.job_run.specs.Events.{try_events, tries_events};
ghost use Rattle.job_run.specs.Seen.{seen, job_in, IsSent, IsFree, StaysFree};
ghost use Rattle.job_run.specs.Stages.{HasUntried, AskedIs, AskedIdle, StepIs, StepIdle, SentIs};

use crate::exchanging::exchange;
use crate::journal::Journal;
use crate::lent::compile_lent;
use crate::step::{Asked, Step, here_or};
use crate::task::Task;
use crate::waiting::borrow_host;
use edge_traits::{Clock, Dialer, Keeper, Kit, Station};
use farm_machine::{Event, Why5};
use farm_types::Request;
use kit_types::Observed;
use slot_table::{Grants, Mask};
use std::sync::Wait;

/// A task, and the request that is sent for it.
#[derive(Drop)]
pub(crate) struct Sending<'a> {
    pub(crate) task: &'a Task<'a>,
    pub(crate) request: &'a Request,
    pub(crate) ghost sent: { IsSent task.now request.now },
}

/// Asks one host of the mask.
fn ask_one<R: Wait, D: Dialer, S: Station, K: Keeper, C: Clock, G: Grants>(
    rt: &R,
    sending: &Sending<'_>,
    mask: Mask,
    grants: &mut G,
    kit: &mut Kit<D, S, K, C>,
    journal: &mut Journal,
) -> Asked
    requires hosts { AreLimitsOf (G.limits grants.old) sending.now.task.now.config.now.hosts }
    requires idle { IsIdle (K.shows kit.old.keeper) }
    requires free { IsFree G.ready G.alone G.spare G.mine grants.old journal.old.left try_events }
    ensures free { StaysFree G.ready G.alone G.spare G.mine grants.old grants.new journal.old.left journal.new.left try_events }
    ensures follows { G.follows grants.old grants.new }
    ensures idle { AskedIdle result (K.shows kit.new.keeper) }
    ensures asked { (note : List ℕ) (tried : List Tried) → HasUntried (G.limits grants.old) mask tried →
        AskedIs (job_in sending.now.task.now) (G.limits grants.old) (G.caller_number grants.old) sending.now.task.now.number
        (seen ⟦<Kit<D, S, K, C> as Observed>⟧.devices kit.old (G.mine grants.old) journal.old)
        (seen ⟦<Kit<D, S, K, C> as Observed>⟧.devices kit.new (G.mine grants.new) journal.new)
        (Send sending.now.request.now.source note tried) sending.now.request.now.source note tried result }
{
    let Some(grant) = borrow_host(rt, sending.task.number, mask, grants, &mut kit.clock) else {
        journal.note(Event::Down);
        return Asked::Down;
    };
    let at = grant.host();
    journal.note(Event::Took(at));
    let host = &sending.task.config.hosts.list.as_slice()[at as usize];
    if host.local {
        let step = compile_lent(
            sending.task,
            &sending.request.source,
            grant,
            grants,
            kit,
            journal,
        );
        return Asked::Over(step);
    }
    exchange(sending, host, grant, grants, kit, journal)
}

/// Asks hosts, each at most once, until one answers, all that are left are down, or there are no tries left.
fn ask_hosts<R: Wait, D: Dialer, S: Station, K: Keeper, C: Clock, G: Grants>(
    rt: &R,
    sending: &Sending<'_>,
    grants: &mut G,
    kit: &mut Kit<D, S, K, C>,
    journal: &mut Journal,
) -> Step
    requires hosts { AreLimitsOf (G.limits grants.old) sending.now.task.now.config.now.hosts }
    requires idle { IsIdle (K.shows kit.old.keeper) }
    requires free { IsFree G.ready G.alone G.spare G.mine grants.old journal.old.left tries_events }
    ensures free { StaysFree G.ready G.alone G.spare G.mine grants.old grants.new journal.old.left journal.new.left tries_events }
    ensures follows { G.follows grants.old grants.new }
    ensures idle { StepIdle result (K.shows kit.new.keeper) }
    ensures asked { (note : List ℕ) →
        StepIs (job_in sending.now.task.now) (G.limits grants.old) (G.caller_number grants.old) sending.now.task.now.number
        (seen ⟦<Kit<D, S, K, C> as Observed>⟧.devices kit.old (G.mine grants.old) journal.old)
        (seen ⟦<Kit<D, S, K, C> as Observed>⟧.devices kit.new (G.mine grants.new) journal.new)
        (Send sending.now.request.now.source note []) sending.now.request.now.source note result }
{
    let config = sending.task.config;
    let mut mask = Mask::all(config.hosts.list.len() as u32);
    let mut last = Why5::NoHost;
    for made in 0..config.tries {
        match ask_one(rt, sending, mask, grants, kit, journal) {
            Asked::Down => return here_or(config.fallback, last),
            Asked::Over(step) => return step,
            Asked::Broke { host, cause } => {
                mask = mask.without(host);
                last = Why5::Broke { host, cause };
            }
        }
    }
    here_or(config.fallback, last)
}

/// Asks hosts, if the request is within its limits. Any other is for here.
pub(crate) fn ask_if_fits<R: Wait, D: Dialer, S: Station, K: Keeper, C: Clock, G: Grants>(
    rt: &R,
    task: &Task<'_>,
    request: &Request,
    grants: &mut G,
    kit: &mut Kit<D, S, K, C>,
    journal: &mut Journal,
) -> Step
    requires words { request.now.words ≡ stripped task.now.words.now }
    requires hosts { AreLimitsOf (G.limits grants.old) task.now.config.now.hosts }
    requires idle { IsIdle (K.shows kit.old.keeper) }
    requires free { IsFree G.ready G.alone G.spare G.mine grants.old journal.old.left tries_events }
    ensures free { StaysFree G.ready G.alone G.spare G.mine grants.old grants.new journal.old.left journal.new.left tries_events }
    ensures follows { G.follows grants.old grants.new }
    ensures idle { StepIdle result (K.shows kit.new.keeper) }
    ensures asked { (note : List ℕ) →
        SentIs (job_in task.now) (G.limits grants.old) (G.caller_number grants.old) task.now.number
        (seen ⟦<Kit<D, S, K, C> as Observed>⟧.devices kit.old (G.mine grants.old) journal.old)
        (seen ⟦<Kit<D, S, K, C> as Observed>⟧.devices kit.new (G.mine grants.new) journal.new)
        request.now.source note result }
{
    if !request.fits() {
        return Step::Here;
    }
    let sending = Sending { task, request };
    ask_hosts(rt, &sending, grants, kit, journal)
}
