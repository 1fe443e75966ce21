// Slots that are given back, each noted.
ghost use Rattle.std.specs.Prelude.{◌≡◌, ℕ, false, List, [], ◌∷◌, ◌++◌, Some, None};
ghost use Rattle.slot_table.specs.declared.calls.SlotCall.TheVariants.{Give, GiveLocal};
ghost use Rattle.slot_table.specs.declared.calls.SlotReply.TheVariants.{Given};
ghost use Rattle.slot_table.specs.History.{entry, holding};
ghost use Rattle.slot_table.specs.Grants.{host_of, job_of, local_job_of};
ghost use Rattle.slot_table.specs.Limits.{is_local};
ghost use Rattle.farm_machine.specs.declared.reports.Event.TheVariants.{Gave, GaveLocal};
ghost use Rattle.job_run.specs.Gives.{GaveBroken};
ghost use Rattle.job_run.specs.Seen.{IsHolding, StaysFree};

use crate::journal::Journal;
use edge_traits::Clock;
use farm_machine::Event;
use slot_table::host_backoff::bad_until;
use slot_table::{Grant, Grants, LocalGrant};

/// Gives back the slot of a host, and notes it.
pub(crate) fn give_back<G: Grants>(grant: Grant, grants: &mut G, journal: &mut Journal)
    requires lent { IsHolding G.ready G.alone G.spare G.mine
        (holding (G.caller_number grants.old) (job_of grant) (Some (host_of grant)) ∷ []) grants.old journal.old.left 1 }
    ensures free { StaysFree G.ready G.alone G.spare G.mine grants.old grants.new journal.old.left journal.new.left 1 }
    ensures follows { G.follows grants.old grants.new }
    ensures called { G.mine grants.new ≡
        G.mine grants.old ++ entry (G.caller_number grants.old) (Give (host_of grant) (job_of grant)) Given ∷ [] }
    ensures noted { journal.new.events.items ≡ journal.old.events.items ++ Gave (host_of grant) ∷ [] }
    ensures places { journal.new.places ≡ journal.old.places }
{
    let host = grant.host();
    grants.give(grant);
    journal.note(Event::Gave(host));
}

/// Gives back a local slot, and notes it.
pub(crate) fn give_back_local<G: Grants>(grant: LocalGrant, grants: &mut G, journal: &mut Journal)
    requires lent { IsHolding G.ready G.alone G.spare G.mine
        (holding (G.caller_number grants.old) (local_job_of grant) None ∷ []) grants.old journal.old.left 1 }
    ensures free { StaysFree G.ready G.alone G.spare G.mine grants.old grants.new journal.old.left journal.new.left 1 }
    ensures follows { G.follows grants.old grants.new }
    ensures called { G.mine grants.new ≡ G.mine grants.old ++ entry (G.caller_number grants.old) (GiveLocal (local_job_of grant)) Given ∷ [] }
    ensures noted { journal.new.events.items ≡ journal.old.events.items ++ GaveLocal ∷ [] }
    ensures places { journal.new.places ≡ journal.old.places }
{
    grants.give_local(grant);
    journal.note(Event::GaveLocal);
}

/// Gives back the slot of a host whose exchange broke. If there is a period, the host is not used for that long.
pub(crate) fn give_broken<G: Grants, C: Clock>(
    grant: Grant,
    period: u32,
    grants: &mut G,
    clock: &mut C,
    journal: &mut Journal,
)
    requires remote { is_local (G.limits grants.old) (host_of grant) ≡ false }
    requires lent { IsHolding G.ready G.alone G.spare G.mine
        (holding (G.caller_number grants.old) (job_of grant) (Some (host_of grant)) ∷ []) grants.old journal.old.left 1 }
    ensures free { StaysFree G.ready G.alone G.spare G.mine grants.old grants.new journal.old.left journal.new.left 1 }
    ensures follows { G.follows grants.old grants.new }
    ensures places { journal.new.places ≡ journal.old.places }
    ensures gave { GaveBroken period (G.caller_number grants.old) (job_of grant) (host_of grant) (G.mine grants.old) (G.mine grants.new)
        journal.old.events.items journal.new.events.items (C.shows clock.old).moments (C.shows clock.new).moments }
{
    if period == 0 {
        give_back(grant, grants, journal);
        return;
    }
    let host = grant.host();
    let until = bad_until(clock.now(), period);
    grants.give_bad(grant, until);
    journal.note(Event::GaveBad { host, until });
}
