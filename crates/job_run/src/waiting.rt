// Waits for slots. Each refused take is followed by a pause, so that others can give theirs back.
ghost use Rattle.std.specs.Prelude.{◌≡◌, ℕ, List, [], ◌∷◌, ◌++◌, Some, None, IfSome};
ghost use Rattle.edge_traits.specs.Told.{Grew};
ghost use Rattle.slot_table.specs.History.{holding, outstanding};
ghost use Rattle.slot_table.specs.Grants.{local_job_of};
ghost use Rattle.job_run.specs.Waits.{borrowed, asked, answered, held_then, IsEntry, CanWait, HasWaited};

use edge_traits::Clock;
use slot_table::{Grant, Grants, LocalGrant, Mask, Take};
use std::sync::Wait;

/// A local slot for the job.
pub(crate) fn borrow_local<R: Wait, G: Grants, C: Clock>(
    rt: &R,
    number: u32,
    grants: &mut G,
    clock: &mut C,
) -> LocalGrant
    requires free { CanWait G.ready G.alone G.spare G.mine grants.old }
    ensures waited { HasWaited G.ready G.alone G.spare G.follows grants.old grants.new }
    ensures mine { (refused : ℕ) × (G.mine grants.new ≡ G.mine grants.old ++ borrowed (G.caller_number grants.old) number refused) }
    ensures job { local_job_of result ≡ number }
    ensures out { outstanding (G.mine grants.new) ≡ holding (G.caller_number grants.new) number None ∷ [] }
    ensures clock { Grew (C.shows clock.old).moments (C.shows clock.new).moments [] }
{
    for _ in rt.forever() {
        if let Some(grant) = grants.take_local(number) {
            return grant;
        }
        clock.pause();
    }
    unreachable!()
}

/// A slot of a host of the mask for the job, or None if all of them are down.
pub(crate) fn borrow_host<R: Wait, G: Grants, C: Clock>(
    rt: &R,
    number: u32,
    mask: Mask,
    grants: &mut G,
    clock: &mut C,
) -> Option<Grant>
    requires free { CanWait G.ready G.alone G.spare G.mine grants.old }
    ensures waited { HasWaited G.ready G.alone G.spare G.follows grants.old grants.new }
    ensures mine { (refused : List ℕ) × (now : ℕ)
        × (G.mine grants.new ≡ G.mine grants.old ++ asked (G.caller_number grants.old) number mask refused now (answered result))
        × Grew (C.shows clock.old).moments (C.shows clock.new).moments (refused ++ now ∷ []) }
    ensures entry { IfSome result (IsEntry (G.limits grants.old) number mask) }
    ensures out { outstanding (G.mine grants.new) ≡ held_then (G.caller_number grants.new) number result }
{
    for _ in rt.forever() {
        let now = clock.now();
        match grants.take(number, mask, now) {
            Take::Got(grant) => return Some(grant),
            Take::Down => return None,
            Take::Full => clock.pause(),
        }
    }
    unreachable!()
}
