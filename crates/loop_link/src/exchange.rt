//! One exchange over a loop.

ghost use Rattle.std.specs.Prelude.{◌≡◌, ◌⊎◌, true, false, is_some};
ghost use Rattle.farm_types.specs.Fits.{RequestFits};
ghost use Rattle.edge_traits.specs.declared.cause.Cause.{Cause};
ghost use Rattle.edge_traits.specs.declared.entries.Exchange.{Exchange};
ghost use Rattle.edge_traits.specs.Told.{SameRelation};
ghost use Rattle.remote_transfer.specs.declared.answers.Attempt.TheVariants.{Broke};
ghost use Rattle.remote_transfer.specs.Attempts.{AttemptAdds, DialCause};
ghost use Rattle.loop_link.specs.Exchanges.{IsNext};
ghost use Rattle.loop_link.specs.Replies.{StationRose};
ghost use Rattle.loop_link.specs.Dialers.{dialer_state, dialer_shows, station_of, DialerGives};

use crate::LoopDialer;
use crate::once::{Before, Once};
use edge_traits::Station;
use farm_types::{Host, Request};
use remote_transfer::{Attempt, attempt};
use std::alloc::Global;
use std::marker::{Brand, PhantomData};

// The same, for a dialer that is so.
fn attempt_from<S: Station + Drop, B: Before>(
    alloc: Global,
    request: &Request,
    host: &Host,
    dialer: LoopDialer<S>,
) -> (LoopDialer<S>, Attempt)
    requires fits { RequestFits request.now.words request.now.source }
    requires remote { host.now.local ≡ false }
    requires station { B.station ≡ station_of S.shows dialer }
    requires there { B.there ≡ is_some dialer.held }
    requires exchanges { B.exchanges ≡ dialer.exchanges }
    ensures unbroken { (c : Cause) → result.1 ≡ Broke c → ((dialer_state dialer).there ≡ false) ⊎ StationRose (station_of S.shows dialer) (station_of S.shows result.0) }
    ensures adds { AttemptAdds (DialerGives S.ran result.0) request.now host.now result.1 (dialer_shows (dialer_state dialer)).exchanges (dialer_shows (dialer_state result.0)).exchanges }
    ensures may_give { SameRelation (DialerGives S.ran dialer) (DialerGives S.ran result.0) }
    ensures cause { DialCause result.1 (dialer_state dialer).faults (dialer_state result.0).faults }
    ensures back { (x : Exchange) → IsNext (dialer_state dialer).exchanges (dialer_state result.0).exchanges x → x.dialed ≡ true → (dialer_state result.0).there ≡ true }
{
    let mut once = Once::<S, B> {
        dialer,
        dialed: false,
        before: PhantomData,
    };
    let answer = attempt(alloc, request, host, &mut once);
    let Once {
        dialer,
        dialed: _,
        before: _,
    } = once;
    (dialer, answer)
}

/// Makes one exchange with the service of a loop, as `attempt` does, and hands the dialer back.
///
/// It isn't broken, unless the station was away before it, or the station's faults or overruns rose.
pub fn attempt_over_loop<S: Station + Drop>(
    alloc: Global,
    request: &Request,
    host: &Host,
    dialer: LoopDialer<S>,
) -> (LoopDialer<S>, Attempt)
    requires fits { RequestFits request.now.words request.now.source }
    requires remote { host.now.local ≡ false }
    ensures unbroken { (c : Cause) → result.1 ≡ Broke c → ((dialer_state dialer).there ≡ false) ⊎ StationRose (station_of S.shows dialer) (station_of S.shows result.0) }
    ensures adds { AttemptAdds (DialerGives S.ran result.0) request.now host.now result.1 (dialer_shows (dialer_state dialer)).exchanges (dialer_shows (dialer_state result.0)).exchanges }
    ensures may_give { SameRelation (DialerGives S.ran dialer) (DialerGives S.ran result.0) }

    // Its count rises if the dial failed, and only then.
    ensures cause { DialCause result.1 (dialer_state dialer).faults (dialer_state result.0).faults }
    // The station is there again after an exchange that was dialed.
    ensures back { (x : Exchange) → IsNext (dialer_state dialer).exchanges (dialer_state result.0).exchanges x → x.dialed ≡ true → (dialer_state result.0).there ≡ true }
{
    attempt_from::<S, Brand>(alloc, request, host, dialer)
}
