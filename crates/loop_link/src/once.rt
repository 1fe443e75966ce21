//! A loop that makes one exchange: at most one dial, and a link that takes nothing more after its first receive.

ghost use Rattle.std.specs.Prelude.{◌≡◌, ◌≤◌, true, false, is_some};
ghost use Rattle.edge_traits.specs.declared.entries.Exchange.{Exchange};
ghost use Rattle.edge_traits.specs.Stations.{StationView};
ghost use Rattle.loop_link.specs.Dialers.{station_of};
ghost use Rattle.loop_link.specs.Exchanges.{station_rose, IsUnanswered, IsNext};

use crate::{LoopDialer, LoopLink};
use edge_traits::{Dialer, EdgeFault, Station};
use farm_types::HostName;
use std::alloc::Global;
use std::marker::{Brand, PhantomData};

/// How a loop's dialer was before an exchange, for clauses only.
pub(crate) trait Before {
    ghost use Rattle.std.specs.Prelude.{Bool, List};

    ghost station: { StationView };

    ghost there: { Bool };

    ghost exchanges: { List Exchange };
}

impl Before for Brand {
    ghost use Rattle.std.specs.Prelude.{[]};
    ghost use Rattle.edge_traits.specs.Told.{told};

    ghost station = { record { runs = told []; faults = 0; overruns = 0 } };

    ghost there = { true };

    ghost exchanges = { [] };
}

/// A loop's dialer that was so before, and makes one exchange.
pub(crate) struct Once<S: Station, B: Before> {
    pub(crate) dialer: LoopDialer<S>,
    pub(crate) dialed: bool,
    pub(crate) before: PhantomData<B>,
    ghost faults: { B.station.faults ≤ (station_of S.shows dialer).faults },
    ghost overruns: { B.station.overruns ≤ (station_of S.shows dialer).overruns },
    ghost there: { dialed ≡ false → is_some dialer.held ≡ B.there },
    ghost unused: { dialed ≡ false → dialer.exchanges ≡ B.exchanges },
    ghost faultless: { (x : Exchange) → IsNext B.exchanges dialer.exchanges x → x.faults ≡ 0 },
    ghost unstopped: { (x : Exchange) → IsNext B.exchanges dialer.exchanges x → x.stopped ≡ false },
    ghost away: { (x : Exchange) → IsNext B.exchanges dialer.exchanges x → x.dialed ≡ false → B.there ≡ false },
    ghost back: { (x : Exchange) → IsNext B.exchanges dialer.exchanges x → x.dialed ≡ true → is_some dialer.held ≡ true },
    ghost rose: { (x : Exchange) → IsNext B.exchanges dialer.exchanges x → IsUnanswered x → station_rose B.station (station_of S.shows dialer) ≡ true },
}

impl<S: Station + Drop, B: Before> Dialer for Once<S, B> {
    type Link = LoopLink<S>;

    ghost use Rattle.loop_link.specs.Links.{LinkHolds};
    ghost use Rattle.loop_link.specs.Dialers.{dialer_state, dialer_shows, DialerGives};
    ghost use Rattle.loop_link.specs.Onces.{ComesOnce, comes_stays};

    ghost shows = { λ d. dialer_shows (dialer_state d.dialer) };

    ghost came = { λ d l. ComesOnce S.shows S.ran B.station d.dialed l };

    ghost may_give = { λ d. DialerGives S.ran d.dialer };

    ghost came_stays = { λ d a b came f. comes_stays S.shows S.ran B.station d.dialed a b came f };

    fn dial(
        &mut self,
        alloc: Global,
        host: &HostName,
        port: u16,
    ) -> Result<LoopLink<S>, EdgeFault> {
        if self.dialed {
            return Err(EdgeFault::Memory);
        }
        self.dialed = true;
        let mut link = self.dialer.dial(alloc, host, port)?;
        link.closes = true;
        Ok(link)
    }

    fn hang_up(&mut self, link: LoopLink<S>) {
        self.dialer.hang_up(link);
    }
}
