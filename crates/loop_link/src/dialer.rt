//! The dialer of a loop.

ghost use Rattle.std.specs.Prelude.{◌≡◌};
ghost use Rattle.edge_traits.specs.Dialers.{undialed};

use crate::LoopLink;
use crate::link::Held;
use daemon_service::Compilers;
use edge_traits::{Dialer, EdgeFault, Exchange, Station};
use farm_types::{Bytes, HostName, Room, Trail};
use std::alloc::Global;
use std::snapshot::Snapshot;

/// A dialer whose peer is the service over the station that it holds.
#[derive(Drop)]
pub struct LoopDialer<S> {
    pub(crate) held: Option<Held<S>>,
    // what was held when it last went into a link, or was first held, for clauses only
    pub(crate) last: Snapshot<Held<S>>,
    pub(crate) faults: u64,
    pub(crate) exchanges: Trail<Exchange>,
}

impl<S: Station + Drop> LoopDialer<S> {
    ghost use Rattle.std.specs.Prelude.{◌≡◌, [], true};
    ghost use Rattle.farm_machine.specs.Honest.{IsHonest};
    ghost use Rattle.loop_link.specs.Replies.{AreOwnNames, IsFullyHonestFor};
    ghost use Rattle.loop_link.specs.Dialers.{dialer_state, held_of};

    /// A dialer that holds this station. Each row's program is its name.
    pub fn new(station: S, table: Compilers) -> LoopDialer<S>
        requires { AreOwnNames table.rows }
        ensures state { dialer_state result ≡ record { there = true; faults = 0; exchanges = [] } }
        ensures held { held_of result ≡ record { station = station; table = table } }
        ensures honest { IsHonest (⟦<LoopDialer<S> as Dialer>⟧.may_give result) (S.ran station) }
        ensures fully_honest { IsFullyHonestFor table.rows (⟦<LoopDialer<S> as Dialer>⟧.may_give result) (S.ran station) }
    {
        let held = Held { station, table };
        LoopDialer {
            last: Snapshot::of(&held),
            held: Some(held),
            faults: 0,
            exchanges: Trail::new(),
        }
    }

    /// The exchanges so far, in order. It takes no memory.
    pub fn into_exchanges(self) -> Trail<Exchange>
        ensures { result ≡ (dialer_state self).exchanges }
    {
        self.exchanges
    }
}

/// The entry of a dial that failed.
fn undialed(alloc: Global, host: HostName, port: u16) -> Exchange
    ensures { result ≡ undialed host port }
{
    Exchange {
        host,
        port,
        dialed: false,
        sent: Bytes::new(alloc),
        given: Bytes::new(alloc),
        ended: false,
        stopped: false,
        faults: 0,
    }
}

impl<S: Station + Drop> Dialer for LoopDialer<S> {
    type Link = LoopLink<S>;

    ghost use Rattle.std.specs.Prelude.{◌≡◌, true, take, IfOk, OnErr};
    ghost use Rattle.edge_traits.specs.Told.{SameRelation};
    ghost use Rattle.edge_traits.specs.Dialers.{IsToldOf};
    ghost use Rattle.edge_traits.specs.Causes.{HasCause};
    ghost use Rattle.loop_link.specs.Replies.{Gives, Serves};
    ghost use Rattle.loop_link.specs.Links.{loop_state, loop_shows, new_loop, LinkHolds};
    ghost use Rattle.loop_link.specs.Dialers.{dialer_state, dialer_shows, IsDialAnswer, after_dial, after_hang_up, held_of, DialerGives, station_of};

    ghost shows = { λ d. dialer_shows (dialer_state d) };

    ghost came = { λ d l. LinkHolds S.shows S.ran l };

    ghost may_give = { λ d. DialerGives S.ran d };

    ghost came_stays = { λ d a b came f. f.holds came };

    fn dial(&mut self, alloc: Global, host: &HostName, port: u16) -> Result<LoopLink<S>, EdgeFault>
        ensures answer { IsDialAnswer (dialer_state self.old) result }
        ensures state { dialer_state self.new ≡ after_dial (dialer_state self.old) host.now port result }
        ensures held { held_of self.new ≡ held_of self.old }
        ensures link { IfOk result (λ link. loop_state link ≡ new_loop host.now port) }
        ensures station { IfOk result (λ link. link.held ≡ held_of self.old) }
        ensures dialed { IfOk result (λ link. link.dialed.value ≡ (held_of self.old).station) }
        ensures came { IfOk result (λ link. LinkHolds S.shows S.ran link) }
        ensures lent { IfOk result (λ link. SameRelation (DialerGives S.ran self.old) (Gives link.held.table.rows (S.ran link.held.station))) }
        ensures stays { OnErr result (SameRelation (DialerGives S.ran self.old) (DialerGives S.ran self.new)) }
        ensures cause { HasCause (dialer_shows (dialer_state self.old)).faults (dialer_shows (dialer_state self.new)).faults result }
    {
        let room = Room::new(alloc)?;
        let host = host.copy()?;
        match self.held.take() {
            Some(held) => {
                self.last = Snapshot::of(&held);
                Ok(LoopLink {
                    alloc,
                    host,
                    port,
                    room,
                    dialed: Snapshot::of(&held.station),
                    held,
                    closes: false,
                    sent: Bytes::new(alloc),
                    served: false,
                    wanted: false,
                    seen: 0,
                    reply: Bytes::new(alloc),
                    at: 0,
                    ended: false,
                })
            }
            None => {
                self.faults = self.faults.saturating_add(1);
                self.exchanges.add(room, undialed(alloc, host, port));
                Err(EdgeFault::Failed)
            }
        }
    }

    fn hang_up(&mut self, link: LoopLink<S>)
        requires { LinkHolds S.shows S.ran link }
        ensures state { dialer_state self.new ≡ after_hang_up (dialer_state self.old) (loop_shows (loop_state link)) }
        ensures held { held_of self.new ≡ link.held }

        // The peer may have given what it gave, and goes on giving so.
        ensures told { IsToldOf (DialerGives S.ran self.new) (dialer_shows (dialer_state self.new)).exchanges (loop_shows (loop_state link)) }
        ensures given_back { SameRelation (Gives link.held.table.rows (S.ran link.held.station)) (DialerGives S.ran self.new) }

        // A link that has ended gave the whole reply of the service, or nothing by one of its two causes.
        ensures whole { (loop_state link).ended ≡ true
            → Serves link.held.table.rows (S.ran link.held.station) (take (loop_state link).seen (loop_state link).sent) (S.shows link.dialed.value) (station_of S.shows self.new) (loop_shows (loop_state link)).given.value }
    {
        let LoopLink {
            alloc: _,
            host,
            port,
            room,
            dialed: _,
            held,
            closes: _,
            sent,
            served: _,
            wanted: _,
            seen: _,
            mut reply,
            at,
            ended,
        } = link;
        reply.truncate(at);
        self.held = Some(held);
        let entry = Exchange {
            host,
            port,
            dialed: true,
            sent,
            given: reply,
            ended,
            stopped: false,
            faults: 0,
        };
        self.exchanges.add(room, entry);
    }
}
