ghost use Rattle.std.specs.Prelude.{◌≤◌, length};

use crate::LinkScript;
use crate::moving::{next_count, put_front};
use edge_traits::{CallNumbers, Calls, EdgeFault, Exchange, Link, Visit};
use farm_types::{Bytes, HostName, Room};
use std::alloc::Global;

/// A link that follows a script.
#[derive(Drop)]
pub struct MemLink {
    host: HostName,
    port: u16,
    gives: Bytes,
    at: usize,
    zeros: CallNumbers,
    most: u32,
    calls: Calls,
    sent: Bytes,
    ended: bool,
    stopped: bool,
    exchange: Option<Room<Exchange>>,
    visit: Option<Room<Visit>>,
    ghost within: { at ≤ length gives },
}

impl MemLink {
    ghost use Rattle.std.specs.Prelude.{◌≡◌, false, is_some};
    ghost use Rattle.edge_traits.specs.Dialers.{hung};
    ghost use Rattle.edge_traits.specs.Doors.{visited};
    ghost use Rattle.edge_memory.specs.Scripts.{never_script};
    ghost use Rattle.edge_memory.specs.Links.{link_state, link_shows, new_link, nowhere};

    /// A link that nobody dialed, and that nothing passed over. It takes no memory.
    pub fn new(alloc: Global, script: LinkScript) -> MemLink
        ensures { link_state result ≡ new_link script nowhere false false }
    {
        let nobody = HostName {
            text: Bytes::new(alloc),
        };
        MemLink::between(alloc, script, nobody, 0, None, None)
    }

    /// A link to this host and port, with the room for its entry.
    pub(crate) fn between(
        alloc: Global,
        script: LinkScript,
        host: HostName,
        port: u16,
        exchange: Option<Room<Exchange>>,
        visit: Option<Room<Visit>>,
    ) -> MemLink
        ensures { link_state result ≡ new_link script (record { host = host; port = port }) (is_some exchange) (is_some visit) }
    {
        let LinkScript { gives, moves } = script;
        MemLink {
            host,
            port,
            gives,
            at: 0,
            zeros: moves.zeros,
            most: moves.most,
            calls: Calls::new(moves.fails),
            sent: Bytes::new(alloc),
            ended: false,
            stopped: false,
            exchange,
            visit,
        }
    }

    /// The same link before any call, if no call fails.
    pub(crate) fn without_fails(self) -> MemLink
        ensures { link_state result ≡ record (link_state self) { script = never_script (link_state self).script; made = 0 } }
    {
        let MemLink {
            host,
            port,
            gives,
            at,
            zeros,
            most,
            calls,
            sent,
            ended,
            stopped,
            exchange,
            visit,
        } = self;
        MemLink {
            host,
            port,
            gives,
            at,
            zeros,
            most,
            calls: calls.without_fails(),
            sent,
            ended,
            stopped,
            exchange,
            visit,
        }
    }

    /// The bytes that were sent over it. It takes no memory.
    pub fn into_sent(self) -> Bytes
        ensures { result ≡ (link_state self).sent }
    {
        self.sent
    }

    /// The entry of a dialer's link at its end, and the room for it.
    pub(crate) fn into_exchange(self) -> (Exchange, Option<Room<Exchange>>)
        ensures entry { result.0 ≡ hung (link_shows (link_state self)) }
        ensures room { is_some result.1 ≡ (link_state self).may_hang_up }
    {
        let mut given = self.gives;
        given.truncate(self.at);
        let entry = Exchange {
            host: self.host,
            port: self.port,
            dialed: true,
            sent: self.sent,
            given,
            ended: self.ended,
            stopped: self.stopped,
            faults: self.calls.faults(),
        };
        (entry, self.exchange)
    }

    /// The entry of a door's link at its end, and the room for it.
    pub(crate) fn into_visit(self) -> (Visit, Option<Room<Visit>>)
        ensures entry { result.0 ≡ visited (link_shows (link_state self)) }
        ensures room { is_some result.1 ≡ (link_state self).may_leave }
    {
        let mut given = self.gives;
        given.truncate(self.at);
        let entry = Visit {
            given,
            sent: self.sent,
            ended: self.ended,
            stopped: self.stopped,
            faults: self.calls.faults(),
        };
        (entry, self.visit)
    }
}

#[tactic(auto, using(edge_traits::proofs::Counting::causes))]
impl Link for MemLink {
    ghost use Rattle.std.specs.Prelude.{◌≡◌, ◌<◌, ⊤, length, is_some, min, refl};
    ghost use Rattle.std.proofs.Common.{◌∙◌, sym};
    ghost use Rattle.edge_traits.specs.Told.{Grew};
    ghost use Rattle.edge_traits.specs.Causes.{HasCause};
    ghost use Rattle.edge_traits.specs.Links.{moved};
    ghost use Rattle.edge_memory.specs.Moving.{IsNextAnswer, next_answer};
    ghost use Rattle.edge_memory.specs.Links.{link_state, link_shows, left_of, after_send, after_recv};

    ghost shows = { λ l. link_shows (link_state l) };

    ghost follows = { λ a b. (a.host ≡ b.host) × (a.port ≡ b.port) × (is_some a.exchange ≡ is_some b.exchange) × (is_some a.visit ≡ is_some b.visit) };

    ghost may_give = { λ l sent given. ⊤ };

    ghost follows_itself = { λ l. (refl, refl, refl, refl) };

    ghost follows_on = { λ a b c first second. (first.0 ∙ second.0, first.1 ∙ second.1, first.2 ∙ second.2, first.3 ∙ second.3) };

    ghost origin_stays = { λ a b f i. record { host = sym f.0 i; port = sym f.1 i } };

    ghost may_give_stays = { λ a b f. record { kept = λ sent given may. may; back = λ sent given may. may } };

    fn send(&mut self, piece: &[u8]) -> Result<usize, EdgeFault>
        requires { 0 < length piece.now }
        ensures answer { IsNextAnswer (link_state self.old).script.moves (link_state self.old).made (length piece.now) result }
        ensures state { link_state self.new ≡ after_send (link_state self.old) piece.now result }
        ensures cause { HasCause (link_shows (link_state self.old)).faults (link_shows (link_state self.new)).faults result }
    {
        let count = next_count(&self.calls, &self.zeros, self.most, piece.len());
        if self.calls.fails_next() {
            return Err(EdgeFault::Failed);
        }
        self.sent.try_extend(&piece[..count])?;
        if count == 0 {
            self.stopped = true;
        }
        Ok(count)
    }

    fn recv(&mut self, room: &mut [u8]) -> Result<usize, EdgeFault>
        requires { 0 < length room.old }
        ensures answer { result ≡ next_answer (link_state self.old).script.moves (link_state self.old).made (min (length room.old) (length (left_of (link_state self.old)))) }
        ensures state { link_state self.new ≡ after_recv (link_state self.old) result }
        ensures given { Grew (link_shows (link_state self.old)).given (link_shows (link_state self.new)).given (moved result room.new) }
        ensures cause { HasCause (link_shows (link_state self.old)).faults (link_shows (link_state self.new)).faults result }
    {
        let left = self.gives.len() - self.at;
        let count = next_count(&self.calls, &self.zeros, self.most, room.len().min(left));
        if self.calls.fails_next() {
            return Err(EdgeFault::Failed);
        }
        put_front(room, &self.gives.as_slice()[self.at..self.at + count]);
        self.at += count;
        if count == 0 {
            self.ended = true;
        }
        Ok(count)
    }
}
