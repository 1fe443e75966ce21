use crate::front::{ends_at_once, take_first_or};
use crate::link::MemLink;
use crate::{LinkScript, LinkScripts};
use edge_traits::{CallNumbers, Calls, Door, EdgeFault, Visit};
use farm_types::{Bytes, HostName, Items, Room, Trail};
use std::alloc::Global;

/// The IPv4 addresses of the peers that are still to come, as numbers, in order.
pub type Peers = Items<u32>;

/// A door whose links follow scripts.
#[derive(Drop)]
pub struct MemDoor {
    links: Vec<LinkScript>,
    peers: Vec<u32>,
    calls: Calls,
    came: Peers,
    visits: Trail<Visit>,
}

impl MemDoor {
    ghost use Rattle.std.specs.Prelude.{◌≡◌, []};
    ghost use Rattle.edge_memory.specs.Doors.{door_state};

    /// A door whose links follow these scripts, and then end at once, from these peers, and then from 0. It takes no memory.
    pub fn new(alloc: Global, links: LinkScripts, peers: Peers, fails: CallNumbers) -> MemDoor
        ensures { door_state result ≡ record { links = links; peers = peers; fails = fails; made = 0; came = []; visits = [] } }
    {
        MemDoor {
            links: links.into_vec(),
            peers: peers.into_vec(),
            calls: Calls::new(fails),
            came: Peers::new(alloc),
            visits: Trail::new(),
        }
    }

    /// The visits that ended, in order. It takes no memory.
    pub fn into_visits(self) -> Trail<Visit>
        ensures { result ≡ (door_state self).visits }
    {
        self.visits
    }
}

impl Door for MemDoor {
    type Link = MemLink;

    ghost use Rattle.std.specs.Prelude.{◌≡◌, IsTrue};
    ghost use Rattle.std.proofs.Common.{subst};
    ghost use Rattle.edge_traits.specs.Causes.{HasCause};
    ghost use Rattle.edge_memory.specs.Links.{link_state, link_shows};
    ghost use Rattle.edge_memory.specs.Doors.{door_state, door_shows, IsAcceptAnswer, after_accept, after_leave};

    ghost shows = { λ d. door_shows (door_state d) };

    ghost came = { λ d link. IsTrue (link_state link).may_leave };

    ghost came_stays = { λ d a b came f. subst IsTrue f.3 came };

    #[tactic(auto, using(edge_traits::proofs::Counting::causes))]
    fn accept(&mut self, alloc: Global) -> Result<(MemLink, u32), EdgeFault>
        ensures answer { IsAcceptAnswer (door_state self.old) result }
        ensures state { door_state self.new ≡ after_accept (door_state self.old) result }
        ensures cause { HasCause (door_shows (door_state self.old)).faults (door_shows (door_state self.new)).faults result }
    {
        if self.calls.fails_next() {
            return Err(EdgeFault::Failed);
        }
        let room = Room::new(alloc)?;
        let peer = self.peers.first().copied().unwrap_or(0);
        self.came.try_push(peer)?;
        let peer = take_first_or(&mut self.peers, 0);
        let script = take_first_or(&mut self.links, ends_at_once(alloc));
        let nobody = HostName {
            text: Bytes::new(alloc),
        };
        let link = MemLink::between(alloc, script, nobody, 0, None, Some(room));
        Ok((link, peer))
    }

    fn leave(&mut self, link: MemLink)
        requires { IsTrue (link_state link).may_leave }
        ensures { door_state self.new ≡ after_leave (door_state self.old) (link_shows (link_state link)) }
    {
        let (entry, room) = link.into_visit();
        if let Some(room) = room {
            self.visits.add(room, entry);
        }
    }
}
