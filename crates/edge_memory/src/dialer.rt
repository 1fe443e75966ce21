ghost use Rattle.std.specs.Prelude.{◌≡◌};
ghost use Rattle.edge_traits.specs.Dialers.{undialed};

use crate::front::{ends_at_once, take_first_or};
use crate::link::MemLink;
use crate::{LinkScript, LinkScripts};
use edge_traits::{CallNumbers, Calls, Dialer, EdgeFault, Exchange};
use farm_types::{Bytes, HostName, Room, Trail};
use std::alloc::Global;

/// A dialer whose links follow scripts.
#[derive(Drop)]
pub struct MemDialer {
    links: Vec<LinkScript>,
    calls: Calls,
    exchanges: Trail<Exchange>,
}

impl MemDialer {
    ghost use Rattle.std.specs.Prelude.{◌≡◌, []};
    ghost use Rattle.edge_memory.specs.Dialers.{dialer_state};

    /// A dialer whose links follow these scripts, and then end at once. It takes no memory.
    pub fn new(links: LinkScripts, fails: CallNumbers) -> MemDialer
        ensures { dialer_state result ≡ record { links = links; fails = fails; made = 0; exchanges = [] } }
    {
        MemDialer {
            links: links.into_vec(),
            calls: Calls::new(fails),
            exchanges: Trail::new(),
        }
    }

    /// The exchanges so far, in order. It takes no memory.
    pub fn into_exchanges(self) -> Trail<Exchange>
        ensures { result ≡ (dialer_state self).exchanges }
    {
        self.exchanges
    }
}

/// The entry of a dial that failed.
fn undialed(alloc: Global, host: HostName, port: u16) -> Exchange
    ensures { result ≡ undialed host port }
{
    Exchange {
        host,
        port,
        dialed: false,
        sent: Bytes::new(alloc),
        given: Bytes::new(alloc),
        ended: false,
        stopped: false,
        faults: 0,
    }
}

impl Dialer for MemDialer {
    type Link = MemLink;

    ghost use Rattle.std.specs.Prelude.{◌≡◌, ⊤, IsTrue};
    ghost use Rattle.std.proofs.Common.{subst};
    ghost use Rattle.edge_traits.specs.Causes.{HasCause};
    ghost use Rattle.edge_memory.specs.Links.{link_state, link_shows};
    ghost use Rattle.edge_memory.specs.Dialers.{dialer_state, dialer_shows, IsDialAnswer, after_dial, after_hang_up};

    ghost shows = { λ d. dialer_shows (dialer_state d) };

    ghost came = { λ d link. IsTrue (link_state link).may_hang_up };

    ghost may_give = { λ d sent given. ⊤ };

    ghost came_stays = { λ d a b came f. subst IsTrue f.2 came };

    #[tactic(auto, using(edge_traits::proofs::Counting::causes))]
    fn dial(&mut self, alloc: Global, host: &HostName, port: u16) -> Result<MemLink, EdgeFault>
        ensures answer { IsDialAnswer (dialer_state self.old) host.now port result }
        ensures state { dialer_state self.new ≡ after_dial (dialer_state self.old) host.now port result }
        ensures cause { HasCause (dialer_shows (dialer_state self.old)).faults (dialer_shows (dialer_state self.new)).faults result }
    {
        let room = Room::new(alloc)?;
        let host = host.copy()?;
        if self.calls.fails_next() {
            self.exchanges.add(room, undialed(alloc, host, port));
            return Err(EdgeFault::Failed);
        }
        let script = take_first_or(&mut self.links, ends_at_once(alloc));
        Ok(MemLink::between(alloc, script, host, port, Some(room), None))
    }

    fn hang_up(&mut self, link: MemLink)
        requires { IsTrue (link_state link).may_hang_up }
        ensures { dialer_state self.new ≡ after_hang_up (dialer_state self.old) (link_shows (link_state link)) }
    {
        let (entry, room) = link.into_exchange();
        if let Some(room) = room {
            self.exchanges.add(room, entry);
        }
    }
}
