ghost use Rattle.std.specs.Prelude.{◌≡◌, []};

use crate::door::MemDoor;
use crate::never::link::MemNeverLink;
use crate::{LinkScripts, Peers};
use edge_traits::{CallNumbers, Door, EdgeFault, none_of};
use std::alloc::Global;

/// A door whose links follow scripts. Neither it nor its links fail.
#[derive(Drop)]
pub struct MemNeverDoor {
    inner: MemDoor,
    ghost never: { inner.calls.fails ≡ [] },
}

impl MemNeverDoor {
    ghost use Rattle.std.specs.Prelude.{◌≡◌, []};
    ghost use Rattle.edge_memory.specs.Nevers.{never_door_state};

    /// A door whose links follow these scripts, and then end at once, from these peers, and then from 0. It takes no memory.
    pub fn new(alloc: Global, links: LinkScripts, peers: Peers, fails: CallNumbers) -> MemNeverDoor
        ensures { never_door_state result ≡ record { links = links; peers = peers; fails = []; made = 0; came = []; visits = [] } }
    {
        MemNeverDoor {
            inner: MemDoor::new(alloc, links, peers, none_of(fails)),
        }
    }
}

impl Door for MemNeverDoor {
    type Link = MemNeverLink;

    ghost use Rattle.std.specs.Prelude.{◌≡◌, IsTrue, IsErrOf, IfOk, true, false};
    ghost use Rattle.std.proofs.Common.{subst};
    ghost use Rattle.edge_traits.specs.declared.faults.EdgeFault.TheVariants.{Failed};
    ghost use Rattle.edge_memory.specs.Scripts.{first_or, ends_at_once, never_script};
    ghost use Rattle.edge_memory.specs.Links.{new_link, nowhere};
    ghost use Rattle.edge_memory.specs.Doors.{after_accept, after_leave};
    ghost use Rattle.edge_memory.specs.Nevers.{never_door_state, never_door_shows, never_link_state, never_link_shows};

    ghost shows = { λ d. never_door_shows (never_door_state d) };

    ghost came = { λ d link. IsTrue (never_link_state link).may_leave };

    ghost came_stays = { λ d a b came f. subst IsTrue f.3 came };

    #[tactic(auto, using(edge_traits::proofs::Counting::nevers))]
    fn accept(&mut self, alloc: Global) -> Result<(MemNeverLink, u32), EdgeFault>
        ensures link { IfOk result (λ accepted. never_link_state accepted.0 ≡ new_link (never_script (first_or ends_at_once (never_door_state self.old).links)) nowhere false true) }
        ensures peer { IfOk result (λ accepted. accepted.1 ≡ first_or 0 (never_door_state self.old).peers) }
        ensures never { ¬ (IsErrOf result Failed) }
        ensures state { never_door_state self.new ≡ after_accept (never_door_state self.old) result }
    {
        let (link, peer) = self.inner.accept(alloc)?;
        let link = MemNeverLink {
            inner: link.without_fails(),
        };
        Ok((link, peer))
    }

    #[tactic(auto, using(edge_traits::proofs::Counting::nevers))]
    fn leave(&mut self, link: MemNeverLink)
        requires { IsTrue (never_link_state link).may_leave }
        ensures { never_door_state self.new ≡ after_leave (never_door_state self.old) (never_link_shows (never_link_state link)) }
    {
        self.inner.leave(link.inner);
    }
}
