ghost use Rattle.std.specs.Prelude.{◌≡◌, []};

use crate::LinkScripts;
use crate::dialer::MemDialer;
use crate::never::link::MemNeverLink;
use edge_traits::{CallNumbers, Dialer, EdgeFault, none_of};
use farm_types::HostName;
use std::alloc::Global;

/// A dialer whose links follow scripts. Neither it nor its links fail.
#[derive(Drop)]
pub struct MemNeverDialer {
    inner: MemDialer,
    ghost never: { inner.calls.fails ≡ [] },
}

impl MemNeverDialer {
    ghost use Rattle.std.specs.Prelude.{◌≡◌, []};
    ghost use Rattle.edge_memory.specs.Nevers.{never_dialer_state};

    /// A dialer whose links follow these scripts, and then end at once. It takes no memory.
    pub fn new(links: LinkScripts, fails: CallNumbers) -> MemNeverDialer
        ensures { never_dialer_state result ≡ record { links = links; fails = []; made = 0; exchanges = [] } }
    {
        MemNeverDialer {
            inner: MemDialer::new(links, none_of(fails)),
        }
    }
}

impl Dialer for MemNeverDialer {
    type Link = MemNeverLink;

    ghost use Rattle.std.specs.Prelude.{◌≡◌, ⊤, IsTrue, IsErrOf, IfOk, true, false};
    ghost use Rattle.std.proofs.Common.{subst};
    ghost use Rattle.edge_traits.specs.declared.faults.EdgeFault.TheVariants.{Failed};
    ghost use Rattle.edge_memory.specs.Scripts.{first_or, ends_at_once, never_script};
    ghost use Rattle.edge_memory.specs.Links.{new_link};
    ghost use Rattle.edge_memory.specs.Dialers.{after_dial, after_hang_up};
    ghost use Rattle.edge_memory.specs.Nevers.{never_dialer_state, never_dialer_shows, never_link_state, never_link_shows};

    ghost shows = { λ d. never_dialer_shows (never_dialer_state d) };

    ghost came = { λ d link. IsTrue (never_link_state link).may_hang_up };

    ghost may_give = { λ d sent given. ⊤ };

    ghost came_stays = { λ d a b came f. subst IsTrue f.2 came };

    #[tactic(auto, using(edge_traits::proofs::Counting::nevers))]
    fn dial(&mut self, alloc: Global, host: &HostName, port: u16) -> Result<MemNeverLink, EdgeFault>
        ensures link { IfOk result (λ link. never_link_state link ≡ new_link (never_script (first_or ends_at_once (never_dialer_state self.old).links)) (record { host = host.now; port = port }) true false) }
        ensures never { ¬ (IsErrOf result Failed) }
        ensures state { never_dialer_state self.new ≡ after_dial (never_dialer_state self.old) host.now port result }
    {
        let link = self.inner.dial(alloc, host, port)?;
        Ok(MemNeverLink {
            inner: link.without_fails(),
        })
    }

    #[tactic(auto, using(edge_traits::proofs::Counting::nevers))]
    fn hang_up(&mut self, link: MemNeverLink)
        requires { IsTrue (never_link_state link).may_hang_up }
        ensures { never_dialer_state self.new ≡ after_hang_up (never_dialer_state self.old) (never_link_shows (never_link_state link)) }
    {
        self.inner.hang_up(link.inner);
    }
}
