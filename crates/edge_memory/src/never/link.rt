ghost use Rattle.std.specs.Prelude.{◌≡◌, []};

use crate::link::MemLink;
use crate::{LinkScript, Moves};
use edge_traits::{EdgeFault, Link, none_of};
use std::alloc::Global;

/// A link that follows a script and never fails.
#[derive(Drop)]
pub struct MemNeverLink {
    pub(crate) inner: MemLink,
    ghost never: { inner.calls.fails ≡ [] },
}

/// The script without calls that fail.
pub(crate) fn never_script(script: LinkScript) -> LinkScript
    ensures gives { result.gives ≡ script.gives }
    ensures fails { result.moves.fails ≡ [] }
    ensures zeros { result.moves.zeros ≡ script.moves.zeros }
    ensures most { result.moves.most ≡ script.moves.most }
{
    let Moves { fails, zeros, most } = script.moves;
    LinkScript {
        gives: script.gives,
        moves: Moves {
            fails: none_of(fails),
            zeros,
            most,
        },
    }
}

impl MemNeverLink {
    ghost use Rattle.std.specs.Prelude.{◌≡◌, false};
    ghost use Rattle.edge_memory.specs.Links.{new_link, nowhere};
    ghost use Rattle.edge_memory.specs.Scripts.{never_script};
    ghost use Rattle.edge_memory.specs.Nevers.{never_link_state};

    /// A link that nobody dialed, and that nothing passed over. It takes no memory.
    pub fn new(alloc: Global, script: LinkScript) -> MemNeverLink
        ensures { never_link_state result ≡ new_link (never_script script) nowhere false false }
    {
        MemNeverLink {
            inner: MemLink::new(alloc, never_script(script)),
        }
    }
}

impl Link for MemNeverLink {
    ghost use Rattle.std.specs.Prelude.{◌≡◌, ◌<◌, ⊤, length, min, IsErrOf, is_some, refl};
    ghost use Rattle.std.proofs.Common.{◌∙◌, sym};
    ghost use Rattle.edge_traits.specs.declared.faults.EdgeFault.TheVariants.{Failed};
    ghost use Rattle.edge_traits.specs.Told.{Grew};
    ghost use Rattle.edge_traits.specs.Links.{moved};
    ghost use Rattle.edge_memory.specs.Moving.{IsNextAnswer, next_answer};
    ghost use Rattle.edge_memory.specs.Links.{link_shows, left_of, after_send, after_recv};
    ghost use Rattle.edge_memory.specs.Nevers.{never_link_state, never_link_shows};

    ghost shows = { λ l. never_link_shows (never_link_state l) };

    ghost follows = { λ a b. (a.inner.host ≡ b.inner.host) × (a.inner.port ≡ b.inner.port) × (is_some a.inner.exchange ≡ is_some b.inner.exchange) × (is_some a.inner.visit ≡ is_some b.inner.visit) };

    ghost may_give = { λ l sent given. ⊤ };

    ghost follows_itself = { λ l. (refl, refl, refl, refl) };

    ghost follows_on = { λ a b c first second. (first.0 ∙ second.0, first.1 ∙ second.1, first.2 ∙ second.2, first.3 ∙ second.3) };

    ghost origin_stays = { λ a b f i. record { host = sym f.0 i; port = sym f.1 i } };

    ghost may_give_stays = { λ a b f. record { kept = λ sent given may. may; back = λ sent given may. may } };

    #[tactic(auto, using(edge_traits::proofs::Counting::nevers))]
    fn send(&mut self, piece: &[u8]) -> Result<usize, EdgeFault>
        requires { 0 < length piece.now }
        ensures answer { IsNextAnswer (never_link_state self.old).script.moves (never_link_state self.old).made (length piece.now) result }
        ensures never { ¬ (IsErrOf result Failed) }
        ensures state { never_link_state self.new ≡ after_send (never_link_state self.old) piece.now result }
    {
        self.inner.send(piece)
    }

    #[tactic(auto, using(edge_traits::proofs::Counting::nevers))]
    fn recv(&mut self, room: &mut [u8]) -> Result<usize, EdgeFault>
        requires { 0 < length room.old }
        ensures answer { result ≡ next_answer (never_link_state self.old).script.moves (never_link_state self.old).made (min (length room.old) (length (left_of (never_link_state self.old)))) }
        ensures never { ¬ (IsErrOf result Failed) }
        ensures state { never_link_state self.new ≡ after_recv (never_link_state self.old) result }
        ensures given { Grew (link_shows (never_link_state self.old)).given (link_shows (never_link_state self.new)).given (moved result room.new) }
    {
        self.inner.recv(room)
    }
}
