ghost use Rattle.std.specs.Prelude.{◌≤◌, length};
ghost use Rattle.edge_gates.specs.GateReply.{gate_reply};

use crate::gate::Gate;
use edge_traits::{Dialer, EdgeFault, Link, raised};
use farm_types::HostName;
use std::alloc::{AllocError, Global};
use std::sync::Wait;

/// A whole reply of status 0, without messages. Its object is a module with one definition.
const REPLY: &[u8] = b"DONE00000001STAT00000000SERR00000000SOUT00000000DOTO0000000dSCO1\ndef a 1\n";

/// A link of a `GateDialer`.
#[derive(Drop)]
pub struct GateLink<'a, R> {
    host: HostName,
    port: u16,
    gate: Gate<'a, R>,
    at: usize,
    ended: bool,
    faults: u64,
    ghost within: { at ≤ length gate_reply },
}

#[tactic(auto, using(edge_traits::proofs::Counting::causes))]
impl<'a, R: Wait> Link for GateLink<'a, R> {
    ghost use Rattle.std.specs.Prelude.{◌≡◌, ◌<◌, ◌||◌, ⊤, false, [], length, refl, IfOk, OnErr, IsErrOf};
    ghost use Rattle.std.proofs.Common.{◌∙◌, sym};
    ghost use Rattle.edge_traits.specs.declared.faults.EdgeFault.TheVariants.{Memory};
    ghost use Rattle.edge_traits.specs.Told.{Grew};
    ghost use Rattle.edge_traits.specs.Causes.{HasCause};
    ghost use Rattle.edge_traits.specs.Links.{moved, moved_none};
    ghost use Rattle.edge_gates.specs.Gates.{gate_link_view, any_exchange, SameLink, GateReceived};

    ghost shows = { gate_link_view };

    ghost follows = { λ a b. (gate_link_view a).origin ≡ (gate_link_view b).origin };

    ghost may_give = { λ l. any_exchange };

    ghost follows_itself = { λ l. refl };

    ghost follows_on = { λ a b c first second. first ∙ second };

    ghost origin_stays = { λ a b f. sym f };

    ghost may_give_stays = { λ a b f. record { kept = λ sent given may. may; back = λ sent given may. may } };

    /// Takes the whole piece.
    fn send(&mut self, piece: &[u8]) -> Result<usize, EdgeFault>
        requires { 0 < length piece.now }
        ensures bound { IfOk result (λ n. n ≤ length piece.now) }
        ensures all { IfOk result (λ n. n ≡ length piece.now) }
        ensures sent { Grew (gate_link_view self.old).sent (gate_link_view self.new).sent (moved result piece.now) }
        ensures given { Grew (gate_link_view self.old).given (gate_link_view self.new).given [] }
        ensures stopped { moved_none result ≡ false }
        ensures same { SameLink self.old self.new }
        ensures never { OnErr result ⊥ }
        ensures cause { HasCause (gate_link_view self.old).faults (gate_link_view self.new).faults result }
    {
        Ok(piece.len())
    }

    fn recv(&mut self, room: &mut [u8]) -> Result<usize, EdgeFault>
        requires { 0 < length room.old }
        ensures bound { IfOk result (λ n. n ≤ length room.old) }
        ensures given { Grew (gate_link_view self.old).given (gate_link_view self.new).given (moved result room.new) }
        ensures sent { Grew (gate_link_view self.old).sent (gate_link_view self.new).sent [] }
        ensures origin { (gate_link_view self.new).origin ≡ (gate_link_view self.old).origin }
        ensures ended { (gate_link_view self.new).ended ≡ ((gate_link_view self.old).ended || moved_none result) }
        ensures never { ¬ (IsErrOf result Memory) }
        ensures cause { HasCause (gate_link_view self.old).faults (gate_link_view self.new).faults result }
        ensures gate { GateReceived (length room.old) self.old self.new result }
    {
        if !self.gate.is_let_through() {
            self.faults = raised(self.faults);
            return Err(EdgeFault::Failed);
        }
        let count = room.len().min(REPLY.len() - self.at);
        room[..count].copy_from_slice(&REPLY[self.at..self.at + count]);
        self.at += count;
        if count == 0 {
            self.ended = true;
        }
        Ok(count)
    }
}

/// Dials peers that all give one reply, of status 0. Two dialers share a gate, which holds the reply of the first of
/// their exchanges until a second one's request is whole. So both are given their replies only if they run at the
/// same time.
///
/// A request counts as whole at the first receive on its link, before which the whole of it has to be sent. The first
/// exchange is the one whose request was whole first. A receive that is held lets other threads run, 1,000,000 times at
/// most, and then fails. No dial fails.
#[derive(Drop)]
pub struct GateDialer<'a, R> {
    gate: Gate<'a, R>,
}

impl<'a, R: Wait> GateDialer<'a, R> {
    ghost use Rattle.std.specs.Prelude.{◌≡◌, IfOk};
    ghost use Rattle.edge_gates.specs.GateRule.{newcomer};
    ghost use Rattle.edge_gates.specs.Gates.{dialer_gate, dialer_user};

    /// Two dialers with one gate, at which nobody has asked. Only it and `dial` take memory.
    pub fn pair(
        rt: &'a R,
        alloc: Global,
    ) -> Result<(GateDialer<'a, R>, GateDialer<'a, R>), AllocError>
        ensures one { IfOk result (λ made. dialer_gate made.0 ≡ dialer_gate made.1) }
        ensures unasked { IfOk result (λ made. (dialer_user made.0 ≡ newcomer) × (dialer_user made.1 ≡ newcomer)) }
    {
        let (first, second) = Gate::pair(rt, alloc)?;
        Ok((GateDialer { gate: first }, GateDialer { gate: second }))
    }
}

#[tactic(auto, using(edge_traits::proofs::Counting::causes))]
impl<'a, R: Wait> Dialer for GateDialer<'a, R> {
    type Link = GateLink<'a, R>;

    ghost use Rattle.std.specs.Prelude.{◌≡◌, ⊤, [], ◌∷◌, IfOk, OnErr};
    ghost use Rattle.edge_traits.specs.Told.{Grew, SameRelation};
    ghost use Rattle.edge_traits.specs.Causes.{HasCause};
    ghost use Rattle.edge_traits.specs.Links.{IsFresh};
    ghost use Rattle.edge_traits.specs.Dialers.{dial_entries, hung, IsToldOf};
    ghost use Rattle.edge_gates.specs.GateRule.{newcomer};
    ghost use Rattle.edge_gates.specs.Gates.{gate_dialer_view, gate_link_view, any_exchange, dialer_gate, gate_of, user_of};

    ghost shows = { λ d. gate_dialer_view };

    ghost came = { λ d link. ⊤ };

    ghost may_give = { λ d. any_exchange };

    ghost came_stays = { λ d a b came f. came };

    fn dial(
        &mut self,
        _alloc: Global,
        host: &HostName,
        port: u16,
    ) -> Result<GateLink<'a, R>, EdgeFault>
        ensures fresh { IfOk result (λ link. IsFresh host.now port (gate_link_view link)) }
        ensures came { IfOk result (λ link. ⊤) }
        ensures entries { Grew gate_dialer_view.exchanges gate_dialer_view.exchanges (dial_entries host.now port result) }
        ensures lent { IfOk result (λ link. SameRelation any_exchange any_exchange) }
        ensures stays { OnErr result (SameRelation any_exchange any_exchange) }
        ensures cause { HasCause gate_dialer_view.faults gate_dialer_view.faults result }
        ensures same { dialer_gate self.new ≡ dialer_gate self.old }
        ensures gate { IfOk result (λ link. gate_of link ≡ dialer_gate self.old) }
        ensures unasked { IfOk result (λ link. user_of link ≡ newcomer) }
    {
        Ok(GateLink {
            host: host.copy()?,
            port,
            gate: self.gate.share()?,
            at: 0,
            ended: false,
            faults: 0,
        })
    }

    fn hang_up(&mut self, link: GateLink<'a, R>)
        ensures entry { Grew gate_dialer_view.exchanges gate_dialer_view.exchanges (hung (gate_link_view link.entry) ∷ []) }
        ensures told { IsToldOf any_exchange gate_dialer_view.exchanges (gate_link_view link.entry) }
        ensures given_back { SameRelation any_exchange any_exchange }
        ensures same { dialer_gate self.new ≡ dialer_gate self.old }
    {
        drop(link);
    }
}
