//! Laws of exchanges.

ghost use Rattle.std.specs.Prelude.{◌≡◌};
ghost use Rattle.farm_types.specs.declared.hosts.Host.{Host};
ghost use Rattle.farm_types.specs.declared.ran.Outcome.{Outcome};
ghost use Rattle.farm_types.specs.declared.request.Request.{Request};
ghost use Rattle.edge_traits.specs.declared.cause.Cause.{Cause};
ghost use Rattle.edge_traits.specs.declared.entries.Exchange.{Exchange};
ghost use Rattle.edge_traits.specs.Exchanges.{IsWhole, IsBroken};

/// An exchange is read in one way: it gave one outcome, and one that gave a whole reply isn't broken.
pub fn one_reading_of_exchanges()
    ensures one_outcome { (x : Exchange) (q : Request) (h : Host) (o p : Outcome) → IsWhole x q h o → IsWhole x q h p → o ≡ p }
    ensures whole_or_broken { (x : Exchange) (q : Request) (h : Host) (o : Outcome) (c : Cause) → IsWhole x q h o → IsBroken x q h c → ⊥ }
{}
