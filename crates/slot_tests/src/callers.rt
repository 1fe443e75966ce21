//! The passes of callers, by their numbers.
ghost use Rattle.std.specs.Prelude.{◌≡◌, [], IfSome, All};
ghost use Rattle.farm_cell.specs.Passes.{callers_of, seen_of, mine_of};
ghost use Rattle.farm_cell.specs.Ends.{IsNumbered, AreAllOf};

use farm_cell::{Cell, Pass, Passes};

/// The passes of three callers.
pub fn apart(cell: &Cell<16, 34>, passes: Passes) -> Option<(Pass, Pass, Pass)>
    requires passes { AreAllOf cell.now passes.items }
    requires blank { All (λ p. (seen_of p ≡ []) × (mine_of p ≡ [])) passes.items }
    requires three { callers_of cell.now ≡ 3 }
    ensures first { IfSome result (λ p. IsNumbered cell.now 0 p.0 × (mine_of p.0 ≡ [])) }
    ensures second { IfSome result (λ p. IsNumbered cell.now 1 p.1 × (mine_of p.1 ≡ [])) }
    ensures third { IfSome result (λ p. IsNumbered cell.now 2 p.2 × (mine_of p.2 ≡ [])) }
{
    let mut rest = passes.into_iter();
    let first = rest.next()?;
    let second = rest.next()?;
    let third = rest.next()?;
    Some((first, second, third))
}
