//! The rules of a door as the tests begin with them.

ghost use Rattle.std.specs.Prelude.{ℕ, None};
ghost use Rattle.access_list.specs.Rules.{AccessDecision};
ghost use Rattle.access_list.specs.declared.decision.Decision.TheVariants.{Admitted};

use access_list::{AccessList, RuleVec};
use std::alloc::Global;

/// Rules that let everybody in.
pub fn everybody(alloc: Global) -> AccessList
    ensures { (addr : ℕ) → AccessDecision result.rules addr (Admitted None) }
{
    AccessList {
        rules: RuleVec::new(alloc),
    }
}
