//! Laws of the grammar and of the environment.

ghost use Rattle.std.specs.Prelude.{ℕ, ◌≡◌, ◌⊎◌, List};
ghost use Rattle.farm_options.specs.Commands.{BadAt, IsCommand, Meaning};
ghost use Rattle.farm_options.specs.Environment.{HasBadPeriod, PeriodOf};

/// Words are one command, or bad at one place, and not both.
pub fn one_reading()
    ensures some { (words : List (List ℕ))
        → ((meant : Meaning) × IsCommand words meant) ⊎ ((place : ℕ) × BadAt words place) }
    ensures meaning { (words : List (List ℕ)) (one other : Meaning)
        → IsCommand words one → IsCommand words other → one ≡ other }
    ensures apart { (words : List (List ℕ)) (meant : Meaning) (place : ℕ)
        → IsCommand words meant → BadAt words place → ⊥ }
    ensures place { (words : List (List ℕ)) (place there : ℕ)
        → BadAt words place → BadAt words there → place ≡ there }
{}

/// An environment gives one back-off period, or a bad one, and not both.
pub fn one_period()
    ensures some { (variables : List (List ℕ × List ℕ))
        → ((period : ℕ) × PeriodOf variables period) ⊎ HasBadPeriod variables }
    ensures period { (variables : List (List ℕ × List ℕ)) (one other : ℕ)
        → PeriodOf variables one → PeriodOf variables other → one ≡ other }
    ensures apart { (variables : List (List ℕ × List ℕ)) (period : ℕ)
        → PeriodOf variables period → HasBadPeriod variables → ⊥ }
{}
