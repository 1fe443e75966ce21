//! Laws of the grammar.

ghost use Rattle.std.specs.Prelude.{◌≡◌, ◌≤◌, ℕ, List, All, Result, Ok, length};
ghost use Rattle.access_list.specs.declared.rule.Rule.{Rule};
ghost use Rattle.access_list.specs.Rules.{AreRight};
ghost use Rattle.farmd_options.specs.declared.command.Command.{Command};
ghost use Rattle.farmd_options.specs.declared.command.Command.TheVariants.{Serve};
ghost use Rattle.farmd_options.specs.declared.options.Options.{Options};
ghost use Rattle.farmd_options.specs.Commands.{IsCommand, ReadWords, settings_of};
ghost use Rattle.farmd_options.specs.Options.{AreWithin};
ghost use Rattle.farmd_options.specs.Tables.{AreRules};

/// Words are one command, or bad at one place, and not both; they name one list of rules. It does nothing.
pub fn one_reading()
    ensures once { (words : List (List ℕ)) (one other : Result Command ℕ) → ReadWords words one → ReadWords words other → one ≡ other }
    ensures rules { (words : List (List ℕ)) (one other : List Rule) → AreRules words one → AreRules words other → one ≡ other }

    // The numbers of right words are within their limits.
    ensures within { (words : List (List ℕ)) (options : Options) → IsCommand words (Serve options) → AreWithin options }

    // The rules of right words are at most 64, each with at most 32 bits.
    ensures right { (words : List (List ℕ)) (options : Options) (rules : List Rule) → IsCommand words (Serve options) → AreRules (settings_of words) rules → AreRight rules }
{}
