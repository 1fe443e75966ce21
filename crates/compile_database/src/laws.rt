//! The law of the words.

ghost use Rattle.std.specs.Prelude.{ℕ, ◌≡◌, List, Result};
ghost use Rattle.compile_database.specs.Choices.{Choice};
ghost use Rattle.compile_database.specs.Words.{WordsRead};

/// The words of `farm_jobs` say which entries are taken, or have one first word that doesn't fit, and not both. It does nothing.
pub fn one_reading()
    ensures once { (words : List (List ℕ)) (one other : Result Choice ℕ)
        → WordsRead words one → WordsRead words other → one ≡ other }
    ensures some { (words : List (List ℕ)) → (read : Result Choice ℕ) × WordsRead words read }
{}
