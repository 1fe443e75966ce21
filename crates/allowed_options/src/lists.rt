//! Words and lists of spellings.

ghost use Rattle.std.specs.Prelude.{◌≡◌, nat_eq, bytes_eq};
ghost use Rattle.std.specs.List.{list_any, starts_with};

/// Whether the word begins with one of these.
pub fn begins(fronts: &[&str], word: &[u8]) -> bool
    ensures { result ≡ list_any (λ front. starts_with nat_eq word.now front.now) fronts.now }
{
    for front in fronts {
        if word.starts_with(front.as_bytes()) {
            return true;
        }
    }
    false
}

/// Whether the word is one of these.
pub fn is_one(words: &[&str], word: &[u8]) -> bool
    ensures { result ≡ list_any (λ one. bytes_eq one.now word.now) words.now }
{
    for one in words {
        if one.as_bytes() == word {
            return true;
        }
    }
    false
}
