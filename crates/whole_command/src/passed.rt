//! Options of the compiler that words pass on by the preprocessor.

ghost use Rattle.std.specs.Prelude.{◌≡◌};
ghost use Rattle.whole_command.specs.Passed.{has_other_part, has_passing_part, is_for_text, is_other, passes_first, passes_next, passes_option, passes_part};

use farm_types::Bytes;

/// Whether a command passes an option on by `-Wp,` or `-Xpreprocessor` that isn't only for the preprocessed text and its dependency file, as
/// `-Xpreprocessor -fopenmp`. The compiler that gets a preprocessed source never sees it.
pub fn passes_option(words: &[Bytes]) -> bool
    ensures { result ≡ passes_option words.now }
{
    has_passing_part(words) || passes_next(words)
}

fn has_passing_part(words: &[Bytes]) -> bool
    ensures { result ≡ has_passing_part words.now }
{
    words.iter().any(|word| passes_part(word.as_slice()))
}

fn passes_part(word: &[u8]) -> bool
    ensures { result ≡ passes_part word.now }
{
    word.starts_with(b"-Wp,") && has_other_part(word)
}

fn has_other_part(word: &[u8]) -> bool
    ensures { result ≡ has_other_part word.now }
{
    match word {
        [] => false,
        [byte, rest @ ..] => (*byte == b',' && is_other(rest)) || has_other_part(rest),
    }
}

fn passes_next(words: &[Bytes]) -> bool
    ensures { result ≡ passes_next words.now }
{
    match words {
        [] => false,
        [word, rest @ ..] => passes_first(word.as_slice(), rest) || passes_next(rest),
    }
}

// Whether a word is `-Xpreprocessor`, and the next one is such an option.
fn passes_first(word: &[u8], rest: &[Bytes]) -> bool
    ensures { result ≡ passes_first word.now rest.now }
{
    let [next, ..] = rest else {
        return false;
    };
    word == b"-Xpreprocessor".as_slice() && is_other(next.as_slice())
}

// Whether a word is an option that isn't for the preprocessed text and its dependency file.
fn is_other(word: &[u8]) -> bool
    ensures { result ≡ is_other word.now }
{
    word.starts_with(b"-") && !is_for_text(word)
}

fn is_for_text(word: &[u8]) -> bool
    ensures { result ≡ is_for_text word.now }
{
    word.starts_with(b"-D")
        || word.starts_with(b"-U")
        || word.starts_with(b"-I")
        || word.starts_with(b"-M")
}
