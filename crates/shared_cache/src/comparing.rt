//! Whether the words of two runs are the same.

ghost use Rattle.std.specs.Prelude.{◌≡◌};
ghost use Rattle.object_cache.specs.Keys as keys;

use farm_types::{Ext, Word};

fn same_ext(one: Ext, other: Ext) -> bool
    ensures { result ≡ keys.ext_eq one other }
{
    match (one, other) {
        (Ext::I, Ext::I) | (Ext::Ii, Ext::Ii) => true,
        _ => false,
    }
}

fn same_word(one: &Word, other: &Word) -> bool
    ensures { result ≡ keys.word_eq one.now other.now }
{
    match (one, other) {
        (Word::Text(one), Word::Text(other)) => one.as_slice() == other.as_slice(),
        (Word::Input(one), Word::Input(other)) => same_ext(*one, *other),
        (Word::Output, Word::Output) => true,
        _ => false,
    }
}

/// Whether these are the same words.
pub(crate) fn same_words(one: &[Word], other: &[Word]) -> bool
    ensures { result ≡ keys.words_eq one.now other.now }
{
    let mut rest = one;
    let mut others = other;
    'comparing: while let [this, after @ ..] = rest {
        let [that, behind @ ..] = others else {
            return false;
        };
        if !same_word(this, that) {
            return false;
        }
        rest = after;
        others = behind;
    }
    others.is_empty()
}
