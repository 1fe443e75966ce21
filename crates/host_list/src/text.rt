//! The words of a text.

ghost use Rattle.std.specs.Prelude.{ℕ, ◌≡◌, ◌≤◌, ◌<◌, ◌+◌, length, List, [], ◌∷◌, false, not, ◌||◌, ◌==◌, drop, slice_range, slice_index, IfSome, IfNone, IsTrue};
ghost use Rattle.std.specs.List.{AllPass};
ghost use Rattle.farm_types.specs.Bytes.{line_feed, form_feed, hash};
ghost use Rattle.host_list.specs.TextWords.{is_blank_or_feed};
ghost use Rattle.host_list.specs.Steps.{words_from, ends_word, EndsWord, EndsLine};

use memchr::{memchr, memchr2, memchr3};

/// A word, and the place of its first byte.
#[derive(Clone, Copy, Debug)]
pub struct PlacedWord<'a> {
    pub at: usize,
    pub bytes: &'a [u8],
}

fn is_blank_or_feed(byte: u8) -> bool
    ensures { result ≡ is_blank_or_feed byte }
{
    matches!(byte, b' ' | b'\t' | b'\n' | b'\x0c')
}

// The end of the line that this place is in.
fn line_end(text: &[u8], from: usize) -> usize
    requires { from ≤ length text.now }
    ensures low { from ≤ result }
    ensures high { result ≤ length text.now }
    ensures plain { AllPass (λ c. not (c == line_feed)) (slice_range text.now from result) }
    ensures ends { EndsLine (drop result text.now) }
{
    match memchr(b'\n', &text[from..]) {
        Some(len) => from + len,
        None => text.len(),
    }
}

// The first byte from a place on that is in a word, or the text's end.
fn skip_gap(text: &[u8], from: usize) -> usize
    requires { from ≤ length text.now }
    ensures low { from ≤ result }
    ensures high { result ≤ length text.now }
    ensures same { words_from from text.now ≡ words_from result text.now }
    ensures stops { result < length text.now → ends_word (slice_index text.now result) ≡ false }
{
    let mut at = from;
    while at < text.len() {
        if text[at] == b'#' {
            at = line_end(text, at + 1);
        } else if is_blank_or_feed(text[at]) {
            at += 1;
        } else {
            return at;
        }
    }
    at
}

// The first of two bytes from a place up to another, or the other.
fn first_of(text: &[u8], from: usize, end: usize) -> usize
    requires low { from ≤ end }
    requires high { end ≤ length text.now }
    ensures low { from ≤ result }
    ensures high { result ≤ end }
    ensures plain { AllPass (λ c. not (c == form_feed || c == hash)) (slice_range text.now from result) }
    ensures ends { result < end → IsTrue
        (slice_index text.now result == form_feed || slice_index text.now result == hash) }
{
    match memchr2(b'\x0c', b'#', &text[from..end]) {
        Some(len) => from + len,
        None => end,
    }
}

// The end of the word that this place is in, or that ends there.
fn word_end(text: &[u8], from: usize) -> usize
    requires { from ≤ length text.now }
    ensures low { from ≤ result }
    ensures high { result ≤ length text.now }
    ensures plain { AllPass (λ c. not (ends_word c)) (slice_range text.now from result) }
    ensures ends { EndsWord (drop result text.now) }
{
    match memchr3(b' ', b'\t', b'\n', &text[from..]) {
        Some(len) => first_of(text, from, from + len),
        None => first_of(text, from, text.len()),
    }
}

/// The first word from a place on that is within no comment and no word.
pub fn next_word(text: &[u8], from: usize) -> Option<PlacedWord<'_>>
    requires { from ≤ length text.now }
    ensures none { IfNone result (words_from from text.now ≡ []) }
    ensures some { IfSome result (λ w. words_from from text.now
        ≡ record { at = w.at; bytes = w.bytes.now } ∷ words_from (w.at + length w.bytes.now) text.now) }
    ensures on { IfSome result (λ w. from < w.at + length w.bytes.now) }
    ensures within { IfSome result (λ w. w.at + length w.bytes.now ≤ length text.now) }
{
    let at = skip_gap(text, from);
    if at == text.len() {
        return None;
    }
    let end = word_end(text, at + 1);
    Some(PlacedWord {
        at,
        bytes: &text[at..end],
    })
}
