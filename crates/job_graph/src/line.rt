//! The words of a line of needs.

ghost use Rattle.std.specs.Prelude.{◌≡◌, ◌∷◌, [], ◌<◌, ◌≤◌, not, true, false, length, slice_range, slice_index, IfSome, IfNone};
ghost use Rattle.std.specs.List.{AllPass};
ghost use Rattle.farm_types.specs.Bytes as bytes;
ghost use Rattle.job_graph.specs.Lines.{plain_words, is_needs, needed_words};

use job_list::is_blank;
use memchr::memchr2;

// The end of the word that a line begins with: its first blank, or the line's end.
fn word_end(line: &[u8]) -> usize
    ensures high { result ≤ length line.now }
    ensures word { AllPass (λ c. not (bytes.is_blank c)) (slice_range line.now 0 result) }
    ensures ends { result < length line.now → bytes.is_blank (slice_index line.now result) ≡ true }
{
    match memchr2(b' ', b'\t', line) {
        Some(end) => end,
        None => line.len(),
    }
}

/// The first word of a line, between spaces and tabs, and what is after it.
pub fn next_word(line: &[u8]) -> Option<(&[u8], &[u8])>
    ensures none { IfNone result (plain_words line.now ≡ []) }
    ensures word { IfSome result (λ cut. plain_words line.now ≡ cut.0.now ∷ plain_words cut.1.now) }
    ensures shorter { IfSome result (λ cut. length cut.1.now < length line.now) }
{
    let mut rest = line;
    'seeking: while let [first, after @ ..] = rest {
        if !is_blank(*first) {
            let end = word_end(rest);
            return Some((&rest[..end], &rest[end..]));
        }
        rest = after;
    }
    None
}

/// What is after the first word of a line of needs. None is given of any other line.
pub fn needs_behind(line: &[u8]) -> Option<&[u8]>
    ensures none { IfNone result (is_needs line.now ≡ false) }
    ensures is { IfSome result (λ rest. is_needs line.now ≡ true) }
    ensures words { IfSome result (λ rest. needed_words line.now ≡ plain_words rest.now) }
{
    match next_word(line) {
        Some((word, rest)) => {
            if word == b"needs:".as_slice() {
                Some(rest)
            } else {
                None
            }
        }
        None => None,
    }
}
