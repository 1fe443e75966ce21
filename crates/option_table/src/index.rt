//! The places of rows, sorted, and the span of each second byte.

ghost use Rattle.std.specs.Prelude.{◌≡◌, ◌+◌, ◌<◌, ◌≤◌, ◌^◌, ℕ, length, slice_index, nat_lt};
ghost use Rattle.std.specs.Ordering.{nat_cmp};
ghost use Rattle.std.specs.Cmp.Lexicographic.{slice_cmp};
ghost use Rattle.option_table.specs.Spans.{spelling_at, letter_at, sort_key, IsStart, AreAllPlaces, AreSorted, AreStarts, span_of};

use crate::row::OptionRow;
use std::cmp::Ordering;

/// One more than there are bytes: the span of a byte ends at the start of the next one's.
pub(crate) const LETTERS: usize = 257;

// The places of the rows, sorted by the spelling's second byte and then by the spelling.
pub(crate) fn sorted_places<const N: usize>(rows: &[OptionRow; N]) -> [u32; N]
    requires { N < 2 ^ 32 }
    ensures all { AreAllPlaces rows.now result }
    ensures sorted { AreSorted rows.now result }
{
    let mut places = listed_places::<N>();
    places.sort_unstable_by(
        |one: &u32, other: &u32| -> Ordering
            ensures { result ≡ slice_cmp nat_cmp (sort_key rows.entry.now one.now) (sort_key rows.entry.now other.now) }
        { compare(rows, *one, *other) },
    );
    places
}

// The places from 0 on.
fn listed_places<const N: usize>() -> [u32; N]
    requires { N < 2 ^ 32 }
    ensures len { length result ≡ N }
    ensures each { (k : ℕ) → k < N → slice_index result k ≡ k }
{
    let mut places = [0; N];
    for place in 0..N {
        places[place] = place as u32;
    }
    places
}

// The place at which the span of each second byte starts.
pub(crate) fn spans(rows: &[OptionRow], places: &[u32]) -> [u32; LETTERS]
    requires few { length places.now < 2 ^ 32 }
    requires sorted { AreSorted rows.now places.now }
    ensures { AreStarts rows.now places.now result }
{
    let mut starts = [0; LETTERS];
    for letter in 0..LETTERS {
        starts[letter] = start_of(rows, places, letter as u32);
    }
    starts
}

fn start_of(rows: &[OptionRow], places: &[u32], letter: u32) -> u32
    requires few { length places.now < 2 ^ 32 }
    requires sorted { AreSorted rows.now places.now }
    ensures { IsStart rows.now places.now letter result }
{
    let start = places.partition_point(
        |place: &u32| -> bool
            ensures { result ≡ nat_lt (letter_at rows.entry.now place.now) letter }
        { u32::from(letter_at(rows, *place)) < letter },
    );
    start as u32
}

// The places from the start of this letter to that of the next one.
pub(crate) fn span_of<'a>(places: &'a [u32], starts: &[u32], letter: u8) -> &'a [u32]
    requires letters { length starts.now ≡ 257 }
    requires order { slice_index starts.now letter ≤ slice_index starts.now (letter + 1) }
    requires within { slice_index starts.now (letter + 1) ≤ length places.now }
    ensures { result.now ≡ span_of places.now starts.now letter }
{
    let start = starts[letter as usize] as usize;
    let end = starts[letter as usize + 1] as usize;
    &places[start..end]
}

fn compare(rows: &[OptionRow], one: u32, other: u32) -> Ordering
    ensures { result ≡ slice_cmp nat_cmp (sort_key rows.now one) (sort_key rows.now other) }
{
    match letter_at(rows, one).cmp(&letter_at(rows, other)) {
        Ordering::Equal => spelling_at(rows, one).cmp(spelling_at(rows, other)),
        unequal => unequal,
    }
}

fn letter_at(rows: &[OptionRow], place: u32) -> u8
    ensures { result ≡ letter_at rows.now place }
{
    second_byte(spelling_at(rows, place))
}

/// The second byte of a text; 0 if there is none.
pub(crate) fn second_byte(text: &[u8]) -> u8
    ensures { result ≡ slice_index text.now 1 }
{
    match text.get(1) {
        Some(byte) => *byte,
        None => 0,
    }
}

fn spelling_at(rows: &[OptionRow], place: u32) -> &[u8]
    ensures { result.now ≡ spelling_at rows.now place }
{
    match rows.get(place as usize) {
        Some(row) => row.spelling.as_slice(),
        None => &[],
    }
}
