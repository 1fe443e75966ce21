//! Which entries of a compile database are taken.

ghost use Rattle.std.specs.Prelude.{◌≡◌, map, MatchOption, IfOk, drop};
ghost use Rattle.std.specs.Option.{option_copied};
ghost use Rattle.serde_json.specs.View.{view};
ghost use Rattle.compile_database.specs.Choices as choices;
ghost use Rattle.compile_database.specs.Choices.{IsFirst, NoneIs, is_in, is_out, is_placeless, places, at_most, chosen_folder, taken};
ghost use Rattle.compile_database.specs.Selections.{choice_of};

use crate::entry::folder_of;
use farm_types::Items;
use serde_json::Value;
use std::alloc::{AllocError, Global};

/// Which entries of a compile database are taken.
#[derive(Clone, Copy, Debug, PartialEq, Eq)]
pub struct Selection<'a> {
    /// The folder whose entries are taken. If none is named, all entries have to be of one folder.
    pub folder: Option<&'a str>,
    /// How many of these are passed over first.
    pub from: usize,
    /// How many are taken at most after those.
    pub count: Option<usize>,
}

// Whether this is the folder.
fn is_folder(folder: &str, other: Option<&str>) -> bool
    ensures { result ≡ choices.is_folder folder.now (option_copied other.entry) }
{
    match other {
        Some(other) => other == folder,
        None => false,
    }
}

// Whether an entry is of this folder.
fn is_in(folder: &str, entry: &Value) -> bool
    ensures { result ≡ is_in folder.now (view entry.now) }
{
    is_folder(folder, folder_of(entry))
}

/// The place of the first entry without a folder.
pub(crate) fn first_placeless(entries: &[Value]) -> Option<usize>
    ensures { MatchOption result (NoneIs is_placeless (map view entries.now))
        (IsFirst is_placeless (map view entries.now)) }
{
    'each: for (at, entry) in entries.iter().enumerate() {
        if folder_of(entry).is_none() {
            return Some(at);
        }
    }
    None
}

/// The place of the first entry that isn't of this folder.
pub(crate) fn first_out(folder: &str, entries: &[Value]) -> Option<usize>
    ensures { MatchOption result (NoneIs (is_out folder.now) (map view entries.now))
        (IsFirst (is_out folder.now) (map view entries.now)) }
{
    'each: for (at, entry) in entries.iter().enumerate() {
        if !is_in(folder, entry) {
            return Some(at);
        }
    }
    None
}

// The places of the entries of a folder.
fn places_in(alloc: Global, folder: &str, entries: &[Value]) -> Result<Items<usize>, AllocError>
    ensures { IfOk result (λ found. found ≡ places (is_in folder.now) (map view entries.now)) }
{
    let mut found = Items::new(alloc);
    'each: for (at, entry) in entries.iter().enumerate() {
        if is_in(folder, entry) {
            found.try_push(at)?;
        }
    }
    Ok(found)
}

/// The folder whose entries are taken: that of the selection, or else that of the first entry.
pub(crate) fn chosen_folder<'a>(selection: &Selection<'a>, entries: &'a [Value]) -> Option<&'a str>
    ensures { option_copied result ≡ chosen_folder (choice_of selection.now).folder (map view entries.now) }
{
    match selection.folder {
        Some(folder) => Some(folder),
        None => match entries.first() {
            Some(entry) => folder_of(entry),
            None => None,
        },
    }
}

// At most that many of these places.
fn at_most(places: &[usize], count: Option<usize>) -> &[usize]
    ensures { result.now ≡ at_most count places.now }
{
    match count {
        Some(count) => &places[..count.min(places.len())],
        None => places,
    }
}

/// The places of the entries that are taken, if this is their folder.
pub(crate) fn taken(
    alloc: Global,
    selection: &Selection<'_>,
    folder: &str,
    entries: &[Value],
) -> Result<Items<usize>, AllocError>
    ensures { IfOk result (λ found. found ≡ taken (choice_of selection.now) folder.now (map view entries.now)) }
{
    let all = places_in(alloc, folder, entries)?;
    let places = all.as_slice();
    let rest = &places[selection.from.min(places.len())..];
    let part = at_most(rest, selection.count);
    let mut found = Items::new(alloc);
    'each: for place in part {
        found.try_push(*place)?;
    }
    Ok(found)
}
