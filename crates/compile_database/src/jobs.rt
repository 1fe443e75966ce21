//! The words of the entries that are taken.

ghost use Rattle.std.specs.Prelude.{◌≡◌, ◌↔◌, map, IfOk, IfErr, IsTrue, All};
ghost use Rattle.std.specs.Str.{IsUtf8, is_utf8};
ghost use Rattle.std.specs.List.{list_all, slice_get};
ghost use Rattle.std.specs.Option.{option_map};
ghost use Rattle.serde_json.specs.View.{view};
ghost use Rattle.job_list.specs.Prints.{AreJobWords};
ghost use Rattle.compile_database.specs.Databases.{AreEntries, EntryAt, HasBadEntry, IsBadEntry, IsError};

use crate::entry::{NoWords, Unread, words_of};
use crate::fault::{DatabaseError, DatabaseFault};
use farm_types::{Jobs, Words};
use job_list::are_printable;
use serde_json::Value;
use std::alloc::Global;

fn is_text(word: &[u8]) -> bool
    ensures { IsTrue result ↔ IsUtf8 word.now }
{
    str::from_utf8(word).is_ok()
}

fn is_utf8(word: &[u8]) -> bool
    ensures { result ≡ is_utf8 word.now }
{
    is_text(word)
}

// Whether each word is UTF-8.
fn are_utf8(words: &Words) -> bool
    ensures { result ≡ list_all is_utf8 words.now }
{
    'each: for word in words.as_slice() {
        if !is_utf8(word.as_slice()) {
            return false;
        }
    }
    true
}

// Whether words can be a job.
fn can_be_job(words: &Words) -> bool
    ensures yes { IsTrue result → AreJobWords words.now }
    ensures no { AreJobWords words.now → IsTrue result }
{
    if words.is_empty() {
        return false;
    }
    if !are_printable(words) {
        return false;
    }
    are_utf8(words)
}

fn entry_at(entries: &[Value], place: usize) -> Option<&Value>
    ensures { option_map (λ v. view v.now) result ≡ slice_get (map view entries.now) place }
{
    entries.get(place)
}

// The words of the entry at a place, which can be a job.
fn job_at(alloc: Global, entries: &[Value], place: usize) -> Result<Words, DatabaseError>
    ensures words { IfOk result (EntryAt (map view entries.now) place) }
    ensures fault { IfErr result (IsError (IsBadEntry (map view entries.now) place)) }
{
    let entry = match entry_at(entries, place) {
        Some(entry) => entry,
        None => return Err(DatabaseError::Fault(DatabaseFault::NoForm { entry: place })),
    };
    let words = match words_of(alloc, entry) {
        Ok(words) => words,
        Err(Unread::Reason(NoWords::NoForm)) => {
            return Err(DatabaseError::Fault(DatabaseFault::NoForm { entry: place }));
        }
        Err(Unread::Reason(NoWords::OpenQuote)) => {
            return Err(DatabaseError::Fault(DatabaseFault::OpenQuote { entry: place }));
        }
        Err(Unread::Memory) => return Err(DatabaseError::Memory),
    };
    if words.is_empty() {
        return Err(DatabaseError::Fault(DatabaseFault::NoWords { entry: place }));
    }
    if can_be_job(&words) {
        Ok(words)
    } else {
        Err(DatabaseError::Fault(DatabaseFault::BadWord { entry: place }))
    }
}

/// The words of the entries at these places, in order.
pub(crate) fn jobs_at(
    alloc: Global,
    entries: &[Value],
    places: &[usize],
) -> Result<Jobs, DatabaseError>
    ensures jobs { IfOk result (AreEntries (map view entries.now) places.now) }
    ensures fault { IfErr result (IsError (HasBadEntry (map view entries.now) places.now)) }
{
    let mut jobs = Jobs::new(alloc);
    'each: for place in places {
        let job = job_at(alloc, entries, *place)?;
        jobs.try_push(job)?;
    }
    Ok(jobs)
}
