//! The job list of a compile database.

ghost use Rattle.std.specs.Prelude.{◌≡◌, map, IfOk, IfErr, MatchOption};
ghost use Rattle.std.specs.Option.{option_copied};
ghost use Rattle.serde_json.specs.View.{view};
ghost use Rattle.compile_database.specs.Choices.{taken};
ghost use Rattle.compile_database.specs.Selections.{choice_of};
ghost use Rattle.compile_database.specs.Databases.{ArePlaces, EntriesFault, FaultStands, FolderIs, IsError, ListOf};
ghost use Rattle.compile_database.specs.Parts.{ListOfEntries};

use crate::choice::{Selection, chosen_folder, first_out, first_placeless, taken};
use crate::fault::{DatabaseError, DatabaseFault};
use crate::jobs::jobs_at;
use crate::listing::list_of;
use farm_types::limits::JOBS_MAX;
use farm_types::{Bytes, Items};
use serde_json::Value;
use std::alloc::Global;

// The folder whose entries are taken.
fn folder_of<'a>(selection: &Selection<'a>, entries: &'a [Value]) -> Result<&'a str, DatabaseError>
    ensures folder { IfOk result (λ folder. FolderIs (choice_of selection.now) (map view entries.now) folder.now) }
    ensures fault { IfErr result (IsError (EntriesFault (choice_of selection.now) (map view entries.now))) }
{
    if let Some(entry) = first_placeless(entries) {
        return Err(DatabaseError::Fault(DatabaseFault::NoFolder { entry }));
    }
    let Some(folder) = chosen_folder(selection, entries) else {
        return Err(DatabaseError::Fault(DatabaseFault::NoEntries));
    };
    if selection.folder.is_none() {
        if let Some(entry) = first_out(folder, entries) {
            return Err(DatabaseError::Fault(DatabaseFault::OtherFolder { entry }));
        }
    }
    Ok(folder)
}

// The places of the entries that are taken, 1 to 512.
fn places_of(
    alloc: Global,
    selection: &Selection<'_>,
    entries: &[Value],
) -> Result<Items<usize>, DatabaseError>
    ensures places { IfOk result (ArePlaces (choice_of selection.now) (map view entries.now)) }
    ensures fault { IfErr result (IsError (EntriesFault (choice_of selection.now) (map view entries.now))) }
{
    let folder = folder_of(selection, entries)?;
    let places = taken(alloc, selection, folder, entries)?;
    if places.is_empty() {
        return Err(DatabaseError::Fault(DatabaseFault::NoEntries));
    }
    if let Some(entry) = places.get(JOBS_MAX) {
        return Err(DatabaseError::Fault(DatabaseFault::TooMany { entry: *entry }));
    }
    Ok(places)
}

// The job list of entries.
fn list_of_entries(
    alloc: Global,
    selection: &Selection<'_>,
    entries: &[Value],
) -> Result<Bytes, DatabaseError>
    ensures list { IfOk result (ListOfEntries (choice_of selection.now) (map view entries.now)) }
    ensures fault { IfErr result (IsError (EntriesFault (choice_of selection.now) (map view entries.now))) }
{
    let places = places_of(alloc, selection, entries)?;
    let jobs = jobs_at(alloc, entries, places.as_slice())?;
    list_of(alloc, &jobs)
}

/// The job list of the entries of a compile database that a selection takes: one line an entry, in their order, whose words
/// are exactly the entry's. Instead of any result, memory may run out.
pub fn job_list_of(
    alloc: Global,
    text: &[u8],
    selection: &Selection<'_>,
) -> Result<Bytes, DatabaseError>
    ensures list { IfOk result (ListOf (choice_of selection.now) text.now) }
    ensures fault { IfErr result (IsError (FaultStands (choice_of selection.now) text.now)) }
{
    let value = match Value::from_slice(alloc, text) {
        Ok(value) => value,
        Err(error) if error.is_memory() => return Err(DatabaseError::Memory),
        Err(_) => return Err(DatabaseError::Fault(DatabaseFault::NotJson)),
    };
    match value.as_array() {
        Some(entries) => list_of_entries(alloc, selection, entries.as_slice()),
        None => Err(DatabaseError::Fault(DatabaseFault::NotArray)),
    }
}
