//! Who waits for whom, while definitions are placed.

ghost use Rattle.std.specs.Prelude.{◌≡◌, ◌<◌, ◌⊎◌, ℕ, List, drop, true, false, Some, IfSome, IfNone, OnOk, length, get_or};
ghost use Rattle.std.specs.List.{list_all};
ghost use Rattle.sample_lang.specs.declared.program.Item.{Item};
ghost use Rattle.sample_lang.specs.declared.program.Part.TheVariants as parts;
ghost use Rattle.sample_linker.specs.Files as files;
ghost use Rattle.sample_linker.specs.Reads.{Lists};
ghost use Rattle.sample_linker.specs.Tables.{place_in};
ghost use Rattle.sample_linker.specs.Waits.{Has, Awaits, Wakes};

use crate::file::is_known;
use crate::name_table::NameTable;
use sample_lang::Part;
use std::alloc::{AllocError, Global};
use std::collections::BTreeSet;
use std::mem;

// The place in a code, from this place on, of the first name that isn't in the table.
fn unknown_from(table: &NameTable, code: &[Part], from: usize) -> Option<usize>
    ensures bound { IfSome result (λ at. at < length code.now) }
    ensures some { (items : List Item) → Lists table.now items → IfSome result (λ at. files.is_known items (get_or code.now at parts.Add) ≡ false) }
    ensures none { (items : List Item) → Lists table.now items → IfNone result (list_all (files.is_known items) (drop from code.now) ≡ true) }
{
    let mut at = from;
    'looking: while at < code.len() {
        if !is_known(table, &code[at]) {
            return Some(at);
        }
        at += 1;
    }
    None
}

/// The place in a code of a name that isn't in the table. It begins to look at this place, and looks at the places before it if it finds none.
pub fn unknown_in(table: &NameTable, code: &[Part], from: usize) -> Option<usize>
    ensures bound { IfSome result (λ at. at < length code.now) }
    ensures some { (items : List Item) → Lists table.now items → IfSome result (λ at. files.is_known items (get_or code.now at parts.Add) ≡ false) }
    ensures none { (items : List Item) → Lists table.now items → IfNone result (list_all (files.is_known items) code.now ≡ true) }
{
    match unknown_from(table, code, from) {
        Some(at) => Some(at),
        None => unknown_from(table, code, 0),
    }
}

/// The name that a part of a code is.
pub fn part_name(part: &Part) -> &[u8]
    ensures { (items : List Item) → files.is_known items part.now ≡ false → part.now ≡ parts.Name result.now }
{
    match part {
        Part::Name(name) => name.as_slice(),
        _ => &[],
    }
}

// Adds a number to the list at a place.
fn add_waiter(lists: &mut [Vec<usize>], place: usize, at: usize) -> Result<(), AllocError>
    requires { place < length lists.old }
    ensures len { length lists.new ≡ length lists.old }
    ensures added { OnOk result (Awaits lists.new place at) }
    ensures kept { OnOk result ((other n : ℕ) → Awaits lists.old other n → Awaits lists.new other n) }
{
    lists[place].push(at)?;
    Ok(())
}

// Takes the list at a place.
fn take_waiters(alloc: Global, lists: &mut [Vec<usize>], place: usize) -> Vec<usize>
    requires { place < length lists.old }
    ensures len { length lists.new ≡ length lists.old }
    ensures taken { (n : ℕ) → Awaits lists.old place n → Has result.items n }
    ensures kept { (other n : ℕ) → Awaits lists.old other n → Has result.items n ⊎ Awaits lists.new other n }
{
    mem::replace(&mut lists[place], Vec::new(alloc))
}

/// Adds a number to a set.
pub fn add_number(set: &mut BTreeSet<usize>, number: usize) -> Result<(), AllocError>
    ensures added { OnOk result (Has set.new.keys number) }
    ensures kept { OnOk result ((n : ℕ) → Has set.old.keys n → Has set.new.keys n) }
{
    set.insert(number)?;
    Ok(())
}

// Adds numbers to a set.
fn add_numbers(set: &mut BTreeSet<usize>, numbers: &[usize]) -> Result<(), AllocError>
    ensures added { OnOk result ((n : ℕ) → Has numbers.now n → Has set.new.keys n) }
    ensures kept { OnOk result ((n : ℕ) → Has set.old.keys n → Has set.new.keys n) }
{
    for number in numbers {
        add_number(set, *number)?;
    }
    Ok(())
}

/// Lets a number wait at the place of a name.
pub fn wait_for(
    table: &NameTable,
    lists: &mut [Vec<usize>],
    name: &[u8],
    at: usize,
) -> Result<(), AllocError>
    requires { (place : ℕ) → place_in table.now name.now ≡ Some place → place < length lists.old }
    ensures len { length lists.new ≡ length lists.old }
    ensures waits { OnOk result ((place : ℕ) → place_in table.now name.now ≡ Some place → Awaits lists.new place at) }
    ensures kept { OnOk result ((other n : ℕ) → Awaits lists.old other n → Awaits lists.new other n) }
{
    if let Some(place) = table.find(name) {
        add_waiter(lists, place as usize, at)?;
    }
    Ok(())
}

/// Moves what waits at the place of a name to a set.
pub fn wake(
    alloc: Global,
    table: &NameTable,
    lists: &mut [Vec<usize>],
    set: &mut BTreeSet<usize>,
    name: &[u8],
) -> Result<(), AllocError>
    requires { (place : ℕ) → place_in table.now name.now ≡ Some place → place < length lists.old }
    ensures len { length lists.new ≡ length lists.old }
    ensures wakes { OnOk result ((place : ℕ) → place_in table.now name.now ≡ Some place → Wakes lists.old lists.new set.old.keys set.new.keys place) }
{
    if let Some(place) = table.find(name) {
        let woken = take_waiters(alloc, lists, place as usize);
        add_numbers(set, woken.as_slice())?;
    }
    Ok(())
}
