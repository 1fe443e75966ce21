//! The order in which definitions are placed, each after those that it uses.

ghost use Rattle.std.specs.Prelude.{◌≡◌, ◌<◌, ◌++◌, ◌∷◌, ℕ, List, [], Some, None, true, OnOk, IfOk, length};
ghost use Rattle.std.specs.List.{Contains};
ghost use Rattle.std.specs.Option.{is_some};
ghost use Rattle.sample_lang.specs.declared.program.Item.{Item};
ghost use Rattle.sample_lang.specs.Names as names;
ghost use Rattle.sample_compiler.specs.Objects.{item_line};
ghost use Rattle.sample_linker.specs.Circles.{AllUsed};
ghost use Rattle.sample_linker.specs.Links.{image_of};
ghost use Rattle.sample_linker.specs.Reads.{Lists};
ghost use Rattle.sample_linker.specs.Tables.{place_in};
ghost use Rattle.sample_linker.specs.Waits.{Has, Awaits, Wakes, Settled, PlacedSo};

use crate::file::name_of;
use crate::name_table::NameTable;
use crate::waiting::{add_number, part_name, unknown_in, wait_for, wake};
use farm_types::Bytes;
use sample_compiler::put_item;
use sample_lang::{Item, Part};
use std::alloc::{AllocError, Global};
use std::collections::BTreeSet;

/// How far definitions were placed.
#[derive(Drop)]
pub struct Progress {
    /// The names that were placed.
    pub(crate) placed: NameTable,
    /// The image of what was placed.
    pub(crate) text: Bytes,
    /// Which definitions wait for each.
    pub(crate) waiters: Vec<Vec<usize>>,
    /// Those that are to be looked at.
    pub(crate) seen: BTreeSet<usize>,
    /// For each code, the place in it of the name for which it waited last.
    pub(crate) passed: Vec<usize>,
}

/// The code of an item.
pub fn code_of(item: &Item) -> &[Part]
    ensures { result.now ≡ names.code_of item.now }
{
    match item {
        Item::Def { code, .. } => code.as_slice(),
        Item::Extern(_) => &[],
    }
}

impl Progress {
    /// Nothing is placed, and all definitions are to be looked at.
    pub fn new(alloc: Global, count: usize) -> Result<Progress, AllocError>
        ensures placed { IfOk result (λ made. (name : List ℕ) → place_in made.placed name ≡ None) }
        ensures text { IfOk result (λ made. made.text ≡ image_of []) }
        ensures len { IfOk result (λ made. length made.waiters.items ≡ count) }
        ensures seen { IfOk result (λ made. (at : ℕ) → at < count → Has made.seen.keys at) }
    {
        let mut waiters = Vec::new(alloc);
        let mut seen = BTreeSet::new(alloc);
        for at in 0..count {
            waiters.push(Vec::new(alloc))?;
            add_number(&mut seen, at)?;
        }
        Ok(Progress {
            placed: NameTable::new(alloc),
            text: Bytes::from_slice(alloc, b"SCP1\n")?,
            waiters,
            seen,
            passed: vec![in alloc; 0; count]?,
        })
    }
}

// Places a definition, and wakes those that wait for it.
fn place(
    alloc: Global,
    table: &NameTable,
    progress: &mut Progress,
    item: &Item,
) -> Result<(), AllocError>
    requires { (place : ℕ) → place_in table.now (names.name_of item.now) ≡ Some place → place < length progress.old.waiters.items }
    ensures len { length progress.new.waiters.items ≡ length progress.old.waiters.items }
    ensures lists { OnOk result ((items : List Item) → Lists progress.old.placed items → Lists progress.new.placed (items ++ item.now ∷ [])) }
    ensures text { OnOk result (progress.new.text ≡ progress.old.text ++ item_line item.now) }
    ensures wakes { OnOk result ((place : ℕ) → place_in table.now (names.name_of item.now) ≡ Some place
        → Wakes progress.old.waiters.items progress.new.waiters.items progress.old.seen.keys progress.new.seen.keys place) }
{
    let name = name_of(item);
    progress.placed.try_add(name, 0)?;
    put_item(alloc, &mut progress.text, item)?;
    wake(
        alloc,
        table,
        progress.waiters.as_mut_slice(),
        &mut progress.seen,
        name,
    )
}

// Notes the place up to which a code was read.
fn note_place(passed: &mut Vec<usize>, at: usize, found: usize) {
    if let Some(place) = passed.get_mut(at) {
        *place = found;
    }
}

// Lets a definition wait for a name, which is at this place in its code.
fn let_wait(
    table: &NameTable,
    progress: &mut Progress,
    name: &[u8],
    at: usize,
    found: usize,
) -> Result<(), AllocError>
    requires { (place : ℕ) → place_in table.now name.now ≡ Some place → place < length progress.old.waiters.items }
    ensures len { length progress.new.waiters.items ≡ length progress.old.waiters.items }
    ensures placed { progress.new.placed ≡ progress.old.placed }
    ensures text { progress.new.text ≡ progress.old.text }
    ensures seen { progress.new.seen ≡ progress.old.seen }
    ensures waits { OnOk result ((place : ℕ) → place_in table.now name.now ≡ Some place → Awaits progress.new.waiters.items place at) }
    ensures kept { OnOk result ((other n : ℕ) → Awaits progress.old.waiters.items other n → Awaits progress.new.waiters.items other n) }
{
    note_place(&mut progress.passed, at, found);
    wait_for(table, progress.waiters.as_mut_slice(), name, at)?;
    Ok(())
}

/// Looks at the definition at a place: it was placed, or it waits for one that wasn't, or it is placed.
pub fn look_at(
    alloc: Global,
    table: &NameTable,
    defined: &[Item],
    progress: &mut Progress,
    at: usize,
) -> Result<(), AllocError>
    requires bound { (name : List ℕ) (place : ℕ) → place_in table.now name ≡ Some place → place < length progress.old.waiters.items }
    requires own { (item : Item) → Contains defined.now item → is_some (place_in table.now (names.name_of item)) ≡ true }
    requires used { AllUsed table.now defined.now }
    ensures len { length progress.new.waiters.items ≡ length progress.old.waiters.items }
    ensures steps { OnOk result ((placed : List Item) → PlacedSo progress.old.placed progress.old.text placed defined.now
        → Settled table.now progress.old.waiters.items (at ∷ progress.old.seen.keys) placed defined.now
        → ((k : ℕ) → Has progress.old.seen.keys k → at < k)
        → (more : List Item) × PlacedSo progress.new.placed progress.new.text more defined.now
        × Settled table.now progress.new.waiters.items progress.new.seen.keys more defined.now) }
{
    if at >= defined.len() {
        return Ok(());
    }
    let item = &defined[at];
    if progress.placed.find(name_of(item)).is_some() {
        return Ok(());
    }
    let code = code_of(item);
    let from = progress.passed.get(at).copied().unwrap_or(0);
    match unknown_in(&progress.placed, code, from) {
        Some(found) => let_wait(table, progress, part_name(&code[found]), at, found)?,
        None => place(alloc, table, progress, item)?,
    }
    Ok(())
}
