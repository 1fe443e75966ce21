//! The order of an image.

ghost use Rattle.std.specs.Prelude.{ℕ, ◌≡◌, ◌<◌, List, [], false, true, length, All, Some, OnOk, IfOk, IfErr, IfSome, IfNone};
ghost use Rattle.std.specs.List.{Contains};
ghost use Rattle.std.specs.Option.{is_some};
ghost use Rattle.sample_lang.specs.declared.program.Item.{Item};
ghost use Rattle.sample_lang.specs.Names as names;
ghost use Rattle.sample_lang.specs.Names.{is_named};
ghost use Rattle.sample_linker.specs.declared.faults.Linked.TheVariants.{Image};
ghost use Rattle.sample_linker.specs.Circles.{AllUsed, IsCircularStop};
ghost use Rattle.sample_linker.specs.Indexes.{Indexes, names_of};
ghost use Rattle.sample_linker.specs.Links.{OrderedTo};
ghost use Rattle.sample_linker.specs.Tables.{place_in};
ghost use Rattle.sample_linker.specs.Waits.{Settled, PlacedSo};

use crate::circle::circle_from;
use crate::faults::{LinkFault, LinkStop};
use crate::file::name_of;
use crate::name_table::NameTable;
use crate::placing::{Progress, look_at};
use farm_types::Bytes;
use sample_lang::Item;
use std::alloc::{AllocError, Global};

// Looks at definitions until none is to be looked at: each is placed then, or waits.
fn place_all(
    alloc: Global,
    table: &NameTable,
    defined: &[Item],
    progress: &mut Progress,
) -> Result<(), AllocError>
    requires bound { (name : List ℕ) (place : ℕ) → place_in table.now name ≡ Some place → place < length progress.old.waiters.items }
    requires own { (item : Item) → Contains defined.now item → is_some (place_in table.now (names.name_of item)) ≡ true }
    requires used { AllUsed table.now defined.now }
    ensures { OnOk result ((placed : List Item) → PlacedSo progress.old.placed progress.old.text placed defined.now
        → Settled table.now progress.old.waiters.items progress.old.seen.keys placed defined.now
        → (more : List Item) × PlacedSo progress.new.placed progress.new.text more defined.now
        × Settled table.now progress.new.waiters.items [] more defined.now) }
{
    for _turn in 0..u64::MAX {
        match progress.seen.pop_first() {
            Some(at) => look_at(alloc, table, defined, progress, at)?,
            None => return Ok(()),
        }
    }
    // No memory holds that many names.
    Err(AllocError)
}

// The name of the first definition that isn't placed.
fn first_left<'a>(placed: &NameTable, defined: &'a [Item]) -> Option<&'a [u8]>
    ensures left { IfSome result (λ name. is_some (place_in placed.now name.now) ≡ false) }
    ensures defined { IfSome result (λ name. is_named defined.now name.now ≡ true) }
    ensures none { IfNone result (All (λ item. is_some (place_in placed.now (names.name_of item)) ≡ true) defined.now) }
{
    for item in defined {
        if placed.find(name_of(item)).is_none() {
            return Some(name_of(item));
        }
    }
    None
}

/// The image of definitions, or a circle of them.
pub fn place_definitions(
    alloc: Global,
    table: &NameTable,
    defined: &[Item],
) -> Result<Bytes, LinkStop>
    requires indexes { Indexes table.now (names_of defined.now) }
    requires used { AllUsed table.now defined.now }
    ensures ok { IfOk result (λ image. OrderedTo defined.now (Image image)) }
    ensures err { IfErr result (IsCircularStop defined.now) }
{
    let mut progress = Progress::new(alloc, defined.len())?;
    place_all(alloc, table, defined, &mut progress)?;
    match first_left(&progress.placed, defined) {
        Some(name) => {
            let names = circle_from(alloc, table, &progress.placed, defined, name)?;
            Err(LinkStop::Fault(LinkFault::Circular { names }))
        }
        None => Ok(progress.text),
    }
}
