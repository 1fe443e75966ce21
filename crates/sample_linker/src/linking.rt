//! The linker.

ghost use Rattle.std.specs.Prelude.{ℕ, ◌≡◌, ◌++◌, ◌∷◌, List, [], Ok, None, Some, false, if◌then◌else◌, map, IfOk, IfErr, OnOk};
ghost use Rattle.std.specs.Str.{bytes_eq};
ghost use Rattle.sample_lang.specs.declared.program.Item.{Item};
ghost use Rattle.sample_lang.specs.Names.{is_named};
ghost use Rattle.sample_lang.specs.Names as names;
ghost use Rattle.sample_compiler.specs.Objects.{items_text};
ghost use Rattle.sample_linker.specs.declared.faults.Linked.TheVariants as linked;
ghost use Rattle.sample_linker.specs.declared.kind.Kind.TheVariants as kinds;
ghost use Rattle.sample_linker.specs.Sources.{AreSources, Promised, together};
ghost use Rattle.sample_linker.specs.Files.{file_items, objects_items};
ghost use Rattle.sample_linker.specs.Indexes.{Indexes, names_of};
ghost use Rattle.sample_linker.specs.Links as links;
ghost use Rattle.sample_linker.specs.Links.{doubled, unresolved, IsLinked, LinkTo};
ghost use Rattle.sample_linker.specs.Reads.{Lists};
ghost use Rattle.sample_linker.specs.Stops.{IsFileStop, IsObjectStop, IsNamedStop, IsDoubledStop, IsUnresolvedStop, IsLinkStop};
ghost use Rattle.sample_linker.specs.Tables.{place_in};

use crate::faults::{LinkFault, LinkStop, Linked};
use crate::file::{ReadStop, name_of, read_file};
use crate::kind::Kind;
use crate::name_table::NameTable;
use crate::ordering::place_definitions;
use farm_types::{Bytes, Words};
use sample_lang::{Item, SampleFile};
use std::alloc::{AllocError, Global};

// Reads an object, which has this number.
fn read_object(alloc: Global, file: u64, object: &[u8]) -> Result<SampleFile, LinkStop>
    ensures ok { IfOk result (λ items. file_items kinds.Object object.now ≡ Ok items) }
    ensures err { IfErr result (λ stop. IsFileStop file (file_items kinds.Object object.now) stop) }
{
    match read_file(alloc, Kind::Object, object) {
        Ok(items) => Ok(items),
        Err(ReadStop::BadLine(line)) => Err(LinkStop::Fault(LinkFault::BadObject { file, line })),
        Err(ReadStop::Memory) => Err(LinkStop::Memory),
    }
}

// Puts items after others.
fn add_items(items: &mut Vec<Item>, more: SampleFile) -> Result<(), AllocError>
    ensures { OnOk result (items.new.items ≡ items.old.items ++ more) }
{
    let mut more = more.into_vec();
    items.append(&mut more)
}

// The items of all objects.
fn read_objects(alloc: Global, objects: &[Bytes]) -> Result<Vec<Item>, LinkStop>
    ensures ok { IfOk result (λ items. objects_items [] 1 objects.now ≡ Ok items.items) }
    ensures err { IfErr result (λ stop. IsObjectStop (objects_items [] 1 objects.now) stop) }
{
    let mut items = Vec::new(alloc);
    let mut file = 1;
    for object in objects {
        let more = read_object(alloc, file, object.as_slice())?;
        add_items(&mut items, more)?;
        file += 1;
    }
    Ok(items)
}

// Whether an item is a definition.
fn is_definition(item: &Item) -> bool
    ensures { result ≡ links.is_definition item.now }
{
    matches!(item, Item::Def { .. })
}

// Gives the name of an item a place, if it has none.
fn place_item(alloc: Global, table: &mut NameTable, item: &Item, place: u64) -> Result<(), LinkStop>
    ensures ok { OnOk result ((items : List Item) → Lists table.old items
        → (is_named items (names.name_of item.now) ≡ false) × Lists table.new (items ++ item.now ∷ [])) }
    ensures number { OnOk result ((other : List ℕ) → place_in table.new other
        ≡ (if bytes_eq (names.name_of item.now) other then Some place else place_in table.old other)) }
    ensures err { IfErr result (λ stop. (items : List Item) → Lists table.old items → IsNamedStop items (names.name_of item.now) stop) }
{
    let name = name_of(item);
    if table.find(name).is_some() {
        let name = Bytes::from_slice(alloc, name)?;
        return Err(LinkStop::Fault(LinkFault::Doubled { name }));
    }
    table.try_add(name, place)?;
    Ok(())
}

// The places of the definitions by their names, if none is defined twice.
fn place_names(alloc: Global, items: &[Item]) -> Result<NameTable, LinkStop>
    ensures once { OnOk result (doubled [] (links.definitions items.now) ≡ None) }
    ensures lists { IfOk result (λ table. Lists table (links.definitions items.now)) }
    ensures indexes { IfOk result (λ table. Indexes table (names_of (links.definitions items.now))) }
    ensures err { IfErr result (λ stop. IsDoubledStop (doubled [] (links.definitions items.now)) stop) }
{
    let mut table = NameTable::new(alloc);
    let mut place = 0;
    for item in items {
        if is_definition(item) {
            place_item(alloc, &mut table, item, place)?;
            place += 1;
        }
    }
    Ok(table)
}

// Sees that an item is a definition, or a need that is met.
fn meet_need(table: &NameTable, item: &Item) -> Result<(), LinkStop>
    ensures ok { OnOk result ((defined : List Item) → Lists table.now defined → unresolved defined (item.now ∷ []) ≡ None) }
    ensures err { IfErr result (λ stop. (defined : List Item) → Lists table.now defined → IsUnresolvedStop (unresolved defined (item.now ∷ [])) stop) }
{
    if let Item::Extern(name) = item {
        if table.find(name.as_slice()).is_none() {
            let name = name.copy()?;
            return Err(LinkStop::Fault(LinkFault::Unresolved { name }));
        }
    }
    Ok(())
}

// Sees that each need is met.
fn meet_needs(table: &NameTable, items: &[Item]) -> Result<(), LinkStop>
    requires lists { Lists table.now (links.definitions items.now) }
    ensures met { OnOk result (unresolved (links.definitions items.now) items.now ≡ None) }
    ensures err { IfErr result (λ stop. IsUnresolvedStop (unresolved (links.definitions items.now) items.now) stop) }
{
    for need in items {
        meet_need(table, need)?;
    }
    Ok(())
}

// Leaves the definitions only.
fn leave_definitions(items: &mut Vec<Item>)
    ensures { items.new.items ≡ links.definitions items.old.items }
{
    items.retain(|item| is_definition(item));
}

// Links, up to the first fault.
fn make_image(alloc: Global, objects: &[Bytes]) -> Result<Bytes, LinkStop>
    ensures ok { IfOk result (λ image. LinkTo objects.now (linked.Image image)) }
    ensures err { IfErr result (IsLinkStop objects.now) }
{
    let mut items = read_objects(alloc, objects)?;
    let table = place_names(alloc, items.as_slice())?;
    meet_needs(&table, items.as_slice())?;
    leave_definitions(&mut items);
    place_definitions(alloc, &table, items.as_slice())
}

/// Links objects: their definitions in one image, each after those that it uses, or the first fault (docs/sample-linker.md).
pub fn link(alloc: Global, objects: &Words) -> Linked
    ensures linked { IsLinked objects.now result }
    ensures sources { (texts : List (List ℕ)) (files : List (List Item)) → AreSources texts files → objects.now ≡ map items_text files
        → Promised texts (together files) result }
{
    match make_image(alloc, objects.as_slice()) {
        Ok(image) => Linked::Image(image),
        Err(LinkStop::Fault(fault)) => Linked::Fault(fault),
        Err(LinkStop::Memory) => Linked::Memory,
    }
}
