//! A circle of definitions that use one another.

ghost use Rattle.std.specs.Prelude.{◌≡◌, ◌<◌, ◌≤◌, ◌++◌, List, ℕ, drop, take, length, get_or, IfOk};
ghost use Rattle.sample_lang.specs.declared.program.Item.{Item};
ghost use Rattle.sample_linker.specs.Circles.{AllUsed, IsLeft, IsRound, EndsRound, IsLowest};
ghost use Rattle.sample_linker.specs.Indexes.{Indexes, names_of};
ghost use Rattle.sample_linker.specs.Orders.{Uses, IsCircle};
ghost use Rattle.sample_linker.specs.Runs.{number_in};

use crate::name_table::NameTable;
use crate::placing::code_of;
use crate::running::number_of;
use crate::waiting::{part_name, unknown_in};
use farm_types::{Bytes, Words};
use sample_lang::Item;
use std::alloc::{AllocError, Global};

/// A way along definitions, each of which uses the next, up to one that was met before.
#[derive(Drop)]
pub struct Walk {
    /// The names that were met, in order.
    pub(crate) path: Words,
    /// The place of the one that was met again.
    pub(crate) from: usize,
}

// A name that isn't placed in the code of a definition that is left.
fn next_left<'a>(
    table: &NameTable,
    placed: &NameTable,
    defined: &'a [Item],
    name: &[u8],
) -> &'a [u8]
    requires indexes { Indexes table.now (names_of defined.now) }
    requires used { AllUsed table.now defined.now }
    requires left { IsLeft table.now placed.now defined.now name.now }
    ensures uses { Uses defined.now name.now result.now }
    ensures left { IsLeft table.now placed.now defined.now result.now }
{
    let place = table.find(name).unwrap_or(0) as usize;
    let code = code_of(&defined[place]);
    let found = unknown_in(placed, code, 0).unwrap_or(0);
    part_name(&code[found])
}

// Goes from a definition that is left to one that it uses and that is left, until one is met again.
fn find_round(
    alloc: Global,
    table: &NameTable,
    placed: &NameTable,
    defined: &[Item],
    start: &[u8],
) -> Result<Walk, AllocError>
    requires indexes { Indexes table.now (names_of defined.now) }
    requires used { AllUsed table.now defined.now }
    requires left { IsLeft table.now placed.now defined.now start.now }
    ensures { IfOk result (EndsRound defined.now) }
{
    let mut path = Words::new(alloc);
    let mut met = NameTable::new(alloc);
    let mut at = start;
    'walking: while met.find(at).is_none() {
        met.try_add(at, path.len() as u64)?;
        path.try_push(Bytes::from_slice(alloc, at)?)?;
        at = next_left(table, placed, defined, at);
    }
    let from = met.find(at).unwrap_or(0) as usize;
    Ok(Walk { path, from })
}

// The place of the name with the lowest number.
fn lowest(table: &NameTable, names: &[Bytes]) -> usize
    requires { 0 < length names.now }
    ensures { IsLowest table.now names.now result }
{
    let mut lowest = 0;
    for (at, name) in names.iter().enumerate() {
        if number_of(table, name.as_slice()) < number_of(table, names[lowest].as_slice()) {
            lowest = at;
        }
    }
    lowest
}

/// A circle, beginning with the name that is defined first. The name is one of a definition that is left, if none can be placed.
pub fn circle_from(
    alloc: Global,
    table: &NameTable,
    placed: &NameTable,
    defined: &[Item],
    name: &[u8],
) -> Result<Words, AllocError>
    requires indexes { Indexes table.now (names_of defined.now) }
    requires used { AllUsed table.now defined.now }
    requires left { IsLeft table.now placed.now defined.now name.now }
    ensures { IfOk result (IsCircle defined.now) }
{
    let Walk { path, from } = find_round(alloc, table, placed, defined, name)?;
    let mut names = path.into_vec().split_off(from)?;
    let first = lowest(table, names.as_slice());
    names.rotate_left(first);
    Ok(Words::from_vec(names))
}
