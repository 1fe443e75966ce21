//! The runner.

ghost use Rattle.std.specs.Prelude.{◌≡◌, List, [], ◌∷◌, ◌++◌, Some, IfOk, OnOk};
ghost use Rattle.sample_lang.specs.declared.program.Item.{Item};
ghost use Rattle.sample_lang.specs.Names.{AreDeclared};
ghost use Rattle.sample_lang.specs.Values.{on_two, stack_behind};
ghost use Rattle.sample_linker.specs.declared.kind.Kind.TheVariants as kinds;
ghost use Rattle.sample_linker.specs.Right.{AreRightItems};
ghost use Rattle.sample_linker.specs.Runs as runs;
ghost use Rattle.sample_linker.specs.Runs.{number_in, Leaves, only_behind, Holds, MayFollow};
ghost use Rattle.sample_linker.specs.Values.{ItemsHaveValue, IsValue};

use crate::file::{ReadStop, read_file};
use crate::kind::Kind;
use crate::name_table::NameTable;
use crate::stack::Stack;
use farm_types::Bytes;
use sample_lang::{Item, Part};
use std::alloc::{AllocError, Global};

/// What is wrong with an image that is run.
#[derive(Clone, Copy, Debug, PartialEq, Eq, Drop)]
pub enum RunFault {
    /// This line isn't right, counted from 1.
    BadImage { line: u64 },
    /// No line defines `main`.
    NoMain,
}

/// What running gives.
#[derive(Clone, Copy, Debug, PartialEq, Eq, Drop)]
pub enum Value {
    /// The number of `main`.
    Number(u64),
    Fault(RunFault),
    /// Memory ran out.
    Memory,
}

/// The name whose number is asked for.
const MAIN: &[u8] = b"main";

/// The number of a name, or 0 if it has none.
pub fn number_of(numbers: &NameTable, name: &[u8]) -> u64
    ensures { result ≡ number_in numbers.now name.now }
{
    numbers.find(name).unwrap_or(0)
}

// What an operator makes of two numbers, modulo 2 to the 64.
fn combined(operator: &Part, left: u64, right: u64) -> u64
    ensures { result ≡ runs.combine operator.now left right }
{
    match operator {
        Part::Add => left.wrapping_add(right),
        Part::Sub => left.wrapping_sub(right),
        _ => left.wrapping_mul(right),
    }
}

// Runs an operator on the stack. It returns whether it found its operands.
fn run_operator(operator: &Part, stack: &mut Stack) -> Result<bool, AllocError>
    ensures { IfOk result (λ ran. Leaves (on_two (runs.combine operator.now) stack.old (λ s. Some s)) ran stack.new) }
{
    let Some(right) = stack.pop() else {
        return Ok(false);
    };
    let Some(left) = stack.pop() else {
        return Ok(false);
    };
    stack.try_push(combined(operator, left, right))?;
    Ok(true)
}

// Runs a part of a code on the stack. It returns whether an operator found its operands.
fn run_part(numbers: &NameTable, part: &Part, stack: &mut Stack) -> Result<bool, AllocError>
    ensures { IfOk result (λ ran. Leaves (stack_behind (number_in numbers.now) (part.now ∷ []) stack.old) ran stack.new) }
{
    match part {
        Part::Number(number) => {
            stack.try_push(*number)?;
            Ok(true)
        }
        Part::Name(name) => {
            stack.try_push(number_of(numbers, name.as_slice()))?;
            Ok(true)
        }
        _ => run_operator(part, stack),
    }
}

// The one value that a code leaves, if it does.
fn code_value(alloc: Global, numbers: &NameTable, code: &[Part]) -> Result<Option<u64>, AllocError>
    ensures { IfOk result (λ number. number ≡ only_behind (stack_behind (number_in numbers.now) code.now [])) }
{
    let mut stack = Stack::new(alloc);
    for part in code {
        if !run_part(numbers, part, &mut stack)? {
            return Ok(None);
        }
    }
    Ok(stack.only())
}

// Gives the name of a definition the value of its code.
fn take_item(alloc: Global, numbers: &mut NameTable, item: &Item) -> Result<(), AllocError>
    ensures { OnOk result ((items : List Item) → Holds numbers.old items → MayFollow items item.now → Holds numbers.new (items ++ item.now ∷ [])) }
{
    if let Item::Def { name, code } = item {
        let number = code_value(alloc, numbers, code.as_slice())?;
        numbers.try_add(name.as_slice(), number.unwrap_or(0))?;
    }
    Ok(())
}

// The numbers of the names of an image.
fn numbers_of(alloc: Global, items: &[Item]) -> Result<NameTable, AllocError>
    requires right { AreRightItems kinds.Image items.now }
    requires declared { AreDeclared [] items.now }
    ensures { IfOk result (λ numbers. Holds numbers items.now) }
{
    let mut numbers = NameTable::new(alloc);
    for item in items {
        take_item(alloc, &mut numbers, item)?;
    }
    Ok(numbers)
}

// The value of `main` among the items of an image.
fn main_value(alloc: Global, items: &[Item]) -> Result<Value, AllocError>
    requires right { AreRightItems kinds.Image items.now }
    requires declared { AreDeclared [] items.now }
    ensures { IfOk result (λ value. ItemsHaveValue items.now value) }
{
    let numbers = numbers_of(alloc, items)?;
    match numbers.find(MAIN) {
        Some(number) => Ok(Value::Number(number)),
        None => Ok(Value::Fault(RunFault::NoMain)),
    }
}

/// Runs an image: the number of `main`, modulo 2 to the 64, or the first fault (docs/sample-linker.md).
pub fn run(alloc: Global, image: &Bytes) -> Value
    ensures { IsValue image.now result }
{
    match read_file(alloc, Kind::Image, image.as_slice()) {
        Ok(items) => match main_value(alloc, items.as_slice()) {
            Ok(value) => value,
            Err(_) => Value::Memory,
        },
        Err(ReadStop::BadLine(line)) => Value::Fault(RunFault::BadImage { line }),
        Err(ReadStop::Memory) => Value::Memory,
    }
}
