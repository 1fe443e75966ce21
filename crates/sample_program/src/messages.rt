//! What linking and running leave to be printed.

ghost use Rattle.std.specs.Prelude.{ℕ, ◌≡◌, ◌++◌, codes, map, string_bytes, IfOk, IfErr, OnOk};
ghost use Rattle.sample_compiler.specs.Samples.{bad_words, printed};
ghost use Rattle.sample_program.specs.declared.running.RunStop.TheVariants.{Memory};
ghost use Rattle.sample_program.specs.Links as links;
ghost use Rattle.sample_program.specs.Links.{listed, refused};

use crate::running::RunStop;
use farm_types::{Bytes, Ran, Words};
use sample_compiler::{bad_words, printed};
use sample_linker::{LinkFault, RunFault, Value};
use std::alloc::{AllocError, Global};

/// The status of a fault.
const FAULT: u32 = 256;

/// Nothing is printed but this message.
pub fn refuse(alloc: Global, message: Bytes) -> Ran
    ensures { result ≡ refused message }
{
    Ran {
        status: FAULT,
        out: Bytes::new(alloc),
        err: message,
        object: Bytes::new(alloc),
    }
}

/// The words aren't right.
pub fn refuse_words(alloc: Global) -> Result<Ran, RunStop>
    ensures ran { IfOk result (λ ran. ran ≡ bad_words) }
    ensures stop { IfErr result (λ stop. stop ≡ Memory) }
{
    Ok(bad_words(alloc)?)
}

/// A message with a name after it.
pub fn name_text(alloc: Global, front: &[u8], name: &[u8]) -> Result<Bytes, AllocError>
    ensures { IfOk result (λ text. text ≡ front.now ++ name.now ++ codes "\n") }
{
    let mut text = Bytes::from_slice(alloc, front)?;
    text.try_extend(name)?;
    text.try_push(b'\n')?;
    Ok(text)
}

// Each name after a blank.
fn put_names(text: &mut Bytes, names: &[Bytes]) -> Result<(), AllocError>
    ensures { OnOk result (text.new ≡ text.old ++ listed names.now) }
{
    for name in names {
        text.try_push(b' ')?;
        text.try_extend(name.as_slice())?;
    }
    Ok(())
}

// The message of a circle.
fn circle_text(alloc: Global, names: &Words) -> Result<Bytes, AllocError>
    ensures { IfOk result (λ text. text ≡ codes "link: circular" ++ listed names.now ++ codes "\n") }
{
    let mut text = Bytes::from_slice(alloc, b"link: circular")?;
    put_names(&mut text, names.as_slice())?;
    text.try_push(b'\n')?;
    Ok(text)
}

// The name of the file with this number, counted from 1.
fn file_name(files: &[String], file: u64) -> &[u8]
    ensures { result.now ≡ links.file_name (map string_bytes files.now) file }
{
    match file.checked_sub(1) {
        Some(at) => match files.get(at as usize) {
            Some(name) => name.as_bytes(),
            None => &[],
        },
        None => &[],
    }
}

// The message of an object that isn't right.
fn object_text(alloc: Global, name: &[u8], line: u64) -> Result<Bytes, AllocError>
    ensures { IfOk result (λ text. text ≡ links.object_text name.now line) }
{
    let mut text = Bytes::from_slice(alloc, b"link: bad object ")?;
    text.try_extend(name)?;
    let back = format!(in alloc; " at line {line}\n")?;
    text.try_extend(back.as_bytes())?;
    Ok(text)
}

/// The message of a fault of these files.
pub fn fault_text(alloc: Global, files: &[String], fault: &LinkFault) -> Result<Bytes, AllocError>
    ensures { IfOk result (λ text. text ≡ links.fault_text (map string_bytes files.now) fault.now) }
{
    match fault {
        LinkFault::BadObject { file, line } => object_text(alloc, file_name(files, *file), *line),
        LinkFault::Doubled { name } => name_text(alloc, b"link: doubled ", name.as_slice()),
        LinkFault::Unresolved { name } => name_text(alloc, b"link: unresolved ", name.as_slice()),
        LinkFault::Circular { names } => circle_text(alloc, names),
    }
}

// The message of a fault of an image.
fn run_text(alloc: Global, fault: RunFault) -> Result<Bytes, AllocError>
    ensures { IfOk result (λ text. text ≡ links.run_text fault) }
{
    match fault {
        RunFault::BadImage { line } => {
            let text = format!(in alloc; "run: bad image at line {line}\n")?;
            Bytes::from_slice(alloc, text.as_bytes())
        }
        RunFault::NoMain => Bytes::from_slice(alloc, b"run: no main\n"),
    }
}

/// The number of an image, or its fault. Out of memory has none.
pub fn value_ran(alloc: Global, value: Value) -> Result<Ran, AllocError>
    ensures { IfOk result (λ ran. links.IsValueRan value ran) }
{
    match value {
        Value::Number(number) => {
            let text = format!(in alloc; "{number}\n")?;
            Ok(printed(alloc, Bytes::from_slice(alloc, text.as_bytes())?))
        }
        Value::Fault(fault) => Ok(refuse(alloc, run_text(alloc, fault)?)),
        Value::Memory => Err(AllocError),
    }
}
