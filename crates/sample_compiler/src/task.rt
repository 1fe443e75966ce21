//! What the words of the compiler ask for.

ghost use Rattle.std.specs.Prelude.{◌≡◌, ◌++◌, ◌||◌, drop, IfOk, IfSome, OnOk};
ghost use Rattle.option_table.specs.Scc.{scc_rows};
ghost use Rattle.sample_compiler.specs.Meanings.{meanings};
ghost use Rattle.sample_compiler.specs.Tasks as tasks;
ghost use Rattle.sample_compiler.specs.Tasks.{HasPlainOutput};

use crate::defines::Define;
use crate::meaning::{Command, Meaning, first_meaning};
use arg_scan::{derived_output, ending_of, is_reserved, last_name};
use farm_types::{Bytes, Items, Words};
use option_table::scc_table;
use std::alloc::{AllocError, Global};

/// What is to be made.
#[derive(Debug, Drop)]
pub enum Product {
    /// The preprocessed text, on standard output.
    Text,
    /// An object, in the file of this name.
    Object(Bytes),
}

/// What is to be made of which file: its name, the folders of `-I`, and the names of `-D`.
#[derive(Debug, Drop)]
pub struct Task {
    pub product: Product,
    pub input: Bytes,
    pub dirs: Words,
    pub defines: Items<Define>,
}

/// What some words are used as, by kinds, each in order.
#[derive(Debug, Drop)]
pub struct Gathered {
    pub commands: Items<Command>,
    pub inputs: Words,
    pub outputs: Words,
    pub dirs: Words,
    pub defines: Items<Define>,
    /// An option lacks its operand.
    pub lacking: bool,
}

// Adds what one word more is used as.
fn add(gathered: &mut Gathered, meaning: Meaning) -> Result<(), AllocError>
    ensures commands { OnOk result (gathered.new.commands ≡ gathered.old.commands ++ tasks.command_in meaning) }
    ensures inputs { OnOk result (gathered.new.inputs ≡ gathered.old.inputs ++ tasks.input_in meaning) }
    ensures outputs { OnOk result (gathered.new.outputs ≡ gathered.old.outputs ++ tasks.output_in meaning) }
    ensures dirs { OnOk result (gathered.new.dirs ≡ gathered.old.dirs ++ tasks.folder_in meaning) }
    ensures defines { OnOk result (gathered.new.defines ≡ gathered.old.defines ++ tasks.define_in meaning) }
    ensures lacking { OnOk result (gathered.new.lacking ≡ (gathered.old.lacking || tasks.is_lacking meaning)) }
{
    match meaning {
        Meaning::Command(command) => gathered.commands.try_push(command),
        Meaning::Folder(folder) => gathered.dirs.try_push(folder),
        Meaning::Define(define) => gathered.defines.try_push(define),
        Meaning::Output(output) => gathered.outputs.try_push(output),
        Meaning::Input(input) => gathered.inputs.try_push(input),
        Meaning::Ignored => Ok(()),
        Meaning::Lacking => {
            gathered.lacking = true;
            Ok(())
        }
    }
}

// What some words are used as.
fn gather(alloc: Global, words: &[Bytes]) -> Result<Gathered, AllocError>
    ensures { IfOk result (λ gathered. gathered ≡ tasks.gathered (meanings words.now)) }
{
    let table = scc_table();
    let mut gathered = Gathered {
        commands: Items::new(alloc),
        inputs: Words::new(alloc),
        outputs: Words::new(alloc),
        dirs: Words::new(alloc),
        defines: Items::new(alloc),
        lacking: false,
    };
    let mut rest = words;
    'reading: while let [word, behind @ ..] = rest {
        let first = first_meaning(alloc, &table, word, behind)?;
        add(&mut gathered, first.meaning)?;
        rest = first.left;
    }
    Ok(gathered)
}

// What is to be made if `-o` names this file.
fn named_product(command: Command, output: &Bytes) -> Result<Option<Product>, AllocError>
    ensures { IfOk result (λ product. product ≡ tasks.named_product command output.now) }
{
    if is_reserved(output.as_slice()) {
        return Ok(None);
    }
    match command {
        Command::Expand => Ok(Some(Product::Text)),
        Command::Build(_) => {
            let output = output.copy()?;
            Ok(Some(Product::Object(output)))
        }
    }
}

// What is to be made if no file is named: the object's name is then that of the source with another ending.
fn unnamed_product(
    alloc: Global,
    command: Command,
    input: &[u8],
) -> Result<Option<Product>, AllocError>
    ensures { IfOk result (λ product. product ≡ tasks.unnamed_product command input.now) }
{
    match command {
        Command::Expand => Ok(Some(Product::Text)),
        Command::Build(action) => match ending_of(last_name(input)) {
            Some(ending) => {
                let output = derived_output(alloc, action, input, ending)?;
                Ok(Some(Product::Object(output)))
            }
            None => Ok(None),
        },
    }
}

// What is to be made, by the names of `-o`.
fn product_of(
    alloc: Global,
    command: Command,
    input: &[u8],
    outputs: &[Bytes],
) -> Result<Option<Product>, AllocError>
    ensures { IfOk result (λ product. product ≡ tasks.product_of command input.now outputs.now) }
{
    match outputs {
        [] => unnamed_product(alloc, command, input),
        [output] => named_product(command, output),
        _ => Ok(None),
    }
}

// What is asked for by words that are used so.
fn asked(alloc: Global, gathered: Gathered) -> Result<Option<Task>, AllocError>
    ensures { IfOk result (λ task. task ≡ tasks.asked gathered) }
{
    if gathered.lacking {
        return Ok(None);
    }
    let command = match gathered.commands.as_slice() {
        [command, ..] => *command,
        [] => return Ok(None),
    };
    let input = match gathered.inputs.as_slice() {
        [input] => input.copy()?,
        _ => return Ok(None),
    };
    match product_of(
        alloc,
        command,
        input.as_slice(),
        gathered.outputs.as_slice(),
    )? {
        Some(product) => Ok(Some(Task {
            product,
            input,
            dirs: gathered.dirs,
            defines: gathered.defines,
        })),
        None => Ok(None),
    }
}

// The words after the first one, which names the compiler.
fn behind_name(words: &[Bytes]) -> &[Bytes]
    ensures { result.now ≡ drop 1 words.now }
{
    match words {
        [] => words,
        [_, behind @ ..] => behind,
    }
}

/// What a command's words ask for; None of words that the compiler doesn't take (docs/sample-compiler.md, "Words").
/// The first word names the compiler, and is passed over.
#[tactic(auto, unfolding(crate::specs::Tasks::task_of))]
pub fn task_of(alloc: Global, words: &[Bytes]) -> Result<Option<Task>, AllocError>
    ensures task { IfOk result (λ task. task ≡ tasks.task_of words.now) }
    // No object is put under a name that is kept for files that are being written.
    ensures output { IfOk result (λ task. IfSome task (λ task. HasPlainOutput task.product)) }
{
    let gathered = gather(alloc, behind_name(words))?;
    asked(alloc, gathered)
}
