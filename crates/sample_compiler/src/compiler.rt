//! What the compiler does over a map of files.

ghost use Rattle.std.specs.Prelude.{ℕ, ◌≡◌, List, true, false, Some, IfOk};
ghost use Rattle.farm_types.specs.declared.ran.Ran.{Ran};
ghost use Rattle.file_map.specs.FileMaps.{Files};
ghost use Rattle.sample_compiler.specs.Lookups.{Agrees};
ghost use Rattle.sample_compiler.specs.Came.{CameText};
ghost use Rattle.sample_compiler.specs.Seeking as seeking;
ghost use Rattle.sample_compiler.specs.Seeking.{Walked, first_unknown};
ghost use Rattle.sample_compiler.specs.Samples as samples;
ghost use Rattle.sample_compiler.specs.Samples.{task_text, LeftBy, MadeOf, LeavesAsked, SampleOf, PreprocessedOf, asks_for_text};

use crate::expand::{Expansion, expand};
use crate::leaving::{bad_words, compiled, expand_failed, printed};
use crate::lookup::{Sources, look};
use crate::stops::{ExpandFault, ExpandStop};
use crate::task::{Product, Task, task_of};
use farm_types::{Bytes, Ran, Words};
use sample_lang::{FileMap, one_reading};
use std::alloc::{AllocError, Global};

/// The most files that may be open within one another below the input.
const INCLUDES_MAX: u32 = 16;

// Whether the input is compiled as it is.
fn is_ready(product: &Product, input: &[u8]) -> bool
    ensures { result ≡ samples.is_ready product.now input.now }
{
    match product {
        Product::Text => false,
        Product::Object(_) => input.ends_with(b".i") || input.ends_with(b".ii"),
    }
}

// The preprocessed text of the input.
fn expanded_text(sources: Sources<'_>, task: &Task, content: &Bytes) -> Result<Bytes, ExpandStop>
    requires { sources.dirs.now ≡ task.now.dirs }
    ensures came { (files : Files) → Agrees sources.entry.files.now sources.entry.absent.now sources.entry.whole files
        → CameText sources.entry.whole (samples.expanded_text files task.now content.now) result }
    ensures looked { (files : Files) → Agrees sources.entry.files.now sources.entry.absent.now sources.entry.whole files
        → sources.entry.whole ≡ false → Walked (first_unknown sources.entry.files.now sources.entry.absent.now (seeking.by_text files task.now content.now)) result }
{
    let mut made = Expansion {
        defines: task.defines.copy()?,
        text: Bytes::new(sources.alloc),
    };
    expand(sources, INCLUDES_MAX, content.as_slice(), &mut made)?;
    Ok(made.text)
}

/// The text that is compiled or printed.
pub fn task_text(sources: Sources<'_>, task: &Task) -> Result<Bytes, ExpandStop>
    requires { sources.dirs.now ≡ task.now.dirs }
    ensures came { (files : Files) → Agrees sources.entry.files.now sources.entry.absent.now sources.entry.whole files
        → CameText sources.entry.whole (task_text files task.now) result }
    ensures looked { (files : Files) → Agrees sources.entry.files.now sources.entry.absent.now sources.entry.whole files
        → sources.entry.whole ≡ false → Walked (first_unknown sources.entry.files.now sources.entry.absent.now (seeking.task_names files task.now)) result }
{
    match look(sources, &task.input)? {
        Some(content) => {
            if is_ready(&task.product, task.input.as_slice()) {
                let text = content.copy()?;
                return Ok(text);
            }
            expanded_text(sources, task, content)
        }
        None => {
            let name = task.input.copy()?;
            Err(ExpandStop::Fault {
                line: 0,
                fault: ExpandFault::NoFile(name),
            })
        }
    }
}

// What is left if the text is this.
fn made_of(alloc: Global, product: &Product, text: Bytes) -> Result<Ran, AllocError>
    ensures { IfOk result (MadeOf product.now text) }
{
    match product {
        Product::Text => Ok(printed(alloc, text)),
        Product::Object(_) => compiled(alloc, &text),
    }
}

// What a task leaves.
fn left_by(alloc: Global, files: &FileMap, task: &Task) -> Result<Ran, AllocError>
    ensures { IfOk result (LeftBy task.now.product (task_text files.now task.now)) }
{
    let sources = Sources {
        alloc,
        files,
        absent: &[],
        whole: true,
        dirs: task.dirs.as_slice(),
    };
    match task_text(sources, task) {
        Ok(text) => made_of(alloc, &task.product, text),
        Err(ExpandStop::Fault { line, fault }) => expand_failed(alloc, line, &fault),
        Err(ExpandStop::Unknown(_)) => unreachable!(),
        Err(ExpandStop::Memory) => Err(AllocError),
    }
}

/// What is left if this is asked for.
pub fn leave(alloc: Global, files: &FileMap, asked: &Option<Task>) -> Result<Ran, AllocError>
    ensures { IfOk result (LeavesAsked files.now asked.now) }
{
    match asked {
        Some(task) => left_by(alloc, files, task),
        None => bad_words(alloc),
    }
}

/// What the compiler leaves, run by these words over these files (docs/sample-compiler.md). The first word names the
/// compiler, and is passed over.
pub fn compile(alloc: Global, files: &FileMap, words: &Words) -> Result<Ran, AllocError>
    ensures { IfOk result (SampleOf files.now words.now) }
{
    let asked = task_of(alloc, words.as_slice())?;
    leave(alloc, files, &asked)
}

/// What the compiler leaves by the same words with `-E` as their command: the preprocessed text, on standard output. If
/// they ask for that already, it is what `compile` gives.
pub fn preprocess(alloc: Global, files: &FileMap, words: &Words) -> Result<Ran, AllocError>
    ensures text { IfOk result (PreprocessedOf files.now words.now) }
    ensures same { IfOk result (λ ran. asks_for_text words.now ≡ true → SampleOf files.now words.now ran) }
{
    match task_of(alloc, words.as_slice())? {
        Some(task) => {
            let task = Task {
                product: Product::Text,
                input: task.input,
                dirs: task.dirs,
                defines: task.defines,
            };
            left_by(alloc, files, &task)
        }
        None => bad_words(alloc),
    }
}

/// Words leave one run, over any files.
pub fn one_run()
    ensures some { (files : Files) (words : List (List ℕ)) → (ran : Ran) × SampleOf files words ran }
    ensures one { (files : Files) (words : List (List ℕ)) (ran other : Ran)
        → SampleOf files words ran → SampleOf files words other → ran ≡ other }
{
    one_reading();
}
