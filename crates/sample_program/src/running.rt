//! One run of the compiler over a keeper's files.

ghost use Rattle.std.specs.Prelude.{◌≡◌, ◌∷◌, [], codes, map, string_bytes, IfOk, IfErr, IfSome, OnOk, OnErr};
ghost use Rattle.edge_traits.specs.Causes.{Still};
ghost use Rattle.edge_traits.specs.Keepers.{IsIdle};
ghost use Rattle.edge_traits.specs.FileMaps.{IsStaged};
ghost use Rattle.sample_compiler.specs.Tasks.{HasPlainOutput};
ghost use Rattle.sample_program.specs.Programs.{StoppedRun, DidRun};
ghost use Rattle.sample_program.specs.Puts.{PutBy, PutStop, NoneFetched, puts_of};

use edge_traits::{EdgeFault, Keeper};
use farm_types::{Bytes, Ran, Words};
use sample_compiler::{LoadFault, Product, Task, compile, load, task_of};
use std::alloc::{AllocError, Global};

/// Why nothing was run.
#[derive(Clone, Copy, Debug, PartialEq, Eq, Drop)]
pub enum RunStop {
    /// The keeper failed, or a file is longer than is fetched.
    File,
    /// Memory ran out.
    Memory,
}

impl From<AllocError> for RunStop {
    ghost use Rattle.sample_program.specs.declared.running.RunStop.TheVariants.{Memory};

    ghost from_gives = { λ _ e. e ≡ Memory };

    fn from(_error: AllocError) -> RunStop {
        RunStop::Memory
    }
}

// The compiler's name, and then the words.
fn with_name(alloc: Global, words: &[String]) -> Result<Words, AllocError>
    ensures { IfOk result (λ made. made ≡ codes "scc" ∷ map string_bytes words.now) }
{
    let mut made = Words::new(alloc);
    made.try_push(Bytes::from_slice(alloc, b"scc")?)?;
    for word in words {
        made.try_push(Bytes::from_slice(alloc, word.as_bytes())?)?;
    }
    Ok(made)
}

/// Puts a file.
pub fn put_file<K: Keeper>(
    alloc: Global,
    output: &Bytes,
    bytes: &Bytes,
    keeper: &mut K,
) -> Result<(), RunStop>
    requires idle { IsIdle (K.shows keeper.old) }
    requires name { ¬ (IsStaged output.now) }
    ensures ok { OnOk result (PutBy (record { path = output.now; bytes = bytes.now } ∷ []) (K.shows keeper.old) (K.shows keeper.new)) }
    ensures err { OnErr result (PutBy [] (K.shows keeper.old) (K.shows keeper.new)) }
    ensures none { NoneFetched (K.shows keeper.old) (K.shows keeper.new) }
    ensures calm { OnOk result (Still (K.shows keeper.old).faults (K.shows keeper.new).faults) }
    ensures cause { IfErr result (PutStop (K.shows keeper.old) (K.shows keeper.new)) }
{
    match keeper.put(alloc, output, bytes.as_slice()) {
        Ok(()) => Ok(()),
        Err(EdgeFault::Failed) => Err(RunStop::File),
        Err(EdgeFault::Memory) => Err(RunStop::Memory),
    }
}

// Puts the object of a run that ended well, if one was asked for.
fn put_object<K: Keeper>(
    alloc: Global,
    asked: &Option<Task>,
    ran: &Ran,
    keeper: &mut K,
) -> Result<(), RunStop>
    requires idle { IsIdle (K.shows keeper.old) }
    requires output { IfSome asked.now (λ task. HasPlainOutput task.product) }
    ensures ok { OnOk result (PutBy (puts_of asked.now ran.now) (K.shows keeper.old) (K.shows keeper.new)) }
    ensures err { OnErr result (PutBy [] (K.shows keeper.old) (K.shows keeper.new)) }
    ensures none { NoneFetched (K.shows keeper.old) (K.shows keeper.new) }
    ensures calm { OnOk result (Still (K.shows keeper.old).faults (K.shows keeper.new).faults) }
    ensures cause { IfErr result (PutStop (K.shows keeper.old) (K.shows keeper.new)) }
{
    if ran.status != 0 {
        return Ok(());
    }
    match asked {
        Some(task) => match &task.product {
            Product::Object(output) => put_file(alloc, output, &ran.object, keeper),
            Product::Text => Ok(()),
        },
        None => Ok(()),
    }
}

/// Loads the files, compiles, and puts the object of a run that ended well.
pub fn run<K: Keeper>(alloc: Global, words: &[String], keeper: &mut K) -> Result<Ran, RunStop>
    requires idle { IsIdle (K.shows keeper.old) }
    ensures ran { IfOk result (DidRun (map string_bytes words.now) (K.shows keeper.old) (K.shows keeper.new)) }
    ensures stop { IfErr result (StoppedRun (map string_bytes words.now) (K.shows keeper.old) (K.shows keeper.new)) }
{
    let words = with_name(alloc, words)?;
    let files = match load(alloc, &words, keeper) {
        Ok(files) => files,
        Err(LoadFault::Failed) => return Err(RunStop::File),
        Err(LoadFault::TooMuch { .. }) => return Err(RunStop::File),
        Err(LoadFault::Memory) => return Err(RunStop::Memory),
    };
    let asked = task_of(alloc, words.as_slice())?;
    let ran = compile(alloc, &files, &words)?;
    put_object(alloc, &asked, &ran, keeper)?;
    Ok(ran)
}
