//! What a build leaves in the files if one call on them fails, or two in a row.

ghost use Rattle.std.specs.Prelude.{◌≡◌, length, All, IfOk};
ghost use Rattle.edge_traits.specs.Keepers.{IsIdle};
ghost use Rattle.object_delivery.specs.ScriptedFiles.{files_state, files_shows};
ghost use Rattle.object_delivery.specs.Staging.{keeper_view};

use crate::devices::{FIRST, Script, kit};
use crate::same::{holds, same_output};
use edge_memory::{MemClock, MemDialer, MemKeeper, MemStation};
use edge_traits::{CallNumbers, FileList, Kit};
use farm_calls::{Asked, asked_for, told};
use farm_types::Bytes;
use object_delivery::{FileKeeper, Files, MemFiles};
use std::alloc::{AllocError, Global};
use std::process::Abort;
use std::sync::Wait;
use std::test::Fail;
use std::thread::Threads;

type FileKit = Kit<MemDialer, MemStation, FileKeeper<MemFiles>, MemClock>;

// The object comes in three pieces.
const JOB: Script = Script {
    words: &["build", "--hosts", "H"],
    quiet: true,
    most: 5,
    ..FIRST
};

// Which calls on the files fail, and what is left under the name of a file that is being written. Its creation is the first call,
// three pieces are added, and the fifth call renames it; after a call that failed the file is removed.
type Failed = (&'static [u64], Option<&'static [u8]>);

const FAILED: &[Failed] = &[
    (&[1], None),
    (&[2], None),
    (&[3], None),
    (&[4], None),
    (&[5], None),
    (&[1, 2], None),
    (&[2, 3], Some(b"")),
    (&[3, 4], Some(b"SCO1\n")),
    (&[4, 5], Some(b"SCO1\ndef a")),
    (&[5, 6], Some(b"SCO1\ndef a 1\n")),
];

// The one file `x.o`, which is old.
fn old_file(alloc: Global) -> Result<FileList, AllocError> {
    let path = Bytes::from_slice(alloc, b"x.o")?;
    let text = Bytes::from_slice(alloc, b"old")?;
    let mut files = FileList::new(alloc);
    files.try_put(path, text)?;
    Ok(files)
}

fn numbers(alloc: Global, fails: &[u64]) -> Result<CallNumbers, AllocError> {
    let mut numbers = CallNumbers::new(alloc);
    for number in fails {
        numbers.try_push(*number)?;
    }
    Ok(numbers)
}

// A keeper over files with an old `x.o`.
fn keeper(alloc: Global, fails: &[u64]) -> Result<FileKeeper<MemFiles>, AllocError>
    ensures { IfOk result (λ k. IsIdle (keeper_view (files_shows (files_state k.files)) k.pending)) }
{
    let numbers = numbers(alloc, fails)?;
    let files = old_file(alloc)?;
    Ok(FileKeeper::new(MemFiles::new(files, numbers, 4_096)))
}

// The same devices over another keeper.
fn over<D, S, C>(
    kit: Kit<D, S, MemKeeper, C>,
    keeper: FileKeeper<MemFiles>,
) -> Kit<D, S, FileKeeper<MemFiles>, C>
    requires { IsIdle (keeper_view (files_shows (files_state keeper.files)) keeper.pending) }
    ensures { IsIdle (keeper_view (files_shows (files_state result.keeper.files)) result.keeper.pending) }
{
    let Kit {
        dialer,
        station,
        clock,
        ..
    } = kit;
    Kit {
        dialer,
        station,
        keeper,
        clock,
    }
}

// The kit of the job.
fn kits(alloc: Global, fails: &[u64]) -> Result<Vec<FileKit>, AllocError>
    ensures one { IfOk result (λ kits. length kits.items ≡ 1) }
    ensures idle { IfOk result (λ kits. All (λ kit. IsIdle (keeper_view (files_shows (files_state kit.keeper.files)) kit.keeper.pending)) kits.items) }
{
    let keeper = keeper(alloc, fails)?;
    let kit = over(kit(alloc, &JOB)?, keeper);
    let mut kits = Vec::new(alloc);
    kits.push(kit)?;
    Ok(kits)
}

fn asked(alloc: Global) -> Result<Asked, AllocError> {
    let text = Bytes::from_slice(alloc, JOB.input)?;
    asked_for(alloc, JOB.words, text)
}

// The job over these kits, and then the files.
fn run<R: Abort + Threads + Wait + Sync>(
    rt: &R,
    alloc: Global,
    fails: &[u64],
) -> Result<MemFiles, Fail> {
    let mut kits = kits(alloc, fails)?;
    let seen = told(rt, alloc, asked(alloc)?, &mut kits);
    same_output(rt, &seen, 107, b"1 failed put\ntotal 1 ok 0\n", &fails);
    match kits.pop() {
        Some(kit) => Ok(kit.keeper.into_files()),
        None => Err("the kit is back".into()),
    }
}

fn content<F: Files>(
    alloc: Global,
    files: &mut F,
    name: &[u8],
) -> Result<Option<Bytes>, AllocError> {
    let path = Bytes::from_slice(alloc, name)?;
    Ok(files.load(alloc, &path, 100).ok())
}

fn is_content(file: &Option<Bytes>, wanted: Option<&[u8]>) -> bool {
    match (file, wanted) {
        (Some(bytes), Some(wanted)) => bytes.as_slice() == wanted,
        (None, None) => true,
        _ => false,
    }
}

// A file has this content, or isn't there if there is none.
fn expect_file<R: Abort, F: Files>(
    rt: &R,
    alloc: Global,
    files: &mut F,
    name: &[u8],
    wanted: Option<&[u8]>,
) -> Result<(), Fail> {
    let left = content(alloc, files, name)?;
    holds(rt, is_content(&left, wanted), &left);
    Ok(())
}

fn expect_files<R: Abort, F: Files>(
    rt: &R,
    alloc: Global,
    files: &mut F,
    stays: Option<&[u8]>,
) -> Result<(), Fail> {
    expect_file(rt, alloc, files, b"x.o", Some(b"old"))?;
    expect_file(rt, alloc, files, b"x.o.farm~", stays)
}

fn expect<R: Abort + Threads + Wait + Sync>(
    rt: &R,
    alloc: Global,
    fails: &[u64],
    stays: Option<&[u8]>,
) -> Result<(), Fail> {
    let mut files = run(rt, alloc, fails)?;
    expect_files(rt, alloc, &mut files, stays)
}

fn expect_rows<R: Abort + Threads + Wait + Sync>(
    rt: &R,
    alloc: Global,
    rows: &[Failed],
) -> Result<(), Fail> {
    for (fails, stays) in rows {
        expect(rt, alloc, fails, *stays)?;
    }
    Ok(())
}

#[test]
fn a_failed_put_leaves_the_old_file(rt: HostRuntime) -> Result<(), Fail> {
    expect_rows(&rt, rt.alloc(), FAILED)
}
