//! Files of the system.

use crate::keepers::{Fetch, Put, expect_fetches, expect_puts, same_fetched};
use crate::same::{holds, same, same_bytes};
use edge_real::{DiskFiles, KitSettings, Notices, system_kits};
use edge_traits::{EdgeFault, FetchFault, Keeper};
use farm_types::Bytes;
use object_delivery::Files as FileCalls;
use std::alloc::{AllocError, Global};
use std::fs;
use std::os::unix::fs::{FileTypeExt, PermissionsExt};
use std::process::Abort;
use std::rt::Files;
use std::test::Fail;

fn files(rt: HostRuntime, process: u32) -> Result<DiskFiles<HostRuntime>, AllocError> {
    let folder = String::from_str(rt.alloc(), ".")?;
    Ok(DiskFiles::new(rt, folder, process, true))
}

const FETCHES: &[Fetch] = &[
    (b"x.o", 4, Err(FetchFault::TooMuch { bytes: 5 })),
    (b"x.o", 5, Ok(b"newer")),
    (b"x.o", 6, Ok(b"newer")),
    (b"y.o", 5, Err(FetchFault::Absent)),
    (b".", 9, Err(FetchFault::Failed)),
];

const PUTS: &[Put] = &[
    (b"x.o", b"old", Ok(())),
    (b"x.o", b"newer", Ok(())),
    (b"no/such/folder/x.o", b"new", Err(EdgeFault::Failed)),
];

/// What the other keeper fetches before.
const BEFORE: &[Fetch] = &[(b"x.o", 3, Err(FetchFault::Absent))];

/// What one keeper puts it fetches, and the other finds nothing before.
fn expect_kept<R: Abort, K: Keeper>(rt: &R, alloc: Global, other: &mut K, keeper: &mut K) {
    expect_fetches(rt, alloc, other, BEFORE);
    expect_puts(rt, alloc, keeper, PUTS);
    expect_fetches(rt, alloc, keeper, FETCHES);
}

#[test]
fn a_file_is_put_and_fetched(rt: HostRuntime) -> Result<(), Fail> {
    let mut kits = system_kits(rt, rt.alloc(), &settings_of(9), 2)?;
    same(&rt, &kits.len(), &2, &"kits");
    let [first, second] = kits.as_mut_slice() else {
        return Err("there are two kits".into());
    };
    expect_kept(&rt, rt.alloc(), &mut first.keeper, &mut second.keeper);
    Ok(())
}

/// A call on the files, and what it answers.
#[derive(Clone, Copy, Debug)]
enum Step {
    Create(&'static [u8]),
    Append(&'static [u8], &'static [u8], usize),
    Rename(&'static [u8], &'static [u8]),
    Remove(&'static [u8]),
}

fn append<F: FileCalls>(
    alloc: Global,
    files: &mut F,
    name: &[u8],
    piece: &[u8],
) -> Result<usize, EdgeFault> {
    files.append(alloc, &Bytes::from_slice(alloc, name)?, piece)
}

fn create<F: FileCalls>(alloc: Global, files: &mut F, name: &[u8]) -> Result<usize, EdgeFault> {
    files.create(alloc, &Bytes::from_slice(alloc, name)?)?;
    Ok(0)
}

fn rename<F: FileCalls>(
    alloc: Global,
    files: &mut F,
    from: &[u8],
    to: &[u8],
) -> Result<usize, EdgeFault> {
    let from = Bytes::from_slice(alloc, from)?;
    files.rename(alloc, &from, &Bytes::from_slice(alloc, to)?)?;
    Ok(0)
}

fn remove<F: FileCalls>(alloc: Global, files: &mut F, name: &[u8]) -> Result<usize, EdgeFault> {
    files.remove(&Bytes::from_slice(alloc, name)?)?;
    Ok(0)
}

fn play<F: FileCalls>(alloc: Global, files: &mut F, step: Step) -> Result<usize, EdgeFault> {
    match step {
        Step::Create(name) => create(alloc, files, name),
        Step::Append(name, piece, _) => append(alloc, files, name, piece),
        Step::Rename(from, to) => rename(alloc, files, from, to),
        Step::Remove(name) => remove(alloc, files, name),
    }
}

/// How many bytes a step moves if it goes well.
fn wanted(step: Step) -> usize {
    match step {
        Step::Append(_, _, count) => count,
        Step::Create(_) | Step::Rename(..) | Step::Remove(_) => 0,
    }
}

/// What a step answers if it goes well, or else fails.
fn answer_of(step: Step, good: bool) -> Result<usize, EdgeFault> {
    if good {
        Ok(wanted(step))
    } else {
        Err(EdgeFault::Failed)
    }
}

/// Each step goes well if `true` is beside it, and else fails.
fn expect_steps<R: Abort, F: FileCalls>(
    rt: &R,
    alloc: Global,
    files: &mut F,
    steps: &[(Step, bool)],
) {
    for (step, good) in steps {
        let want = answer_of(*step, *good);
        same(rt, &play(alloc, files, *step), &want, step);
    }
}

fn expect_text<R: Abort + Files + AllocGlobal>(rt: &R, name: &str, text: &str) -> Result<(), Fail> {
    let held = fs::read_to_string(rt, name)?;
    same_bytes(rt, held.as_bytes(), text.as_bytes(), &name);
    Ok(())
}

fn expect_same_mode<R: Abort + Files>(rt: &R, name: &str, other: &str) -> Result<(), Fail> {
    let mode = fs::metadata(rt, name)?.permissions().mode();
    let wanted = fs::metadata(rt, other)?.permissions().mode();
    same(rt, &mode, &wanted, &name);
    Ok(())
}

fn load<F: FileCalls>(
    alloc: Global,
    files: &mut F,
    name: &[u8],
    bound: u32,
) -> Result<Bytes, FetchFault> {
    files.load(alloc, &Bytes::from_slice(alloc, name)?, bound)
}

/// The file is loaded by its name, within its length.
fn expect_loaded<R: Abort, F: FileCalls>(rt: &R, alloc: Global, files: &mut F) {
    let loaded = load(alloc, files, b"./x.o", 3);
    same_fetched(rt, &loaded, &Ok(b"abc"), &"./x.o");
}

/// A file is made and written.
const WRITTEN: &[(Step, bool)] = &[
    (Step::Create(b"./x.o.farm~"), true),
    (Step::Append(b"./x.o.farm~", b"ab", 2), true),
    (Step::Append(b"./x.o.farm~", b"", 0), true),
    (Step::Append(b"./x.o.farm~", b"c", 1), true),
    (Step::Append(b"./x.o", b"c", 1), false),
];

/// It gets its name, and the next is taken away. If none is being written, there is nothing to take away.
const NAMED: &[(Step, bool)] = &[
    (Step::Rename(b"./x.o.farm~", b"./x.o"), true),
    (Step::Create(b"./x.o.farm~"), true),
    (Step::Remove(b"./x.o.farm~"), true),
    (Step::Remove(b"./x.o.farm~"), true),
];

/// What a file that is being written has, under which name, and that it gets the mode of a new one.
fn expect_written<R: Abort + Files + AllocGlobal>(rt: &R) -> Result<(), Fail> {
    expect_text(rt, "./farm-5-2.farm~", "abc")?;
    expect_same_mode(rt, "./farm-5-2.farm~", "x.o.farm~")
}

/// A file is written and gets its name.
fn write_and_name<R: Abort + Files + AllocGlobal, F: FileCalls>(
    rt: &R,
    files: &mut F,
) -> Result<(), Fail> {
    expect_steps(rt, rt.alloc(), files, WRITTEN);
    expect_written(rt)?;
    expect_steps(rt, rt.alloc(), files, NAMED);
    expect_loaded(rt, rt.alloc(), files);
    Ok(())
}

/// What others had written is as it was, and nothing else is left.
fn expect_others<R: Abort + Files + AllocGlobal>(rt: &R) -> Result<(), Fail> {
    expect_text(rt, "farm-5-1.farm~", "planted")?;
    expect_text(rt, "x.o.farm~", "stale")?;
    holds(rt, !fs::exists(rt, "farm-5-2.farm~")?, &"farm-5-2.farm~");
    holds(rt, !fs::exists(rt, "farm-5-3.farm~")?, &"farm-5-3.farm~");
    Ok(())
}

/// What others have written.
fn write_others<R: Files>(rt: &R) -> Result<(), Fail> {
    fs::write(rt, "farm-5-1.farm~", "planted")?;
    fs::write(rt, "x.o.farm~", "stale")?;
    Ok(())
}

fn expect_new_name<R: Abort + Files + AllocGlobal, F: FileCalls>(
    rt: &R,
    files: &mut F,
) -> Result<(), Fail> {
    write_others(rt)?;
    write_and_name(rt, files)?;
    expect_others(rt)
}

#[test]
fn a_file_is_written_under_a_new_name(rt: HostRuntime) -> Result<(), Fail> {
    let mut files = files(rt, 5)?;
    expect_new_name(&rt, &mut files)
}

const KEPT: &[Put] = &[
    (b"/dev/null", b"new", Ok(())),
    (b"folder", b"new", Err(EdgeFault::Failed)),
    (b"folder/../x.o", b"new", Ok(())),
    (LONGEST, b"new", Ok(())),
];

/// A name as long as a system of files allows.
const LONGEST: &[u8] = &[b'l'; 255];

/// What was there under those names is as it was, and the file is there.
fn expect_unreplaced<R: Abort + Files + AllocGlobal>(rt: &R) -> Result<(), Fail> {
    let device = fs::metadata(rt, "/dev/null")?;
    holds(rt, device.file_type().is_char_device(), &"/dev/null");
    holds(rt, fs::metadata(rt, "folder")?.is_dir(), &"folder");
    expect_text(rt, "x.o", "new")
}

fn expect_replaced<R: Abort + Files + AllocGlobal, K: Keeper>(
    rt: &R,
    keeper: &mut K,
) -> Result<(), Fail> {
    fs::create_dir(rt, "folder")?;
    expect_puts(rt, rt.alloc(), keeper, KEPT);
    expect_unreplaced(rt)
}

#[test]
fn only_a_regular_file_is_replaced(rt: HostRuntime) -> Result<(), Fail> {
    let mut kits = system_kits(rt, rt.alloc(), &settings_of(4), 1)?;
    same(&rt, &kits.len(), &1, &"kits");
    let [kit] = kits.as_mut_slice() else {
        return Err("there is one kit".into());
    };
    expect_replaced(&rt, &mut kit.keeper)
}

const WITHOUT_TEXT: &[(Step, bool)] = &[
    (Step::Create(b"\xff"), false),
    (Step::Create(b"good.farm~"), true),
    (Step::Append(b"\xff", b"ab", 2), false),
    (Step::Rename(b"\xff", b"good.farm~"), false),
    (Step::Rename(b"good.farm~", b"\xff"), false),
    (Step::Remove(b"\xff"), false),
];

fn expect_faults<R: Abort, F: FileCalls>(rt: &R, alloc: Global, files: &mut F) {
    expect_steps(rt, alloc, files, WITHOUT_TEXT);
    let loaded = load(alloc, files, b"\xff", 9);
    same_fetched(rt, &loaded, &Err(FetchFault::Failed), &"a load");
}

#[test]
fn a_name_that_is_not_utf8_is_a_fault(rt: HostRuntime) -> Result<(), Fail> {
    let mut files = files(rt, 3)?;
    expect_faults(&rt, rt.alloc(), &mut files);
    Ok(())
}

fn settings_of(process: u32) -> KitSettings<'static> {
    KitSettings {
        folder: ".",
        process,
        notices: Notices::Never,
        puts_empty: true,
    }
}
