use crate::devices::files_with;
use crate::keepers::{Fetch, expect_fetches, put_file, same_fetched};
use crate::same::{holds, same};
use edge_traits::{EdgeFault, FetchFault, Keeper, is_staged};
use farm_types::Bytes;
use object_delivery::{FileKeeper, Files};
use std::alloc::Global;
use std::process::Abort;
use std::test::Fail;

/// A put of `new` under `x.o`, which holds `old`, byte by byte: `create`, three times `append`, `rename`, and after a failure `remove`.
struct Row {
    fails: &'static [u64],
    put: Result<(), EdgeFault>,
    named: &'static [u8],
    staged: Result<&'static [u8], FetchFault>,
}

const FAILED: Row = Row {
    fails: &[],
    put: Err(EdgeFault::Failed),
    named: b"old",
    staged: Err(FetchFault::Absent),
};

const ROWS: &[Row] = &[
    Row {
        put: Ok(()),
        named: b"new",
        ..FAILED
    },
    Row {
        fails: &[1],
        ..FAILED
    },
    Row {
        fails: &[2],
        ..FAILED
    },
    Row {
        fails: &[3],
        ..FAILED
    },
    Row {
        fails: &[4],
        ..FAILED
    },
    Row {
        fails: &[5],
        ..FAILED
    },
    Row {
        fails: &[1, 2],
        ..FAILED
    },
    Row {
        fails: &[2, 3],
        staged: Ok(b""),
        ..FAILED
    },
    Row {
        fails: &[4, 5],
        staged: Ok(b"ne"),
        ..FAILED
    },
    Row {
        fails: &[5, 6],
        staged: Ok(b"new"),
        ..FAILED
    },
];

/// What a file has, of three bytes at most.
fn content<F: Files>(alloc: Global, files: &mut F, name: &[u8]) -> Result<Bytes, FetchFault> {
    files.load(alloc, &Bytes::from_slice(alloc, name)?, 3)
}

/// What is left of a put whose calls with these numbers failed: the file, and what is staged for it.
fn expect_left<R: Abort, F: Files>(
    rt: &R,
    alloc: Global,
    files: &mut F,
    named: &'static [u8],
    staged: &Result<&'static [u8], FetchFault>,
    fails: &[u64],
) {
    same_fetched(rt, &content(alloc, files, b"x.o"), &Ok(named), &fails);
    same_fetched(rt, &content(alloc, files, b"x.o.farm~"), staged, &fails);
}

fn expect_put<R: Abort>(rt: &R, alloc: Global, row: &Row) -> Result<(), Fail> {
    let mut keeper = FileKeeper::new(files_with(alloc, row.fails)?);
    let put = put_file(alloc, &mut keeper, b"x.o", b"new");
    same(rt, &put, &row.put, &row.fails);
    let mut files = keeper.into_files();
    expect_left(rt, alloc, &mut files, row.named, &row.staged, row.fails);
    Ok(())
}

fn expect_each_put<R: Abort>(rt: &R, alloc: Global, rows: &[Row]) -> Result<(), Fail> {
    for row in rows {
        expect_put(rt, alloc, row)?;
    }
    Ok(())
}

#[test]
fn a_put_is_whole_or_not_at_all(rt: HostRuntime) -> Result<(), Fail> {
    expect_each_put(&rt, rt.alloc(), ROWS)
}

/// The fourth load fails.
const FETCHES: &[Fetch] = &[
    (b"x.o", 3, Ok(b"old")),
    (b"x.o", 2, Err(FetchFault::TooMuch { bytes: 3 })),
    (b"y.o", 3, Err(FetchFault::Absent)),
    (b"x.o", 3, Err(FetchFault::Failed)),
];

#[test]
fn a_fetch_gives_the_whole_file(rt: HostRuntime) -> Result<(), Fail> {
    let mut keeper = FileKeeper::new(files_with(rt.alloc(), &[4])?);
    expect_fetches(&rt, rt.alloc(), &mut keeper, FETCHES);
    Ok(())
}

/// Renames a file to its own name, then to that of another, then again, when it isn't there.
fn rename_thrice<F: Files>(
    alloc: Global,
    files: &mut F,
    old: &Bytes,
    new: &Bytes,
) -> Result<(), EdgeFault> {
    files.rename(alloc, old, old)?;
    files.append(alloc, new, b"z")?;
    files.rename(alloc, old, new)?;
    files.rename(alloc, old, new)
}

fn rename_to_other<F: Files>(alloc: Global, files: &mut F) -> Result<(), EdgeFault> {
    let old = Bytes::from_slice(alloc, b"x.o")?;
    let new = Bytes::from_slice(alloc, b"y.o")?;
    rename_thrice(alloc, files, &old, &new)
}

fn expect_renamed<R: Abort, F: Files>(rt: &R, alloc: Global, files: &mut F) {
    same(rt, &rename_to_other(alloc, files), &Ok(()), &"the renames");
    same_fetched(rt, &content(alloc, files, b"y.o"), &Ok(b"old"), &"y.o");
    let absent = Err(FetchFault::Absent);
    same_fetched(rt, &content(alloc, files, b"x.o"), &absent, &"x.o");
}

#[test]
fn a_rename_takes_the_other_name(rt: HostRuntime) -> Result<(), Fail> {
    let mut files = files_with(rt.alloc(), &[])?;
    expect_renamed(&rt, rt.alloc(), &mut files);
    Ok(())
}

/// A put of `x.o` in steps: its pieces, whether it is committed or given up, what it answers, and what the file holds then.
struct Steps {
    fails: &'static [u64],
    pieces: &'static [&'static [u8]],
    commits: bool,
    put: Result<(), EdgeFault>,
    named: &'static [u8],
}

const FAILED_STEPS: Steps = Steps {
    fails: &[0],
    pieces: &[b"ab", b"c"],
    commits: true,
    put: Err(EdgeFault::Failed),
    named: b"old",
};

const STEPS: &[Steps] = &[
    Steps {
        put: Ok(()),
        named: b"abc",
        ..FAILED_STEPS
    },
    Steps {
        commits: false,
        put: Ok(()),
        ..FAILED_STEPS
    },
    Steps {
        pieces: &[],
        put: Ok(()),
        named: b"",
        ..FAILED_STEPS
    },
    Steps {
        fails: &[1],
        ..FAILED_STEPS
    },
    Steps {
        fails: &[3],
        ..FAILED_STEPS
    },
    Steps {
        fails: &[4],
        ..FAILED_STEPS
    },
    Steps {
        fails: &[5],
        ..FAILED_STEPS
    },
];

/// Gives the pending put these pieces.
fn add_each<K: Keeper>(alloc: Global, keeper: &mut K, pieces: &[&[u8]]) -> Result<(), EdgeFault> {
    for piece in pieces {
        if keeper.is_pending() && !piece.is_empty() {
            keeper.add(alloc, piece)?;
        }
    }
    Ok(())
}

/// Begins a put, gives it these pieces, and commits it or gives it up.
fn put_in_steps<K: Keeper>(
    alloc: Global,
    keeper: &mut K,
    path: &Bytes,
    row: &Steps,
) -> Result<(), EdgeFault> {
    if keeper.is_pending() || is_staged(path.as_slice()) {
        return Err(EdgeFault::Memory);
    }
    keeper.begin(alloc, path)?;
    add_each(alloc, keeper, row.pieces)?;
    if row.commits && keeper.is_pending() {
        return keeper.commit(alloc);
    }
    keeper.abandon();
    Ok(())
}

fn expect_steps<R: Abort, K: Keeper>(
    rt: &R,
    alloc: Global,
    keeper: &mut K,
    path: &Bytes,
    row: &Steps,
) {
    let put = put_in_steps(alloc, keeper, path, row);
    same(rt, &put, &row.put, &row.fails);
    holds(rt, !keeper.is_pending(), &row.fails);
}

fn expect_put_in_steps<R: Abort>(
    rt: &R,
    alloc: Global,
    path: &Bytes,
    row: &Steps,
) -> Result<(), Fail> {
    let mut keeper = FileKeeper::new(files_with(alloc, row.fails)?);
    expect_steps(rt, alloc, &mut keeper, path, row);
    let mut files = keeper.into_files();
    let absent = Err(FetchFault::Absent);
    expect_left(rt, alloc, &mut files, row.named, &absent, row.fails);
    Ok(())
}

fn expect_each_in_steps<R: Abort>(
    rt: &R,
    alloc: Global,
    path: &Bytes,
    rows: &[Steps],
) -> Result<(), Fail> {
    for row in rows {
        expect_put_in_steps(rt, alloc, path, row)?;
    }
    Ok(())
}

#[test]
fn a_put_in_steps_is_whole_or_not_at_all(rt: HostRuntime) -> Result<(), Fail> {
    let path = Bytes::from_slice(rt.alloc(), b"x.o")?;
    expect_each_in_steps(&rt, rt.alloc(), &path, STEPS)
}
