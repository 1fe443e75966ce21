//! Calls of the program `scc`, and what they leave.

ghost use Rattle.std.specs.Prelude.{◌≡◌, false};
ghost use Rattle.edge_traits.specs.Keepers.{IsIdle};

use crate::devices::{GOOD, Writes, keeper_of, sink_of};
use crate::files::Listed;
use crate::same::{holds, same, same_bytes};
use edge_traits::{Keeper, Put, Sink};
use sample_program::scc;
use std::alloc::{AllocError, Global};
use std::process::Abort;
use std::test::Fail;

/// One call: its words, which calls of the keeper fail, and of each sink which writes fail and which take nothing; and what
/// it returns, prints and puts.
#[derive(Clone, Copy)]
pub(crate) struct Row {
    pub(crate) words: &'static [&'static str],
    pub(crate) fails: &'static [u64],
    pub(crate) out_moves: Writes,
    pub(crate) err_moves: Writes,
    pub(crate) status: u8,
    pub(crate) out: &'static [u8],
    pub(crate) err: &'static [u8],
    pub(crate) put: Option<(&'static [u8], &'static [u8])>,
}

/// A call that goes well, and neither prints nor puts.
pub(crate) const PLAIN: Row = Row {
    words: &[],
    fails: &[],
    out_moves: GOOD,
    err_moves: GOOD,
    status: 0,
    out: b"",
    err: b"",
    put: None,
};

pub(crate) fn strings(alloc: Global, list: &[&str]) -> Result<Vec<String>, AllocError> {
    let mut words = Vec::new(alloc);
    for word in list {
        words.push(String::from_str(alloc, word)?)?;
    }
    Ok(words)
}

/// The status of a call by these words over these devices.
fn status_over<K: Keeper, O: Sink, E: Sink>(
    alloc: Global,
    words: &[&str],
    keeper: &mut K,
    out: &mut O,
    err: &mut E,
) -> Result<u8, AllocError>
    requires idle { IsIdle (K.shows keeper.old) }
    requires out { (O.shows out.old).stopped ≡ false }
    requires err { (E.shows err.old).stopped ≡ false }
{
    let words = strings(alloc, words)?;
    Ok(scc(alloc, words.as_slice(), keeper, out, err))
}

/// The status of a call by these words over this keeper.
pub(crate) fn status_of<K: Keeper>(
    alloc: Global,
    words: &[String],
    keeper: &mut K,
) -> Result<u8, AllocError>
    requires { IsIdle (K.shows keeper.old) }
{
    let mut out = sink_of(alloc, GOOD)?;
    let mut err = sink_of(alloc, GOOD)?;
    Ok(scc(alloc, words, keeper, &mut out, &mut err))
}

fn expect_printed<R: Abort, K: Keeper>(
    rt: &R,
    alloc: Global,
    keeper: &mut K,
    row: &Row,
) -> Result<(), Fail>
    requires { IsIdle (K.shows keeper.old) }
{
    let mut out = sink_of(alloc, row.out_moves)?;
    let mut err = sink_of(alloc, row.err_moves)?;
    let status = status_over(alloc, row.words, keeper, &mut out, &mut err)?;
    same(rt, &status, &row.status, &row.words);
    same_bytes(rt, out.written(), row.out, &row.words);
    same_bytes(rt, err.written(), row.err, &row.words);
    Ok(())
}

/// The path and the bytes of the first put.
fn first_put(puts: &[Put]) -> Option<(&[u8], &[u8])> {
    match puts.first() {
        Some(put) => Some((put.path.as_slice(), put.bytes.as_slice())),
        None => None,
    }
}

fn expect_put<R: Abort>(rt: &R, puts: &[Put], row: &Row) {
    same(rt, &first_put(puts), &row.put, &row.words);
    holds(rt, puts.len() < 2, &row.words);
}

/// Makes the call of a row over these files, and compares what it leaves.
fn expect_call<R: Abort>(rt: &R, alloc: Global, files: Listed, row: &Row) -> Result<(), Fail> {
    let mut keeper = keeper_of(alloc, files, row.fails)?;
    expect_printed(rt, alloc, &mut keeper, row)?;
    let puts = keeper.into_puts().into_items(alloc)?;
    expect_put(rt, puts.as_slice(), row);
    Ok(())
}

pub(crate) fn expect_calls<R: Abort>(
    rt: &R,
    alloc: Global,
    files: Listed,
    rows: &[Row],
) -> Result<(), Fail> {
    for row in rows {
        expect_call(rt, alloc, files, row)?;
    }
    Ok(())
}
