//! Exchanges whose objects go into files.

use crate::exchanges::{EMPTY, FAILED, ObjectPlace, REPLY, SURPLUS, landing};
use crate::same::{holds, same, same_bytes};
use edge_traits::Cause;
use remote_transfer::Landing;
use std::alloc::Global;
use std::process::Abort;
use std::test::Fail;

/// A reply, the place of its object, and what the file holds.
type LandedRow = (&'static [u8], ObjectPlace, &'static [u8]);

const LANDED: &[LandedRow] = &[
    (REPLY, (Landing::Pending, 0, 0), b"SCO1\ndef a 1\n"),
    (SURPLUS, (Landing::Pending, 0, 0), b"SCO1\ndef a 1\n"),
    (EMPTY, (Landing::Pending, 0, 0), b""),
    (FAILED, (Landing::Nothing, 256, 0), b"old"),
];

fn expect_landed<R: Abort>(
    rt: &R,
    alloc: Global,
    row: &LandedRow,
    most: u32,
    fails: &[u64],
) -> Result<(), Fail> {
    let (gives, wanted, file) = row;
    let shown = landing(alloc, gives, most, fails)?;
    same(rt, &shown.place, &Some(*wanted), &(most, fails));
    same(
        rt,
        &shown.pending,
        &(wanted.0 == Landing::Pending),
        &(most, fails),
    );
    same_bytes(rt, shown.file.as_slice(), file, &(most, fails));
    Ok(())
}

fn expect_landed_by_pieces<R: Abort>(rt: &R, alloc: Global, row: &LandedRow) -> Result<(), Fail> {
    for most in [1, 2, 5, 7, 60, 61, 1_000] {
        expect_landed(rt, alloc, row, most, &[])?;
    }
    Ok(())
}

fn expect_all_landed<R: Abort>(rt: &R, alloc: Global, rows: &[LandedRow]) -> Result<(), Fail> {
    for row in rows {
        expect_landed_by_pieces(rt, alloc, row)?;
    }
    Ok(())
}

#[test]
fn objects_go_into_files(rt: HostRuntime) -> Result<(), Fail> {
    expect_all_landed(&rt, rt.alloc(), LANDED)
}

const LOST: LandedRow = (REPLY, (Landing::Lost, 0, 0), b"old");

const LOST_EMPTY: LandedRow = (EMPTY, (Landing::Lost, 0, 0), b"old");

// In pieces of 5 bytes: one begin, and an add for each of the three pieces of the object. An empty object has only its begin.
#[test]
fn a_fault_of_the_keeper_loses_the_object(rt: HostRuntime) -> Result<(), Fail> {
    for call in 1..5 {
        expect_landed(&rt, rt.alloc(), &LOST, 5, &[call])?;
    }
    expect_landed(&rt, rt.alloc(), &LOST_EMPTY, 5, &[1])
}

fn expect_old_file<R: Abort>(rt: &R, alloc: Global, gives: &[u8], most: u32) -> Result<(), Fail> {
    let shown = landing(alloc, gives, most, &[])?;
    let have = gives.len() as u64;
    same(
        rt,
        &shown.broke,
        &Some(Cause::Truncated { have }),
        &(have, most),
    );
    holds(rt, !shown.pending, &(have, most));
    same_bytes(rt, shown.file.as_slice(), b"old", &(have, most));
    Ok(())
}

fn expect_old_files<R: Abort>(rt: &R, alloc: Global, reply: &[u8]) -> Result<(), Fail> {
    for len in 0..reply.len() {
        expect_old_file(rt, alloc, &reply[..len], 1)?;
        expect_old_file(rt, alloc, &reply[..len], 5)?;
        expect_old_file(rt, alloc, &reply[..len], 1_000)?;
    }
    Ok(())
}

#[test]
fn a_cut_reply_leaves_the_file(rt: HostRuntime) -> Result<(), Fail> {
    expect_old_files(&rt, rt.alloc(), REPLY)
}
