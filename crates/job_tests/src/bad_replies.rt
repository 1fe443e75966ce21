//! Replies with a fault, and the place of the fault.

use crate::exchanges::{cause, exchange};
use crate::same::same;
use edge_traits::Cause;
use std::alloc::Global;
use std::process::Abort;
use std::test::Fail;
use wire_tokens::{ReplyFault, Which};

/// A bad reply, the place of its fault, and the fault.
type Bad = (&'static [u8], u64, ReplyFault);

const BAD: &[Bad] = &[
    (b"DONEX", 4, ReplyFault::BadDigit),
    (b"HTTP/1.1 200 OK", 0, ReplyFault::WrongName),
    (b"DONE00000002", 11, ReplyFault::BadVersion { n: 2 }),
    (
        b"DONE00000001STAT00000000SERR00100001",
        35,
        ReplyFault::TooLarge {
            which: Which::Serr,
            len: 1_048_577,
        },
    ),
    (
        b"DONE00000001STAT00000000SERR00000000SOUT00000000DOTO7fffffff",
        59,
        ReplyFault::TooLarge {
            which: Which::Doto,
            len: 2_147_483_647,
        },
    ),
    (
        b"DONE00000001STAT00000100SERR00000000SOUT00000000DOTO00000004",
        59,
        ReplyFault::ObjectWithFailure {
            status: 256,
            len: 4,
        },
    ),
];

fn expect_bad<R: Abort>(rt: &R, alloc: Global, row: &Bad, most: u32) -> Result<(), Fail> {
    let (gives, at, fault) = row;
    let answer = exchange(alloc, gives, most, &[], &[], &[])?;
    let wanted = Cause::BadReply {
        at: *at,
        fault: *fault,
    };
    same(rt, &cause(answer), &Some(wanted), &most);
    Ok(())
}

fn expect_all_bad<R: Abort>(rt: &R, alloc: Global, rows: &[Bad]) -> Result<(), Fail> {
    for row in rows {
        expect_bad(rt, alloc, row, 1)?;
        expect_bad(rt, alloc, row, 1_000)?;
    }
    Ok(())
}

#[test]
fn bad_replies(rt: HostRuntime) -> Result<(), Fail> {
    expect_all_bad(&rt, rt.alloc(), BAD)
}
