use crate::same::{same, same_bytes};
use compile_reply::{Reply, decode, encode};
use farm_types::{Bytes, Outcome};
use std::alloc::{AllocError, Global};
use std::process::Abort;
use std::test::Fail;
use wire_tokens::{ReplyFault, Which};

/// An answer without its bytes.
#[derive(Clone, Copy, Debug, PartialEq, Eq)]
enum Shown {
    Whole {
        used: usize,
        status: u32,
        err: usize,
        out: usize,
        object: usize,
    },
    Short,
    Bad {
        at: u64,
        fault: ReplyFault,
    },
    Memory,
}

const TOO_LARGE_ERR: ReplyFault = ReplyFault::TooLarge {
    which: Which::Serr,
    len: 1_048_577,
};

const TOO_LARGE_OUT: ReplyFault = ReplyFault::TooLarge {
    which: Which::Sout,
    len: 4_294_967_295,
};

const TOO_LARGE_OBJECT: ReplyFault = ReplyFault::TooLarge {
    which: Which::Doto,
    len: 2_147_483_647,
};

const BESIDE_FAILURE: ReplyFault = ReplyFault::ObjectWithFailure {
    status: 256,
    len: 4,
};

/// A text, and what it is read as.
type Decoded = (&'static str, &'static [u8], Shown);

const DECODED: &[Decoded] = &[
    (
        "a success",
        b"DONE00000001STAT00000000SERR00000000SOUT00000000DOTO0000000dSCO1\ndef a 1\n",
        Shown::Whole {
            used: 73,
            status: 0,
            err: 0,
            out: 0,
            object: 13,
        },
    ),
    (
        "surplus",
        b"DONE00000001STAT00000000SERR00000000SOUT00000000DOTO0000000dSCO1\ndef a 1\n0123456789",
        Shown::Whole {
            used: 73,
            status: 0,
            err: 0,
            out: 0,
            object: 13,
        },
    ),
    (
        "digits of the upper case",
        b"DONE00000001STAT00000000SERR00000000SOUT00000000DOTO0000000DSCO1\ndef a 1\n",
        Shown::Whole {
            used: 73,
            status: 0,
            err: 0,
            out: 0,
            object: 13,
        },
    ),
    (
        "a failure",
        b"DONE00000001STAT00000100SERR00000004bad\nSOUT00000000DOTO00000000",
        Shown::Whole {
            used: 64,
            status: 256,
            err: 4,
            out: 0,
            object: 0,
        },
    ),
    (
        "a failure from distccd 3.4",
        b"DONE00000001STAT00000100SERR0000003cb.c:1:9: error: \xe2\x80\x98b\xe2\x80\x99 undeclared here (not in a function)\nSOUT00000000DOTO00000000",
        Shown::Whole {
            used: 120,
            status: 256,
            err: 60,
            out: 0,
            object: 0,
        },
    ),
    (
        "an empty object",
        b"DONE00000001STAT00000000SERR00000000SOUT00000000DOTO00000000",
        Shown::Whole {
            used: 60,
            status: 0,
            err: 0,
            out: 0,
            object: 0,
        },
    ),
    (
        "any status",
        b"DONE00000001STATffffffffSERR00000000SOUT00000001\nDOTO00000000",
        Shown::Whole {
            used: 61,
            status: 4_294_967_295,
            err: 0,
            out: 1,
            object: 0,
        },
    ),
    ("nothing", b"", Shown::Short),
    (
        "cut",
        b"DONE00000001STAT00000000SERR00000000SOUT00000000DOTO0000000dSCO1\ndef a 1",
        Shown::Short,
    ),
    (
        "cut in a name",
        b"DONE00000001STAT00000000SERR00000000SOUT00000000DO",
        Shown::Short,
    ),
    (
        "cut before the last length",
        b"DONE00000001STAT00000000SERR00000000SOUT00000000DOTO0000000",
        Shown::Short,
    ),
    (
        "another version",
        b"DONE00000002",
        Shown::Bad {
            at: 11,
            fault: ReplyFault::BadVersion { n: 2 },
        },
    ),
    (
        "another name",
        b"DONE00000001STAX",
        Shown::Bad {
            at: 15,
            fault: ReplyFault::WrongName,
        },
    ),
    (
        "a sign",
        b"DONE00000001STAT+000000b",
        Shown::Bad {
            at: 16,
            fault: ReplyFault::BadDigit,
        },
    ),
    (
        "a digit in the middle",
        b"DONE00000001STAT00000000SERR000.0000",
        Shown::Bad {
            at: 31,
            fault: ReplyFault::BadDigit,
        },
    ),
    (
        "too many messages",
        b"DONE00000001STAT00000000SERR00100001",
        Shown::Bad {
            at: 35,
            fault: TOO_LARGE_ERR,
        },
    ),
    (
        "too much output",
        b"DONE00000001STAT00000000SERR00000001\nSOUTffffffff",
        Shown::Bad {
            at: 48,
            fault: TOO_LARGE_OUT,
        },
    ),
    (
        "a large object",
        b"DONE00000001STAT00000000SERR00000000SOUT00000000DOTO7fffffff",
        Shown::Bad {
            at: 59,
            fault: TOO_LARGE_OBJECT,
        },
    ),
    (
        "a large object beside a failure",
        b"DONE00000001STAT00000100SERR00000000SOUT00000000DOTO7fffffff",
        Shown::Bad {
            at: 59,
            fault: TOO_LARGE_OBJECT,
        },
    ),
    (
        "an object beside a failure",
        b"DONE00000001STAT00000100SERR00000000SOUT00000000DOTO00000004",
        Shown::Bad {
            at: 59,
            fault: BESIDE_FAILURE,
        },
    ),
];

/// The parts of an outcome, and its text.
struct Written {
    status: u32,
    err: &'static [u8],
    out: &'static [u8],
    object: &'static [u8],
    text: &'static [u8],
}

const ENCODED: &[Written] = &[
    Written {
        status: 0,
        err: b"",
        out: b"",
        object: b"SCO1\ndef a 1\n",
        text: b"DONE00000001STAT00000000SERR00000000SOUT00000000DOTO0000000dSCO1\ndef a 1\n",
    },
    Written {
        status: 256,
        err: b"bad\n",
        out: b"",
        object: b"",
        text: b"DONE00000001STAT00000100SERR00000004bad\nSOUT00000000DOTO00000000",
    },
    Written {
        status: 28_160,
        err: b"unknown compiler gcc\n",
        out: b"",
        object: b"",
        text: b"DONE00000001STAT00006e00SERR00000015unknown compiler gcc\nSOUT00000000DOTO00000000",
    },
];

fn summary(reply: Reply) -> Shown {
    match reply {
        Reply::Whole { outcome, used } => Shown::Whole {
            used,
            status: outcome.status,
            err: outcome.err.len(),
            out: outcome.out.len(),
            object: outcome.object.len(),
        },
        Reply::Short => Shown::Short,
        Reply::Bad { at, fault } => Shown::Bad { at, fault },
        Reply::Memory => Shown::Memory,
    }
}

fn outcome(alloc: Global, row: &Written) -> Result<Outcome, AllocError> {
    Ok(Outcome {
        status: row.status,
        err: Bytes::from_slice(alloc, row.err)?,
        out: Bytes::from_slice(alloc, row.out)?,
        object: Bytes::from_slice(alloc, row.object)?,
    })
}

fn expect_decoded<R: Abort>(rt: &R, alloc: Global, rows: &[Decoded]) {
    for (row, text, answer) in rows {
        same(rt, &summary(decode(alloc, text)), answer, row);
    }
}

#[test]
fn decodes(rt: HostRuntime) {
    expect_decoded(&rt, rt.alloc(), DECODED);
}

/// The text of a row is read as what was written.
fn expect_read<R: Abort>(rt: &R, alloc: Global, row: &Written) -> Result<(), Fail> {
    match decode(alloc, row.text) {
        Reply::Whole { outcome, used } => {
            same(rt, &used, &row.text.len(), &row.status);
            same_bytes(rt, outcome.err.as_slice(), row.err, &row.status);
            same_bytes(rt, outcome.object.as_slice(), row.object, &row.status);
            Ok(())
        }
        _ => Err("what is written is read again".into()),
    }
}

fn expect_written<R: Abort>(rt: &R, alloc: Global, row: &Written) -> Result<(), Fail> {
    let outcome = outcome(alloc, row)?;
    if !outcome.fits() {
        return Err("the outcome is within its limits".into());
    }
    let written = encode(alloc, &outcome)?;
    same_bytes(rt, written.as_slice(), row.text, &row.status);
    Ok(())
}

fn expect_encoded<R: Abort>(rt: &R, alloc: Global, rows: &[Written]) -> Result<(), Fail> {
    for row in rows {
        expect_written(rt, alloc, row)?;
        expect_read(rt, alloc, row)?;
    }
    Ok(())
}

#[test]
fn encodes(rt: HostRuntime) -> Result<(), Fail> {
    expect_encoded(&rt, rt.alloc(), ENCODED)
}
