use crate::same::{holds, same, same_bytes};
use farm_types::{Bytes, Outcome};
use reply_stream::{Part, ReplyReader, Span};
use std::alloc::{AllocError, Global};
use std::process::Abort;
use std::test::Fail;
use wire_tokens::{DOTO, Name4, ReplyFault, SERR, Which, push_body};

/// The result of a text in pieces.
#[derive(Clone, Copy, Debug, PartialEq, Eq)]
enum Shown {
    More,
    Whole { read: usize, status: u32 },
    Bad { at: u64, fault: ReplyFault },
    Memory,
}

const PIECES: &[usize] = &[1, 2, 5, 7, 12, 61, 1_000];

/// A text, the bytes of its object, and its result.
type Case = (&'static str, &'static [u8], &'static [u8], Shown);

const CASES: &[Case] = &[
    (
        "an object",
        b"DONE00000001STAT00000000SERR00000000SOUT00000000DOTO0000000dSCO1\ndef a 1\n",
        b"SCO1\ndef a 1\n",
        Shown::Whole {
            read: 73,
            status: 0,
        },
    ),
    (
        "surplus",
        b"DONE00000001STAT00000000SERR00000000SOUT00000000DOTO0000000DSCO1\ndef a 1\nDONE000000",
        b"SCO1\ndef a 1\n",
        Shown::Whole {
            read: 73,
            status: 0,
        },
    ),
    (
        "messages of a failure",
        b"DONE00000001STAT00000100SERR00000004bad\nSOUT00000002okDOTO00000000",
        b"",
        Shown::Whole {
            read: 66,
            status: 256,
        },
    ),
    (
        "an empty object",
        b"DONE00000001STAT00000000SERR00000000SOUT00000000DOTO00000000",
        b"",
        Shown::Whole {
            read: 60,
            status: 0,
        },
    ),
    (
        "messages and an object",
        b"DONE00000001STAT00000000SERR00000004warnSOUT00000002okDOTO00000003obj",
        b"obj",
        Shown::Whole {
            read: 69,
            status: 0,
        },
    ),
    ("nothing", b"", b"", Shown::More),
    (
        "cut before the last byte",
        b"DONE00000001STAT00000000SERR00000000SOUT00000000DOTO0000000dSCO1\ndef a 1",
        b"SCO1\ndef a 1",
        Shown::More,
    ),
    (
        "cut in a message",
        b"DONE00000001STAT00000000SERR00000004wa",
        b"",
        Shown::More,
    ),
    (
        "cut in the digits",
        b"DONE00000001STAT0000",
        b"",
        Shown::More,
    ),
    (
        "another version",
        b"DONE00000002",
        b"",
        Shown::Bad {
            at: 11,
            fault: ReplyFault::BadVersion { n: 2 },
        },
    ),
    (
        "another name",
        b"HTTP/1.1 200 OK",
        b"",
        Shown::Bad {
            at: 0,
            fault: ReplyFault::WrongName,
        },
    ),
    (
        "no digit, and more bytes",
        b"DONEX0000001STAT00000000",
        b"",
        Shown::Bad {
            at: 4,
            fault: ReplyFault::BadDigit,
        },
    ),
    (
        "a large message",
        b"DONE00000001STAT00000000SERR00100001",
        b"",
        Shown::Bad {
            at: 35,
            fault: ReplyFault::TooLarge {
                which: Which::Serr,
                len: 1_048_577,
            },
        },
    ),
    (
        "a large object",
        b"DONE00000001STAT00000000SERR00000000SOUT00000000DOTO7fffffff",
        b"",
        Shown::Bad {
            at: 59,
            fault: ReplyFault::TooLarge {
                which: Which::Doto,
                len: 2_147_483_647,
            },
        },
    ),
    (
        "a large object beside a failure",
        b"DONE00000001STAT00000100SERR00000000SOUT00000000DOTO7fffffff",
        b"",
        Shown::Bad {
            at: 59,
            fault: ReplyFault::TooLarge {
                which: Which::Doto,
                len: 2_147_483_647,
            },
        },
    ),
    (
        "an object beside a failure",
        b"DONE00000001STAT00000100SERR00000002noSOUT00000000DOTO00000004abcd",
        b"",
        Shown::Bad {
            at: 61,
            fault: ReplyFault::ObjectWithFailure {
                status: 256,
                len: 4,
            },
        },
    ),
];

// The result of a part, if the pieces before it had `before` bytes. It adds the object's bytes.
fn summary(part: Part, piece: &[u8], before: usize, object: &mut Bytes) -> Result<Shown, Fail> {
    Ok(match part {
        Part::More { used, object: span } => {
            if used != piece.len() {
                return Err("all of the piece is used".into());
            }
            add(object, piece, span)?;
            Shown::More
        }
        Part::Whole {
            used,
            object: span,
            outcome,
        } => {
            add(object, piece, span)?;
            Shown::Whole {
                read: before.saturating_add(used),
                status: outcome.status,
            }
        }
        Part::Bad { at, fault } => Shown::Bad { at, fault },
        Part::Memory => Shown::Memory,
    })
}

fn add(object: &mut Bytes, piece: &[u8], span: Span) -> Result<(), Fail> {
    match piece.get(span.from..span.to) {
        Some(bytes) => Ok(object.try_extend(bytes)?),
        None => Err("the span lies in the piece".into()),
    }
}

// Gives a new reader the text in pieces of this length, up to the end of the reply, and joins the
// spans. After a fault it gets the later pieces too.
fn read(alloc: Global, text: &[u8], len: usize) -> Result<(Shown, Bytes), Fail> {
    let mut reader = ReplyReader::new(alloc);
    let mut object = Bytes::new(alloc);
    let mut last = Shown::More;
    let mut before: usize = 0;
    for piece in text.chunks(len.max(1)) {
        if reader.is_spent() {
            return Ok((last, object));
        }
        last = summary(reader.feed(piece), piece, before, &mut object)?;
        before = before.saturating_add(piece.len());
    }
    Ok((last, object))
}

/// The result of this text in pieces of this length, and the bytes of its object.
fn expect_read<R: Abort>(
    rt: &R,
    alloc: Global,
    case: &Case,
    text: &[u8],
    len: usize,
) -> Result<(), Fail> {
    let (shown, object) = read(alloc, text, len)?;
    same(rt, &shown, &case.3, &(case.0, len));
    same_bytes(rt, object.as_slice(), case.2, &(case.0, len));
    Ok(())
}

fn expect_pieces<R: Abort>(rt: &R, alloc: Global, case: &Case) -> Result<(), Fail> {
    for len in PIECES {
        expect_read(rt, alloc, case, case.1, *len)?;
    }
    Ok(())
}

fn expect_cases<R: Abort>(rt: &R, alloc: Global, cases: &[Case]) -> Result<(), Fail> {
    for case in cases {
        expect_pieces(rt, alloc, case)?;
    }
    Ok(())
}

#[test]
fn a_reply_is_read_in_pieces(rt: HostRuntime) -> Result<(), Fail> {
    expect_cases(&rt, rt.alloc(), CASES)
}

const WHOLE: &[u8] = b"DONE00000001STAT00000000SERR00000000SOUT00000000DOTO0000000dSCO1\ndef a 1\n";

/// The result of a text that isn't whole in pieces, and the length of its object.
fn expect_cut<R: Abort>(rt: &R, alloc: Global, text: &[u8]) -> Result<(), Fail> {
    for size in PIECES {
        let (shown, object) = read(alloc, text, *size)?;
        same(rt, &shown, &Shown::More, &(text.len(), *size));
        same(
            rt,
            &object.len(),
            &text.len().saturating_sub(60),
            &(text.len(), *size),
        );
    }
    Ok(())
}

fn expect_cuts<R: Abort>(rt: &R, alloc: Global, text: &[u8]) -> Result<(), Fail> {
    for len in 0..text.len() {
        expect_cut(rt, alloc, &text[..len])?;
    }
    Ok(())
}

#[test]
fn reads_every_cut(rt: HostRuntime) -> Result<(), Fail> {
    expect_cuts(&rt, rt.alloc(), WHOLE)
}

fn whole(alloc: Global, text: &[u8]) -> Result<Outcome, Fail> {
    let mut reader = ReplyReader::new(alloc);
    match reader.feed(text) {
        Part::Whole { outcome, .. } => Ok(outcome),
        _ => Err("the text is whole".into()),
    }
}

fn expect_messages<R: Abort>(rt: &R, outcome: &Outcome) {
    same_bytes(rt, outcome.err.as_slice(), b"warn", &"err");
    same_bytes(rt, outcome.out.as_slice(), b"ok", &"out");
    same_bytes(rt, outcome.object.as_slice(), b"", &"object");
}

#[test]
fn reads_the_messages(rt: HostRuntime) -> Result<(), Fail> {
    let text = b"DONE00000001STAT00000000SERR00000004warnSOUT00000002okDOTO00000003obj";
    expect_messages(&rt, &whole(rt.alloc(), text)?);
    Ok(())
}

#[test]
fn is_spent_after_a_reply(rt: HostRuntime) {
    let mut reader = ReplyReader::new(rt.alloc());
    holds(&rt, !reader.is_spent(), &"before");
    let _ = reader.feed(b"DONE00000001STAT00000000SERR00000000SOUT00000000DOTO00000000");
    holds(&rt, reader.is_spent(), &"after");
}

/// A text, and after it a part of this name with `len` bytes.
fn with_body(
    alloc: Global,
    text: &[u8],
    name: Name4,
    byte: u8,
    len: u32,
) -> Result<Bytes, AllocError> {
    let body = Bytes::from_vec(vec![in alloc; byte; len as usize]?);
    let mut text = Bytes::from_slice(alloc, text)?;
    push_body(&mut text, name, &body)?;
    Ok(text)
}

/// With the front of its text.
const LONG_MESSAGES: Case = (
    "long messages",
    b"DONE00000001STAT00000000",
    b"obj",
    Shown::Whole {
        read: 1_048_639,
        status: 0,
    },
);

fn expect_long_messages<R: Abort>(
    rt: &R,
    alloc: Global,
    case: &Case,
    text: &[u8],
) -> Result<(), Fail> {
    for len in [1, 1_460, 65_536] {
        expect_read(rt, alloc, case, text, len)?;
    }
    Ok(())
}

#[test]
fn reads_long_messages(rt: HostRuntime) -> Result<(), Fail> {
    let mut text = with_body(rt.alloc(), LONG_MESSAGES.1, SERR, b'e', 1_048_576)?;
    text.try_extend(b"SOUT00000000DOTO00000003obj")?;
    expect_long_messages(&rt, rt.alloc(), &LONG_MESSAGES, text.as_slice())
}

#[test]
fn reads_the_largest_object(rt: HostRuntime) -> Result<(), Fail> {
    let front = b"DONE00000001STAT00000000SERR00000000SOUT00000000";
    let text = with_body(rt.alloc(), front, DOTO, b'o', 33_554_432)?;
    let (shown, object) = read(rt.alloc(), text.as_slice(), 65_536)?;
    let answer = Shown::Whole {
        read: 33_554_492,
        status: 0,
    };
    same(&rt, &shown, &answer, &"an object");
    same(&rt, &object.len(), &33_554_432, &"an object");
    Ok(())
}
