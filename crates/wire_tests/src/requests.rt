use crate::limits::{front_of, full_words};
use crate::same::{holds, same, same_bytes};
use compile_request::{RequestReader, Step, encode};
use farm_types::{Bytes, Request, Words};
use std::alloc::{AllocError, Global};
use std::process::Abort;
use std::test::Fail;
use wire_tokens::{RequestFault, Which};

/// The result of a text in pieces, without its bytes.
#[derive(Clone, Copy, Debug, PartialEq, Eq)]
enum Shown {
    More,
    Whole {
        read: usize,
        words: usize,
        source: usize,
    },
    Bad {
        at: u64,
        fault: RequestFault,
    },
    Memory,
}

const TOO_LARGE_WORD: RequestFault = RequestFault::TooLarge {
    which: Which::Argv,
    len: 65_537,
};

const TOO_LARGE_SOURCE: RequestFault = RequestFault::TooLarge {
    which: Which::Doti,
    len: 4_294_967_295,
};

const ONE_BYTE_TOO_MANY: RequestFault = RequestFault::TooLarge {
    which: Which::Words,
    len: 1,
};

const TEXT: &[u8] =
    b"DIST00000001ARGC00000005ARGV00000003sccARGV00000002-cARGV00000003a.iARGV00000002-oARGV00000003a.oDOTI0000000bint a = 1;\n";

const WORDS: &[&str] = &["scc", "-c", "a.i", "-o", "a.o"];

const PIECES: &[usize] = &[1, 2, 7, 12, 1_000];

/// A text, and its result.
type Case = (&'static str, &'static [u8], Shown);

const READ: &[Case] = &[
    (
        "a compile",
        b"DIST00000001ARGC00000005ARGV00000003sccARGV00000002-cARGV00000003a.iARGV00000002-oARGV00000003a.oDOTI0000000bint a = 1;\n",
        Shown::Whole {
            read: 120,
            words: 5,
            source: 11,
        },
    ),
    (
        "surplus",
        b"DIST00000001ARGC00000005ARGV00000003sccARGV00000002-cARGV00000003a.iARGV00000002-oARGV00000003a.oDOTI0000000bint a = 1;\n0123456789",
        Shown::Whole {
            read: 120,
            words: 5,
            source: 11,
        },
    ),
    (
        "digits of the upper case",
        b"DIST00000001ARGC00000005ARGV00000003sccARGV00000002-cARGV00000003a.iARGV00000002-oARGV00000003a.oDOTI0000000Bint a = 1;\n",
        Shown::Whole {
            read: 120,
            words: 5,
            source: 11,
        },
    ),
    (
        "a compile from distcc 3.4",
        b"DIST00000001ARGC00000005ARGV00000014x86_64-linux-gnu-gccARGV00000002-cARGV00000003a.cARGV00000002-oARGV00000003a.oDOTI00000083# 0 \"a.c\"\n# 0 \"<built-in>\"\n# 0 \"<command-line>\"\n# 1 \"/usr/include/stdc-predef.h\" 1 3 4\n# 0 \"<command-line>\" 2\n# 1 \"a.c\"\nint a = 1;\n",
        Shown::Whole {
            read: 257,
            words: 5,
            source: 131,
        },
    ),
    (
        "an empty word and source",
        b"DIST00000001ARGC00000001ARGV00000000DOTI00000000",
        Shown::Whole {
            read: 48,
            words: 1,
            source: 0,
        },
    ),
    ("nothing", b"", Shown::More),
    (
        "cut",
        b"DIST00000001ARGC00000005ARGV00000003sccARGV00000002-cARGV00000003a.iARGV00000002-oARGV00000003a.oDOTI0000000bint a = 1;",
        Shown::More,
    ),
    (
        "cut in a word",
        b"DIST00000001ARGC00000005ARGV00000003sc",
        Shown::More,
    ),
    ("cut in the digits", b"DIST0000", Shown::More),
    (
        "another version",
        b"DIST00000002",
        Shown::Bad {
            at: 11,
            fault: RequestFault::BadVersion { n: 2 },
        },
    ),
    (
        "another name",
        b"DIST00000001ARGV",
        Shown::Bad {
            at: 15,
            fault: RequestFault::WrongName,
        },
    ),
    (
        "a sign",
        b"DIST00000001ARGC00000005ARGV00000003sccARGV00000002-cARGV00000003a.iARGV00000002-oARGV00000003a.oDOTI+000000b",
        Shown::Bad {
            at: 101,
            fault: RequestFault::BadDigit,
        },
    ),
    (
        "no words",
        b"DIST00000001ARGC00000000",
        Shown::Bad {
            at: 23,
            fault: RequestFault::Count { n: 0 },
        },
    ),
    (
        "too many words",
        b"DIST00000001ARGC00000401",
        Shown::Bad {
            at: 23,
            fault: RequestFault::Count { n: 1_025 },
        },
    ),
    (
        "a large word",
        b"DIST00000001ARGC00000005ARGV00010001",
        Shown::Bad {
            at: 35,
            fault: TOO_LARGE_WORD,
        },
    ),
    (
        "a large source",
        b"DIST00000001ARGC00000005ARGV00000003sccARGV00000002-cARGV00000003a.iARGV00000002-oARGV00000003a.oDOTIffffffff",
        Shown::Bad {
            at: 108,
            fault: TOO_LARGE_SOURCE,
        },
    ),
    (
        "a fault before more bytes",
        b"DISTx0000001ARGC00000000",
        Shown::Bad {
            at: 4,
            fault: RequestFault::BadDigit,
        },
    ),
];

fn summary(step: Step, before: usize) -> Shown {
    match step {
        Step::More => Shown::More,
        Step::Whole { request, used } => Shown::Whole {
            read: before.saturating_add(used),
            words: request.words.len(),
            source: request.source.len(),
        },
        Step::Bad { at, fault } => Shown::Bad { at, fault },
        Step::Memory => Shown::Memory,
    }
}

// Gives a new reader the text in pieces of this length, up to the end of the request. After a
// fault it gets the later pieces too.
fn read(alloc: Global, text: &[u8], len: usize) -> Shown {
    let mut reader = RequestReader::new(alloc);
    let mut last = Shown::More;
    let mut before: usize = 0;
    for piece in text.chunks(len.max(1)) {
        if reader.is_spent() {
            return last;
        }
        last = summary(reader.feed(piece), before);
        before = before.saturating_add(piece.len());
    }
    last
}

fn words(alloc: Global, texts: &[&str]) -> Result<Words, AllocError> {
    let mut words = Words::new(alloc);
    for text in texts {
        words.try_push(Bytes::from_slice(alloc, text.as_bytes())?)?;
    }
    Ok(words)
}

fn request(alloc: Global) -> Result<Request, AllocError> {
    Ok(Request {
        words: words(alloc, WORDS)?,
        source: Bytes::from_slice(alloc, b"int a = 1;\n")?,
    })
}

// The front of a request whose words have all the bytes that they may have together, and that wants one word more.
fn full_of_words(alloc: Global) -> Result<Bytes, AllocError> {
    let words = full_words(alloc)?;
    front_of(alloc, words.as_slice())
}

/// The result of a text in pieces of these lengths.
fn expect_pieces<R: Abort>(
    rt: &R,
    alloc: Global,
    row: &str,
    text: &[u8],
    lengths: &[usize],
    answer: &Shown,
) {
    for len in lengths {
        same(rt, &read(alloc, text, *len), answer, &(row, *len));
    }
}

fn expect_cases<R: Abort>(rt: &R, alloc: Global, cases: &[Case]) {
    for (row, text, answer) in cases {
        expect_pieces(rt, alloc, row, text, PIECES, answer);
    }
}

#[test]
fn reads_in_pieces(rt: HostRuntime) {
    expect_cases(&rt, rt.alloc(), READ);
}

/// The text of a request.
fn encoded(alloc: Global, request: &Request) -> Result<Bytes, Fail> {
    if !request.fits() {
        return Err("the request is within its limits".into());
    }
    Ok(encode(alloc, request)?)
}

#[test]
fn writes(rt: HostRuntime) -> Result<(), Fail> {
    let text = encoded(rt.alloc(), &request(rt.alloc())?)?;
    same_bytes(&rt, text.as_slice(), TEXT, &"a request");
    Ok(())
}

fn expect_words<R: Abort>(rt: &R, words: &[Bytes], texts: &[&str]) {
    for (word, text) in words.iter().zip(texts) {
        same_bytes(rt, word.as_slice(), text.as_bytes(), text);
    }
}

fn expect_request<R: Abort>(rt: &R, request: &Request) {
    same_bytes(rt, request.source.as_slice(), b"int a = 1;\n", &"a source");
    same(rt, &request.words.len(), &5, &"words");
    expect_words(rt, request.words.as_slice(), WORDS);
}

#[test]
fn reads_the_words(rt: HostRuntime) -> Result<(), Fail> {
    let mut reader = RequestReader::new(rt.alloc());
    match reader.feed(TEXT) {
        Step::Whole { request, used } => {
            same(&rt, &used, &120, &"bytes");
            expect_request(&rt, &request);
        }
        _ => return Err("the text is whole".into()),
    }
    holds(&rt, reader.is_spent(), &"after a request");
    Ok(())
}

/// Words that have all their bytes, and their result with these bytes after them.
fn expect_full<R: Abort>(
    rt: &R,
    alloc: Global,
    behind: &[u8],
    fault: RequestFault,
) -> Result<(), Fail> {
    let mut text = full_of_words(alloc)?;
    let at = text.len() as u64;
    expect_pieces(rt, alloc, "full", text.as_slice(), &[1_460], &Shown::More);
    text.try_extend(behind)?;
    let answer = Shown::Bad {
        at: at.saturating_add(11),
        fault,
    };
    expect_pieces(rt, alloc, "a word more", text.as_slice(), &[1_460], &answer);
    Ok(())
}

#[test]
fn counts_all_words(rt: HostRuntime) -> Result<(), Fail> {
    expect_full(&rt, rt.alloc(), b"ARGV00000001", ONE_BYTE_TOO_MANY)?;
    expect_full(&rt, rt.alloc(), b"ARGV00010001", TOO_LARGE_WORD)
}

/// The text of a request whose source has the greatest length.
fn large_text(alloc: Global) -> Result<Bytes, Fail> {
    let request = Request {
        words: words(alloc, WORDS)?,
        source: Bytes::from_vec(vec![in alloc; b'x'; 33_554_432]?),
    };
    encoded(alloc, &request)
}

#[test]
fn reads_large_sources(rt: HostRuntime) -> Result<(), Fail> {
    let text = large_text(rt.alloc())?;
    let answer = Shown::Whole {
        read: text.len(),
        words: 5,
        source: 33_554_432,
    };
    expect_pieces(
        &rt,
        rt.alloc(),
        "a large source",
        text.as_slice(),
        &[1, 1_460, 65_536],
        &answer,
    );
    Ok(())
}
