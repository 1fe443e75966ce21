use crate::filled::repeated;
use crate::same::{holds, same, same_bytes};
use farm_types::limits::{MESSAGES_MAX, WORD_MAX, WORDS_BYTES_MAX, WORDS_MAX};
use farm_types::{
    Bytes, Ext, Host, HostName, Items, Outcome, PlacedWords, Ran, Request, Room, Trail, Word,
    Words, exit_code, read_decimal, read_plain_decimal,
};
use std::alloc::{AllocError, Global};
use std::process::Abort;
use std::test::Fail;

// Wait statuses, and their exit codes.
const EXIT_CODES: &[(u32, u8)] = &[
    (0, 0),
    (256, 1),
    (65_280, 255),
    (9, 104),
    (139, 104),
    (128, 104),
    (65_536, 104),
];

fn expect_codes<R: Abort>(rt: &R, rows: &[(u32, u8)]) {
    for (status, code) in rows {
        same(rt, &exit_code(*status), code, status);
    }
}

#[test]
fn exit_codes(rt: HostRuntime) {
    expect_codes(&rt, EXIT_CODES);
}

// Texts, and the numbers from 1 to 255 that they are in at most 3 digits: if they may begin with zeros, and if they may not.
const DECIMALS: &[(&[u8], Option<u32>, Option<u32>)] = &[
    (b"", None, None),
    (b"0", None, None),
    (b"1", Some(1), Some(1)),
    (b"01", Some(1), None),
    (b"001", Some(1), None),
    (b"0001", None, None),
    (b"000", None, None),
    (b"255", Some(255), Some(255)),
    (b"256", None, None),
    (b"1000", None, None),
    (b"+1", None, None),
    (b"-1", None, None),
    (b" 1", None, None),
    (b"1x", None, None),
    (b"/1", None, None),
    (b":1", None, None),
];

fn expect_decimals<R: Abort>(rt: &R, rows: &[(&[u8], Option<u32>, Option<u32>)]) {
    for (text, with_zeros, plain) in rows {
        same(rt, &read_decimal(text, 3, 1, 255), with_zeros, text);
        same(rt, &read_plain_decimal(text, 3, 1, 255), plain, text);
    }
}

// Texts of at most nine digits, and the numbers from zero that they are.
const LONG_DECIMALS: &[(&[u8], u32)] = &[(b"0", 0), (b"999999999", 999_999_999)];

fn expect_long_decimals<R: Abort>(rt: &R, rows: &[(&[u8], u32)]) {
    for (text, number) in rows {
        let read = read_plain_decimal(text, 9, 0, 999_999_999);
        same(rt, &read, &Some(*number), text);
    }
}

#[test]
fn decimals(rt: HostRuntime) {
    expect_decimals(&rt, DECIMALS);
    expect_long_decimals(&rt, LONG_DECIMALS);
}

fn words_of(alloc: Global, count: usize, len: usize) -> Result<Words, AllocError> {
    let mut words = Words::new(alloc);
    for _ in 0..count {
        words.try_push(repeated(alloc, len)?)?;
    }
    Ok(words)
}

fn request_fits(alloc: Global, count: usize, len: usize) -> Result<bool, AllocError> {
    let source = Bytes::from_slice(alloc, b"int a;")?;
    let words = words_of(alloc, count, len)?;
    let request = Request { words, source };
    Ok(request.fits())
}

// How many words, of how many bytes each, and whether a request of them is within the limits.
const REQUESTS: &[(usize, usize, bool)] = &[
    (0, 1, false),
    (1, 0, true),
    (WORDS_MAX, 1, true),
    (WORDS_MAX + 1, 1, false),
    (1, WORD_MAX, true),
    (1, WORD_MAX + 1, false),
    (WORDS_BYTES_MAX / WORD_MAX, WORD_MAX, true),
    (WORDS_BYTES_MAX / WORD_MAX + 1, WORD_MAX, false),
];

fn expect_requests<R: Abort>(
    rt: &R,
    alloc: Global,
    rows: &[(usize, usize, bool)],
) -> Result<(), AllocError> {
    for (count, len, fits) in rows {
        same(
            rt,
            &request_fits(alloc, *count, *len)?,
            fits,
            &(*count, *len),
        );
    }
    Ok(())
}

#[test]
fn requests_within_the_limits(rt: HostRuntime) -> Result<(), Fail> {
    expect_requests(&rt, rt.alloc(), REQUESTS)?;
    Ok(())
}

fn outcome_fits(alloc: Global, status: u32, err: usize, object: usize) -> Result<bool, AllocError> {
    let err = repeated(alloc, err)?;
    let object = repeated(alloc, object)?;
    let outcome = Outcome {
        status,
        err,
        out: Bytes::new(alloc),
        object,
    };
    Ok(outcome.fits())
}

// A status, the bytes of the messages and of the object, and whether the outcome is within the limits.
const OUTCOMES: &[(u32, usize, usize, bool)] = &[
    (0, MESSAGES_MAX, 1, true),
    (0, MESSAGES_MAX + 1, 1, false),
    (256, 3, 0, true),
    (256, 3, 1, false),
];

fn expect_outcomes<R: Abort>(
    rt: &R,
    alloc: Global,
    rows: &[(u32, usize, usize, bool)],
) -> Result<(), AllocError> {
    for (status, err, object, fits) in rows {
        let seen = outcome_fits(alloc, *status, *err, *object)?;
        same(rt, &seen, fits, &(*status, *err, *object));
    }
    Ok(())
}

#[test]
fn outcomes_within_the_limits(rt: HostRuntime) -> Result<(), Fail> {
    expect_outcomes(&rt, rt.alloc(), OUTCOMES)?;
    Ok(())
}

fn three_bytes(alloc: Global) -> Result<Bytes, AllocError> {
    let mut bytes = Bytes::from_slice(alloc, b"gc")?;
    bytes.try_extend(b"cc")?;
    bytes.truncate(3);
    Ok(bytes)
}

// Each list and value is copied once.
#[test]
fn copies_of_bytes(rt: HostRuntime) -> Result<(), Fail> {
    let bytes = three_bytes(rt.alloc())?;
    let copied = bytes.copy()?;
    same_bytes(&rt, copied.as_slice(), b"gcc", &"a copy");
    same(&rt, &bytes.get(1), &Some(b'c'), &"byte 1");
    same(&rt, &bytes.get(3), &None, &"byte 3");
    Ok(())
}

fn placed_words(alloc: Global) -> Result<PlacedWords, Fail> {
    let mut words = PlacedWords::new(alloc);
    words.try_push(Word::Text(Bytes::from_slice(alloc, b"gcc")?))?;
    words.try_push(Word::Input(Ext::Ii))?;
    words.try_push(Word::Output)?;
    Ok(words)
}

fn copied_twice(words: &PlacedWords) -> Result<PlacedWords, Fail> {
    let mut twice = words.copy()?;
    twice.try_extend(words)?;
    Ok(twice)
}

#[test]
fn copies_of_words(rt: HostRuntime) -> Result<(), Fail> {
    let twice = copied_twice(&placed_words(rt.alloc())?)?;
    same(&rt, &twice.len(), &6, &"twice three words");
    let is_input = matches!(twice.get(4), Some(Word::Input(Ext::Ii)));
    holds(&rt, is_input, &"the fifth word");
    Ok(())
}

#[test]
fn a_copy_of_a_run(rt: HostRuntime) -> Result<(), Fail> {
    let copied = Ran::nothing(rt.alloc()).copy()?;
    same(&rt, &copied.status, &0, &"the status");
    Ok(())
}

fn one_host(alloc: Global) -> Result<Items<Host>, AllocError> {
    let text = Bytes::from_slice(alloc, b"gcc")?;
    let host = Host {
        name: HostName { text },
        port: 3632,
        limit: 4,
        local: false,
    };
    Items::from_slice(alloc, &[host])
}

fn ports_of(alloc: Global, hosts: &Items<Host>) -> Result<Items<u16>, AllocError> {
    Ok(Items::from_vec(hosts.as_slice().iter().map(|h| h.port).collect(alloc)?))
}

#[test]
fn copies_of_hosts(rt: HostRuntime) -> Result<(), Fail> {
    let copied = one_host(rt.alloc())?.copy()?;
    let ports = ports_of(rt.alloc(), &copied)?;
    same(&rt, &ports.as_slice(), &[3632].as_slice(), &"the ports");
    Ok(())
}

fn trail_of(alloc: Global, entries: &[u8]) -> Result<Trail<u8>, Fail> {
    let mut trail = Trail::new();
    for entry in entries {
        trail.add(Room::new(alloc)?, *entry);
    }
    Ok(trail)
}

#[test]
fn a_trail_keeps_its_entries(rt: HostRuntime) -> Result<(), Fail> {
    let mut trail = trail_of(rt.alloc(), &[1, 2, 3])?;
    same(&rt, &trail.take_last(), &Some(3), &"the last entry");
    let items = trail.into_items(rt.alloc())?;
    same_bytes(&rt, items.as_slice(), &[1, 2], &"the entries before it");
    Ok(())
}
