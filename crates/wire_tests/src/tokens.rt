use crate::same::{same, same_bytes};
use farm_types::Bytes;
use std::process::Abort;
use std::test::Fail;
use wire_tokens::{
    ARGC, DIST, DONE, DOTI, DOTO, Name4, PartialToken, SERR, STAT, TokenFault,
    one_reading_of_replies, one_reading_of_requests, push_body, push_token, read_token,
    write_token,
};

/// A text, the name that is wanted, and what is read.
type Read = (&'static [u8; 12], Name4, Result<u32, TokenFault>);

const READ: &[Read] = &[
    (b"DOTI0000000B", DOTI, Ok(11)),
    (b"DOTI0000000b", DOTI, Ok(11)),
    (b"STAT00006e00", STAT, Ok(28_160)),
    (b"DOTIffffFFFF", DOTI, Ok(4_294_967_295)),
    (b"ARGC00000000", ARGC, Ok(0)),
    (b"DOTI+000000b", DOTI, Err(TokenFault::BadDigit { at: 4 })),
    (b"DOTI 000000b", DOTI, Err(TokenFault::BadDigit { at: 4 })),
    (b"DOTI00x0000b", DOTI, Err(TokenFault::BadDigit { at: 6 })),
    (b"DOTI0000000g", DOTI, Err(TokenFault::BadDigit { at: 11 })),
    (b"DOTO0000000b", DOTI, Err(TokenFault::WrongName { at: 3 })),
    (b"doti0000000b", DOTI, Err(TokenFault::WrongName { at: 0 })),
    (b"DATI+000000b", DOTI, Err(TokenFault::WrongName { at: 1 })),
];

/// A name, a number, and their text.
type Written = (Name4, u32, &'static [u8; 12]);

const WRITTEN: &[Written] = &[
    (DOTI, 11, b"DOTI0000000b"),
    (STAT, 28_160, b"STAT00006e00"),
    (DIST, 1, b"DIST00000001"),
    (DOTO, 4_294_967_295, b"DOTOffffffff"),
];

fn expect_read<R: Abort>(rt: &R, rows: &[Read]) {
    for (text, expected, answer) in rows {
        same(rt, &read_token(text, *expected), answer, text);
    }
}

#[test]
fn reads_tokens(rt: HostRuntime) {
    expect_read(&rt, READ);
}

#[test]
fn takes_a_token_byte_by_byte(rt: HostRuntime) {
    let mut token = PartialToken::new();
    same(&rt, &token.take(b'D', DOTI), &Ok(None), b"D");
    same(&rt, &token.take(b'O', DOTI), &Ok(None), b"DO");
    let fault = TokenFault::WrongName { at: 2 };
    same(&rt, &token.take(b't', DOTI), &Err(fault), b"DOt");
    same(&rt, &fault.at(), &2, b"DOt");
}

fn expect_written<R: Abort>(rt: &R, rows: &[Written]) {
    for (name, number, text) in rows {
        let mut room = [0; 12];
        write_token(*name, *number, &mut room);
        same_bytes(rt, room.as_slice(), text.as_slice(), text);
    }
}

#[test]
fn writes_tokens(rt: HostRuntime) -> Result<(), Fail> {
    expect_written(&rt, WRITTEN);
    let body = Bytes::from_slice(rt.alloc(), b"bad\n")?;
    let mut text = Bytes::new(rt.alloc());
    push_token(&mut text, DONE, 1)?;
    push_body(&mut text, SERR, &body)?;
    same_bytes(
        &rt,
        text.as_slice(),
        b"DONE00000001SERR00000004bad\n",
        &"two tokens",
    );
    one_reading_of_requests();
    one_reading_of_replies();
    Ok(())
}
