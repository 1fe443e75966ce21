// What is seen of an exchange while its bytes pass: the compiler, the status, and how long the source and the object are.
use edge_streams::Shown;
use std::fmt::{self, Display, Formatter};
use std::str;

/// What was seen of the tokens of one side. It is no reader of the protocol: after what isn't a token nothing more is seen.
#[derive(Drop)]
pub struct Tokens {
    head: [u8; HEAD],
    filled: usize,
    /// How many bytes of the body of the last token are to come. After what isn't a token, all bytes that come.
    body: u64,
    compiler: [u8; NAME],
    named: usize,
    is_first: bool,
    has_first: bool,
    /// How many tokens were seen, and whether one isn't that of a right reply at its place.
    seen: usize,
    is_odd: bool,
    status: Option<u32>,
    source: u64,
    object: Option<u64>,
    /// How many bytes passed.
    pub bytes: u64,
}

/// How many bytes the head of a token has: its name and its number.
const HEAD: usize = 12;

/// How many bytes of the compiler's name are kept.
const NAME: usize = 60;

impl Tokens {
    /// Before the first byte.
    pub fn new() -> Tokens {
        Tokens {
            head: [0; HEAD],
            filled: 0,
            body: 0,
            compiler: [0; NAME],
            named: 0,
            is_first: false,
            has_first: false,
            seen: 0,
            is_odd: false,
            status: None,
            source: 0,
            object: None,
            bytes: 0,
        }
    }

    /// That many bytes pass, at the front of the piece.
    pub fn pass(&mut self, piece: &[u8], count: usize) {
        if let Some(front) = piece.get(..count) {
            self.bytes = self.bytes.saturating_add(count as u64);
            self.see(front);
        }
    }

    /// Whether the last token that a reply has was seen, with all of its body.
    pub fn is_whole_reply(&self) -> bool {
        self.object.is_some() && self.body == 0
    }

    /// Whether the tokens that were seen are those of a right reply, as far as their heads show: in their order, of this version, and an object only
    /// with status 0.
    pub fn is_right_reply(&self) -> bool {
        !self.is_odd && (self.status == Some(0) || self.object.unwrap_or(0) == 0)
    }

    /// The status that was seen.
    pub fn status(&self) -> Option<u32> {
        self.status
    }

    /// Sees these bytes pass.
    fn see(&mut self, piece: &[u8]) {
        let mut rest = piece;
        for _ in 0..piece.len() {
            if rest.is_empty() {
                return;
            }
            rest = self.see_front(rest);
        }
    }

    /// Sees the front of a piece that has bytes, and answers what is left.
    fn see_front<'a>(&mut self, piece: &'a [u8]) -> &'a [u8] {
        if self.body > 0 {
            return self.see_body(piece);
        }
        let Some((byte, rest)) = piece.split_first() else {
            return piece;
        };
        if let Some(place) = self.head.get_mut(self.filled) {
            *place = *byte;
        }
        self.filled = self.filled.saturating_add(1);
        if self.filled >= HEAD {
            self.filled = 0;
            self.see_head();
        }
        rest
    }

    fn see_body<'a>(&mut self, piece: &'a [u8]) -> &'a [u8] {
        let length = usize::try_from(self.body).unwrap_or(usize::MAX);
        let count = piece.len().min(length);
        let (front, rest) = piece.split_at(count);
        if self.is_first {
            self.keep_name(front);
        }
        self.body = self.body.saturating_sub(count as u64);
        if self.body == 0 {
            self.is_first = false;
        }
        rest
    }

    fn keep_name(&mut self, front: &[u8]) {
        for byte in front {
            if let Some(place) = self.compiler.get_mut(self.named) {
                *place = *byte;
                self.named = self.named.saturating_add(1);
            }
        }
    }

    fn see_head(&mut self) {
        let head = self.head;
        let (name, digits) = head.split_at(4);
        let number = number_of(digits);
        self.is_odd |= REPLY
            .get(self.seen)
            .is_none_or(|token| name != token.as_slice());
        self.is_odd |= name == b"DONE".as_slice() && number != Some(VERSION);
        self.seen = self.seen.saturating_add(1);
        let Some(number) = number else {
            self.is_odd = true;
            self.body = u64::MAX;
            return;
        };
        match name {
            b"ARGV" => {
                self.is_first = !self.has_first && number > 0;
                self.has_first = true;
                self.body = u64::from(number);
            }
            b"DOTI" => {
                self.source = u64::from(number);
                self.body = u64::from(number);
            }
            b"DOTO" => {
                self.object = Some(u64::from(number));
                self.body = u64::from(number);
            }
            b"SERR" | b"SOUT" => self.body = u64::from(number),
            b"STAT" => self.status = Some(number),
            b"DIST" | b"ARGC" | b"DONE" => {}
            _ => self.body = u64::MAX,
        }
    }
}

/// The tokens of a reply, in their order.
const REPLY: [&[u8; 4]; 5] = [b"DONE", b"STAT", b"SERR", b"SOUT", b"DOTO"];

/// The version of the protocol.
const VERSION: u32 = 1;

fn number_of(digits: &[u8]) -> Option<u32> {
    if !digits.iter().all(u8::is_ascii_hexdigit) {
        return None;
    }
    u32::from_str_radix(str::from_utf8(digits).ok()?, 16).ok()
}

/// Both sides of an exchange.
#[derive(Clone, Copy)]
pub struct Exchange<'a> {
    pub asked: &'a Tokens,
    pub answered: &'a Tokens,
}

impl Exchange<'_> {
    /// The compiler that was asked for, as far as it was seen.
    pub fn compiler(&self) -> Shown<'_> {
        match self.asked.compiler.get(..self.asked.named) {
            Some(name) if !name.is_empty() => Shown(name),
            _ if self.asked.has_first => Shown(b"(empty)"),
            _ => Shown(b"-"),
        }
    }
}

/// `COMPILER answered STATUS, source N, object N`, or `COMPILER no reply, ..`.
impl Display for Exchange<'_> {
    fn fmt<W: fmt::Write>(&self, f: &mut Formatter<W>) -> fmt::Result {
        write!(f, "{} ", self.compiler())?;
        match self.answered.status {
            Some(status) => write!(f, "answered {status:08x}")?,
            None => f.write_str("no reply")?,
        }
        write!(
            f,
            ", source {}, object {}",
            self.asked.source,
            self.answered.object.unwrap_or(0)
        )
    }
}
