//! Tokens.

ghost use Rattle.std.specs.Prelude.{◌≡◌, ◌<◌, ◌^◌, ℕ, IfOk, IfErr, length, take, IsTrue, ◌↔◌};
ghost use Rattle.std.specs.List.{AllPass};
ghost use Rattle.wire_tokens.specs.Scan as scans;
ghost use Rattle.wire_tokens.specs.Token as tokens;
ghost use Rattle.wire_tokens.specs.Scan.{scan_of, IsTokenFault};
ghost use Rattle.wire_tokens.specs.Partial.{place_in_token};
ghost use Rattle.wire_tokens.specs.Token.{IsToken, token, lower_digit, is_hex_digit, digit_of};

/// The four letters of a token's name.
#[derive(Clone, Copy, Debug, PartialEq, Eq)]
pub struct Name4(pub [u8; 4]);

/// Why twelve bytes are no token of a name. The place counts them from 0.
#[derive(Clone, Copy, Debug, PartialEq, Eq)]
pub enum TokenFault {
    /// The first byte that isn't the name's.
    WrongName { at: u8 },
    /// The first byte after the name that is no hexadecimal digit.
    BadDigit { at: u8 },
}

impl TokenFault {
    /// Its place.
    pub fn at(self) -> u8
        ensures { result ≡ place_in_token self }
    {
        match self {
            TokenFault::WrongName { at } | TokenFault::BadDigit { at } => at,
        }
    }
}

fn lower_digit_of(d: u32) -> u8
    requires { d < 16 }
    ensures { result ≡ lower_digit d }
{
    if d < 10 {
        b'0' + d as u8
    } else {
        b'a' - 10 + d as u8
    }
}

fn is_hex_digit(c: u8) -> bool
    ensures { result ≡ is_hex_digit c }
{
    matches!(c, b'0'..=b'9' | b'a'..=b'f' | b'A'..=b'F')
}

fn value_of_digit(c: u8) -> u32
    requires { IsTrue (is_hex_digit c) }
    ensures { result ≡ digit_of c }
{
    if c <= b'9' {
        u32::from(c - b'0')
    } else if b'a' <= c {
        u32::from(c - b'a' + 10)
    } else {
        u32::from(c - b'A' + 10)
    }
}

// How many bytes at the front of the text are those of the name.
fn name_len(text: &[u8], name: &[u8; 4]) -> usize
    ensures len { result ≡ scans.name_len name.now text.now }
    ensures four { length name.now ≡ 4 }
{
    for n in 0..4 {
        if n >= text.len() || text[n] != name[n] {
            return n;
        }
    }
    4
}

// How many of the eight bytes after the name are digits, from the first on.
fn digits_len(text: &[u8]) -> usize
    ensures { result ≡ scans.digits_len text.now }
{
    for n in 0..8 {
        if 4 + n >= text.len() || !is_hex_digit(text[4 + n]) {
            return n;
        }
    }
    8
}

// The value of eight digits.
fn number_of(digits: &[u8]) -> u32
    requires eight { length digits.now ≡ 8 }
    requires each { AllPass is_hex_digit digits.now }
    ensures { result ≡ tokens.number_of digits.now }
{
    let mut n = 0;
    for c in digits {
        n = n * 16 + value_of_digit(*c);
    }
    n
}

/// What the first bytes of a text, at most twelve of them, are to a token of a name.
#[derive(Clone, Copy, Debug, PartialEq, Eq)]
pub enum Scan {
    /// They are one, of this number.
    Number(u32),
    /// They are none: this byte is the first that isn't the name's.
    WrongName(u8),
    /// They are none: this byte is the first that is no digit.
    BadDigit(u8),
    /// The text ends before that is known.
    Short,
}

/// Reads the token at the front of a text of any length, in digits of either case. It takes no
/// memory.
pub fn scan_token(text: &[u8], expected: Name4) -> Scan
    ensures scan { result ≡ scan_of expected.0 text.now }
    ensures four { length expected.0 ≡ 4 }
{
    let named = name_len(text, &expected.0);
    if named < 4 {
        return if named < text.len() {
            Scan::WrongName(named as u8)
        } else {
            Scan::Short
        };
    }
    let digits = digits_len(text);
    if digits < 8 {
        return if 4 + digits < text.len() {
            Scan::BadDigit(4 + digits as u8)
        } else {
            Scan::Short
        };
    }
    Scan::Number(number_of(&text[4..12]))
}

/// Reads a token of the expected name, in digits of either case, with no sign and no blank. It
/// takes no memory.
pub fn read_token(text: &[u8; 12], expected: Name4) -> Result<u32, TokenFault>
    ensures found { IfOk result (λ n. IsToken expected.0 n text.now) }
    ensures found_always { (n : ℕ) → IsToken expected.0 n text.now → result ≡ Ok n }
    ensures fault { IfErr result (λ fault. IsTokenFault expected.0 text.now fault) }
    ensures fault_always { (fault : TokenFault) → IsTokenFault expected.0 text.now fault → result ≡ Err fault }
{
    match scan_token(text, expected) {
        Scan::Number(n) => Ok(n),
        Scan::WrongName(at) => Err(TokenFault::WrongName { at }),
        Scan::BadDigit(at) => Err(TokenFault::BadDigit { at }),
        Scan::Short => unreachable!(),
    }
}

fn write_name(name: &[u8; 4], room: &mut [u8; 12])
    ensures { take 4 room.new ≡ name.now }
{
    room[0] = name[0];
    room[1] = name[1];
    room[2] = name[2];
    room[3] = name[3];
}

/// Writes the token of a name and a number, in lower-case digits. It takes no memory.
pub fn write_token(name: Name4, number: u32, room: &mut [u8; 12])
    ensures { room.new ≡ token name.0 number }
{
    write_name(&name.0, room);
    let mut rest = number;
    for i in 0..8 {
        room[11 - i] = lower_digit_of(rest % 16);
        rest /= 16;
    }
}
