//! Numbers and addresses in text.

ghost use Rattle.std.specs.Prelude.{◌≡◌, ◌==◌, ◌≤◌, ℕ, List, length, IfSome, IfNone};
ghost use Rattle.std.specs.List.{position_or_len};
ghost use Rattle.access_list.specs.Addresses.{IsAddress, CutsNumber};

use farm_types::read_plain_decimal;

/// The place of the first such byte, or the text's length if there is none. It takes no memory.
pub fn place_of(byte: u8, text: &[u8]) -> usize
    ensures place { result ≡ position_or_len (λ c. c == byte) text.now }
    ensures within { result ≤ length text.now }
{
    let mut at = 0;
    let mut rest = text;
    'seeking: while let [first, after @ ..] = rest {
        if *first == byte {
            return at;
        }
        at += 1;
        rest = after;
    }
    at
}

// The number up to the first point, and what comes after the point.
fn cut_number(text: &[u8]) -> Option<(u32, &[u8])>
    ensures found { IfSome result (λ cut. CutsNumber text.now cut.0 cut.1.now) }
    ensures none { IfNone result ((n : ℕ) (rest : List ℕ) → CutsNumber text.now n rest → ⊥) }
{
    let at = place_of(b'.', text);
    if at == text.len() {
        return None;
    }
    match read_plain_decimal(&text[..at], 3, 0, 255) {
        Some(number) => Some((number, &text[at + 1..])),
        None => None,
    }
}

/// The IPv4 address that a text spells, as a number: four numbers of 1 to 3 decimal digits without a leading zero, each at
/// most 255, with points between. It takes no memory.
pub fn read_address(text: &[u8]) -> Option<u32>
    ensures found { IfSome result (IsAddress text.now) }
    ensures none { IfNone result ((addr : ℕ) → IsAddress text.now addr → ⊥) }
{
    let Some((a, behind_a)) = cut_number(text) else {
        return None;
    };
    let Some((b, behind_b)) = cut_number(behind_a) else {
        return None;
    };
    let Some((c, behind_c)) = cut_number(behind_b) else {
        return None;
    };
    match read_plain_decimal(behind_c, 3, 0, 255) {
        Some(d) => Some(((a * 256 + b) * 256 + c) * 256 + d),
        None => None,
    }
}
