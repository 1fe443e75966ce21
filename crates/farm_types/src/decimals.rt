//! Decimal numbers in texts.

ghost use Rattle.std.specs.Prelude.{ℕ, ◌≡◌, ◌≤◌, IfSome, IfNone};
ghost use Rattle.farm_types.specs.Decimals.{IsDecimal, IsPlainDecimal};
ghost use Rattle.farm_types.specs.Decimals as decimals;

/// The number from `least` to `greatest` that the text is, in 1 to `digits` decimal digits; it may begin with zeros. None if the text
/// is no such number. It takes no memory.
pub fn read_decimal(text: &[u8], digits: usize, least: u32, greatest: u32) -> Option<u32>
    requires { digits ≤ 9 }
    ensures found { IfSome result (IsDecimal digits least greatest text.now) }
    ensures none { IfNone result ((n : ℕ) → IsDecimal digits least greatest text.now n → ⊥) }
{
    if text.is_empty() || digits < text.len() {
        return None;
    }
    let mut n = 0;
    for digit in text {
        if !digit.is_ascii_digit() {
            return None;
        }
        n = n * 10 + u32::from(*digit - b'0');
    }
    if least <= n && n <= greatest {
        Some(n)
    } else {
        None
    }
}

// Whether the text begins with a zero, and at least one byte follows.
fn leads_by_zero(text: &[u8]) -> bool
    ensures { result ≡ decimals.leads_by_zero text.now }
{
    match text {
        [first, _, ..] => *first == b'0',
        _ => false,
    }
}

/// As `read_decimal`, but also None if a zero is before the other digits. It takes no memory.
pub fn read_plain_decimal(text: &[u8], digits: usize, least: u32, greatest: u32) -> Option<u32>
    requires { digits ≤ 9 }
    ensures found { IfSome result (IsPlainDecimal digits least greatest text.now) }
    ensures none { IfNone result ((n : ℕ) → IsPlainDecimal digits least greatest text.now n → ⊥) }
{
    if leads_by_zero(text) {
        return None;
    }
    read_decimal(text, digits, least, greatest)
}
