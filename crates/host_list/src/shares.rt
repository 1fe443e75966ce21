//! Numbers that follow one another, spread over a whole turn.

ghost use Rattle.std.specs.Prelude.{◌≡◌, ◌*◌, ◌%◌, ◌^◌};

/// A share of a whole turn, in parts of 2^32, for a number of a process. Of any numbers that follow one another in equal small
/// steps, as many get a share in one part of the turn as in another: they are multiples of the golden ratio.
pub fn spread(number: u32) -> u32
    ensures { result ≡ number * 2654435769 % 2 ^ 32 }
{
    number.wrapping_mul(GOLDEN)
}

/// 2^32 by the golden ratio.
const GOLDEN: u32 = 2_654_435_769;
