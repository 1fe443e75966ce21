//! Numbers of a host list.

ghost use Rattle.std.specs.Prelude.{ℕ, IfSome, IfNone};
ghost use Rattle.host_list.specs.Names.{IsPort, IsLimit};

use farm_types::limits::{PORT_MAX, SLOTS_MAX};
use farm_types::read_decimal;

/// The port that the digits spell: 1 to 65,535, in 1 to 5 digits.
pub fn read_port(digits: &[u8]) -> Option<u16>
    ensures found { IfSome result (λ port. IsPort digits.now port) }
    ensures none { IfNone result ((port : ℕ) → IsPort digits.now port → ⊥) }
{
    let port = read_decimal(digits, 5, 1, PORT_MAX)?;
    Some(port as u16)
}

/// The limit, or the number of slots, that the digits spell: 1 to 255, in 1 to 3 digits.
pub fn read_limit(digits: &[u8]) -> Option<u8>
    ensures found { IfSome result (λ limit. IsLimit digits.now limit) }
    ensures none { IfNone result ((limit : ℕ) → IsLimit digits.now limit → ⊥) }
{
    let limit = read_decimal(digits, 3, 1, u32::from(SLOTS_MAX))?;
    Some(limit as u8)
}
