//! One rule, and its text.

ghost use Rattle.std.specs.Prelude.{◌≡◌, ◌≤◌, ℕ, Ok, Err, IfOk, IfErr, IfSome, IfNone};
ghost use Rattle.access_list.specs.declared.rule.Rule.{Rule};
ghost use Rattle.access_list.specs.declared.rule.AccessFault.{AccessFault};
ghost use Rattle.access_list.specs.Rules.{RuleOf, WrongRule, bits_of, matches};

use crate::address::{place_of, read_address};
use farm_types::{Items, read_decimal};

/// Whether peers with these first bits of their addresses are let in.
#[derive(Clone, Copy, Debug, PartialEq, Eq)]
pub struct Rule {
    pub allow: bool,
    pub net: u32,
    /// How many of the first bits count, 0 to 32.
    pub bits: u8,
}

/// Rules, in order.
pub type RuleVec = Items<Rule>;

/// What is wrong with the text of a rule (docs/daemon.md).
#[derive(Clone, Copy, Debug, PartialEq, Eq)]
pub enum AccessFault {
    /// The text before the first `/` is no IPv4 address.
    BadAddress,
    /// What follows it isn't right.
    BadBits,
}

impl Rule {
    /// Whether the first `bits` bits of the address are the rule's. It takes no memory.
    pub fn matches(&self, addr: u32) -> bool
        requires { self.now.bits ≤ 32 }
        ensures { result ≡ matches addr self.now }
    {
        let dropped = 32 - u32::from(self.bits);
        u64::from(self.net) >> dropped == u64::from(addr) >> dropped
    }
}

// The number of bits after an address: `/BITS`, or nothing, which means 32.
fn read_bits(text: &[u8]) -> Option<u32>
    ensures found { IfSome result (λ bits. bits_of text.now bits) }
    ensures none { IfNone result ((bits : ℕ) → bits_of text.now bits → ⊥) }
{
    match text {
        [] => Some(32),
        [_, digits @ ..] => read_decimal(digits, 2, 0, 32),
    }
}

// Reads the address, and then the bits.
fn read_rule(allow: bool, text: &[u8]) -> Result<Rule, AccessFault>
    ensures rule { IfOk result (RuleOf allow text.now) }
    ensures fault { IfErr result (WrongRule text.now) }
{
    let at = place_of(b'/', text);
    let Some(net) = read_address(&text[..at]) else {
        return Err(AccessFault::BadAddress);
    };
    let Some(bits) = read_bits(&text[at..]) else {
        return Err(AccessFault::BadBits);
    };
    Ok(Rule {
        allow,
        net,
        bits: bits as u8,
    })
}

/// Reads a rule: an IPv4 address, with or without `/BITS` after it, 1 or 2 digits with a value of 0 to 32. Without it BITS is 32. BITS may have a
/// leading zero, as in `08`, and the address may not. It takes no memory.
pub fn parse_rule(allow: bool, text: &[u8]) -> Result<Rule, AccessFault>
    ensures rule { IfOk result (RuleOf allow text.now) }
    ensures fault { IfErr result (WrongRule text.now) }

    // Nothing else is answered.
    ensures only_rule { (rule : Rule) → RuleOf allow text.now rule → result ≡ Ok rule }
    ensures only_fault { (fault : AccessFault) → WrongRule text.now fault → result ≡ Err fault }
{
    read_rule(allow, text)
}
