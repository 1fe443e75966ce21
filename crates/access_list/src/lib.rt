//! Who may use the daemon: rules over IPv4 addresses, of which the first that matches decides.
#![tactic(auto)]

mod address;
mod decision;
mod rule;

pub use address::{place_of, read_address};
pub use decision::{AccessList, Decision};
pub use rule::{AccessFault, Rule, RuleVec, parse_rule};
