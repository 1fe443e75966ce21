use crate::same::same;
use access_list::{AccessFault, AccessList, Decision, Rule, RuleVec, parse_rule, read_address};
use std::alloc::Global;
use std::process::Abort;
use std::test::Fail;

type Address = (&'static str, Option<u32>);

const ADDRESSES: &[Address] = &[
    ("0.0.0.0", Some(0)),
    ("127.0.0.1", Some(2_130_706_433)),
    ("10.1.2.3", Some(167_838_211)),
    ("255.255.255.255", Some(4_294_967_295)),
    ("010.1.2.3", None),
    ("10.1.2.00", None),
    ("256.0.0.0", None),
    ("1.2.3", None),
    ("1.2.3.4.5", None),
    ("1.2.3.", None),
    ("1..2.3", None),
    ("1.2.3.1000", None),
    ("1.2.3.+4", None),
    ("", None),
];

/// The text of a rule, and the rule or its fault.
type RuleText = (&'static str, Result<Rule, AccessFault>);

const RULES: &[RuleText] = &[
    (
        "10.0.0.0/8",
        Ok(Rule {
            allow: true,
            net: 167_772_160,
            bits: 8,
        }),
    ),
    (
        "127.0.0.1",
        Ok(Rule {
            allow: true,
            net: 2_130_706_433,
            bits: 32,
        }),
    ),
    (
        "0.0.0.0/0",
        Ok(Rule {
            allow: true,
            net: 0,
            bits: 0,
        }),
    ),
    ("1.2.3/8", Err(AccessFault::BadAddress)),
    ("/8", Err(AccessFault::BadAddress)),
    ("", Err(AccessFault::BadAddress)),
    ("10.0.0.0/33", Err(AccessFault::BadBits)),
    ("10.0.0.0/", Err(AccessFault::BadBits)),
    (
        "10.0.0.0/08",
        Ok(Rule {
            allow: true,
            net: 167_772_160,
            bits: 8,
        }),
    ),
    ("10.0.0.0/008", Err(AccessFault::BadBits)),
    ("10.0.0.00/8", Err(AccessFault::BadAddress)),
    ("10.0.0.0/8/8", Err(AccessFault::BadBits)),
];

struct Row {
    /// Each with whether it lets peers in.
    rules: &'static [(bool, &'static str)],
    peer: &'static str,
    decision: Decision,
}

const DECISIONS: &[Row] = &[
    Row {
        rules: &[(true, "10.0.0.0/8"), (false, "0.0.0.0/0")],
        peer: "10.1.2.3",
        decision: Decision::Admitted { rule: Some(1) },
    },
    Row {
        rules: &[(true, "10.0.0.0/8"), (false, "0.0.0.0/0")],
        peer: "127.0.0.1",
        decision: Decision::Denied { rule: Some(2) },
    },
    Row {
        rules: &[(true, "10.0.0.0/8")],
        peer: "127.0.0.1",
        decision: Decision::Denied { rule: None },
    },
    Row {
        rules: &[(true, "10.0.0.0/8")],
        peer: "10.255.255.255",
        decision: Decision::Admitted { rule: Some(1) },
    },
    Row {
        rules: &[],
        peer: "127.0.0.1",
        decision: Decision::Admitted { rule: None },
    },
];

fn expect_addresses<R: Abort>(rt: &R, rows: &[Address]) {
    for (text, address) in rows {
        same(rt, &read_address(text.as_bytes()), address, text);
    }
}

#[test]
fn addresses(rt: HostRuntime) {
    expect_addresses(&rt, ADDRESSES);
}

fn expect_rules<R: Abort>(rt: &R, rows: &[RuleText]) {
    for (text, wanted) in rows {
        same(rt, &parse_rule(true, text.as_bytes()), wanted, text);
    }
}

#[test]
fn rules(rt: HostRuntime) {
    expect_rules(&rt, RULES);
}

fn rules_of(alloc: Global, row: &Row) -> Result<RuleVec, Fail> {
    let mut rules = RuleVec::new(alloc);
    for (allow, text) in row.rules {
        match parse_rule(*allow, text.as_bytes()) {
            Ok(rule) => rules.try_push(rule)?,
            Err(_) => return Err("the rule is right".into()),
        }
    }
    Ok(rules)
}

fn decided(alloc: Global, row: &Row) -> Result<Decision, Fail> {
    let access = AccessList {
        rules: rules_of(alloc, row)?,
    };
    match read_address(row.peer.as_bytes()) {
        Some(address) if access.is_right() => Ok(access.decide(address)),
        _ => Err("the rules and the address are right".into()),
    }
}

fn expect_decisions<R: Abort>(rt: &R, alloc: Global, rows: &[Row]) -> Result<(), Fail> {
    for row in rows {
        same(rt, &decided(alloc, row)?, &row.decision, &row.peer);
    }
    Ok(())
}

#[test]
fn the_first_rule_decides(rt: HostRuntime) -> Result<(), Fail> {
    expect_decisions(&rt, rt.alloc(), DECISIONS)
}
