use crate::same::same;
use edge_traits::{CallNumbers, Calls, is_staged};
use std::alloc::{AllocError, Global};
use std::process::Abort;
use std::test::Fail;

const PATHS: &[(&[u8], bool)] = &[
    (b"x.o.farm~", true),
    (b".farm~", true),
    (b"x.farm", false),
    (b"x.farm~y", false),
    (b"", false),
];

fn expect_staged<R: Abort>(rt: &R, rows: &[(&[u8], bool)]) {
    for (path, staged) in rows {
        same(rt, &is_staged(path), staged, path);
    }
}

#[test]
fn staged_paths(rt: HostRuntime) {
    expect_staged(&rt, PATHS);
}

/// Whether each call fails, and how many have failed by then.
const CALLS: &[(bool, u64)] = &[(false, 0), (true, 1), (false, 1), (true, 2), (false, 2)];

fn second_and_fourth(alloc: Global) -> Result<CallNumbers, AllocError> {
    let mut fails = CallNumbers::new(alloc);
    fails.try_push(2)?;
    fails.try_push(4)?;
    Ok(fails)
}

fn expect_calls<R: Abort>(rt: &R, calls: &mut Calls, rows: &[(bool, u64)]) {
    for (fails, faults) in rows {
        same(rt, &calls.fails_next(), fails, &(*fails, *faults));
        same(rt, &calls.faults(), faults, &(*fails, *faults));
    }
}

#[test]
fn calls_that_fail(rt: HostRuntime) -> Result<(), Fail> {
    let mut calls = Calls::new(second_and_fourth(rt.alloc())?);
    expect_calls(&rt, &mut calls, CALLS);
    Ok(())
}
