//! Comparisons. Each is here by itself, so that a proof reads it once and not in each test.
use farm_calls::Seen;
use std::fmt::Debug;
use std::process::Abort;

/// Two values, and the row that they are in.
pub(crate) fn same<R: Abort, T: PartialEq + Debug, W: Debug>(
    rt: &R,
    shown: &T,
    wanted: &T,
    row: &W,
) {
    assert_eq!(rt; shown, wanted, "{row:?}");
}

/// Two texts, or two other lists, and the row that they are in.
pub(crate) fn same_items<R: Abort, T: PartialEq + Debug, W: Debug>(
    rt: &R,
    shown: &[T],
    wanted: &[T],
    row: &W,
) {
    assert_eq!(rt; shown, wanted, "{row:?}");
}

/// What holds in this row.
pub(crate) fn holds<R: Abort, W: Debug>(rt: &R, shown: bool, row: &W) {
    assert!(rt; shown, "{row:?}");
}

/// The status and the output of a run, and the row that it is of.
pub(crate) fn same_output<R: Abort, W: Debug>(
    rt: &R,
    seen: &Seen,
    status: u8,
    out: &[u8],
    row: &W,
) {
    same(rt, &seen.status, &status, row);
    same_items(rt, seen.out.as_slice(), out, row);
}
