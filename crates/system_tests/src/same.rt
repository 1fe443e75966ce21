//! Comparisons. Each has a function of its own here, so that a proof reads it once and not in each test.
use std::fmt::Debug;
use std::process::Abort;

/// Two values, and the row that they are in.
pub(crate) fn same<R: Abort, T: PartialEq + Debug, W: Debug>(
    rt: &R,
    shown: &T,
    wanted: &T,
    row: &W,
) {
    assert_eq!(rt; shown, wanted, "{row:?}");
}

/// Two texts, and the row that they are in.
pub(crate) fn same_bytes<R: Abort, W: Debug>(rt: &R, shown: &[u8], wanted: &[u8], row: &W) {
    assert_eq!(rt; shown, wanted, "{row:?}");
}

/// What holds in this row.
pub(crate) fn holds<R: Abort, W: Debug>(rt: &R, shown: bool, row: &W) {
    assert!(rt; shown, "{row:?}");
}
