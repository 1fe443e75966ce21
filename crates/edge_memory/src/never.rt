//! The devices in memory that never fail. Each takes no notice of the calls that are to fail.
pub(crate) mod dialer;
pub(crate) mod door;
pub(crate) mod keeper;
pub(crate) mod link;
pub(crate) mod sink;
pub(crate) mod source;
pub(crate) mod station;
