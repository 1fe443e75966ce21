// The most bytes that the runs of a job may give.
use edge_traits::Bounds;
use farm_types::limits::{CHILD_ERR_MAX, IN_PLACE_OUT_MAX, OBJECT_MAX, PREPROCESSED_MAX};

/// Of a preprocessor.
pub(crate) const PREPROCESSOR: Bounds = Bounds {
    out: PREPROCESSED_MAX,
    err: CHILD_ERR_MAX,
    object: OBJECT_MAX as u32,
};

/// Of a command in place.
pub(crate) const IN_PLACE: Bounds = Bounds {
    out: IN_PLACE_OUT_MAX,
    err: CHILD_ERR_MAX,
    object: OBJECT_MAX as u32,
};
