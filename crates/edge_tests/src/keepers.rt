//! Calls on a keeper.

use crate::same::same;
use edge_traits::{EdgeFault, FetchFault, Keeper, is_staged};
use farm_types::Bytes;
use std::alloc::Global;
use std::fmt::Debug;
use std::process::Abort;

/// A name, the bytes, and what the put answers.
pub(crate) type Put = (&'static [u8], &'static [u8], Result<(), EdgeFault>);

/// A name, a bound, and what the fetch gives.
pub(crate) type Fetch = (&'static [u8], u32, Result<&'static [u8], FetchFault>);

/// Puts these bytes under a name, if that may be done.
pub(crate) fn put_file<K: Keeper>(
    alloc: Global,
    keeper: &mut K,
    name: &[u8],
    bytes: &[u8],
) -> Result<(), EdgeFault> {
    let path = Bytes::from_slice(alloc, name)?;
    if keeper.is_pending() || is_staged(path.as_slice()) {
        return Ok(());
    }
    keeper.put(alloc, &path, bytes)
}

/// What a fetch of at most that many bytes gives, which is `?` if none may be made.
pub(crate) fn fetch_file<K: Keeper>(
    alloc: Global,
    keeper: &mut K,
    name: &[u8],
    bound: u32,
) -> Result<Bytes, FetchFault> {
    let path = Bytes::from_slice(alloc, name)?;
    if keeper.is_pending() || is_staged(path.as_slice()) {
        return Ok(Bytes::from_slice(alloc, b"?")?);
    }
    keeper.fetch(alloc, &path, bound)
}

/// What was fetched is this, and in this row.
pub(crate) fn same_fetched<R: Abort, W: Debug>(
    rt: &R,
    fetched: &Result<Bytes, FetchFault>,
    wanted: &Result<&'static [u8], FetchFault>,
    row: &W,
) {
    let shown = match fetched {
        Ok(bytes) => Ok(bytes.as_slice()),
        Err(fault) => Err(*fault),
    };
    same(rt, &shown, wanted, row);
}

pub(crate) fn expect_puts<R: Abort, K: Keeper>(rt: &R, alloc: Global, keeper: &mut K, all: &[Put]) {
    for (name, bytes, want) in all {
        same(rt, &put_file(alloc, keeper, name, bytes), want, name);
    }
}

pub(crate) fn expect_fetches<R: Abort, K: Keeper>(
    rt: &R,
    alloc: Global,
    keeper: &mut K,
    all: &[Fetch],
) {
    for (name, bound, want) in all {
        same_fetched(rt, &fetch_file(alloc, keeper, name, *bound), want, name);
    }
}
