//! The call of `farm`, and what is seen of it.

ghost use Rattle.std.specs.Prelude.{◌≡◌, ◌≤◌, false, length, All};
ghost use Rattle.farm_types.specs.Limits.{workers_max};
ghost use Rattle.edge_traits.specs.Keepers.{IsIdle};

use crate::asking::Asked;
use crate::page::Page;
use edge_memory::MemSource;
use edge_traits::{Clock, Dialer, Keeper, Kit, Sink, Station};
use farm_program::farm;
use farm_types::Bytes;
use std::alloc::{AllocError, Global};
use std::sync::Wait;
use std::thread::Threads;

/// What was printed and answered.
#[derive(Drop)]
pub struct Seen {
    /// The exit status.
    pub status: u8,
    /// What was printed on the output.
    pub out: Bytes,
    /// What was printed on the error sink.
    pub err: Bytes,
    /// The object that was looked for, if it is there.
    pub object: Option<Bytes>,
}

// How many bytes a read takes at most.
fn most_at_once(whole: bool) -> u32
    ensures { 1 ≤ result }
{
    if whole { 4_096 } else { 7 }
}

/// The call of `farm`, over any kits and sinks: its status.
pub fn call<
    W: Threads + Wait + Sync,
    D: Dialer + Send + Drop,
    S: Station + Send + Drop,
    K: Keeper + Send + Drop,
    C: Clock + Send + Drop,
    O: Sink,
    E: Sink + Send,
>(
    rt: &W,
    alloc: Global,
    asked: Asked,
    kits: &mut Vec<Kit<D, S, K, C>>,
    out: &mut O,
    err: &mut E,
) -> u8
where
    D::Link: Send,
    requires some { 1 ≤ length kits.old.items }
    requires most { length kits.old.items ≤ workers_max }
    requires idle { All (λ kit. IsIdle (K.shows kit.keeper)) kits.old.items }
    requires out { (O.shows out.old).stopped ≡ false }
    requires err { (E.shows err.old).stopped ≡ false }
{
    let Asked {
        words,
        variables,
        text,
        whole,
        fails,
    } = asked;
    let mut input = MemSource::new(text, fails, most_at_once(whole));
    let ended = farm(
        rt,
        alloc,
        words.as_slice(),
        variables.as_slice(),
        &mut input,
        kits,
        out,
        err,
    );
    ended.status
}

/// The same, over sinks that take all: what was printed and answered.
pub fn told<
    W: Threads + Wait + Sync,
    D: Dialer + Send + Drop,
    S: Station + Send + Drop,
    K: Keeper + Send + Drop,
    C: Clock + Send + Drop,
>(rt: &W, alloc: Global, asked: Asked, kits: &mut Vec<Kit<D, S, K, C>>) -> Seen
where
    D::Link: Send,
    requires some { 1 ≤ length kits.old.items }
    requires most { length kits.old.items ≤ workers_max }
    requires idle { All (λ kit. IsIdle (K.shows kit.keeper)) kits.old.items }
{
    let mut out = Page::new(alloc);
    let mut err = Page::new(alloc);
    let status = call(rt, alloc, asked, kits, &mut out, &mut err);
    Seen {
        status,
        out: out.text,
        err: err.text,
        object: None,
    }
}

/// The content of a file of a keeper: none if it isn't there, if a put is pending, or if the name ends with `.farm~`.
pub fn content_of<K: Keeper>(
    alloc: Global,
    keeper: &mut K,
    name: &[u8],
) -> Result<Option<Bytes>, AllocError> {
    let path = Bytes::from_slice(alloc, name)?;
    if keeper.is_pending() || path.as_slice().ends_with(b".farm~") {
        return Ok(None);
    }
    match keeper.fetch(alloc, &path, 1_000) {
        Ok(object) => Ok(Some(object)),
        Err(_) => Ok(None),
    }
}
