//! Reads an input to its end, or to a limit.

ghost use Rattle.std.specs.Prelude.{◌≡◌, ◌<◌, false, IfOk, OnErr};
ghost use Rattle.edge_traits.specs.Causes.{Still};
ghost use Rattle.stream_print.specs.Reads.{HasRead, HasReadSome};

use edge_traits::{EdgeFault, Source};
use farm_types::Bytes;
use std::alloc::{AllocError, Global};

/// How the reading of an input ended.
#[derive(Drop)]
pub enum Input {
    Whole(Bytes),
    TooLong,
    Unread,
}

/// Reads the input to its end, until it has given `limit` bytes, or until its count rose. It runs out of memory only if that
/// count stays the same, and never reads more than `limit` bytes.
pub fn read_input<R: Source>(
    alloc: Global,
    source: &mut R,
    limit: usize,
) -> Result<Input, AllocError>
    requires { (R.shows source.old).ended ≡ false }
    ensures read { IfOk result (λ input. HasRead limit input (R.shows source.old) (R.shows source.new)) }
    ensures memory { OnErr result (Still (R.shows source.old).faults (R.shows source.new).faults) }
    ensures some { HasReadSome limit (R.shows source.old) (R.shows source.new) }
{
    let mut room = [0; 512];
    let mut got = Bytes::new(alloc);
    'reading: while got.len() < limit {
        let want = (limit - got.len()).min(512);
        match source.read(&mut room[..want]) {
            Ok(0) => return Ok(Input::Whole(got)),
            Ok(count) => got.try_extend(&room[..count])?,
            Err(EdgeFault::Failed) => return Ok(Input::Unread),
            Err(EdgeFault::Memory) => return Err(AllocError),
        }
    }
    Ok(Input::TooLong)
}
