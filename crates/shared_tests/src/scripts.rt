//! Books of some bounds, and the stations beside them.

ghost use Rattle.std.specs.Prelude.{◌≡◌, ◌<◌, ◌^◌};

use edge_memory::{MemStation, RanList};
use edge_traits::CallNumbers;
use farm_types::{Bytes, Ext, PlacedWords, Ran, Word};
use shared_cache::{SharedBook, Sharing};
use std::alloc::{AllocError, Global};
use std::collections::hash_map::RandomState;
use std::random::RandomSource;
use std::sync::Mutex;
use std::test::Fail;

/// 1 MiB.
pub const WIDE: u64 = 1_048_576;

/// Two entries of 31 bytes.
pub const NARROW: u64 = 62;

/// Less than one.
pub const TIGHT: u64 = 30;

/// A book of 1 MiB.
pub struct Wide;

/// A book of two entries.
pub struct Narrow;

/// A book of none.
pub struct Tight;

impl Sharing for Wide {
    ghost use Rattle.std.specs.Prelude.{⊤};

    ghost ran = { λ words input ran. ⊤ };

    ghost bound = { 1048576 };
}

impl Sharing for Narrow {
    ghost use Rattle.std.specs.Prelude.{⊤};

    ghost ran = { λ words input ran. ⊤ };

    ghost bound = { 62 };
}

impl Sharing for Tight {
    ghost use Rattle.std.specs.Prelude.{⊤};

    ghost ran = { λ words input ran. ⊤ };

    ghost bound = { 30 };
}

/// What compiles `a.i` to an object: 7 bytes.
pub fn compile_words(alloc: Global) -> Result<PlacedWords, AllocError> {
    let mut words = PlacedWords::new(alloc);
    for text in [b"scc".as_slice(), b"-c", b"-o"] {
        words.try_push(Word::Text(Bytes::from_slice(alloc, text)?))?;
    }
    words.try_push(Word::Input(Ext::I))?;
    words.try_push(Word::Output)?;
    Ok(words)
}

/// A station that makes that many runs of this object and this status, and then some without an object.
pub fn station(
    alloc: Global,
    count: usize,
    status: u32,
    object: &[u8],
) -> Result<MemStation, AllocError> {
    let mut rans = RanList::new(alloc);
    for _ in 0..count {
        rans.try_push(Ran {
            status,
            out: Bytes::new(alloc),
            err: Bytes::new(alloc),
            object: Bytes::from_slice(alloc, object)?,
        })?;
    }
    Ok(MemStation::new(rans, CallNumbers::new(alloc)))
}

/// A book without entries.
pub fn book<P: Sharing, R: RandomSource>(
    rt: &R,
    alloc: Global,
    bound: u64,
) -> Result<Mutex<SharedBook<P>>, Fail>
    requires same { bound ≡ P.bound }
    requires small { bound < 2 ^ 63 }
{
    let Ok(keys) = RandomState::new(rt) else {
        return Err("the system gives no random keys".into());
    };
    Ok(Mutex::new(SharedBook::new(alloc, bound, keys)?))
}
