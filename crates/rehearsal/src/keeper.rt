//! A keeper in memory whose counts stay.

ghost use Rattle.std.specs.Prelude.{◌≡◌, ◌<◌, ◌≤◌, [], None, All, length};
ghost use Rattle.std.specs.Option.{ForSome};
ghost use Rattle.farm_types.specs.Limits.{object_max};
ghost use Rattle.rehearsal.specs.Puts as puts;
ghost use Rattle.rehearsal.specs.Puts.{IsSmall};

use edge_traits::{EdgeFault, FetchFault, Keeper, Put};
use farm_types::limits::OBJECT_MAX;
use farm_types::{Bytes, Items};
use std::alloc::Global;

/// A keeper in memory that remembers what was put. Its counts stay: it has no file to give, so a fetch is out of memory,
/// and so does a put above the limit of objects.
#[derive(Drop)]
pub struct StillKeeper {
    pub(crate) puts: Items<Put>,
    pub(crate) pending: Option<Put>,
    ghost small: { All IsSmall puts },
    ghost pending_small: { ForSome pending IsSmall },
}

impl StillKeeper {
    /// A keeper in which nothing was put. It takes no memory.
    pub fn new(alloc: Global) -> StillKeeper
        ensures none { result.puts ≡ [] }
        ensures idle { result.pending ≡ None }
    {
        StillKeeper {
            puts: Items::new(alloc),
            pending: None,
        }
    }

    /// The length of the object that was put at this place, counted from 0; 0 if none was. It takes no memory.
    pub(crate) fn object_len(&self, at: u32) -> u64
        ensures len { result ≡ puts.put_len_at self.now.puts at }
        ensures small { result ≤ object_max }
    {
        match self.puts.get(at as usize) {
            Some(put) => put.bytes.len() as u64,
            None => 0,
        }
    }
}

impl Keeper for StillKeeper {
    ghost use Rattle.rehearsal.specs.Devices.{keeper_shows};

    ghost shows = { keeper_shows };

    fn is_pending(&self) -> bool {
        self.pending.is_some()
    }

    fn begin(&mut self, alloc: Global, path: &Bytes) -> Result<(), EdgeFault> {
        self.pending = None;
        self.pending = Some(Put {
            path: path.copy()?,
            bytes: Bytes::new(alloc),
        });
        Ok(())
    }

    fn add(&mut self, _alloc: Global, piece: &[u8]) -> Result<(), EdgeFault> {
        let Some(mut put) = self.pending.take() else {
            unreachable!()
        };
        if piece.len() > OBJECT_MAX - put.bytes.len() {
            return Err(EdgeFault::Memory);
        }
        put.bytes.try_extend(piece)?;
        self.pending = Some(put);
        Ok(())
    }

    fn commit(&mut self, _alloc: Global) -> Result<(), EdgeFault> {
        let Some(put) = self.pending.take() else {
            unreachable!()
        };
        self.puts.try_push(put)?;
        Ok(())
    }

    fn abandon(&mut self) {
        self.pending = None;
    }

    fn fetch(&mut self, _alloc: Global, _path: &Bytes, _bound: u32) -> Result<Bytes, FetchFault> {
        Err(FetchFault::Memory)
    }
}
