//! The book that stations share: what is under the lock.

use crate::Sharing;
use crate::held::SharedEntry;
use edge_traits::raised;
use object_cache::RunDigest;
use std::alloc::{AllocError, Global};
use std::collections::hash_map::RandomState;
use std::marker::Model;
use use_order::UseOrder;

/// Entries under the digests of their runs, the latest used first. Whoever takes the lock knows that each entry is of a run that the
/// stations' programs may leave and that ended with status 0, and that all have at most `P.bound` bytes together. No call
/// hashes, copies, compares or frees what an entry has.
#[derive(Drop)]
pub struct SharedBook<P: Sharing> {
    order: UseOrder<SharedEntry<P>>,
    unkept: u64,
}

impl<P: Sharing> Model for SharedBook<P> {
    ghost use Rattle.std.specs.Prelude.{◌≡◌};
    ghost use Rattle.shared_cache.specs.Books.{SharedView};

    ghost Value = { SharedView };

    ghost view = { λ s. record { order = s.order; unkept = s.unkept } };

    ghost invariant = { λ s. s.order.bound ≡ P.bound };
}

/// How many runs a book couldn't keep for lack of memory, and how many bytes its entries have together. The count doesn't go
/// above the greatest u64.
#[derive(Clone, Copy, Debug, PartialEq, Eq)]
pub struct SharedStats {
    pub unkept: u64,
    pub bytes: u64,
}

impl<P: Sharing> SharedBook<P> {
    ghost use Rattle.std.specs.Prelude.{◌≡◌, ◌≤◌, ◌<◌, ◌^◌, IfOk};
    ghost use Rattle.object_cache.specs.Entries.{size_of};
    ghost use Rattle.use_order.specs.Orders.{sizes};
    ghost use Rattle.shared_cache.specs.Books.{new_book, entry_named, after_use, after_unkept, after_forget, Keeps};

    /// A book without entries, of at most that many bytes. The digests are hashed with these keys. It takes memory.
    pub fn new(alloc: Global, bound: u64, keys: RandomState) -> Result<SharedBook<P>, AllocError>
        requires same { bound ≡ P.bound }
        requires small { bound < 2 ^ 63 }
        ensures { IfOk result (λ book. book ≡ new_book bound) }
    {
        Ok(SharedBook {
            order: UseOrder::new(alloc, bound, keys)?,
            unkept: 0,
        })
    }

    /// It takes no memory. The entries are within the bound.
    pub fn stats(&self) -> SharedStats
        ensures stats { result ≡ record { unkept = self.now.unkept; bytes = sizes size_of self.now.order.items } }
        ensures within { result.bytes ≤ P.bound }
    {
        SharedStats {
            unkept: self.unkept,
            bytes: self.order.bytes(),
        }
    }

    /// The entry of this digest, if there is one, which is then the latest used. It takes no memory. An error says that it has
    /// 9,223,372,036,854,775,807 users.
    pub(crate) fn find(&mut self, digest: &RunDigest) -> Result<Option<SharedEntry<P>>, AllocError>
        ensures entry { IfOk result (λ found. found ≡ entry_named digest.now self.old) }
        ensures book { self.new ≡ after_use digest.now self.old }
    {
        let found = match self.order.find(digest) {
            Some(entry) => Some(entry.share()),
            None => None,
        };
        self.order.touch(digest);
        match found {
            Some(Ok(entry)) => Ok(Some(entry)),
            Some(Err(full)) => Err(full),
            None => Ok(None),
        }
    }

    /// Keeps an entry under a digest, in place of an earlier one, as the latest used. The entries that are dropped for it go to
    /// `dropped`, so that the caller frees them. Without memory for it, it is counted as unkept.
    pub(crate) fn keep(
        &mut self,
        digest: RunDigest,
        entry: SharedEntry<P>,
        dropped: &mut Vec<SharedEntry<P>>,
    )
        requires { size_of entry ≤ P.bound }
        ensures { Keeps digest entry self.old self.new }
    {
        if !self.order.put(digest, entry, dropped) {
            self.unkept = raised(self.unkept);
        }
    }

    /// Counts a run for which there was no memory.
    pub(crate) fn leave_out(&mut self)
        ensures { self.new ≡ after_unkept self.old }
    {
        self.unkept = raised(self.unkept);
    }

    /// Takes the entry of a digest out, if there is one.
    pub(crate) fn forget(&mut self, digest: &RunDigest) -> Option<SharedEntry<P>>
        ensures entry { result ≡ entry_named digest.now self.old }
        ensures book { self.new ≡ after_forget digest.now self.old }
    {
        self.order.forget(digest)
    }
}
