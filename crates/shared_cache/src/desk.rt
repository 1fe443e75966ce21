//! The book and its lock. The lock is held while an entry is found or put, and for nothing else.

ghost use Rattle.std.specs.Prelude.{◌≡◌};
ghost use Rattle.object_cache.specs.Keys.{digest_of};
ghost use Rattle.shared_cache.specs.Shared.{MayAnswer, MayBeKept};

use crate::held::SharedEntry;
use crate::{SharedBook, Sharing};
use edge_traits::Bounds;
use farm_types::{Ran, Word};
use object_cache::{RunDigest, size_within};
use std::alloc::Global;
use std::sync::{Mutex, Wait};

/// A run that a station is asked for.
#[derive(Clone, Copy)]
pub(crate) struct Asked<'r> {
    pub(crate) words: &'r [Word],
    pub(crate) input: &'r [u8],
    pub(crate) bounds: &'r Bounds,
}

/// The book, its bound, and the handle by which a thread waits for the lock.
#[derive(Drop)]
pub(crate) struct Desk<'a, P: Sharing, R> {
    rt: &'a R,
    book: &'a Mutex<SharedBook<P>>,
    bound: u64,
    ghost same: { bound ≡ P.bound },
}

impl<'a, P: Sharing, R> Desk<'a, P, R> {
    ghost use Rattle.std.specs.Prelude.{◌≡◌};

    pub(crate) fn new(rt: &'a R, book: &'a Mutex<SharedBook<P>>, bound: u64) -> Desk<'a, P, R>
        requires { bound ≡ P.bound }
    {
        Desk { rt, book, bound }
    }
}

impl<'a, P: Sharing, R: Wait> Desk<'a, P, R> {
    ghost use Rattle.std.specs.Prelude.{◌≡◌};
    ghost use Rattle.object_cache.specs.Keys.{digest_of};
    ghost use Rattle.shared_cache.specs.Shared.{MayAnswer, MayBeKept};

    /// What the book answers to a run of this digest, if it does. Without memory for the answer it gives none.
    pub(crate) fn look(&self, digest: &RunDigest, asked: &Asked<'_>) -> Option<Ran>
        requires { digest.now ≡ digest_of asked.now.words.now asked.now.input.now }
        ensures { MayAnswer P.ran asked.now.bounds.now asked.now.words.now asked.now.input.now result }
    {
        let found = self.book.lock(self.rt).find(digest);
        let Ok(Some(entry)) = found else {
            return None;
        };
        match entry.answer(asked.words, asked.input, asked.bounds) {
            Ok(answer) => answer,
            Err(_) => None,
        }
    }

    /// Puts what a run of this digest left into the book, if it is within the bound. Without memory it is left out and counted.
    pub(crate) fn learn(&self, alloc: Global, digest: RunDigest, asked: &Asked<'_>, ran: &Ran)
        requires digest { digest ≡ digest_of asked.now.words.now asked.now.input.now }
        requires may { MayBeKept P.ran asked.now.words.now asked.now.input.now ran.now }
    {
        let Some(size) = size_within(self.bound, asked.words, asked.input, ran) else {
            let _forgotten = self.book.lock(self.rt).forget(&digest);
            return;
        };
        match SharedEntry::new(alloc, size, asked.words, asked.input, ran) {
            Ok(entry) => {
                let mut dropped = Vec::new(alloc);
                self.book.lock(self.rt).keep(digest, entry, &mut dropped);
            }
            Err(_) => self.book.lock(self.rt).leave_out(),
        }
    }
}
