//! What a run left, as stations share it.

ghost use Rattle.std.specs.Prelude.{◌↔◌, IsTrue};
ghost use Rattle.edge_traits.specs.Stations.{IsWithin};

use crate::Sharing;
use crate::comparing::same_words;
use edge_traits::Bounds;
use farm_types::{Bytes, PlacedWords, Ran, Word};
use std::alloc::{AllocError, Global};
use std::marker::{Model, PhantomData};
use std::sync::Arc;
use use_order::Weighed;

// What a run of status 0 left, with its words and its input, and how many bytes that has.
#[derive(Drop)]
struct Held<P: Sharing> {
    words: PlacedWords,
    input: Bytes,
    ran: Ran,
    size: u64,
    of: PhantomData<P>,
}

impl<P: Sharing> Model for Held<P> {
    ghost use Rattle.std.specs.Prelude.{◌≡◌};
    ghost use Rattle.object_cache.specs.Entries.{Entry, size_of};
    ghost use Rattle.shared_cache.specs.Shared.{MayBeKept};

    ghost Value = { Entry };

    ghost view = { λ h. record { words = h.words; input = h.input; ran = h.ran } };

    ghost invariant = { λ h. MayBeKept P.ran h.words h.input h.ran × (h.size ≡ size_of (record { words = h.words; input = h.input; ran = h.ran })) };
}

fn is_within(ran: &Ran, bounds: &Bounds) -> bool
    ensures { IsTrue result ↔ IsWithin bounds.now ran.now }
{
    ran.out.len() <= bounds.out as usize
        && ran.err.len() <= bounds.err as usize
        && ran.object.len() <= bounds.object as usize
}

impl<P: Sharing> Held<P> {
    ghost use Rattle.std.specs.Prelude.{◌≡◌, IfOk};
    ghost use Rattle.object_cache.specs.Entries.{is_of, size_of};
    ghost use Rattle.shared_cache.specs.Shared.{Answers, MayAnswer, MayBeKept};

    // A copy of what a run of these words on this input left, which has this size.
    fn new(
        alloc: Global,
        size: u64,
        words: &[Word],
        input: &[u8],
        ran: &Ran,
    ) -> Result<Held<P>, AllocError>
        requires may { MayBeKept P.ran words.now input.now ran.now }
        requires size { size ≡ size_of (record { words = words.now; input = input.now; ran = ran.now }) }
        ensures { IfOk result (λ held. held ≡ record { words = words.now; input = input.now; ran = ran.now }) }
    {
        Ok(Held {
            words: PlacedWords::from_slice(alloc, words)?,
            input: Bytes::from_slice(alloc, input)?,
            ran: ran.copy()?,
            size,
            of: PhantomData,
        })
    }

    fn size(&self) -> u64
        ensures { result ≡ size_of self.now }
    {
        self.size
    }

    // Whether it is of these words and this input.
    fn is_of(&self, words: &[Word], input: &[u8]) -> bool
        ensures { result ≡ is_of words.now input.now self.now }
    {
        same_words(self.words.as_slice(), words) && self.input.as_slice() == input
    }

    fn answer(
        &self,
        words: &[Word],
        input: &[u8],
        bounds: &Bounds,
    ) -> Result<Option<Ran>, AllocError>
        ensures answers { IfOk result (Answers bounds.now words.now input.now self.now) }
        ensures may { IfOk result (MayAnswer P.ran bounds.now words.now input.now) }
    {
        if self.is_of(words, input) && is_within(&self.ran, bounds) {
            Ok(Some(self.ran.copy()?))
        } else {
            Ok(None)
        }
    }
}

/// An entry: what a run of status 0 left, with its words and its input. Whoever shares it last frees it. It doesn't change, so it is compared and
/// copied without a lock.
#[derive(Drop)]
pub(crate) struct SharedEntry<P: Sharing> {
    held: Arc<Held<P>, Global>,
}

impl<P: Sharing> Model for SharedEntry<P> {
    ghost use Rattle.std.specs.Arc.{arc_value};
    ghost use Rattle.object_cache.specs.Entries.{Entry};

    ghost Value = { Entry };

    ghost view = { λ e. arc_value e.held };
}

impl<P: Sharing> Weighed for SharedEntry<P> {
    ghost use Rattle.object_cache.specs.Entries.{size_of};

    ghost bytes = { λ e. size_of e };

    fn size(&self) -> u64 {
        self.held.size()
    }
}

impl<P: Sharing> SharedEntry<P> {
    ghost use Rattle.std.specs.Prelude.{◌≡◌, IfOk};
    ghost use Rattle.object_cache.specs.Entries.{size_of};
    ghost use Rattle.shared_cache.specs.Shared.{Answers, MayAnswer, MayBeKept};

    /// A copy of what a run of these words on this input left, which has this size. It takes memory.
    pub(crate) fn new(
        alloc: Global,
        size: u64,
        words: &[Word],
        input: &[u8],
        ran: &Ran,
    ) -> Result<SharedEntry<P>, AllocError>
        requires may { MayBeKept P.ran words.now input.now ran.now }
        requires size { size ≡ size_of (record { words = words.now; input = input.now; ran = ran.now }) }
        ensures { IfOk result (λ entry. entry ≡ record { words = words.now; input = input.now; ran = ran.now }) }
    {
        let held = Held::new(alloc, size, words, input, ran)?;
        Ok(SharedEntry {
            held: Arc::new(alloc, held)?,
        })
    }

    /// The same entry for one more user. It takes no memory.
    pub(crate) fn share(&self) -> Result<SharedEntry<P>, AllocError>
        ensures { IfOk result (λ entry. entry ≡ self.now) }
    {
        Ok(SharedEntry {
            held: Arc::try_clone(&self.held)?,
        })
    }

    /// A copy of what the run left, if it was of these words and this input and each stream is within its bound. It takes memory.
    pub(crate) fn answer(
        &self,
        words: &[Word],
        input: &[u8],
        bounds: &Bounds,
    ) -> Result<Option<Ran>, AllocError>
        ensures answers { IfOk result (Answers bounds.now words.now input.now self.now) }
        ensures may { IfOk result (MayAnswer P.ran bounds.now words.now input.now) }
    {
        self.held.answer(words, input, bounds)
    }
}
