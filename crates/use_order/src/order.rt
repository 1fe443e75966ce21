//! The order of use.

ghost use Rattle.std.specs.Prelude.{◌≡◌};
ghost use Rattle.use_order.specs.Orders.{size_in};

use lru::LruCache;
use std::alloc::{AllocError, Global};
use std::collections::hash_map::RandomState;
use std::marker::Model;

/// The name of an item: the SHA-256 of a run's text.
pub type Name = [u8; 32];

/// A value that counts for a number of bytes, which stays.
pub trait Weighed {
    ghost use Rattle.std.specs.Prelude.{◌≡◌, ℕ};

    ghost bytes: { Self → ℕ };

    /// How many bytes it counts for.
    fn size(&self) -> u64
        ensures { result ≡ bytes self.now };
}

/// Items under names, the latest used first, that have at most `bound` bytes together. Each call takes a time that doesn't grow
/// with the number of items; a put also drops as many items as it has to.
#[derive(Drop)]
pub struct UseOrder<V: Weighed + Drop> {
    cache: LruCache<Name, V, RandomState>,
    bytes: u64,
    bound: u64,
}

impl<V: Weighed + Drop> Model for UseOrder<V> {
    ghost use Rattle.std.specs.Prelude.{◌≡◌, ◌<◌, ◌≤◌, ◌^◌, ◌-◌};
    ghost use Rattle.use_order.specs.Orders.{Ordered, sizes};

    ghost Value = { Ordered V };

    ghost view = { λ s. record { bound = s.bound; items = s.cache.entries } };

    ghost invariant = { λ s. (s.bytes ≡ sizes V.bytes s.cache.entries) × (s.bytes ≤ s.bound) × (s.bound < 2 ^ 63) × (s.cache.cap ≡ 2 ^ 64 - 1) };
}

// The bytes of an item that left the order.
fn size_in<V: Weighed>(item: &Option<V>) -> u64
    ensures { result ≡ size_in V.bytes item.now }
{
    match item {
        Some(item) => item.size(),
        None => 0,
    }
}

// Moves an item that left the order into a list, so that the caller frees it. Without memory it is freed here.
fn hand_out<V: Drop>(item: V, dropped: &mut Vec<V>) {
    let _ = dropped.push(item);
}

impl<V: Weighed + Drop> UseOrder<V> {
    ghost use Rattle.std.specs.Prelude.{◌≡◌, ◌<◌, ◌≤◌, ◌-◌, ◌^◌, [], is_some, option_copied, IfOk, IsTrue, MatchBool};
    ghost use Rattle.std.specs.Map.{lookup, remove_entry};
    ghost use Rattle.use_order.specs.Orders.{sizes, used, put_front, front_within, same_name};

    /// No items. The names are hashed with these keys. It takes memory.
    pub fn new(alloc: Global, bound: u64, keys: RandomState) -> Result<UseOrder<V>, AllocError>
        requires { bound < 2 ^ 63 }
        ensures { IfOk result (λ order. order ≡ record { bound = bound; items = [] }) }
    {
        Ok(UseOrder {
            cache: LruCache::unbounded_with_hasher(alloc, keys)?,
            bytes: 0,
            bound,
        })
    }

    /// How many bytes the items have together.
    pub fn bytes(&self) -> u64
        ensures sum { result ≡ sizes V.bytes self.now.items }
        ensures within { result ≤ self.now.bound }
    {
        self.bytes
    }

    /// The item of a name, if there is one. The order stays.
    pub fn find(&self, name: &Name) -> Option<&V>
        ensures { option_copied result ≡ lookup (same_name name.now) self.now.items }
    {
        self.cache.peek(name)
    }

    /// Makes the item of a name the first, and answers whether there is one.
    pub fn touch(&mut self, name: &Name) -> bool
        ensures there { result ≡ is_some (lookup (same_name name.now) self.old.items) }
        ensures items { self.new ≡ record { bound = self.old.bound; items = used (same_name name.now) self.old.items } }
    {
        self.cache.promote(name)
    }

    /// Takes the item of a name out, if there is one.
    pub fn forget(&mut self, name: &Name) -> Option<V>
        ensures item { result ≡ lookup (same_name name.now) self.old.items }
        ensures items { self.new ≡ record { bound = self.old.bound; items = remove_entry (same_name name.now) self.old.items } }
    {
        let forgotten = self.cache.pop(name);
        self.bytes -= size_in(&forgotten);
        forgotten
    }

    // Drops items from the end until they are within the bound.
    fn trim(
        cache: &mut LruCache<Name, V, RandomState>,
        bytes: u64,
        bound: u64,
        dropped: &mut Vec<V>,
    ) -> u64
        requires { bytes ≡ sizes V.bytes cache.old.entries }
        ensures items { cache.new.entries ≡ front_within V.bytes bound cache.old.entries }
        ensures cap { cache.new.cap ≡ cache.old.cap }
        ensures bytes { result ≡ sizes V.bytes cache.new.entries }
        ensures within { result ≤ bound }
    {
        let mut left = bytes;
        'dropping: while bound < left {
            let Some((_, last)) = cache.pop_lru() else {
                unreachable!()
            };
            left -= last.size();
            hand_out(last, dropped);
        }
        left
    }

    /// Puts an item first, in place of one of its name, and drops items from the end until all are within the bound. The items that leave the order
    /// go to `dropped`, so that the caller frees them. If there is no memory for the item, it answers false, and nothing changes.
    pub fn put(&mut self, name: Name, item: V, dropped: &mut Vec<V>) -> bool
        requires { V.bytes item ≤ self.old.bound }
        ensures { MatchBool result (self.new ≡ record { bound = self.old.bound; items = front_within V.bytes self.old.bound (put_front same_name name item self.old.items) }) (self.new ≡ self.old) }
    {
        let UseOrder {
            cache,
            bytes,
            bound,
        } = self;
        // That there are fewer items than the list may have.
        let _count = cache.len();
        let size = item.size();
        match cache.put(name, item) {
            Ok(old) => {
                let less = size_in(&old);
                *bytes = UseOrder::<V>::trim(cache, *bytes - less + size, *bound, dropped);
                if let Some(old) = old {
                    hand_out(old, dropped);
                }
                true
            }
            Err(_) => false,
        }
    }
}
