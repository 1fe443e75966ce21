//! A list of values, which contracts see as a list.

ghost use Rattle.std.specs.Prelude.{◌≡◌, ◌==◌, List, [], ◌∷◌, ◌++◌, length, slice_get, IfOk, OnOk, OnErr};
ghost use Rattle.std.specs.Option.{option_copied};

use crate::copying::TryCopy;
use std::alloc::{AllocError, Global};
use std::marker::Model;

/// A list of values. It keeps its allocator.
#[derive(Debug, Drop)]
pub struct Items<T> {
    stored: Vec<T>,
}

impl<T> Model for Items<T> {
    ghost Value = { List T };

    ghost view = { λ i. i.stored.items };
}

impl<T> Items<T> {
    /// The empty list. It takes no memory.
    pub fn new(alloc: Global) -> Items<T>
        ensures { result ≡ [] }
    {
        Items {
            stored: Vec::new(alloc),
        }
    }

    /// The values of a `Vec`. It takes no memory.
    pub fn from_vec(values: Vec<T>) -> Items<T>
        ensures { result ≡ values.items }
    {
        Items { stored: values }
    }

    /// The values as a `Vec`. It takes no memory.
    pub fn into_vec(self) -> Vec<T>
        ensures { result.items ≡ self }
    {
        self.stored
    }

    pub fn len(&self) -> usize
        ensures { result ≡ length self.now }
    {
        self.stored.len()
    }

    pub fn is_empty(&self) -> bool
        ensures { result ≡ (length self.now == 0) }
    {
        self.stored.is_empty()
    }

    /// None exactly if `at` isn't below the length.
    pub fn get(&self, at: usize) -> Option<&T>
        ensures { option_copied result ≡ slice_get self.now at }
    {
        self.stored.get(at)
    }

    pub fn as_slice(&self) -> &[T]
        ensures { result.now ≡ self.now }
    {
        self.stored.as_slice()
    }
}

impl<T: Drop> Items<T> {
    /// Adds a value at the end. A refused value leaves the list as it was, and is dropped.
    pub fn try_push(&mut self, value: T) -> Result<(), AllocError>
        ensures ok { OnOk result (self.new ≡ self.old ++ value ∷ []) }
        ensures err { OnErr result (self.new ≡ self.old) }
    {
        self.stored.push(value)?;
        Ok(())
    }
}

impl<T: TryCopy> Items<T> {
    /// Copies of the values of a slice.
    pub fn from_slice(alloc: Global, values: &[T]) -> Result<Items<T>, AllocError>
        ensures { IfOk result (λ made. made ≡ values.now) }
    {
        let mut stored = Vec::new(alloc);
        for value in values {
            stored.push(value.try_copy()?)?;
        }
        Ok(Items { stored })
    }

    /// Adds copies of another list's values at the end. A refusal leaves the list as it was.
    pub fn try_extend(&mut self, more: &Items<T>) -> Result<(), AllocError>
        ensures ok { OnOk result (self.new ≡ self.old ++ more.now) }
        ensures err { OnErr result (self.new ≡ self.old) }
    {
        let mut copies = more.copy()?.into_vec();
        self.stored.append(&mut copies)
    }

    /// The same values, stored a second time.
    pub fn copy(&self) -> Result<Items<T>, AllocError>
        ensures { IfOk result (λ made. made ≡ self.now) }
    {
        Items::from_slice(*self.stored.allocator(), self.as_slice())
    }
}

impl<T: TryCopy> TryCopy for Items<T> {
    fn try_copy(&self) -> Result<Items<T>, AllocError> {
        self.copy()
    }
}
