//! Lists that a contract sees as lists, copies that may run out of memory, and out of memory
//! itself.

ghost use Rattle.std.specs.Prelude.{◌≡◌, ◌↔◌, List, [], ◌∷◌, ◌++◌, length, slice_get, option_copied, IsTrue, OnOk, OnErr, IfOk, IfErr, ◌<◌, ◌^◌};
ghost use Rattle.std.specs.Iterator.Runs.{EveryRun, ItemsMapTo};
ghost use Rattle.std.specs.Slice.Iter.{iter_rest, iter_steps};
ghost use Rattle.std.specs.Cmp.Lexicographic.{pointwise, lists_per};

use std::alloc::{AllocError, AllocFailed, Global};
use std::marker::Model;
use std::slice;
use thiserror::Error as ThisError;

/// Out of memory: an allocation failed. What was to grow is as it was before.
#[derive(Clone, Copy, Debug, PartialEq, Eq, ThisError)]
#[error("out of memory")]
pub struct NoMemory;

impl From<AllocError> for NoMemory {
    fn from(_error: AllocError) -> Self {
        NoMemory
    }
}

impl<T: Drop> From<AllocFailed<T>> for NoMemory {
    fn from(_failed: AllocFailed<T>) -> Self {
        NoMemory
    }
}

/// A copy that may fail where memory runs out alone, and that equals its original.
///
/// It stands in place of `Clone` on every type that holds a list. A copy grows on the allocator
/// of its original.
pub trait TryClone {
    /// A copy, equal to the original. The only error is out of memory.
    fn try_clone(&self) -> Result<Self, NoMemory>
        ensures copy { IfOk result (λ copy. copy ≡ self.now) };
}

/// A list that grows at its end, and that a contract sees as the list of its items.
///
/// The lists of this crate and of those above it are this one at a type of items: `Symbols`,
/// `Frames`, `LinkFlows`. It keeps the allocator that it was made with.
#[derive(Debug, Drop)]
pub struct Items<T> {
    /// The items as a vector.
    ///
    /// It is open to callers that make room first and push later: a contract that sees the list
    /// as its items can't speak of its room.
    pub items: Vec<T>,
}

impl<T> Model for Items<T> {
    ghost Value = { List T };

    ghost view = { λ s. s.items.items };
}

impl<T> Items<T> {
    /// The empty list. It takes no memory; later growth takes it from `alloc`.
    pub fn new(alloc: Global) -> Self
        ensures { result ≡ [] }
    {
        Items {
            items: Vec::new(alloc),
        }
    }

    /// The list of a vector's items, on the vector's allocator. It takes no memory.
    pub fn from_vec(items: Vec<T>) -> Self
        ensures { result ≡ items.items }
    {
        Items { items }
    }

    /// How many items the list has.
    pub fn len(&self) -> usize
        ensures { result ≡ length self.now }
    {
        self.items.len()
    }

    /// Whether the list has no items.
    pub fn is_empty(&self) -> bool
        ensures { IsTrue result ↔ (self.now ≡ []) }
    {
        self.items.is_empty()
    }

    /// The item at `index`, counted from 0; `None` from the length on.
    pub fn get(&self, index: usize) -> Option<&T>
        ensures { option_copied result ≡ slice_get self.now index }
    {
        self.items.get(index)
    }

    /// The items, in order.
    pub fn as_slice(&self) -> &[T]
        ensures { result.now ≡ self.now }
    {
        self.items.as_slice()
    }

    /// The items, lent one by one in order.
    pub fn iter(&self) -> slice::Iter<'_, T>
        ensures rest { iter_rest result ≡ self.now }
        ensures bound { length (iter_rest result) < 2 ^ 64 }
        ensures runs { EveryRun (iter_steps {A = T})
            (λ run. ItemsMapTo run (λ item. item.now) (iter_rest run.from)) }
    {
        self.as_slice().iter()
    }

    /// The items, to be moved out one by one.
    pub fn into_vec(self) -> Vec<T>
        ensures { result.items ≡ self }
    {
        self.items
    }

    /// Appends the item. Where memory runs out the item comes back, and the list is as it was.
    pub fn push(&mut self, item: T) -> Result<(), (T, NoMemory)>
        ensures ok { OnOk result (self.new ≡ self.old ++ item ∷ []) }
        ensures err { IfErr result (λ refused. (refused.0 ≡ item) × (self.new ≡ self.old)) }
    {
        let Ok(()) = self.items.reserve(1) else {
            return Err((item, NoMemory));
        };
        self.items.push_reserved(item);
        Ok(())
    }
}

/// `for item in &list` lends the items in order, as [`Items::iter`] does.
impl<'a, T> IntoIterator for &'a Items<T> {
    type Item = &'a T;

    type IntoIter = slice::Iter<'a, T>;

    ghost into_iter_gives = { λ list items. (iter_rest items ≡ list.now)
        × (length (iter_rest items) < 2 ^ 64)
        × EveryRun (iter_steps {A = T})
        (λ run. ItemsMapTo run (λ item. item.now) (iter_rest run.from)) };

    fn into_iter(self) -> slice::Iter<'a, T> {
        self.iter()
    }
}

impl<T: Drop> Items<T> {
    /// Appends the item. Where memory runs out, the only error, the item is let go, and the list is
    /// as it was.
    pub fn append(&mut self, item: T) -> Result<(), NoMemory>
        ensures ok { OnOk result (self.new ≡ self.old ++ item ∷ []) }
        ensures err { OnErr result (self.new ≡ self.old) }
    {
        self.items.reserve(1)?;
        self.items.push_reserved(item);
        Ok(())
    }
}

impl<T: TryClone + Drop> TryClone for Items<T> {
    fn try_clone(&self) -> Result<Self, NoMemory> {
        let mut items = Vec::with_capacity(*self.items.allocator(), self.items.len())?;
        for item in self.as_slice() {
            items.push_reserved(item.try_clone()?);
        }
        Ok(Items { items })
    }
}

impl<T: PartialEq> PartialEq for Items<T> {
    ghost eq = { pointwise T.eq };

    ghost laws = { lists_per T.laws };

    fn eq(&self, other: &Self) -> bool {
        self.as_slice() == other.as_slice()
    }
}

/// Numbers of calls, which count from 1.
pub type CallNumbers = Items<u64>;

impl Items<u8> {
    /// A copy of the octets. The only error is out of memory.
    pub fn from_slice(alloc: Global, octets: &[u8]) -> Result<Self, NoMemory>
        ensures { IfOk result (λ list. list ≡ octets.now) }
    {
        Ok(Items {
            items: Vec::from_slice(alloc, octets)?,
        })
    }
}

impl<T: TryClone> TryClone for Option<T> {
    #[inline(always)]
    fn try_clone(&self) -> Result<Self, NoMemory> {
        match self {
            None => Ok(None),
            Some(item) => Ok(Some(item.try_clone()?)),
        }
    }
}

impl<A: TryClone + Drop, B: TryClone> TryClone for (A, B) {
    fn try_clone(&self) -> Result<Self, NoMemory> {
        Ok((self.0.try_clone()?, self.1.try_clone()?))
    }
}

impl TryClone for u8 {
    fn try_clone(&self) -> Result<Self, NoMemory> {
        Ok(*self)
    }
}

impl TryClone for u64 {
    fn try_clone(&self) -> Result<Self, NoMemory> {
        Ok(*self)
    }
}
