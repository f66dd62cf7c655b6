//! One pointer: nothing, or a value on the heap.
//!
//! A type that mostly stands empty, as a text or a list in a frame does, costs its room wherever
//! the frame is moved. [`Thin`] gives it one word, and takes memory with the first value alone:
//!
//! ```
//! let mut list = Thin::none(rt.alloc());
//! assert!(rt; list.is_none());
//! list = Thin::some(rt.alloc(), Vec::new(rt.alloc()))?;
//! assert_eq!(rt; list.take().is_some(), true);
//! ```
//!
//! It stands on the kit alone. It carries the promise that a `Thin` is exactly an `Option` to
//! those who use it: what is put in is lent, changed in place and taken out again. Its pointer is
//! in `slot`, with what is proved of it by hand; that a box is freed is only tested.
#![tactic(auto)]

ghost use Rattle.std.specs.Prelude.{◌≡◌, Option, None, Some, is_none, IfOk, IfErr, option_map};
ghost use Rattle.std.specs.Borrow.{sem};

use crate::slot::Slot;
use std::alloc::{AllocFailed, Global};
use std::marker::Model;

mod impls;
mod slot;

/// Nothing, or a value on the heap: eight octets, whatever the value's size.
///
/// A contract sees it as an `Option`. It keeps the allocator that it was made with.
pub struct Thin<T> {
    slot: Slot<T>,
    alloc: Global,
}

impl<T> Model for Thin<T> {
    ghost Value = { Option T };

    ghost view = { λ t. t.slot.value };
}

impl<T> Thin<T> {
    ghost use Rattle.thin.specs.Thin.{thin_lends};

    /// Nothing. It takes no memory.
    pub fn none(alloc: Global) -> Thin<T>
        ensures { result ≡ None }
    {
        Thin {
            slot: Slot::empty(),
            alloc,
        }
    }

    /// The value, on the heap. Where memory runs out, the only error, the value comes back.
    pub fn some(alloc: Global, value: T) -> Result<Thin<T>, AllocFailed<T>>
    where
        T: Drop,
        ensures ok { IfOk result (λ thin. thin ≡ Some value) }
        ensures err { IfErr result (λ refused. refused.value ≡ value) }
    {
        let held = Box::new(alloc, value)?;
        Ok(Thin {
            slot: Slot::holding(held),
            alloc,
        })
    }

    /// The allocator that it was made with.
    pub fn allocator(&self) -> Global {
        self.alloc
    }

    /// Whether it is nothing.
    pub fn is_none(&self) -> bool
        ensures { result ≡ is_none self.now }
    {
        self.slot.is_none()
    }

    /// The value, if there is one.
    pub fn as_ref(&self) -> Option<&T>
        ensures { option_map (λ lent. lent.now) result ≡ self.now }
    {
        if self.slot.is_none() {
            None
        } else {
            Some(self.slot.lend())
        }
    }

    /// The value, if there is one, to be changed in place.
    pub fn as_mut(&mut self) -> Option<&mut T>
        ensures* writes_back { sem 𝓛 (thin_lends T.row self.entry result) }
        ensures value { option_map (λ lent. lent.now) result ≡ self.old }
    {
        if self.slot.is_none() {
            None
        } else {
            Some(self.slot.lend_mut())
        }
    }

    /// The value, if there is one, out of its place on the heap, which is freed.
    pub fn into_inner(self) -> Option<T>
        ensures { result ≡ self }
    {
        let Thin { slot, alloc } = self;
        if slot.is_none() {
            slot.discard();
            None
        } else {
            Some(Box::into_inner(slot.into_box(alloc)))
        }
    }

    /// The value, if there is one; nothing is left in its place.
    pub fn take(&mut self) -> Option<T>
        ensures value { result ≡ self.old }
        ensures left { self.new ≡ None }
    {
        let empty = Thin::none(self.alloc);
        std::mem::replace(self, empty).into_inner()
    }
}

impl<T: Drop> Drop for Thin<T> {
    fn drop(self) {
        drop(self.into_inner());
    }
}
