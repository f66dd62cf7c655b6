// The pointer of a `Thin`: null, or that of a box. All that is proved by hand stands here.

ghost use Rattle.std.specs.Prelude.{◌≡◌, Option, None, Some, IsSome, is_none};
ghost use Rattle.std.specs.Borrow.{sem};
ghost use Rattle.thin.specs.Slot.{held, shown};

use std::alloc::Global;
use std::marker::{Model, Send, Sync};
use std::ptr::null_mut;

/// The pointer that a box gave, or null where nothing is held.
///
/// It isn't `Drop`: a slot goes through `into_box`, or through `discard` where it holds nothing.
pub(crate) struct Slot<T> {
    at: *mut T,
    pub(crate) ghost value: { Option T },
}

impl<T> Model for Slot<T> {
    ghost also_owns = { λ s. held T.row s.at s.value };

    ghost also_shares = { λ s _ κ. shown T.row s.at s.value κ };
}

// It owns a value as a box does, and so crosses threads where the value does.
unsafe impl<T: Send> Send for Slot<T> {}

unsafe impl<T: Sync> Sync for Slot<T> {}

impl<T> Slot<T> {
    ghost use Rattle.thin.specs.Lends.{slot_lends};

    /// The slot that holds nothing.
    pub(crate) fn empty() -> Slot<T>
        ensures { result.value ≡ None }
    {
        Slot { at: null_mut() }
    }

    /// The slot that holds the box's value.
    pub(crate) fn holding(held: Box<T>) -> Slot<T>
    where
        T: Drop,
        ensures { result.value ≡ Some held.value }
    {
        let at = Box::into_raw(held);
        Slot { at }
    }

    /// The box, which `alloc` frees.
    pub(crate) fn into_box(self, alloc: Global) -> Box<T>
        requires { IsSome self.value }
        ensures { Some result.value ≡ self.value }
    {
        let Slot { at } = self;
        unsafe { Box::from_raw(alloc, at) }
    }

    /// Lets a slot go that holds nothing.
    pub(crate) fn discard(self)
        requires { self.value ≡ None }
    {
        let Slot { at: _ } = self;
    }

    /// Whether it holds nothing.
    pub(crate) fn is_none(&self) -> bool
        ensures { result ≡ is_none self.now.value }
    {
        self.at.is_null()
    }

    /// The value, lent.
    pub(crate) fn lend(&self) -> &T
        requires { IsSome self.now.value }
        ensures { Some result.now ≡ self.now.value }
    {
        unsafe { &*self.at }
    }

    /// The value, lent to be changed.
    pub(crate) fn lend_mut(&mut self) -> &mut T
        requires { IsSome self.old.value }
        ensures* writes_back { sem 𝓛 (slot_lends T.row self.entry result) }
        ensures value { Some result.now ≡ self.old.value }
    {
        unsafe { &mut *self.at }
    }
}
