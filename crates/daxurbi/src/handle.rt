//! A box as C holds it, or nothing.

ghost use Rattle.std.specs.Prelude.{◌≡◌, IsSome, None, Option, Some};
ghost use Rattle.daxurbi_session.specs.declared.slot_session.SlotSession.{SlotSession};
ghost use Rattle.daxurbi.specs.Owning.{handle_coded, handle_owns};

use crate::parts::Parts;
use daxurbi_session::SlotSession;
use std::alloc::Global;
use std::marker::{Model, Send};
use std::ptr;

/// The pointer of the box of a session, or nothing.
///
/// It has no `Drop`, so one that is lost is an error of the check. In C it is a `void *`, which is
/// null where there is nothing.
#[repr(C)]
pub struct Handle {
    at: *mut u8,
    alloc: Global,
    pub ghost value: { Option SlotSession } by { handle_coded },
}

impl Model for Handle {
    ghost also_owns = { λ h. handle_owns h.alloc h.at h.value };
}

unsafe impl Send for Handle {}

impl Handle {
    /// Nothing.
    pub fn none(alloc: Global) -> Handle
        ensures { result.value ≡ None }
    {
        let at = ptr::null_mut();
        Handle { at, alloc }
    }

    /// The handle of a box.
    pub fn of(value: Box<SlotSession>) -> Handle
        ensures { result.value ≡ Some value.value }
    {
        Handle::of_parts(Parts::of(value))
    }

    /// The box of a handle.
    ///
    /// # Requires
    ///
    /// That there is one.
    pub fn into_box(self) -> Box<SlotSession>
        requires { IsSome self.value }
        ensures { Some result.value ≡ self.value }
    {
        self.into_parts().into_box()
    }

    fn of_parts(parts: Parts<SlotSession, Global>) -> Handle
        ensures { result.value ≡ Some parts.value }
    {
        let Parts { at, alloc } = parts;
        let at = at as *mut u8;
        Handle { at, alloc }
    }

    fn into_parts(self) -> Parts<SlotSession, Global>
        requires { IsSome self.value }
        ensures { Some result.value ≡ self.value }
    {
        let Handle { at, alloc } = self;
        let at = at as *mut SlotSession;
        Parts { at, alloc }
    }

    /// Lets go of nothing.
    ///
    /// # Requires
    ///
    /// That there is no box.
    pub fn let_go(self)
        requires { self.value ≡ None }
    {
        let Handle { at: _, alloc: _ } = self;
    }
}
