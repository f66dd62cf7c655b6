//! Opening, using and closing a slot.

ghost use Rattle.std.specs.Prelude.{◌≡◌, None, Some, IsSome};

use crate::handle::Handle;
use daxurbi_session::SlotSession;
use std::alloc::Global;
use std::mem::replace;

/// Takes the session out of an open slot's handle, which then has none.
pub fn take(handle: &mut Handle, alloc: Global) -> Box<SlotSession>
    requires { IsSome handle.old.value }
    ensures session { Some result.value ≡ handle.old.value }
    ensures none { handle.new.value ≡ None }
{
    replace(handle, Handle::none(alloc)).into_box()
}

/// Puts a session into a handle that has none.
pub fn put(handle: &mut Handle, session: Box<SlotSession>)
    requires { handle.old.value ≡ None }
    ensures { handle.new.value ≡ Some session.value }
{
    let empty = replace(handle, Handle::of(session));
    empty.let_go();
}
