//! A slot for a session, which lies in the memory of the program.

ghost use Rattle.std.specs.Prelude.{◌≡◌, is_some};

use crate::handle::Handle;

/// A slot: open with a session, or closed.
///
/// In C it is a struct of a `void *` and a `bool`. A closed one is all zero.
#[repr(C)]
pub struct Slot {
    pub(crate) session: Handle,
    pub(crate) is_open: bool,
    pub ghost tied: { is_open ≡ is_some session.value },
}
