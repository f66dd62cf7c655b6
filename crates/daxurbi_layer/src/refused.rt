//! What a layer refused, as clauses see it.

ghost use Rattle.std.specs.Prelude.{◌≡◌};
ghost use Rattle.daxurbi_layer.specs.Refusing.{error_listed, slot_after};

use amqp_below_layer::SessionInnerError;
use amqp_txn_types::{Attach, Frame};
use std::snapshot::Snapshot;

/// A frame or an attach that was refused. It has none of its octets.
#[derive(Drop)]
pub enum Refused {
    /// A frame.
    Frame(Snapshot<Frame>),
    /// The attach of a control link.
    Attach(Snapshot<Attach>),
}

/// Lists a refusal with this error, and returns the error to answer with. Out of memory isn't
/// listed, and a second refusal is answered with it.
pub fn list_refusal(
    slot: &mut Option<Refused>,
    refused: Refused,
    error: SessionInnerError,
) -> SessionInnerError
    ensures slot { slot.new ≡ slot_after slot.old refused error }
    ensures answer { result ≡ error_listed slot.old error }
{
    if slot.is_some() || error.is_no_memory() {
        return SessionInnerError::NoMemory;
    }
    *slot = Some(refused);
    error
}
