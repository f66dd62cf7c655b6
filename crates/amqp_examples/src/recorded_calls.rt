//! A recorder over a layer, and one with a plan.

ghost use Rattle.std.specs.Prelude.{◌≡◌, IfOk};

use amqp_below_layer::{LayerBelow, OpenSession, SessionInnerError};
use amqp_below_recorder::Recorder;
use amqp_txn_types::{CallNumbers, Detach, Payload, Transfer};
use std::alloc::Global;

/// Has a recorder take a transfer: how many exchanges it then keeps.
pub fn record_transfer(
    alloc: Global,
    transfer: Transfer,
    payload: Payload,
) -> Result<usize, SessionInnerError>
    ensures { IfOk result (λ kept. kept ≡ 1) }
{
    let mut below = Recorder::new(alloc, OpenSession::new(alloc));
    let given = below.on_incoming_transfer(transfer, payload)?;
    drop(given);
    Ok(below.exchanges().len())
}

/// Has a recorder refuse the second call that comes: how many refusals it then keeps. The plan
/// is set before the first call.
pub fn refuse_second(
    alloc: Global,
    first: Detach,
    second: Detach,
) -> Result<usize, SessionInnerError> {
    let Ok(second_call) = Vec::from_slice(alloc, &[2]) else {
        return Err(SessionInnerError::NoMemory);
    };
    let mut below = Recorder::new(alloc, OpenSession::new(alloc));
    below.set_plan(CallNumbers::from_vec(second_call));
    let given = below.on_incoming_detach(first)?;
    drop(given);
    let answer = below.on_incoming_detach(second); // IllegalState
    drop(answer);
    Ok(below.refused().len())
}
