//! A message on a wire, and its answer.

use amqp_links::{Answer, Poll, SendError, Sendable, SenderLink, Sent, WireSender};
use amqp_txn_types::{DeliveryState, LinkEnd};
use std::alloc::Global;

/// Sends a message on a wire whose owner answers it as accepted: what its sender then hears, if
/// anything.
pub fn send_and_hear(
    alloc: Global,
    end: LinkEnd,
    sendable: Sendable,
) -> Result<Option<Answer>, SendError> {
    let mut wire = WireSender::new(alloc, end);
    let Sent::Unsettled(token) = wire.send(sendable, None, false)? else {
        return Ok(None); // it was sent settled: no answer comes
    };
    wire.answer(token, Ok(Some(DeliveryState::Accepted)));
    match wire.outcome(&token) {
        Poll::Ready(answer) => Ok(Some(answer)),
        Poll::Pending => Ok(None),
    }
}
