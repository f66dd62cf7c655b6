//! What a broker refuses.

ghost use Rattle.std.specs.Prelude.{◌≡◌, ◌+◌, ◌<◌, ◌^◌, is_some, length};
ghost use Rattle.std.specs.BTreeMap.{get};
ghost use Rattle.txn_broker_queues.specs.Given.{transfer_refusal};
ghost use Rattle.txn_broker_queues.specs.Keeping.{AdmitsTransfer, handle_order, peer_link, refused_by};

use crate::link::{Link, is_sender};
use amqp_below_layer::SessionInnerError;
use amqp_txn_types::{Frame, Handle, Transfer};
use std::collections::BTreeMap;

/// How many messages are numbered.
pub(crate) const MAX_MESSAGES: usize = 4_294_967_295;

/// The queue of a transfer that comes after so many messages, or why the transfer is refused.
pub(crate) fn queue_of_transfer(
    links: &BTreeMap<Handle, Link>,
    transfer: &Transfer,
    count: usize,
) -> Result<usize, SessionInnerError>
    ensures { AdmitsTransfer (get handle_order links.now transfer.now.handle) transfer.now count
        result }
{
    let Some(link) = links.get(&transfer.handle).copied() else {
        return Err(SessionInnerError::UnattachedHandle);
    };
    if !is_sender(link.peer) {
        return Err(SessionInnerError::TransferFrameToSender);
    }
    if transfer.more || transfer.aborted || count >= MAX_MESSAGES {
        return Err(SessionInnerError::IllegalState);
    }
    Ok(link.queue)
}

/// Whether a transfer is refused that comes after so many messages.
fn is_refused(links: &BTreeMap<Handle, Link>, transfer: &Transfer, count: usize) -> bool
    ensures { result ≡ is_some (transfer_refusal transfer.now count
        (peer_link (get handle_order links.now transfer.now.handle))) }
{
    queue_of_transfer(links, transfer, count).is_err()
}

/// Whether a transfer among some frames would be refused that come after so many messages, each
/// counted with those before it.
pub(crate) fn any_refused(links: &BTreeMap<Handle, Link>, count: usize, frames: &[Frame]) -> bool
    requires { count + length frames.now < 2 ^ 64 }
    ensures { result ≡ refused_by (λ h. get handle_order links.now h) count frames.now }
{
    let mut number = count;
    for frame in frames {
        if let Frame::Transfer { transfer, .. } = frame {
            if is_refused(links, transfer, number) {
                return true;
            }
            number += 1;
        }
    }
    false
}
