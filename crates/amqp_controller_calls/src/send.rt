//! How control messages are sent, and how their answers are looked for.

ghost use Rattle.std.specs.Prelude.{◌≡◌, ◌≤◌, IfOk};
ghost use Rattle.amqp_links.specs.declared.sendable.Sent.TheVariants as sendings;
ghost use Rattle.amqp_links.specs.Sending.{unsettled_count};
ghost use Rattle.amqp_controller_calls.specs.Sends.{OneSend, SendsControl, UnsentByFault};

use crate::errors::ControllerSendError;
use amqp_links::{Sendable, SenderLink, Sent};
use amqp_txn_codec::ControlMessageBody;
use std::alloc::Global;

/// Sends a control message: its canonical spelling, unsettled, without a state, not batchable.
pub(crate) fn send_control<L: SenderLink>(
    alloc: Global,
    link: &mut L,
    message: &ControlMessageBody,
) -> Result<Sent, ControllerSendError>
    ensures sends { SendsControl (OneSend L.send_gives L.told) link.old link.new message.now
        result }
    ensures later { (L.told link.old).faults ≤ (L.told link.new).faults }
    ensures cause { UnsentByFault result (L.told link.old) (L.told link.new) }
    ensures unsettled { IfOk result (λ sent. sent ≡ sendings.Unsettled
        (record { 0 = unsettled_count (L.told link.old).put })) }
{
    let payload = message.encode(alloc)?;
    let sendable = Sendable {
        payload,
        message_format: 0,
        settled: Some(false),
    };
    let sent = link.send(sendable, None, false)?;
    Ok(sent)
}
