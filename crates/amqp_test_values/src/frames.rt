//! Performatives of a session and of a link.

ghost use Rattle.std.specs.Prelude.{◌≡◌, IfOk, Some};
ghost use Rattle.amqp_test_values.specs.Frames.{attach_of, begin_of, control_target, detach_of, disposition_of, flow_of, state_under, transfer_of, work_of};

use amqp_txn_types::{
    Attach, Begin, Coordinator, DeliveryState, Detach, Disposition, Flow, Frame, Frames, Handle,
    NoMemory, Payload, ReceiverSettleMode, Role, SenderSettleMode, TargetArchetype, Text,
    TransactionId, TransactionalState, Transfer,
};
use std::alloc::Global;

/// A begin with windows of two transfers.
pub fn begin(handle_max: u32) -> Begin
    ensures { result ≡ begin_of handle_max }
{
    Begin {
        remote_channel: None,
        next_outgoing_id: 0,
        incoming_window: 2,
        outgoing_window: 2,
        handle_max: Handle(handle_max),
        offered_capabilities: None,
        desired_capabilities: None,
        properties: None,
    }
}

/// The attach of a sender.
pub fn sender_attach(name: Text, handle: u32, target: Option<TargetArchetype>) -> Attach
    ensures { result ≡ attach_of name handle target }
{
    Attach {
        name,
        handle: Handle(handle),
        role: Role::Sender,
        snd_settle_mode: SenderSettleMode::Mixed,
        rcv_settle_mode: ReceiverSettleMode::First,
        source: None,
        target,
        initial_delivery_count: None,
        max_message_size: None,
        offered_capabilities: None,
        desired_capabilities: None,
        properties: None,
    }
}

/// The attach of a control link.
pub fn control_attach(name: Text, handle: u32) -> Attach
    ensures { result ≡ attach_of name handle (Some control_target) }
{
    let coordinator = TargetArchetype::Coordinator(Coordinator { capabilities: None });
    sender_attach(name, handle, Some(coordinator))
}

/// A transfer that says nothing of its delivery.
pub fn transfer(handle: u32) -> Transfer
    ensures { result ≡ transfer_of handle }
{
    Transfer {
        handle: Handle(handle),
        delivery_id: None,
        delivery_tag: None,
        message_format: None,
        settled: None,
        more: false,
        rcv_settle_mode: None,
        state: None,
        resume: false,
        aborted: false,
        batchable: false,
    }
}

/// A receiver's disposition of one delivery, settled and without a state.
pub fn disposition(delivery: u32) -> Disposition
    ensures { result ≡ disposition_of delivery }
{
    Disposition {
        role: Role::Receiver,
        first: delivery,
        last: None,
        settled: true,
        state: None,
        batchable: false,
    }
}

/// Work as it is handed: a transfer of one octet on the handle, and a disposition. The only error
/// is out of memory.
pub fn work(alloc: Global, handle: u32) -> Result<Frames, NoMemory>
    ensures { IfOk result (λ frames. frames ≡ work_of handle) }
{
    let payload = Payload::from_slice(alloc, &[109])?;
    let mut frames = Vec::with_capacity(alloc, 2)?;
    frames.push_reserved(Frame::Transfer {
        transfer: transfer(handle),
        payload,
    });
    frames.push_reserved(Frame::Disposition(disposition(0)));
    Ok(Frames::from_vec(frames))
}

/// A detach that closes its link.
pub fn detach(handle: u32) -> Detach
    ensures { result ≡ detach_of handle }
{
    Detach {
        handle: Handle(handle),
        closed: true,
        error: None,
    }
}

/// A flow of windows of two transfers, of a link where it names one.
pub fn flow(handle: Option<Handle>) -> Flow
    ensures { result ≡ flow_of handle }
{
    Flow {
        next_incoming_id: None,
        incoming_window: 2,
        next_outgoing_id: 0,
        outgoing_window: 2,
        handle,
        delivery_count: None,
        link_credit: None,
        available: None,
        drain: false,
        echo: false,
        properties: None,
    }
}

/// The state of what is under the id.
pub fn under(txn_id: TransactionId) -> Option<DeliveryState>
    ensures { result ≡ Some (state_under txn_id) }
{
    Some(DeliveryState::TransactionalState(TransactionalState {
        txn_id,
        outcome: None,
    }))
}
