//! What a broker gives back.

ghost use Rattle.std.specs.Prelude.{◌≡◌, IfOk, map};
ghost use Rattle.txn_broker_queues.specs.Given.{attach_back, attach_given, detach_given, first_count, flow_back, message_back, other_role, transfer_back};

use crate::link::is_sender;
use crate::message::{Message, Messages};
use amqp_txn_types::{
    Attach, Binary, Detach, Flow, Frame, Frames, Handle, NoMemory, Role, Transfer, TryClone,
};
use std::alloc::Global;

/// The credit that a peer gets that attaches as a sender.
const FIRST_CREDIT: u32 = 200;

fn other_role(role: Role) -> Role
    ensures { result ≡ other_role role }
{
    match role {
        Role::Sender => Role::Receiver,
        Role::Receiver => Role::Sender,
    }
}

fn first_count(role: Role) -> Option<u32>
    ensures { result ≡ first_count role }
{
    match role {
        Role::Sender => Some(0),
        Role::Receiver => None,
    }
}

/// The attach of the broker's end. The only error is out of memory.
fn attach_back(attach: &Attach) -> Result<Attach, NoMemory>
    ensures { IfOk result (λ back. back ≡ attach_back attach.now) }
{
    let role = other_role(attach.role);
    Ok(Attach {
        name: attach.name.try_clone()?,
        handle: attach.handle,
        role,
        snd_settle_mode: attach.snd_settle_mode,
        rcv_settle_mode: attach.rcv_settle_mode,
        source: attach.source.try_clone()?,
        target: attach.target.try_clone()?,
        initial_delivery_count: first_count(role),
        max_message_size: None,
        offered_capabilities: None,
        desired_capabilities: None,
        properties: None,
    })
}

/// The flow that gives a sender its first credit.
fn flow_back(handle: Handle) -> Flow
    ensures { result ≡ flow_back handle }
{
    Flow {
        next_incoming_id: Some(0),
        incoming_window: 2048,
        next_outgoing_id: 0,
        outgoing_window: 2048,
        handle: Some(handle),
        delivery_count: Some(0),
        link_credit: Some(FIRST_CREDIT),
        available: None,
        drain: false,
        echo: false,
        properties: None,
    }
}

/// What is given back for an attach that is taken. The only error is out of memory.
pub(crate) fn answer_attach(alloc: Global, attach: &Attach) -> Result<Frames, NoMemory>
    ensures { IfOk result (λ given. given ≡ attach_given attach.now) }
{
    let back = attach_back(attach)?;
    let mut given = Vec::with_capacity(alloc, 2)?;
    given.push_reserved(Frame::Attach(back));
    if is_sender(attach.role) {
        given.push_reserved(Frame::Flow(flow_back(attach.handle)));
    }
    Ok(Frames::from_vec(given))
}

/// What is given back for a detach that is taken. The only error is out of memory.
pub(crate) fn answer_detach(alloc: Global, detach: &Detach) -> Result<Frames, NoMemory>
    ensures { IfOk result (λ given. given ≡ detach_given detach.now) }
{
    let mut given = Vec::with_capacity(alloc, 1)?;
    given.push_reserved(Frame::Detach(Detach {
        handle: detach.handle,
        closed: detach.closed,
        error: None,
    }));
    Ok(Frames::from_vec(given))
}

/// The transfer of a message's copy. The only error is out of memory.
fn transfer_back(alloc: Global, handle: Handle, number: u32) -> Result<Transfer, NoMemory>
    ensures { IfOk result (λ transfer. transfer ≡ transfer_back handle number) }
{
    Ok(Transfer {
        handle,
        delivery_id: Some(number),
        delivery_tag: Some(Binary::from_slice(alloc, &number.to_be_bytes())?),
        message_format: Some(0),
        settled: None,
        more: false,
        rcv_settle_mode: None,
        state: None,
        resume: false,
        aborted: false,
        batchable: false,
    })
}

fn message_back(alloc: Global, handle: Handle, message: Message) -> Result<Frame, NoMemory>
    ensures { IfOk result (λ frame. frame ≡ message_back handle message) }
{
    let Message { number, payload } = message;
    Ok(Frame::Transfer {
        transfer: transfer_back(alloc, handle, number)?,
        payload,
    })
}

/// The transfers of the messages, in order. The only error is out of memory.
pub(crate) fn answer_credit(
    alloc: Global,
    handle: Handle,
    messages: Messages,
) -> Result<Frames, NoMemory>
    ensures { IfOk result (λ given. given ≡ map (message_back handle) messages) }
{
    let mut given = Frames::new(alloc);
    for message in messages.into_vec() {
        given.append(message_back(alloc, handle, message)?)?;
    }
    Ok(given)
}
