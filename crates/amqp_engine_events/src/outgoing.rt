//! Frames that the links of a session send.

ghost use Rattle.std.specs.Prelude.{◌≡◌, ◌<◌, [], false, vec_capacity, vec_len};
ghost use Rattle.amqp_txn_types.specs.declared.performatives.Frame.TheVariants as frames;
ghost use Rattle.amqp_txn_types.specs.declared.performatives.Transfer.{Transfer};
ghost use Rattle.amqp_txn_types.specs.Counts.{Rose};
ghost use Rattle.amqp_engine_events.specs.Calls.{OrNoMemory};
ghost use Rattle.amqp_engine_events.specs.Turns.{CausedBy};
ghost use Rattle.amqp_engine_events.specs.Outgoing.{Passes, SendsFlow, SendsLink};

use crate::turn::{Turn, room_for_one, sending_one};
use amqp_below_layer::{LayerBelow, SessionInnerError};
use amqp_below_sessions::Session;
use amqp_txn_types::{Disposition, Frame, InputHandle, LinkFlow, LinkFrame, Payload, Transfer};
use std::alloc::Global;

/// A disposition that the session passes is to be sent.
fn pass_disposition<S: Session>(
    room: Vec<Frame>,
    session: &mut S,
    disposition: Disposition,
) -> Result<Turn, SessionInnerError>
    requires empty { room.items ≡ [] }
    requires room { vec_len room < vec_capacity room }
    ensures passes { Passes S.told S.kept S.names
        (S.check_gives session.old session.new disposition) session.old session.new
        (frames.Disposition disposition) result }
    ensures cause { CausedBy false (Rose (S.told session.old).refusals
        (S.told session.new).refusals) result }
{
    if let Err(fault) = session.on_outgoing_disposition(&disposition) {
        drop(disposition);
        return Err(fault);
    }
    Ok(sending_one(room, Frame::Disposition(disposition)))
}

/// A disposition that the session passes is to be sent. Room is made before the session is asked.
pub(crate) fn send_disposition<S: Session>(
    alloc: Global,
    session: &mut S,
    disposition: Disposition,
) -> Result<Turn, SessionInnerError>
    ensures sends { OrNoMemory session.old session.new
        (Passes S.told S.kept S.names (S.check_gives session.old session.new disposition)
        session.old session.new (frames.Disposition disposition) result) result }
    ensures cause { CausedBy false (Rose (S.told session.old).refusals
        (S.told session.new).refusals) result }
{
    let Ok(room) = room_for_one(alloc) else {
        drop(disposition);
        return Err(SessionInnerError::NoMemory);
    };
    pass_disposition(room, session, disposition)
}

/// A link's flow is to be sent as the flow that the session makes of it.
fn pass_flow<S: Session>(
    room: Vec<Frame>,
    session: &mut S,
    flow: LinkFlow,
) -> Result<Turn, SessionInnerError>
    requires empty { room.items ≡ [] }
    requires room { vec_len room < vec_capacity room }
    ensures passes { SendsFlow S.told S.kept S.names
        (S.calls.outgoing_flow session.old session.new flow) session.old session.new result }
    ensures cause { CausedBy false (Rose (S.told session.old).refusals
        (S.told session.new).refusals) result }
{
    let flow = session.on_outgoing_flow(flow)?;
    Ok(sending_one(room, Frame::Flow(flow)))
}

/// A transfer is to be sent as the session's call leaves it.
fn pass_transfer<S: Session>(
    room: Vec<Frame>,
    session: &mut S,
    input: InputHandle,
    mut transfer: Transfer,
    payload: Payload,
    is_first: bool,
) -> Result<Turn, SessionInnerError>
    requires empty { room.items ≡ [] }
    requires room { vec_len room < vec_capacity room }
    ensures passes { ((numbered : Transfer) × Passes S.told S.kept S.names
        (S.calls.outgoing_transfer session.old session.new input transfer numbered is_first)
        session.old session.new (frames.Transfer numbered payload) result) }
    ensures cause { CausedBy false (Rose (S.told session.old).refusals
        (S.told session.new).refusals) result }
{
    session.on_outgoing_transfer(input, &mut transfer, is_first)?;
    Ok(sending_one(room, Frame::Transfer { transfer, payload }))
}

/// A frame of a link goes through the session's outgoing call of that frame.
fn pass_link<S: Session>(
    room: Vec<Frame>,
    session: &mut S,
    frame: LinkFrame,
) -> Result<Turn, SessionInnerError>
    requires empty { room.items ≡ [] }
    requires room { vec_len room < vec_capacity room }
    ensures passes { SendsLink S.told S.kept S.names S.calls.outgoing_attach
        S.calls.outgoing_flow S.calls.outgoing_transfer S.check_gives S.calls.outgoing_detach
        session.old session.new frame result }
    ensures cause { CausedBy false (Rose (S.told session.old).refusals
        (S.told session.new).refusals) result }
{
    match frame {
        LinkFrame::Attach(attach) => {
            if let Err(fault) = session.on_outgoing_attach(&attach) {
                drop(attach);
                return Err(fault);
            }
            Ok(sending_one(room, Frame::Attach(attach)))
        }
        LinkFrame::Flow(flow) => pass_flow(room, session, flow),
        LinkFrame::Transfer {
            input,
            transfer,
            payload,
            is_first,
        } => pass_transfer(room, session, input, transfer, payload, is_first),
        LinkFrame::Disposition(disposition) => pass_disposition(room, session, disposition),
        LinkFrame::Detach(detach) => {
            if let Err(fault) = session.on_outgoing_detach(&detach) {
                drop(detach);
                return Err(fault);
            }
            Ok(sending_one(room, Frame::Detach(detach)))
        }
    }
}

/// A frame of a link is sent as the session's outgoing call of that frame leaves it. Room is made
/// before the session is asked.
pub(crate) fn send_link<S: Session>(
    alloc: Global,
    session: &mut S,
    frame: LinkFrame,
) -> Result<Turn, SessionInnerError>
    ensures sends { OrNoMemory session.old session.new
        (SendsLink S.told S.kept S.names S.calls.outgoing_attach S.calls.outgoing_flow
        S.calls.outgoing_transfer S.check_gives S.calls.outgoing_detach session.old session.new
        frame result) result }
    ensures cause { CausedBy false (Rose (S.told session.old).refusals
        (S.told session.new).refusals) result }
{
    let Ok(room) = room_for_one(alloc) else {
        drop(frame);
        return Err(SessionInnerError::NoMemory);
    };
    pass_link(room, session, frame)
}
