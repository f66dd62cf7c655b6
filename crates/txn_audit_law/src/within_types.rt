//! That values are within their types: functions that read them, and whose contracts say so of
//! their numbers, ids and octets. A law has it of no value, since a number of a contract may be any.

ghost use Rattle.std.specs.Prelude.{All, IfSome};
ghost use Rattle.std.specs.List.{flat_map};
ghost use Rattle.hex.specs.Hex.{IsBytes};
ghost use Rattle.amqp_txn_types.specs.declared.small.Handle.{Handle};
ghost use Rattle.txn_program_report.specs.Report.{answer_frames, reply_frames, window_frames};
ghost use Rattle.txn_audit_law.specs.Reported.{frames_given, frames_taken};
ghost use Rattle.txn_audit_law.specs.Shown.{IsId, IsShort, IsState, IsWithinTypes};

use amqp_below_layer::{Answers, Echoes, Exchanges};
use amqp_resource_record::{Entries, Reply};
use amqp_txn_types::{
    DeliveryState, Disposition, Flow, Frame, Frames, Handle, TransactionId, Transfer,
};

/// The frames of the replies are within their types.
pub fn entries_are_within_types(entries: &Entries)
    ensures { All IsWithinTypes (frames_given entries.now) }
{
    let list = entries.as_slice();
    for entry in list {
        reply_is_within_types(&entry.reply);
    }
}

/// The frames that were taken are within their types.
pub fn exchanges_are_within_types(exchanges: &Exchanges)
    ensures { All IsWithinTypes (frames_taken exchanges.now) }
{
    let list = exchanges.as_slice();
    for exchange in list {
        frame_is_within_types(&exchange.0);
    }
}

/// The numbers, ids and octets of a frame are within their types.
pub fn frame_is_within_types(frame: &Frame)
    ensures { IsWithinTypes frame.now }
{
    match frame {
        Frame::Attach(attach) => number(attach.handle.0),
        Frame::Flow(flow) => flow_is_within_types(flow),
        Frame::Transfer { transfer, payload } => {
            transfer_is_within_types(transfer);
            octets(payload.as_slice());
        }
        Frame::Disposition(disposition) => disposition_is_within_types(disposition),
        Frame::Detach(detach) => number(detach.handle.0),
    }
}

fn reply_is_within_types(reply: &Reply)
    ensures { All IsWithinTypes (reply_frames reply.now) }
{
    match reply {
        Reply::Frames(answers) => answers_are_within_types(answers),
        Reply::Attached { link: _, frames } => frames_are_within_types(frames),
        Reply::Accepted(echoes) => echoes_are_within_types(echoes),
        _ => {}
    }
}

fn echoes_are_within_types(echoes: &Echoes)
    ensures { All IsWithinTypes (flat_map answer_frames echoes.now) }
{
    let list = echoes.as_slice();
    for answers in list {
        answers_are_within_types(answers);
    }
}

fn answers_are_within_types(answers: &Answers)
    ensures { All IsWithinTypes (answer_frames answers.now) }
{
    frames_are_within_types(&answers.given);
    window_is_within_types(&answers.window);
}

fn window_is_within_types(window: &Option<Flow>)
    ensures { All IsWithinTypes (window_frames window.now) }
{
    if let Some(flow) = window {
        flow_is_within_types(flow);
    }
}

fn frames_are_within_types(frames: &Frames)
    ensures { All IsWithinTypes frames.now }
{
    let list = frames.as_slice();
    for frame in list {
        frame_is_within_types(frame);
    }
}

fn flow_is_within_types(flow: &Flow)
    ensures handle { IfSome flow.now.handle (λ (handle : Handle). IsShort handle.0) }
    ensures credit { IfSome flow.now.link_credit IsShort }
{
    optional_handle(flow.handle);
    optional_number(flow.link_credit);
}

fn transfer_is_within_types(transfer: &Transfer)
    ensures handle { IsShort transfer.now.handle.0 }
    ensures number { IfSome transfer.now.delivery_id IsShort }
    ensures state { IfSome transfer.now.state IsState }
{
    number(transfer.handle.0);
    optional_number(transfer.delivery_id);
    optional_state(&transfer.state);
}

fn disposition_is_within_types(disposition: &Disposition)
    ensures first { IsShort disposition.now.first }
    ensures last { IfSome disposition.now.last IsShort }
    ensures state { IfSome disposition.now.state IsState }
{
    number(disposition.first);
    optional_number(disposition.last);
    optional_state(&disposition.state);
}

fn number(number: u32)
    ensures { IsShort number }
{
    let _read = number;
}

fn optional_number(number: Option<u32>)
    ensures { IfSome number IsShort }
{
    if let Some(some) = number {
        let _read = some;
    }
}

fn optional_handle(handle: Option<Handle>)
    ensures { IfSome handle (λ (handle : Handle). IsShort handle.0) }
{
    if let Some(some) = handle {
        number(some.0);
    }
}

fn optional_state(state: &Option<DeliveryState>)
    ensures { IfSome state.now IsState }
{
    match state {
        Some(DeliveryState::Declared(declared)) => id(&declared.txn_id),
        Some(DeliveryState::TransactionalState(under)) => id(&under.txn_id),
        _ => {}
    }
}

fn id(id: &TransactionId)
    ensures { IsId id.now }
{
    octets(id.as_ref());
}

fn octets(octets: &[u8])
    ensures { IsBytes octets.now }
{}
