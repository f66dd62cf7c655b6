//! Lines of replies to frames: plain ones, work under a transaction, attaches of control links.

ghost use Rattle.std.specs.Prelude.{◌≡◌, true, false, Some, None, IfOk, is_some, OnOk};
ghost use Rattle.amqp_txn_types.specs.Frames.{txn, is_coordinator_attach};
ghost use Rattle.amqp_txn_types.specs.Presumptive.{answered_under, frames_telling};
ghost use Rattle.amqp_txn_types.specs.Works.{frame_of_work};
ghost use Rattle.amqp_resource_record.specs.declared.step.Step.TheVariants as steps;
ghost use Rattle.txn_audit_fits.specs.Judging.{JudgesHere, JudgesWork, Opens, OutsTell};

use crate::difference::Wanted;
use crate::outs::Outs;
use crate::texts::is_number_line;
use amqp_resource_held::{Held, open_link};
use amqp_resource_log::presumptive;
use amqp_txn_types::{
    Disposition, Frame, Frames, NoMemory, TransactionId, TryClone, TxnWorkFrame, is_coordinator,
    txn_of,
};
use std::alloc::Global;
use txn_audit_report::refusal_of_attach;
use txn_program_lines::is_text;

/// The line of a reply to a frame.
pub fn judge_frame(
    held: &mut Held,
    work: &mut Frames,
    alloc: Global,
    frame: &Frame,
    line: &[u8],
    told: &mut Wanted,
) -> Result<Option<Outs>, NoMemory>
    ensures { IfOk result (JudgesWork held.old held.new work.old work.new (steps.Frame frame.now)
        line.now) }
{
    if let Some(id) = txn_of(frame) {
        return judge_work(held, frame, id, line, told);
    }
    if is_control_attach(frame) {
        judge_attach(held, alloc, frame, line, told)
    } else {
        judge_plain(held, work, frame, line, told)
    }
}

/// Whether the frame is the attach of a control link.
#[tactic(auto, unfolding(amqp_txn_types::specs::Frames::is_coordinator_attach))]
pub fn is_control_attach(frame: &Frame) -> bool
    ensures { result ≡ is_coordinator_attach frame.now }
{
    match frame {
        Frame::Attach(attach) => is_coordinator(attach),
        _ => false,
    }
}

/// The line of a reply to a plain frame, which was handed.
fn judge_plain(
    held: &Held,
    work: &mut Frames,
    frame: &Frame,
    line: &[u8],
    told: &mut Wanted,
) -> Result<Option<Outs>, NoMemory>
    requires under { txn frame.now ≡ None }
    requires attach { is_coordinator_attach frame.now ≡ false }
    ensures { IfOk result (JudgesWork held.now held.now work.old work.new (steps.Frame frame.now)
        line.now) }
{
    if !is_text(line, "ok") {
        *told = Wanted::Words("ok");
        return Ok(None);
    }
    work.append(frame.try_clone()?)?;
    Ok(Some(Outs::Any))
}

/// The line of a reply to the attach of a control link: the next link, or a refusal.
fn judge_attach(
    held: &mut Held,
    alloc: Global,
    frame: &Frame,
    line: &[u8],
    told: &mut Wanted,
) -> Result<Option<Outs>, NoMemory>
    requires under { txn frame.now ≡ None }
    requires attach { is_coordinator_attach frame.now ≡ true }
    ensures { IfOk result (JudgesHere held.old held.new (steps.Frame frame.now) line.now) }
{
    if is_number_line(alloc, "attached ", held.opened, line, told)? {
        open_next(held, alloc)?;
        return Ok(Some(Outs::Any));
    }
    if refusal_of_attach(line).is_some() {
        return Ok(Some(Outs::Nothing));
    }
    Ok(None)
}

/// Opens the next link.
fn open_next(held: &mut Held, alloc: Global) -> Result<(), NoMemory>
    ensures { OnOk result (Opens held.old held.new) }
{
    // No list of steps is long enough for the last number.
    let Some(opened) = held.opened.checked_add(1) else {
        return Err(NoMemory);
    };
    held.links.reserve(1)?;
    open_link(&mut held.links, alloc, held.opened);
    held.opened = opened;
    Ok(())
}

/// The line of a reply to a frame under an id, which is kept where the id is live. Under one that
/// isn't there is no reply.
fn judge_work(
    held: &mut Held,
    frame: &Frame,
    id: TransactionId,
    line: &[u8],
    told: &mut Wanted,
) -> Result<Option<Outs>, NoMemory>
    requires { txn frame.now ≡ Some id }
    ensures { IfOk result (JudgesHere held.old held.new (steps.Frame frame.now) line.now) }
{
    if !is_text(line, "ok") {
        *told = Wanted::Words("ok");
        return Ok(None);
    }
    let copy = copy_work(frame)?;
    if held.work.keep(&id, copy)? {
        Ok(Some(outs_under(frame, id)))
    } else {
        *told = Wanted::Words("stop unknown-txn-id");
        Ok(None)
    }
}

/// A copy of a frame under an id, which is a transfer or a disposition.
#[tactic(auto, unfolding(amqp_txn_types::specs::Frames::txn))]
fn copy_work(frame: &Frame) -> Result<TxnWorkFrame, NoMemory>
    requires { is_some (txn frame.now) ≡ true }
    ensures { IfOk result (λ work. frame_of_work work ≡ frame.now) }
{
    match frame {
        Frame::Transfer { transfer, payload } => Ok(TxnWorkFrame::Post {
            transfer: transfer.try_clone()?,
            payload: payload.try_clone()?,
        }),
        Frame::Disposition(disposition) => Ok(TxnWorkFrame::Retire(disposition.try_clone()?)),
        _ => unreachable!(),
    }
}

/// The lines after the reply to a frame under a live id: its presumptive disposition, if any.
fn outs_under(frame: &Frame, id: TransactionId) -> Outs
    ensures { OutsTell result (answered_under id frame.now) }
{
    match presumed_under(frame, id) {
        Some(disposition) => Outs::One(Frame::Disposition(disposition)),
        None => Outs::Nothing,
    }
}

/// The presumptive disposition of a frame under a live id, if it is answered with one.
pub fn presumed_under(frame: &Frame, id: TransactionId) -> Option<Disposition>
    ensures { frames_telling result ≡ answered_under id frame.now }
{
    match frame {
        Frame::Transfer { transfer, .. } => presumptive(&id, transfer),
        _ => None,
    }
}
