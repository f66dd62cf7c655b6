//! Steps that are frames: plain ones, work under a transaction, and attaches of control links.

ghost use Rattle.std.specs.Prelude.{◌≡◌, ◌<◌, ◌-◌, ◌^◌, true, false, Some, IfOk, MatchOption, OnErr, is_some};
ghost use Rattle.amqp_txn_types.specs.declared.performatives.Frame.TheVariants as frames;
ghost use Rattle.amqp_txn_types.specs.Frames.{txn, is_coordinator_attach, is_plain_frame, attaches_coordinator};
ghost use Rattle.amqp_txn_types.specs.Works.{frame_of_work};
ghost use Rattle.amqp_resource_record.specs.declared.step.Step.TheVariants as steps;
ghost use Rattle.amqp_txn_types.specs.Presumptive.{answered_under, presumed};
ghost use Rattle.amqp_resource_session.specs.Opening.{OpensBy};
ghost use Rattle.amqp_resource_session.specs.Posting.{KeepsCopy, KeepsUnder};
ghost use Rattle.amqp_resource_session.specs.Leaving.{StepLeaves};
ghost use Rattle.amqp_resource_held.specs.Looks.{Adds, frames_added};
ghost use Rattle.amqp_resource_session.specs.Steps.{nothing_drawn};

use crate::outcomes::{fault_of, faulted, handed_with, no_draws};
use amqp_below_ids::Drawn;
use amqp_below_layer::{Answers, LayerBelow, SessionInnerError, check_given, take_frame};
use amqp_resource_held::{Held, open_link};
use amqp_resource_log::{LiveWork, presumptive};
use amqp_resource_record::{Reply, StepError};
use amqp_txn_types::{
    Attach, Frame, Frames, NoMemory, TransactionId, Transfer, TryClone, TxnWorkFrame,
    is_coordinator, txn_of,
};
use std::alloc::Global;

/// A plain frame goes below.
fn plain_step<S: LayerBelow>(
    held: &Held,
    below: &mut S,
    alloc: Global,
    frame: &Frame,
) -> Result<(Drawn, Reply), StepError>
    requires { is_plain_frame frame.now ≡ true }
    ensures leaves { StepLeaves S.told S.sure S.review_gives S.check_gives held.now held.now
        below.old below.new (steps.Frame frame.now) result }
    ensures draws { IfOk result (λ out. out.0 ≡ nothing_drawn) }
{
    let Ok(copy) = frame.try_clone() else {
        return Err(StepError::NoMemory);
    };
    match take_frame(below, copy) {
        Ok(answers) => Ok((no_draws(alloc), Reply::Frames(answers))),
        Err(refusal) => {
            let refused = handed_with(refusal, 0);
            Err(faulted(fault_of(refused.error), refused.handed))
        }
    }
}

/// What a post under a live id is answered at once.
fn presumed(alloc: Global, transfer: &Transfer, id: TransactionId) -> Result<Frames, NoMemory>
    ensures { IfOk result (λ given. given ≡ presumed transfer.now.settled transfer.now.delivery_id
        id) }
{
    let Some(disposition) = presumptive(&id, transfer) else {
        return Ok(Frames::new(alloc));
    };
    let frame = Frame::Disposition(disposition);
    // Room for the one frame, where a list that grows takes room for four.
    let mut given = Vec::with_capacity(alloc, 1)?;
    given.push_reserved(frame);
    Ok(Frames::from_vec(given))
}

/// What a frame under a live id is answered at once.
fn answers_under(alloc: Global, frame: &Frame, id: TransactionId) -> Result<Frames, NoMemory>
    ensures { IfOk result (λ given. given ≡ answered_under id frame.now) }
{
    match frame {
        Frame::Transfer { transfer, .. } => presumed(alloc, transfer, id),
        _ => Ok(Frames::new(alloc)),
    }
}

/// A copy of a frame under an id, which is a transfer or a disposition.
#[tactic(auto, unfolding(amqp_txn_types::specs::Frames::txn))]
fn copy_work(frame: &Frame) -> Result<TxnWorkFrame, NoMemory>
    requires { is_some (txn frame.now) ≡ true }
    ensures { IfOk result (λ work. frame_of_work work ≡ frame.now) }
{
    match frame {
        Frame::Transfer { transfer, payload } => Ok(TxnWorkFrame::Post {
            transfer: transfer.try_clone()?,
            payload: payload.try_clone()?,
        }),
        Frame::Disposition(disposition) => Ok(TxnWorkFrame::Retire(disposition.try_clone()?)),
        _ => unreachable!(),
    }
}

/// What became of a frame under an id.
#[derive(Drop)]
pub enum KeptWork {
    /// A copy of it is kept, and it is answered at once with these frames.
    Answered(Frames),
    /// The id isn't live.
    NotLive,
    /// The id is live, and memory ran out.
    NoMemory,
}

/// Keeps a copy of a frame under its id, and gives what it is answered at once; `None` where the id
/// isn't live. Where memory runs out what is kept is as it was.
fn keep_copy(
    work: &mut LiveWork,
    alloc: Global,
    frame: &Frame,
    id: TransactionId,
) -> Result<Option<Frames>, NoMemory>
    requires { txn frame.now ≡ Some id }
    ensures kept { IfOk result (λ kept. KeepsCopy work.old work.new frame.now id kept) }
    ensures err { OnErr result (work.new ≡ work.old) }
    ensures counts { Adds work.old work.new 1 }
{
    let given = answers_under(alloc, frame, id)?;
    let copy = copy_work(frame)?;
    match work.keep(&id, copy) {
        Ok(true) => Ok(Some(given)),
        Ok(false) => Ok(None),
        Err(error) => Err(error),
    }
}

/// Keeps a copy of a frame under its id. The id is looked up in the log once; where memory runs out
/// before that, a second look-up tells whether it is live, since an id that isn't is the answer then.
pub fn keep_under(work: &mut LiveWork, alloc: Global, frame: &Frame, id: TransactionId) -> KeptWork
    requires { txn frame.now ≡ Some id }
    ensures kept { KeepsUnder work.old work.new frame.now id result }
    ensures counts { Adds work.old work.new 1 }
{
    match keep_copy(work, alloc, frame, id) {
        Ok(Some(given)) => KeptWork::Answered(given),
        Ok(None) => KeptWork::NotLive,
        Err(_) => {
            if work.is_live(&id) {
                KeptWork::NoMemory
            } else {
                KeptWork::NotLive
            }
        }
    }
}

/// A frame under an id is kept.
fn post_step<S: LayerBelow>(
    held: &mut Held,
    below: &mut S,
    alloc: Global,
    frame: &Frame,
    id: TransactionId,
) -> Result<(Drawn, Reply), StepError>
    requires { txn frame.now ≡ Some id }
    ensures leaves { StepLeaves S.told S.sure S.review_gives S.check_gives held.old held.new
        below.old below.new (steps.Frame frame.now) result }
    ensures draws { IfOk result (λ out. out.0 ≡ nothing_drawn) }
    ensures counts { Adds held.old.work held.new.work 1 }
{
    let given = match keep_under(&mut held.work, alloc, frame, id) {
        KeptWork::Answered(given) => given,
        KeptWork::NotLive => return Err(faulted(SessionInnerError::UnknownTxnId, 0)),
        KeptWork::NoMemory => return Err(StepError::NoMemory),
    };
    match check_given(below, given.as_slice()) {
        Ok(()) => Ok((
            no_draws(alloc),
            Reply::Frames(Answers {
                given,
                window: None,
            }),
        )),
        Err(error) => Err(faulted(fault_of(error), 0)),
    }
}

/// What became of the attach of a control link.
#[derive(Drop)]
pub enum LinkOpening {
    /// The link is open: its number, and the frames to be sent back.
    Opened { link: u64, frames: Frames },
    /// The layer below refused the attach.
    Refused(SessionInnerError),
    /// There was no room for the link, and the layer below wasn't asked.
    NoMemory,
}

/// Opens a control link, where the layer below takes its attach. Room for the link is made first.
pub fn open_control<S: LayerBelow>(
    held: &mut Held,
    below: &mut S,
    alloc: Global,
    attach: &Attach,
) -> LinkOpening
    requires { held.old.opened < 2 ^ 64 - 1 }
    ensures opens { OpensBy S.told S.opening_gives held.old held.new below.old below.new attach.now
        result }
    ensures work { held.new.work ≡ held.old.work }
{
    let Ok(()) = held.links.reserve(1) else {
        return LinkOpening::NoMemory;
    };
    match below.on_control_attach(attach) {
        Ok(frames) => {
            let link = held.opened;
            open_link(&mut held.links, alloc, link);
            held.opened += 1;
            LinkOpening::Opened { link, frames }
        }
        Err(error) => LinkOpening::Refused(error),
    }
}

/// An attach to a coordinator opens a control link.
fn attach_step<S: LayerBelow>(
    held: &mut Held,
    below: &mut S,
    alloc: Global,
    attach: &Attach,
) -> Result<(Drawn, Reply), StepError>
    requires coordinator { attaches_coordinator attach.now ≡ true }
    requires room { held.old.opened < 2 ^ 64 - 1 }
    ensures leaves { StepLeaves S.told S.sure S.review_gives S.check_gives held.old held.new
        below.old below.new (steps.Frame (frames.Attach attach.now)) result }
    ensures draws { IfOk result (λ out. out.0 ≡ nothing_drawn) }
    ensures counts { Adds held.old.work held.new.work 0 }
{
    match open_control(held, below, alloc, attach) {
        LinkOpening::Opened { link, frames } => {
            Ok((no_draws(alloc), Reply::Attached { link, frames }))
        }
        LinkOpening::Refused(error) => Ok((no_draws(alloc), Reply::AttachRefused(error))),
        LinkOpening::NoMemory => Err(StepError::NoMemory),
    }
}

/// The attach of a frame that opens a control link.
#[tactic(auto, unfolding(amqp_txn_types::specs::Frames::is_coordinator_attach))]
pub fn control_attach_of(frame: &Frame) -> Option<&Attach>
    ensures { MatchOption result (is_coordinator_attach frame.now ≡ false)
        (λ attach. (frame.now ≡ frames.Attach attach.now)
        × (attaches_coordinator attach.now ≡ true)) }
{
    match frame {
        Frame::Attach(attach) => {
            if is_coordinator(attach) {
                Some(attach)
            } else {
                None
            }
        }
        _ => None,
    }
}

/// A step that is a frame.
pub fn frame_step<S: LayerBelow>(
    held: &mut Held,
    below: &mut S,
    alloc: Global,
    frame: &Frame,
) -> Result<(Drawn, Reply), StepError>
    requires room { held.old.opened < 2 ^ 64 - 1 }
    ensures leaves { StepLeaves S.told S.sure S.review_gives S.check_gives held.old held.new
        below.old below.new (steps.Frame frame.now) result }
    ensures draws { IfOk result (λ out. out.0 ≡ nothing_drawn) }
    ensures counts { Adds held.old.work held.new.work (frames_added (steps.Frame frame.now)) }
{
    if let Some(id) = txn_of(frame) {
        return post_step(held, below, alloc, frame, id);
    }
    match control_attach_of(frame) {
        Some(attach) => attach_step(held, below, alloc, attach),
        None => plain_step(held, below, alloc, frame),
    }
}
