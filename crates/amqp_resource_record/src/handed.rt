//! What a step hands to the layer below after a record, by looking at every entry.

ghost use Rattle.std.specs.Prelude.{◌≡◌, ◌++◌, ◌∷◌, [], cond, map, Some, IfOk, OnOk};
ghost use Rattle.amqp_txn_types.specs.Frames.{is_coordinator_attach, is_plain_frame, stripped, txn};
ghost use Rattle.amqp_txn_codec.specs.Reading.{message_of};
ghost use Rattle.amqp_resource_record.specs.Entries.{step_is_under};
ghost use Rattle.amqp_txn_types.specs.Ids.{is_some_id};
ghost use Rattle.amqp_resource_record.specs.Hands.{commits, commits_message, frame_of_step, frames_under, hands};
ghost use Rattle.amqp_resource_record.specs.Work.{handed_by};

use crate::entry::Entry;
use crate::live_ids::{entries_since, is_held_on};
use crate::open_links::is_open;
use crate::reply::Reply;
use crate::step::Step;
use amqp_txn_codec::{ControlMessageBody, decode, rolls_back};
use amqp_txn_types::{
    Frame, Frames, NoMemory, TransactionId, TryClone, is_coordinator, strip_frame, txn_of,
};
use std::alloc::Global;

/// The id that the step commits after these entries: that of a discharge with `fail` other than
/// `Some(true)`, on an open link that is the home of the id, where the id is live.
///
/// Part 4 of the standard, section 4.3 (discharging a transaction).
pub fn commits(entries: &[Entry], step: &Step) -> Option<TransactionId>
    ensures { result ≡ commits entries.now step.now }
{
    match step {
        Step::Control { link, payload } => {
            if is_open(entries, *link) {
                commits_by_message(entries, *link, payload.as_slice())
            } else {
                None
            }
        }
        _ => None,
    }
}

/// The frames that the step hands to the layer below after these entries, where they aren't vetoed:
/// a plain frame itself, and the frames of the transaction that the step commits, in order, each
/// stripped of its transactional state.
///
/// Part 4 of the standard, section 4.4 (transactional work). It looks at every entry a few times,
/// so it serves small records. The only error is out of memory.
pub fn hands(alloc: Global, entries: &[Entry], step: &Step) -> Result<Frames, NoMemory>
    ensures { IfOk result (λ frames. frames ≡ hands entries.now step.now) }
{
    match step {
        Step::Frame(frame) => handed_at_once(alloc, frame),
        Step::Control { .. } => match commits(entries, step) {
            Some(txn_id) => stripped_frames(alloc, entries_since(entries, &txn_id), &txn_id),
            None => Ok(Frames::new(alloc)),
        },
        _ => Ok(Frames::new(alloc)),
    }
}

/// The frames that the entry handed after these entries: those that its step hands, and none where
/// it was rejected.
pub(crate) fn handed_by(alloc: Global, entries: &[Entry], entry: &Entry) -> Result<Frames, NoMemory>
    ensures { IfOk result (λ frames. frames ≡ handed_by entries.now entry.now.step
        entry.now.reply) }
{
    match &entry.reply {
        Reply::Rejected { .. } => Ok(Frames::new(alloc)),
        _ => hands(alloc, entries, &entry.step),
    }
}

fn commits_by_message(entries: &[Entry], link: u64, payload: &[u8]) -> Option<TransactionId>
    ensures { result ≡ commits_message entries.now link (message_of payload.now) }
{
    match decode(payload) {
        Ok(ControlMessageBody::Discharge(discharge)) => {
            if !rolls_back(discharge.fail) && is_held_on(entries, link, &discharge.txn_id) {
                Some(discharge.txn_id)
            } else {
                None
            }
        }
        _ => None,
    }
}

fn handed_at_once(alloc: Global, frame: &Frame) -> Result<Frames, NoMemory>
    ensures { IfOk result (λ frames. frames ≡ cond (is_plain_frame frame.now) (frame.now ∷ []) []) }
{
    let mut handed = Frames::new(alloc);
    if is_plain(frame) {
        handed.append(frame.try_clone()?)?;
    }
    Ok(handed)
}

fn stripped_frames(
    alloc: Global,
    entries: &[Entry],
    txn_id: &TransactionId,
) -> Result<Frames, NoMemory>
    ensures { IfOk result (λ frames. frames ≡ map stripped (frames_under txn_id.now entries.now)) }
{
    let mut handed = Frames::new(alloc);
    for entry in entries {
        add_if_under(&mut handed, &entry.step, txn_id)?;
    }
    Ok(handed)
}

fn add_if_under(handed: &mut Frames, step: &Step, txn_id: &TransactionId) -> Result<(), NoMemory>
    ensures { OnOk result (handed.new ≡ handed.old ++ map stripped
        (cond (step_is_under txn_id.now step.now) (frame_of_step (Some step.now)) [])) }
{
    match step {
        Step::Frame(frame) => match txn_of(frame) {
            Some(under) => {
                if *txn_id == under {
                    handed.append(strip_frame(frame.try_clone()?))
                } else {
                    Ok(())
                }
            }
            None => Ok(()),
        },
        _ => Ok(()),
    }
}

/// Whether the frame is under this id.
pub fn is_under(frame: &Frame, txn_id: &TransactionId) -> bool
    ensures { result ≡ is_some_id txn_id.now (txn frame.now) }
{
    match txn_of(frame) {
        Some(under) => *txn_id == under,
        None => false,
    }
}

/// Whether the frame is plain: neither under a transaction nor a coordinator attach.
pub fn is_plain(frame: &Frame) -> bool
    ensures { result ≡ is_plain_frame frame.now }
{
    match txn_of(frame) {
        Some(_) => false,
        None => !is_coordinator_attach(frame),
    }
}

/// Whether the frame is a coordinator attach, which opens a control link.
#[tactic(auto, unfolding(amqp_txn_types::specs::Frames::is_coordinator_attach))]
pub fn is_coordinator_attach(frame: &Frame) -> bool
    ensures { result ≡ is_coordinator_attach frame.now }
{
    match frame {
        Frame::Attach(attach) => is_coordinator(attach),
        _ => false,
    }
}
