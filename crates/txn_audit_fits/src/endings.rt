//! The lines that end a report: the stop, how many frames of the stopping step were taken, and all
//! frames that were taken.

ghost use Rattle.std.specs.Prelude.{◌≡◌, ◌↔◌, ◌≤◌, ◌∷◌, ◌++◌, true, Some, List, IfOk, IsTrue, OnOk, codes, drop, length};
ghost use Rattle.std.specs.Str.{bytes_eq};
ghost use Rattle.amqp_txn_codec.specs.Reading.{message_of};
ghost use Rattle.amqp_txn_codec.specs.declared.message.ControlMessageBody.TheVariants as messages;
ghost use Rattle.amqp_txn_types.specs.Frames.{txn};
ghost use Rattle.amqp_resource_record.specs.declared.entry.Entry.{Entry};
ghost use Rattle.amqp_resource_record.specs.declared.step.Step.{Step};
ghost use Rattle.amqp_resource_record.specs.declared.step.Step.TheVariants as steps;
ghost use Rattle.amqp_resource_record.specs.Hands.{hands};
ghost use Rattle.amqp_resource_log.specs.Live.{frames_kept, kept};
ghost use Rattle.amqp_resource_held.specs.Held.{is_in};
ghost use Rattle.txn_program_lines.specs.Cutting.{lines_of};
ghost use Rattle.txn_audit_fits.specs.Fits.{local_end, remote_end, stop_text};
ghost use Rattle.txn_audit_fits.specs.Ending.{AddsHands, CommitOf, StopJudged, TellsHanded, TellsHands, TellsStop};
ghost use Rattle.txn_audit_fits.specs.Explaining.{JudgesCounts, JudgesEnd, JudgesTaken};
ghost use Rattle.txn_audit_fits.specs.Walking.{StandsWith};

use crate::difference::Wanted;
use crate::discharges::hand_work;
use crate::frames::{is_control_attach, presumed_under};
use crate::judged_lines::{Judged, front_of};
use crate::texts::{is_number_line, lines_after_frame};
use amqp_resource_held::{Held, has_link, is_declared_on};
use amqp_resource_log::Looks;
use amqp_resource_record::{Step, Steps};
use amqp_txn_codec::{ControlMessageBody, Discharge, decode, rolls_back};
use amqp_txn_types::{Error, Frame, Frames, NoMemory, Payload, TransactionId, TryClone, txn_of};
use std::alloc::Global;
use std::sync::ledger::Ledger;
use txn_audit_report::refusal_of_stop;
use txn_program_lines::{first_line, is_text};

/// Judges the lines that end a report of a run that answered so many of the steps.
pub fn judge_end<'a, L: Ledger>(
    held: &mut Held,
    work: &mut Frames,
    alloc: Global,
    steps: &Steps,
    answered: usize,
    lines: &'a [u8],
    looks: &mut Looks<L>,
    told: &mut Wanted,
) -> Result<Judged<'a>, NoMemory>
    ensures { (before : List Entry) → StandsWith held.old work.old before →
        IfOk result (JudgesEnd before (drop answered steps.now) (lines_of lines.now)) }
{
    if lines.is_empty() {
        *told = Wanted::Words("a stop");
        return Ok(Judged::Departs(lines));
    }
    let (stop, others) = first_line(lines);
    let count = work.len();
    if !judge_stop(held, work, alloc, steps, answered, stop, looks, told)? {
        return Ok(Judged::Departs(lines));
    }
    judge_counts(alloc, work.as_slice(), count, others, told)
}

/// Judges the lines after that of the stop: how many frames of the stopping step were taken, at most
/// those after so many of the frames, and the frames that were taken.
fn judge_counts<'a>(
    alloc: Global,
    frames: &[Frame],
    count: usize,
    lines: &'a [u8],
    told: &mut Wanted,
) -> Result<Judged<'a>, NoMemory>
    ensures { IfOk result (JudgesCounts frames.now count (lines_of lines.now)) }
{
    if lines.is_empty() {
        *told = Wanted::Words("handed N");
        return Ok(Judged::Departs(lines));
    }
    let (handed, taken) = first_line(lines);
    let most = frames.len().saturating_sub(count);
    let Some(more) = handed_of(alloc, most, handed, told)? else {
        return Ok(Judged::Departs(lines));
    };
    judge_taken(alloc, front_of(frames, count + more), taken, told)
}

/// Whether the line is that of a stop of a run that answered so many of the steps. If so, what may
/// have been taken of the next step is put at the end of the work that was handed.
fn judge_stop<L: Ledger>(
    held: &mut Held,
    work: &mut Frames,
    alloc: Global,
    steps: &Steps,
    answered: usize,
    line: &[u8],
    looks: &mut Looks<L>,
    told: &mut Wanted,
) -> Result<bool, NoMemory>
    ensures { (before : List Entry) → StandsWith held.old work.old before →
        IfOk result (StopJudged before (drop answered steps.now) line.now work.new) }
{
    match steps.get(answered) {
        None => Ok(shows_done(line, told)),
        Some(step) => judge_stop_at(held, work, alloc, step, line, looks, told),
    }
}

/// Whether the line is that of a stop after every step.
fn shows_done(line: &[u8], told: &mut Wanted) -> bool
    ensures { result ≡ bytes_eq line.now (codes "stop done") }
{
    *told = Wanted::Words("stop done");
    is_text(line, "stop done")
}

/// Whether the line is that of a stop at the step, as by [`judge_stop`].
fn judge_stop_at<L: Ledger>(
    held: &mut Held,
    work: &mut Frames,
    alloc: Global,
    step: &Step,
    line: &[u8],
    looks: &mut Looks<L>,
    told: &mut Wanted,
) -> Result<bool, NoMemory>
    ensures { (before : List Entry) → StandsWith held.old work.old before → (left : List Step) →
        IfOk result (StopJudged before (step.now ∷ left) line.now work.new) }
{
    if !shows_stop(held, step, line) {
        *told = Wanted::Words("a line of a reply to the step, or of a stop that it allows");
        return Ok(false);
    }
    let refused = refusal_of_stop(line).is_some();
    if !refused {
        return Ok(true);
    }
    add_hands(held, work, alloc, step, looks)?;
    Ok(true)
}

/// How many frames of the stopping step the line says were taken; `None` where it is the line of no
/// number up to the most.
fn handed_of(
    alloc: Global,
    most: usize,
    line: &[u8],
    told: &mut Wanted,
) -> Result<Option<usize>, NoMemory>
    ensures { IfOk result (TellsHanded most line.now) }
{
    for handed in 0..=most {
        if is_number_line(alloc, "handed ", handed as u64, line, told)? {
            return Ok(Some(handed));
        }
    }
    if most > 0 {
        *told = Wanted::Words("handed N, N at most what the step hands");
    }
    Ok(None)
}

/// Judges the lines of frames that were taken: of these, one after another.
fn judge_taken<'a>(
    alloc: Global,
    frames: &[Frame],
    lines: &'a [u8],
    told: &mut Wanted,
) -> Result<Judged<'a>, NoMemory>
    ensures { IfOk result (JudgesTaken frames.now (lines_of lines.now)) }
{
    let mut rest = lines;
    for frame in frames {
        let Some(after) = lines_after_frame(alloc, "taken ", frame, rest, told)? else {
            return Ok(Judged::Departs(rest));
        };
        rest = after;
    }
    if rest.is_empty() {
        return Ok(Judged::Explained(rest));
    }
    *told = Wanted::Words("no further line");
    Ok(Judged::Departs(rest))
}

/// Whether the line is that of a stop at the step.
fn shows_stop(held: &Held, step: &Step, line: &[u8]) -> bool
    ensures { TellsStop held.now step.now line.now result }
{
    match step {
        Step::Frame(frame) => shows_stop_at_frame(held, frame, line),
        Step::Control { link, payload } => shows_stop_at_message(held, *link, payload, line),
        Step::LinkEnd { .. } => false,
        Step::LocalEnd(error) => shows_local_end(error, line),
        Step::RemoteEnd(error) => shows_remote_end(error, line),
        Step::ConnectionStop(_) => is_text(line, "stop connection-stopped"),
    }
}

/// Whether the line is that of an end that the session's own side asked for.
fn shows_local_end(error: &Option<Error>, line: &[u8]) -> bool
    ensures { result ≡ bytes_eq line.now (stop_text (local_end error.now)) }
{
    match error {
        None => is_text(line, "stop ended"),
        Some(_) => is_text(line, "stop ended-with-error"),
    }
}

/// Whether the line is that of an end that the peer asked for.
fn shows_remote_end(error: &Option<Error>, line: &[u8]) -> bool
    ensures { result ≡ bytes_eq line.now (stop_text (remote_end error.now)) }
{
    match error {
        None => is_text(line, "stop remote-ended"),
        Some(_) => is_text(line, "stop remote-ended-with-error"),
    }
}

/// Whether the line is that of a stop at the message: at a commit that hands a frame.
fn shows_stop_at_message(held: &Held, link: u64, payload: &Payload, line: &[u8]) -> bool
    ensures { TellsStop held.now (steps.Control link payload.now) line.now result }
{
    if !hands_some(held, link, payload) {
        return false;
    }
    is_text(line, "stop below-no-memory")
}

/// Whether the line is that of a stop at the frame.
fn shows_stop_at_frame(held: &Held, frame: &Frame, line: &[u8]) -> bool
    ensures { TellsStop held.now (steps.Frame frame.now) line.now result }
{
    if let Some(id) = txn_of(frame) {
        return shows_stop_under(held, frame, id, line);
    }
    if is_control_attach(frame) {
        return false;
    }
    refusal_of_stop(line).is_some()
}

/// Whether the line is that of a stop at the frame under an id.
fn shows_stop_under(held: &Held, frame: &Frame, id: TransactionId, line: &[u8]) -> bool
    requires { txn frame.now ≡ Some id }
    ensures { TellsStop held.now (steps.Frame frame.now) line.now result }
{
    if !held.work.is_live(&id) {
        return is_text(line, "stop unknown-txn-id");
    }
    let answered = presumed_under(frame, id).is_some();
    if !answered {
        return false;
    }
    refusal_of_stop(line).is_some()
}

/// The commit that a message on the link is, if it is one.
fn commit_of(held: &Held, link: u64, payload: &Payload) -> Option<TransactionId>
    ensures { CommitOf held.now link payload.now result }
{
    if !has_link(&held.links, link) {
        return None;
    }
    match decode(payload.as_slice()) {
        Err(_) => None,
        Ok(ControlMessageBody::Declare(_)) => None,
        Ok(ControlMessageBody::Discharge(discharge)) => commit_by(held, link, payload, discharge),
    }
}

/// The commit that a discharge on an open link is, if it is one.
fn commit_by(
    held: &Held,
    link: u64,
    payload: &Payload,
    discharge: Discharge,
) -> Option<TransactionId>
    requires message { message_of payload.now ≡ Some (messages.Discharge discharge) }
    requires opened { is_in held.now.links.entries link ≡ true }
    ensures { CommitOf held.now link payload.now result }
{
    if rolls_back(discharge.fail) {
        return None;
    }
    if !is_declared_on(&held.work, discharge.txn_id, link) {
        return None;
    }
    Some(discharge.txn_id)
}

/// Whether the message is a commit of an id that has frames.
fn hands_some(held: &Held, link: u64, payload: &Payload) -> bool
    ensures { TellsHands held.now (steps.Control link payload.now) result }
{
    match commit_of(held, link, payload) {
        Some(id) => has_frames(held, id),
        None => false,
    }
}

/// Whether frames are kept for the id.
fn has_frames(held: &Held, id: TransactionId) -> bool
    ensures { IsTrue result ↔ (1 ≤ length (frames_kept (kept held.now.work id))) }
{
    held.work.count(&id) != 0
}

/// Appends what the step hands.
fn add_hands<L: Ledger>(
    held: &mut Held,
    work: &mut Frames,
    alloc: Global,
    step: &Step,
    looks: &mut Looks<L>,
) -> Result<(), NoMemory>
    ensures { OnOk result (AddsHands held.old work.old work.new step.now) }
{
    match step {
        Step::Frame(frame) => add_frame(work, frame),
        Step::Control { link, payload } => { add_commit(held, work, alloc, *link, payload, looks) }
        Step::LinkEnd { .. } => Ok(()),
        Step::LocalEnd(_) => Ok(()),
        Step::RemoteEnd(_) => Ok(()),
        Step::ConnectionStop(_) => Ok(()),
    }
}

/// Appends a copy of the frame, where it is plain.
fn add_frame(work: &mut Frames, frame: &Frame) -> Result<(), NoMemory>
    ensures { OnOk result ((before : List Entry) →
        work.new ≡ work.old ++ hands before (steps.Frame frame.now)) }
{
    if txn_of(frame).is_some() {
        return Ok(());
    }
    if is_control_attach(frame) {
        return Ok(());
    }
    work.append(frame.try_clone()?)?;
    Ok(())
}

/// Appends what the message hands, which are the frames of a commit.
fn add_commit<L: Ledger>(
    held: &mut Held,
    work: &mut Frames,
    alloc: Global,
    link: u64,
    payload: &Payload,
    looks: &mut Looks<L>,
) -> Result<(), NoMemory>
    ensures { OnOk result (AddsHands held.old work.old work.new
        (steps.Control link payload.now)) }
{
    match commit_of(held, link, payload) {
        Some(id) => hand_work(held, work, alloc, link, id, looks),
        None => Ok(()),
    }
}
