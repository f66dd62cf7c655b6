//! What no clause says: that there is an answer where there is memory, and one short record by
//! hand.

use amqp_below_ids::Drawn;
use amqp_below_layer::{Answers, SessionInnerError};
use amqp_resource_record::*;
use amqp_test_values::{control_attach, detach, is_done, leak, other_text};
use amqp_txn_types::{
    AmqpError, Frame, Frames, NoMemory, Payload, SessionStopReason, Text, TransactionId, TryClone,
};
use std::alloc::Global;

/// The attach of a control link.
fn control_frame(alloc: Global) -> Result<Frame, NoMemory> {
    let name = Text::from_str(alloc, "c")?;
    Ok(Frame::Attach(control_attach(name, 0)))
}

fn entry(alloc: Global, step: Step, reply: Reply) -> Entry {
    Entry {
        step,
        drawn: Drawn::new(alloc),
        reply,
    }
}

fn attached(alloc: Global, link: u64) -> Result<Entry, NoMemory> {
    let frame = control_frame(alloc)?;
    let frames = Frames::new(alloc);
    Ok(entry(alloc, Step::Frame(frame), Reply::Attached { link, frames }))
}

fn closed(alloc: Global, link: u64) -> Result<Entry, NoMemory> {
    let payload = Payload::from_slice(alloc, b"no message")?;
    let reply = Reply::LinkClosed(AmqpError::NotAllowed);
    Ok(entry(alloc, Step::Control { link, payload }, reply))
}

fn plain(alloc: Global) -> Entry {
    let answers = Answers {
        given: Frames::new(alloc),
        window: None,
    };
    entry(
        alloc,
        Step::Frame(Frame::Detach(detach(1))),
        Reply::Frames(answers),
    )
}

fn add_attached(alloc: Global, entries: &mut Entries, link: u64) -> Result<(), NoMemory> {
    let entry = attached(alloc, link)?;
    entries.append(entry)
}

fn add_closed(alloc: Global, entries: &mut Entries, link: u64) -> Result<(), NoMemory> {
    let entry = closed(alloc, link)?;
    entries.append(entry)
}

/// Link 0 is attached, a plain frame is taken, link 0 is closed, and link 1 is attached.
fn add_all(alloc: Global, entries: &mut Entries) -> Result<(), NoMemory> {
    add_attached(alloc, entries, 0)?;
    entries.append(plain(alloc))?;
    add_closed(alloc, entries, 0)?;
    add_attached(alloc, entries, 1)
}

/// Whether the entries are legal, link 0 is open after them, link 1 is, and an id is live.
fn facts_of(entries: &[Entry]) -> [bool; 4] {
    let id = TransactionId::from([1; 16]);
    [
        is_legal(entries),
        is_open(entries, 0),
        is_open(entries, 1),
        is_live(entries, &id),
    ]
}

fn work_count(alloc: Global, entries: &[Entry]) -> Result<usize, NoMemory> {
    let frames = work(alloc, entries)?;
    let count = frames.len();
    leak(frames);
    Ok(count)
}

fn hands_count(alloc: Global, step: &Step) -> Result<usize, NoMemory> {
    let frames = hands(alloc, &[], step)?;
    let count = frames.len();
    leak(frames);
    Ok(count)
}

fn is_step_copied(step: &Step) -> Result<bool, NoMemory> {
    let copy = step.try_clone()?;
    let same = copy == *step;
    leak(copy);
    Ok(same)
}

fn is_reply_copied(reply: &Reply) -> Result<bool, NoMemory> {
    let copy = reply.try_clone()?;
    let same = copy == *reply;
    leak(copy);
    Ok(same)
}

#[test]
fn a_link_that_is_closed_is_not_opened_again(rt: HostRuntime) {
    let mut entries = Entries::new(rt.alloc());
    let added = add_all(rt.alloc(), &mut entries);
    let facts = facts_of(entries.as_slice());
    leak(entries);
    assert!(rt; facts == [true, false, true, false]);
    added.expect(&rt, "an Ok")
}

#[test]
fn the_first_link_has_the_number_0(rt: HostRuntime) {
    let mut entries = Entries::new(rt.alloc());
    let added = add_attached(rt.alloc(), &mut entries, 1);
    let legal = is_legal(entries.as_slice());
    leak(entries);
    assert!(rt; !legal);
    added.expect(&rt, "an Ok")
}

#[test]
fn a_plain_frame_is_handed(rt: HostRuntime) {
    let entry = plain(rt.alloc());
    let count = hands_count(rt.alloc(), &entry.step);
    leak(entry);
    assert!(rt; count.expect(&rt, "an Ok") == 1);
}

#[test]
fn the_work_of_a_record_is_its_plain_frame(rt: HostRuntime) {
    let mut entries = Entries::new(rt.alloc());
    let added = add_all(rt.alloc(), &mut entries);
    let count = work_count(rt.alloc(), entries.as_slice());
    leak(entries);
    added.expect(&rt, "an Ok");
    assert!(rt; count.expect(&rt, "an Ok") == 1);
}

#[test]
fn a_rejection_has_its_text(rt: HostRuntime) {
    assert!(rt; RejectText::Absent.as_text() == None);
    assert!(rt; RejectText::GlobalId.as_text() == Some("Global transaction ID is not implemented"));
    assert!(rt; RejectText::IdsRepeat.as_text() == Some("No unused transaction ID was drawn"));
    assert!(rt; Stop::NoMemory.code() == StopCode::NoMemory);
}

#[test]
fn steps_and_replies_are_copied(rt: HostRuntime) {
    let entry = closed(rt.alloc(), 0).expect(&rt, "an Ok");
    let step = is_step_copied(&entry.step);
    let reply = is_reply_copied(&entry.reply);
    leak(entry);
    assert!(rt; step.expect(&rt, "an Ok"));
    assert!(rt; reply.expect(&rt, "an Ok"));
}

/// The ends of links 0 and 1.
fn two_ends(alloc: Global) -> Result<Steps, NoMemory> {
    let mut steps = Steps::with_room(alloc, 2)?;
    steps.append(Step::LinkEnd { link: 0 })?;
    steps.append(Step::LinkEnd { link: 1 })?;
    Ok(steps)
}

fn are_steps_copied(steps: &Steps) -> Result<bool, NoMemory> {
    let copy = steps.try_clone()?;
    let same = copy == *steps;
    leak(copy);
    Ok(same)
}

#[test]
fn a_list_of_steps_is_copied(rt: HostRuntime) {
    let steps = two_ends(rt.alloc()).expect(&rt, "an Ok");
    let copied = are_steps_copied(&steps);
    let count = steps.len();
    let entries = steps.into_entries();
    assert!(rt; entries.len() == count);
    leak(entries);
    assert!(rt; copied.expect(&rt, "an Ok"));
}

#[test]
fn a_step_is_pushed(rt: HostRuntime) {
    let mut steps = Steps::new(rt.alloc());
    assert!(rt; steps.is_empty());
    assert!(rt; is_done(steps.push(Step::LinkEnd { link: 7 })));
    assert!(rt; matches!(steps.get(0), Some(Step::LinkEnd { link: 7 })));
    leak(steps);
}

#[test]
fn a_control_attach_is_not_plain(rt: HostRuntime) {
    let frame = control_frame(rt.alloc()).expect(&rt, "an Ok");
    let plain = is_plain(&frame);
    let under = is_under(&frame, &TransactionId::from([1; 16]));
    leak(frame);
    assert!(rt; !plain);
    assert!(rt; !under);
}

#[test]
fn each_error_of_a_step_has_its_text(rt: HostRuntime) {
    let fault = StepError::Fault {
        error: SessionInnerError::HandleInUse,
        handed: 1,
    };
    let rows = [
        (fault, "a frame was not taken: the handle is in use"),
        (
            StepError::Ended(SessionStopReason::RemoteEnded),
            "the session ended: RemoteEnded",
        ),
        (
            StepError::Stopped(StopCode::Ended),
            "the session had stopped: Ended",
        ),
        (StepError::NoMemory, "out of memory"),
    ];
    let other = other_text(rt.alloc(), &rows);
    leak(rows);
    assert!(rt; other == Ok(None));
}

#[test]
fn each_stop_has_its_text(rt: HostRuntime) {
    let rows = [
        (Stop::Done, "every step was answered"),
        (
            Stop::Fault(SessionInnerError::UnknownTxnId),
            "a frame was not taken: the transaction id is not known",
        ),
        (
            Stop::Ended(SessionStopReason::Ended),
            "the session ended: Ended",
        ),
        (Stop::NoMemory, "out of memory"),
    ];
    let other = other_text(rt.alloc(), &rows);
    leak(rows);
    assert!(rt; other == Ok(None));
}
