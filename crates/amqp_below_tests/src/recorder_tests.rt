//! What no clause says: that the calls succeed where there is memory.

use crate::plain_tests::does_no_transactions;
use amqp_below_layer::{Exchanges, LayerBelow, OpenSession, SessionInnerError, Verdict};
use amqp_below_recorder::*;
use amqp_below_sessions::{NameState, Session};
use amqp_test_values::{
    call_numbers, control_attach, detach, is_done, judges, leak, plain_session, refuses, relay,
    takes_work, transfer,
};
use amqp_txn_types::{
    Attach, Frame, Frames, OutgoingChannel, Payload, Role, SessionState, SessionStopReason, Text,
};
use std::alloc::Global;
use std::process::Abort;

/// Whether a detach is taken, without frames given back.
fn takes_detach<S: LayerBelow>(below: &mut S, handle: u32) -> bool {
    let answer = below.on_incoming_detach(detach(handle));
    let taken = match &answer {
        Ok(given) => given.len() == 0,
        Err(_) => false,
    };
    leak(answer);
    taken
}

/// Whether a detach is refused so.
fn refuses_detach<S: LayerBelow>(below: &mut S, handle: u32, error: SessionInnerError) -> bool {
    refuses(below.on_incoming_detach(detach(handle)), error)
}

/// Whether the two are equal.
fn are_equal<T: PartialEq>(found: &T, wanted: &T) -> bool {
    *found == *wanted
}

#[test]
fn a_recorder_keeps_what_was_taken(rt: HostRuntime) {
    let alloc = rt.alloc();
    let mut below = Recorder::new(alloc, OpenSession::new(alloc));
    assert!(rt; below.is_fresh());
    assert!(rt; takes_detach(&mut below, 3));
    assert!(rt; !below.is_fresh());
    let mut exchanges = Exchanges::new(alloc);
    let frame = Frame::Detach(detach(3));
    assert!(rt; is_done(exchanges.push((frame, Frames::new(alloc)))));
    assert!(rt; are_equal(below.exchanges(), &exchanges));
    leak(exchanges);
    leak(below);
}

#[test]
fn a_plan_refuses_its_calls(rt: HostRuntime) {
    let alloc = rt.alloc();
    let mut below = Recorder::new(alloc, OpenSession::new(alloc));
    below.set_plan(call_numbers(alloc, &[2]).expect(&rt, "an Ok"));
    assert!(rt; takes_detach(&mut below, 1));
    assert!(rt; refuses_detach(&mut below, 2, SessionInnerError::IllegalState));
    assert!(rt; takes_detach(&mut below, 3));
    assert!(rt; below.exchanges().len() == 2);
    assert!(rt; below.refused().len() == 1);
}

/// How many lists a recorder vetoed, and how many frames the last of them has.
fn vetoed<S: LayerBelow>(below: &Recorder<S>) -> (usize, usize) {
    let count = below.vetoed().len();
    match below.vetoed().get(count.saturating_sub(1)) {
        None => (count, 0),
        Some(last) => (count, last.len()),
    }
}

#[test]
fn a_plan_vetoes_its_calls(rt: HostRuntime) {
    let alloc = rt.alloc();
    let mut below = Recorder::new(alloc, OpenSession::new(alloc));
    below.set_plan(call_numbers(alloc, &[2]).expect(&rt, "an Ok"));
    assert!(rt; judges(alloc, &mut below, 3, Verdict::Veto));
    assert!(rt; vetoed(&below) == (1, 2));
    assert!(rt; below.is_fresh());
    assert!(rt; below.exchanges().len() == 0);
}

#[test]
fn a_veto_uses_up_no_number(rt: HostRuntime) {
    let alloc = rt.alloc();
    let mut below = Recorder::new(alloc, OpenSession::new(alloc));
    below.set_plan(call_numbers(alloc, &[2]).expect(&rt, "an Ok"));
    assert!(rt; judges(alloc, &mut below, 3, Verdict::Veto));
    assert!(rt; takes_detach(&mut below, 1));
    assert!(rt; refuses_detach(&mut below, 2, SessionInnerError::IllegalState));
    assert!(rt; judges(alloc, &mut below, 3, Verdict::Accept));
}

#[test]
fn a_recorder_takes_what_it_accepted(rt: HostRuntime) {
    let alloc = rt.alloc();
    let mut below = Recorder::new(alloc, OpenSession::new(alloc));
    assert!(rt; judges(alloc, &mut below, 3, Verdict::Accept));
    assert!(rt; vetoed(&below) == (0, 0));
    assert!(rt; below.is_fresh());
    assert!(rt; takes_work(alloc, &mut below, 3));
    assert!(rt; below.exchanges().len() == 2);
    leak(below);
}

#[test]
fn a_recorder_keeps_what_its_session_vetoed(rt: HostRuntime) {
    let alloc = rt.alloc();
    let mut below = Recorder::new(alloc, plain_session(alloc, SessionState::Mapped, 9));
    assert!(rt; judges(alloc, &mut below, 4, Verdict::Veto));
    assert!(rt; judges(alloc, &mut below, 4, Verdict::Veto));
    assert!(rt; vetoed(&below) == (2, 2));
    leak(below);
}

#[test]
fn a_starved_call_wants_memory(rt: HostRuntime) {
    let alloc = rt.alloc();
    let mut below = Recorder::new(alloc, OpenSession::new(alloc));
    below.set_starved(call_numbers(alloc, &[1]).expect(&rt, "an Ok"));
    assert!(rt; judges(alloc, &mut below, 3, Verdict::Accept));
    assert!(rt; refuses_detach(&mut below, 1, SessionInnerError::NoMemory));
    assert!(rt; takes_detach(&mut below, 2));
    assert!(rt; below.exchanges().len() == 1);
    assert!(rt; below.refused().len() == 0);
    assert!(rt; below.starved().len() == 1);
}

#[test]
fn a_review_vetoes_a_call_of_both_plans(rt: HostRuntime) {
    let alloc = rt.alloc();
    let mut below = Recorder::new(alloc, OpenSession::new(alloc));
    below.set_plan(call_numbers(alloc, &[1]).expect(&rt, "an Ok"));
    below.set_starved(call_numbers(alloc, &[1]).expect(&rt, "an Ok"));
    assert!(rt; judges(alloc, &mut below, 3, Verdict::Veto));
}

#[test]
fn a_call_of_both_plans_is_starved(rt: HostRuntime) {
    let alloc = rt.alloc();
    let mut below = Recorder::new(alloc, OpenSession::new(alloc));
    below.set_plan(call_numbers(alloc, &[1]).expect(&rt, "an Ok"));
    below.set_starved(call_numbers(alloc, &[1]).expect(&rt, "an Ok"));
    assert!(rt; refuses_detach(&mut below, 1, SessionInnerError::NoMemory));
    assert!(rt; below.refused().len() == 0);
}

/// Whether the attach of a control link is taken, without frames given back.
fn opens<S: LayerBelow>(below: &mut S, attach: &Attach) -> bool {
    let answer = below.on_control_attach(attach);
    let opened = match &answer {
        Ok(given) => given.len() == 0,
        Err(_) => false,
    };
    leak(answer);
    opened
}

#[test]
fn a_recorder_keeps_what_was_opened(rt: HostRuntime) {
    let alloc = rt.alloc();
    let attach = control_attach(Text::from_str(alloc, "c").expect(&rt, "an Ok"), 0);
    let mut below = Recorder::new(alloc, OpenSession::new(alloc));
    assert!(rt; opens(&mut below, &attach));
    leak(attach);
    assert!(rt; below.opened().len() == 1);
    assert!(rt; below.exchanges().len() == 0);
    leak(below);
}

/// What a transfer on the handle 4 is answered.
fn hears_transfer<S: LayerBelow>(
    below: &mut S,
    payload: Payload,
) -> Result<Frames, SessionInnerError> {
    below.on_incoming_transfer(transfer(4), payload)
}

#[test]
fn a_recorder_keeps_a_refusal_of_a_plain_session(rt: HostRuntime) {
    let alloc = rt.alloc();
    let mut below = Recorder::new(alloc, plain_session(alloc, SessionState::Mapped, 9));
    let payload = Payload::from_slice(alloc, b"m").expect(&rt, "an Ok");
    let refused = hears_transfer(&mut below, payload);
    assert!(rt; refuses(refused, SessionInnerError::UnattachedHandle));
    assert!(rt; below.exchanges().len() == 0);
    assert!(rt; below.refused().len() == 1);
    leak(below);
}

/// The first end of a link is allocated, its name waits then, and it is freed.
fn frees_what_it_allocated<S: Session>(rt: &impl Abort, alloc: Global, session: &mut S) {
    let name = Text::from_str(alloc, "a").expect(rt, "an Ok");
    let allocated = session.allocate_link(name, relay(alloc, Role::Receiver));
    let output = allocated.expect(rt, "an Ok");
    let name = Text::from_str(alloc, "a").expect(rt, "an Ok");
    assert!(rt; session.name_state(&name) == NameState::Waiting);
    leak(name);
    assert!(rt; session.deallocate_link(output));
}

/// A reason why it stopped is kept.
fn keeps_a_reason<S: Session>(rt: &impl Abort, session: &mut S) {
    session.set_session_stop_reason(SessionStopReason::Ended);
    assert!(rt; session.session_stop_reason().is_some());
}

#[test]
fn a_recorder_over_a_session_is_one(rt: HostRuntime) {
    let alloc = rt.alloc();
    let mut session = Recorder::new(alloc, plain_session(alloc, SessionState::Mapped, 9));
    assert!(rt; session.outgoing_channel() == OutgoingChannel(7));
    frees_what_it_allocated(&rt, alloc, &mut session);
    assert!(rt; session.is_fresh());
    keeps_a_reason(&rt, &mut session);
    leak(session);
}

#[test]
fn a_recorder_over_a_plain_session_does_no_transactions(rt: HostRuntime) {
    let alloc = rt.alloc();
    let mut session = Recorder::new(alloc, plain_session(alloc, SessionState::Mapped, 9));
    does_no_transactions(&rt, &mut session);
    leak(session);
}
