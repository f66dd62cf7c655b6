//! The window of a plain session, through a recorder: asked for after each transfer.

use crate::session_tests::{answer_of, begin_transaction, discharge, post, transfer};
use amqp_below_layer::{Answers, LayerBelow};
use amqp_below_recorder::Recorder;
use amqp_below_sessions::{PlainSession, Session};
use amqp_resource_session::*;
use amqp_test_values::{leak, plain_session, relay, sender_attach};
use amqp_txn_types::{Frame, Role, SessionState, Text};
use std::alloc::Global;
use std::process::Abort;

/// A mapped session with an incoming window of 2 and one link, whose attach is to come.
fn one_link(rt: &impl Abort, alloc: Global) -> PlainSession {
    let mut below = plain_session(alloc, SessionState::Mapped, 9);
    let name = Text::from_str(alloc, "a").expect(rt, "an Ok");
    let allocated = below.allocate_link(name, relay(alloc, Role::Receiver));
    leak(allocated);
    below
}

/// A session over a recorder of a plain one, whose link is attached with handle 1.
fn windowed(
    rt: &impl Abort,
    alloc: Global,
    ids: &mut CountIds,
) -> TxnSession<Recorder<PlainSession>> {
    let below = one_link(rt, alloc);
    let mut session = TxnSession::new(alloc, Recorder::new(alloc, below));
    let name = Text::from_str(alloc, "a").expect(rt, "an Ok");
    let attach = Frame::Attach(sender_attach(name, 1, None));
    let _word = answer_of(&mut session, Step::Frame(attach), ids);
    session
}

/// Whether each of these answers tells the window.
fn tell_windows(answers: &[Answers]) -> bool {
    for one in answers {
        if one.window.is_none() {
            return false;
        }
    }
    true
}

/// For how many frames the reply tells the window; 100 where one of them has none, and for any
/// other answer.
fn windows_of(answer: &Result<(Drawn, Reply), StepError>) -> usize {
    match answer {
        Ok((_, Reply::Frames(answers))) => { if answers.window.is_some() { 1 } else { 100 } }
        Ok((_, Reply::Accepted(echoes))) => {
            if tell_windows(echoes.as_slice()) {
                echoes.len()
            } else {
                100
            }
        }
        _ => 100,
    }
}

/// Makes a step: for how many frames it tells the window.
fn count_windows<S: LayerBelow>(
    session: &mut TxnSession<S>,
    step: Step,
    ids: &mut CountIds,
) -> usize {
    if session.links_opened() == u64::MAX {
        leak(step);
        return 100;
    }
    let answer = session.step(&step, ids);
    leak(step);
    let count = windows_of(&answer);
    leak(answer);
    count
}

#[test]
fn a_plain_transfer_tells_the_window(rt: HostRuntime) {
    let mut ids = CountIds::new();
    let mut session = windowed(&rt, rt.alloc(), &mut ids);
    let count = count_windows(&mut session, Step::Frame(transfer(true, None)), &mut ids);
    leak(session);
    assert!(rt; count == 1);
}

#[test]
fn a_commit_tells_the_window_after_each_transfer(rt: HostRuntime) {
    let alloc = rt.alloc();
    let id = numbered_id(1);
    let mut ids = CountIds::new();
    let mut session = windowed(&rt, alloc, &mut ids);
    begin_transaction(&rt, alloc, &mut session, &mut ids);
    let _word = answer_of(&mut session, post(true, id), &mut ids);
    let _word = answer_of(&mut session, post(true, id), &mut ids);
    let commit = discharge(&rt, alloc, id);
    let count = count_windows(&mut session, commit, &mut ids);
    leak(session);
    assert!(rt; count == 2);
}
