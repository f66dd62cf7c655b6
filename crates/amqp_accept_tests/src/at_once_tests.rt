//! What no clause says: that an accepting listener answers attaches where there is memory.

use crate::listener_tests::{close, is_closed, listener, none_waits, stop};
use amqp_accept_at_once::AcceptingListener;
use amqp_accept_links::LinkAcceptor;
use amqp_below_layer::{LayerBelow, SessionInnerError, Verdict};
use amqp_below_sessions::PlainSession;
use amqp_test_values::{judges, leak, refuses, sender_attach, takes_work};
use amqp_txn_types::{Coordinator, Frame, Frames, Role, SessionStopReason, TargetArchetype, Text};
use std::alloc::Global;
use std::process::Abort;

type Accepting = AcceptingListener<PlainSession>;

fn accepting(alloc: Global) -> Accepting {
    AcceptingListener::new(alloc, listener(alloc), LinkAcceptor::new())
}

/// The peer attaches the link "a" on handle 5.
fn attach<S: LayerBelow>(
    rt: &impl Abort,
    alloc: Global,
    session: &mut S,
    role: Role,
    target: Option<TargetArchetype>,
) -> Result<Frames, SessionInnerError> {
    let name = Text::from_str(alloc, "a").expect(rt, "an Ok");
    let mut attach = sender_attach(name, 5, target);
    attach.role = role;
    session.on_incoming_attach(attach)
}

/// The roles of the attaches among some frames, and how many flows there are.
fn replies(rt: &impl Abort, answer: Result<Frames, SessionInnerError>) -> (Option<Role>, usize) {
    let frames = answer.expect(rt, "an Ok");
    let mut role = None;
    let mut flows = 0usize;
    for frame in frames.as_slice() {
        match frame {
            Frame::Attach(attach) => role = Some(attach.role),
            Frame::Flow(_) => flows = flows.saturating_add(1),
            Frame::Transfer { .. } | Frame::Disposition(_) | Frame::Detach(_) => {}
        }
    }
    leak(frames);
    (role, flows)
}

#[test]
fn a_sender_is_answered_by_an_attach_and_a_flow(rt: HostRuntime) {
    let alloc = rt.alloc();
    let mut listener = accepting(alloc);
    let answer = attach(&rt, alloc, &mut listener, Role::Sender, None);
    assert!(rt; replies(&rt, answer) == (Some(Role::Receiver), 1));
    assert!(rt; none_waits(&mut listener));
    assert!(rt; judges(alloc, &mut listener, 5, Verdict::Accept));
    assert!(rt; takes_work(alloc, &mut listener, 5));
    assert!(rt; judges(alloc, &mut listener, 6, Verdict::Veto));
    leak(listener);
}

#[test]
fn a_receiver_is_answered_by_an_attach_alone(rt: HostRuntime) {
    let alloc = rt.alloc();
    let mut listener = accepting(alloc);
    let answer = attach(&rt, alloc, &mut listener, Role::Receiver, None);
    assert!(rt; replies(&rt, answer) == (Some(Role::Sender), 0));
    assert!(rt; none_waits(&mut listener));
    assert!(rt; judges(alloc, &mut listener, 5, Verdict::Veto));
    leak(listener);
}

#[test]
fn a_link_of_a_taken_name_is_refused(rt: HostRuntime) {
    let alloc = rt.alloc();
    let mut listener = accepting(alloc);
    leak(attach(&rt, alloc, &mut listener, Role::Sender, None));
    let again = attach(&rt, alloc, &mut listener, Role::Sender, None);
    assert!(rt; refuses(again, SessionInnerError::HandleInUse));
    assert!(rt; none_waits(&mut listener));
    leak(listener);
}

#[test]
fn a_coordinator_is_refused_as_a_link(rt: HostRuntime) {
    let alloc = rt.alloc();
    let mut listener = accepting(alloc);
    let target = TargetArchetype::Coordinator(Coordinator { capabilities: None });
    let answer = attach(&rt, alloc, &mut listener, Role::Sender, Some(target));
    assert!(rt; refuses(answer, SessionInnerError::IllegalState));
    assert!(rt; none_waits(&mut listener));
    leak(listener);
}

#[test]
fn no_link_is_accepted_once_the_session_stopped(rt: HostRuntime) {
    let alloc = rt.alloc();
    let mut listener = accepting(alloc);
    stop(&mut listener, SessionStopReason::Ended);
    let answer = attach(&rt, alloc, &mut listener, Role::Sender, None);
    assert!(rt; refuses(answer, SessionInnerError::IllegalState));
    assert!(rt; none_waits(&mut listener));
    leak(listener);
}

#[test]
fn no_link_is_accepted_once_the_queue_is_closed(rt: HostRuntime) {
    let alloc = rt.alloc();
    let mut listener = accepting(alloc);
    close(&mut listener);
    let answer = attach(&rt, alloc, &mut listener, Role::Sender, None);
    assert!(rt; refuses(answer, SessionInnerError::UnattachedHandle));
    assert!(rt; is_closed(&listener));
    leak(listener);
}
