//! Links that are accepted, and those that aren't.

use crate::link_tests::test_values::{
    accept, are_frames, control_attach, control_reply, frames_of, granted, reply, sender_attach,
    session,
};
use amqp_accept_links::*;
use amqp_below_layer::SessionInnerError;
use amqp_below_sessions::{NameState, ReceiverAttachError, Session};
use amqp_test_values::{error_of, leak, same, value_of};
use amqp_txn_types::{
    Attach, Coordinator, Frames, Role, SessionState, SessionStopReason, Text, is_coordinator,
};
use std::alloc::Global;

/// What an acceptor of control links answers to the attach of one.
fn accept_control<S: Session>(
    alloc: Global,
    acceptor: &ControlLinkAcceptor,
    remote: &Attach,
    session: &mut S,
) -> Result<Frames, ReceiverAttachError> {
    if !is_coordinator(remote) {
        return Err(ReceiverAttachError::CoordinatorIsNotImplemented);
    }
    acceptor.accept_incoming_attach(alloc, remote, session)
}

/// What the default acceptor of control links answers, and how the link's name is known then.
fn control_answer(
    alloc: Global,
    state: SessionState,
) -> (Result<Frames, ReceiverAttachError>, NameState) {
    let remote = control_attach(alloc);
    let mut session = session(alloc, state);
    let acceptor = ControlLinkAcceptor::builder().build();
    let answer = accept_control(alloc, &acceptor, &remote, &mut session);
    let known = session.name_state(&Text::new(alloc));
    leak(session);
    leak(acceptor);
    leak(remote);
    (answer, known)
}

#[test]
fn a_control_link_is_accepted(rt: HostRuntime) {
    let alloc = rt.alloc();
    let (answer, known) = control_answer(alloc, SessionState::Mapped);
    assert!(rt; known == NameState::Taken);
    assert!(rt; are_frames(value_of(answer), control_reply(alloc), Some(granted(200))));
}

#[test]
fn a_refused_flow_frees_the_link(rt: HostRuntime) {
    let (answer, known) = control_answer(rt.alloc(), SessionState::Unmapped);
    assert!(rt; known == NameState::Unknown);
    let refused = ReceiverAttachError::Session(SessionInnerError::IllegalState);
    assert!(rt; same(error_of(answer), Some(refused)));
}

#[test]
fn a_local_receiver_is_accepted(rt: HostRuntime) {
    let alloc = rt.alloc();
    let acceptor = LinkAcceptor::builder()
        .credit_mode(CreditMode::Auto(3))
        .build();
    let frames = frames_of(alloc, &acceptor, sender_attach(alloc));
    leak(acceptor);
    assert!(rt; are_frames(frames, reply(alloc, Role::Receiver), Some(granted(3))));
}

/// What a receiver of links of a kind answers.
fn accept_inner<S: Session, T: TargetKind>(
    alloc: Global,
    receiver: &LocalReceiverLinkAcceptor<T, RejectDynamic>,
    remote: Attach,
    session: &mut S,
) -> Result<Frames, ReceiverAttachError> {
    let shared = SharedLinkAcceptorFields::default();
    let answer = receiver.accept_incoming_attach_inner(alloc, &shared, remote, session);
    leak(shared);
    frames_of_wire(answer)
}

/// The second of an Ok.
fn frames_of_wire<T, E>(answer: Result<(T, Frames), E>) -> Result<Frames, E> {
    match answer {
        Ok((wire, frames)) => {
            leak(wire);
            Ok(frames)
        }
        Err(error) => Err(error),
    }
}

/// What the default receiver of control links answers over a mapped session.
fn inner_answer(alloc: Global, remote: Attach) -> Result<Frames, ReceiverAttachError> {
    let receiver: LocalReceiverLinkAcceptor<Coordinator, RejectDynamic> =
        LocalReceiverLinkAcceptor::default();
    let mut session = session(alloc, SessionState::Mapped);
    let answer = accept_inner(alloc, &receiver, remote, &mut session);
    leak(session);
    leak(receiver);
    answer
}

#[test]
fn a_local_receiver_of_control_links_is_accepted(rt: HostRuntime) {
    let alloc = rt.alloc();
    let frames = value_of(inner_answer(alloc, control_attach(alloc)));
    assert!(rt; are_frames(frames, control_reply(alloc), Some(granted(200))));
}

#[test]
fn a_local_receiver_of_another_kind_is_not(rt: HostRuntime) {
    let alloc = rt.alloc();
    let refused = error_of(inner_answer(alloc, sender_attach(alloc)));
    assert!(rt;
        same(
            refused,
            Some(ReceiverAttachError::CoordinatorIsNotImplemented)
        )
    );
}

/// Why the default acceptor of links refuses an attach, over a mapped session that may have
/// stopped.
fn refusal_of(
    alloc: Global,
    remote: Attach,
    stop: Option<SessionStopReason>,
) -> Option<AcceptorAttachError> {
    let mut session = session(alloc, SessionState::Mapped);
    if let Some(reason) = stop {
        session.set_session_stop_reason(reason);
    }
    let acceptor = LinkAcceptor::new();
    let answer = accept(alloc, &acceptor, remote, &mut session);
    leak(session);
    leak(acceptor);
    error_of(answer)
}

#[test]
fn a_coordinator_is_not_taken(rt: HostRuntime) {
    let alloc = rt.alloc();
    let refused = refusal_of(alloc, control_attach(alloc), None);
    let wanted = ReceiverAttachError::CoordinatorIsNotImplemented;
    assert!(rt; same(refused, Some(AcceptorAttachError::LocalReceiver(wanted))));
}

#[test]
fn a_stopped_session_accepts_nothing(rt: HostRuntime) {
    let alloc = rt.alloc();
    let stop = Some(SessionStopReason::RemoteEnded);
    let refused = refusal_of(alloc, control_attach(alloc), stop);
    let wanted = AcceptorAttachError::SessionStopped(SessionStopReason::RemoteEnded);
    assert!(rt; same(refused, Some(wanted)));
}
