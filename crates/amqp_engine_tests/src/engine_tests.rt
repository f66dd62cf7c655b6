//! The engine over a plain session, called as its users call it.

use crate::test_values::{
    asked, begun, cut_off, ended, failed, finished, first_of, frame, mapped, plain_end, quiet,
    sent, state, stopped_for, taken, told_to_end, turn,
};
use amqp_accept_links::ControlLinkAcceptor;
use amqp_accept_listener::ListenerSession;
use amqp_below_layer::{LayerBelow, SessionInnerError};
use amqp_below_sessions::{BeginError, ListenerSessionEndpoint, PlainSession, Session};
use amqp_engine_events::*;
use amqp_test_values::{
    begin, detach, gives, leak, not_allowed, plain_error, plain_session, refuses, relay, same,
    sender_attach, transfer,
};
use amqp_txn_types::{
    AmqpError, Attach, ConnectionStopReason, End, Error, ErrorCondition, Frame, InputHandle,
    LinkFrame, OutputHandle, Payload, Role, SessionState, SessionStopReason, Text,
    TransactionError, TryClone,
};
use std::alloc::Global;
use std::process::Abort;

fn transfer_frame() -> SessionFrameBody {
    SessionFrameBody::Link(Frame::Transfer {
        transfer: transfer(5),
        payload: Payload::new(),
    })
}

/// The engine of a mapped session with a receiving link of the peer's handle 5.
fn with_link(alloc: Global) -> Option<SessionEngine<PlainSession>> {
    let mut engine = match mapped(alloc) {
        Some(engine) => engine,
        None => return None,
    };
    let control = SessionControl::AllocateIncomingLink {
        link_name: Text::new(alloc),
        link_relay: relay(alloc, Role::Receiver),
        input_handle: InputHandle(5),
    };
    leak(asked(&mut engine, control));
    Some(engine)
}

/// How many transfers came to the link.
fn transfers(engine: &SessionEngine<PlainSession>) -> Option<u64> {
    match engine.session().relay(OutputHandle(0)) {
        None => None,
        Some(relay) => Some(relay.transfers),
    }
}

fn is_window(answer: Result<Turn, SessionInnerError>) -> bool {
    let told = match &answer {
        Ok(turn) => turn.running == Running::Continue && turn.sent.window.is_some(),
        Err(_) => false,
    };
    leak(answer);
    told
}

#[test]
fn a_transfer_reaches_the_session(rt: HostRuntime) {
    let mut engine = with_link(rt.alloc()).expect(&rt, "a session");
    assert!(rt; is_window(taken(&mut engine, transfer_frame())));
    assert!(rt; transfers(&engine) == Some(1));
    leak(engine);
}

#[test]
fn an_unknown_id_ends_the_session(rt: HostRuntime) {
    let alloc = rt.alloc();
    let mut engine = mapped(alloc).expect(&rt, "a session");
    let answer = failed(&mut engine, SessionInnerError::UnknownTxnId);
    let unknown = ErrorCondition::TransactionError(TransactionError::UnknownId);
    let ended = Some(End {
        error: Some(plain_error(unknown)),
    });
    assert!(rt; gives(answer, turn(alloc, Running::Waiting, ended)));
    assert!(rt; state(&engine) == SessionState::Discarding);
    leak(engine);
}

#[test]
fn what_comes_before_the_awaited_end_is_dropped(rt: HostRuntime) {
    let alloc = rt.alloc();
    let mut engine = with_link(alloc).expect(&rt, "a session");
    leak(failed(&mut engine, SessionInnerError::UnknownTxnId));
    let dropped = taken(&mut engine, transfer_frame());
    assert!(rt; gives(dropped, quiet(alloc, Running::Waiting)));
    let over = taken(&mut engine, plain_end());
    assert!(rt; gives(over, quiet(alloc, Running::Stop)));
    assert!(rt; transfers(&engine) == Some(0));
    leak(engine);
}

#[test]
fn the_peers_end_is_answered(rt: HostRuntime) {
    let alloc = rt.alloc();
    let mut engine = mapped(alloc).expect(&rt, "a session");
    let answer = taken(&mut engine, plain_end());
    let ended = Some(End { error: None });
    assert!(rt; gives(answer, turn(alloc, Running::Stop, ended)));
    assert!(rt; stopped_for(engine.session(), SessionStopReason::RemoteEnded));
    leak(engine);
}

fn remote_close() -> SessionStopReason {
    SessionStopReason::ConnectionStopped(ConnectionStopReason::RemoteClosed)
}

#[test]
fn a_connection_that_stopped_is_the_reason(rt: HostRuntime) {
    let mut engine = mapped(rt.alloc()).expect(&rt, "a session");
    cut_off(&mut engine);
    leak(taken(&mut engine, plain_end()));
    assert!(rt; stopped_for(engine.session(), remote_close()));
    leak(engine);
}

#[test]
fn no_link_sends_after_the_end(rt: HostRuntime) {
    let mut engine = ended(rt.alloc()).expect(&rt, "a session");
    let refused = sent(&mut engine, LinkFrame::Detach(detach(0)));
    leak(engine);
    assert!(rt; refuses(refused, SessionInnerError::IllegalState));
}

#[test]
fn a_session_runs_from_its_begin_to_its_stop(rt: HostRuntime) {
    let alloc = rt.alloc();
    let mut engine = ended(alloc).expect(&rt, "a session");
    let over = taken(&mut engine, plain_end());
    assert!(rt; gives(over, quiet(alloc, Running::Stop)));
    let nothing_owed = told_to_end(&mut engine);
    assert!(rt; gives(nothing_owed, quiet(alloc, Running::Stop)));
    let (session, outcome) = finished(engine, Ok(()));
    assert!(rt; gives(outcome, ()));
    assert!(rt; stopped_for(&session, SessionStopReason::Ended));
    leak(session);
}

/// The engine of a listener whose peer began the session.
fn listener(alloc: Global) -> Option<SessionEngine<ListenerSession<PlainSession>>> {
    let session = plain_session(alloc, SessionState::BeginReceived, 7);
    let listener = ListenerSession::new(alloc, session, ControlLinkAcceptor::default());
    listened(alloc, listener)
}

/// The engine of that session, whose peer began it.
fn listened<S: ListenerSessionEndpoint>(alloc: Global, session: S) -> Option<SessionEngine<S>> {
    first_of(SessionEngine::begin_listener_session(alloc, session))
}

fn attach_frame(attach: Attach) -> SessionFrameBody {
    SessionFrameBody::Link(Frame::Attach(attach))
}

#[test]
fn an_attach_waits_in_a_listener(rt: HostRuntime) {
    let alloc = rt.alloc();
    let mut engine = listener(alloc).expect(&rt, "a session");
    let attach = attach_frame(sender_attach(Text::new(alloc), 0, None));
    let answer = taken(&mut engine, attach);
    assert!(rt; gives(answer, quiet(alloc, Running::Continue)));
    assert!(rt; state(&engine) == SessionState::Mapped);
    leak(engine);
}

/// The error of the end that is sent for a fault.
fn error_sent(rt: &impl Abort, alloc: Global, fault: SessionInnerError) -> Error {
    let mut engine = mapped(alloc).expect(rt, "a session");
    let answer = failed(&mut engine, fault);
    leak(engine);
    let mut turn = answer.expect(rt, "a turn");
    let ended = turn.ended.take();
    leak(turn);
    let end = ended.expect(rt, "an end");
    end.error.expect(rt, "an error")
}

fn is_told(rt: &impl Abort, error: Error, condition: AmqpError, text: &str) -> bool {
    let Error {
        condition: found,
        description,
        info,
    } = error;
    leak(info);
    let description = description.expect(rt, "a text");
    let same_text = description.as_str() == text;
    leak(description);
    same(found, ErrorCondition::AmqpError(condition)) && same_text
}

#[test]
fn some_faults_are_told_by_a_text(rt: HostRuntime) {
    let unnamed = SessionInnerError::RemoteAttachingLinkNameNotFound;
    let error = error_sent(&rt, rt.alloc(), unnamed);
    let text = "Link name is not found";
    assert!(rt; is_told(&rt, error, AmqpError::InternalError, text));
    let to_sender = SessionInnerError::TransferFrameToSender;
    let error = error_sent(&rt, rt.alloc(), to_sender);
    let text = "Found Transfer frame sent Sender link";
    assert!(rt; is_told(&rt, error, AmqpError::NotAllowed, text));
}

#[test]
fn a_stopped_connection_is_no_fault_of_the_session(rt: HostRuntime) {
    let engine = mapped(rt.alloc()).expect(&rt, "a session");
    let stopped = SessionInnerError::ConnectionStopped(ConnectionStopReason::RemoteClosed);
    let (session, outcome) = finished(engine, Err(stopped));
    assert!(rt; gives(outcome, ()));
    assert!(rt; stopped_for(&session, remote_close()));
    leak(session);
}

/// Whether the session came back for this error.
fn came_back<T, S>(answer: Result<T, (S, BeginError)>, wanted: BeginError) -> bool {
    match answer {
        Ok(engine) => {
            leak(engine);
            leak(wanted);
            false
        }
        Err((session, error)) => {
            leak(session);
            same(error, wanted)
        }
    }
}

/// What the peer's frame makes of a session that sent its begin.
fn begun_with<S: Session>(
    begun: ClientBegin<S>,
    body: SessionFrameBody,
) -> Result<SessionEngine<S>, (S, BeginError)> {
    begun.on_frame(frame(body))
}

/// Why a session that sent its begin isn't begun, where its connection stops.
fn stops_early<S: Session>(begun: ClientBegin<S>) -> BeginError {
    let (session, error) = begun.connection_stopped();
    leak(session);
    error
}

/// The same, where the peer closed the connection.
fn is_cut_off_early<S: Session>(mut begun: ClientBegin<S>) -> BeginError {
    begun.note_connection_stop(ConnectionStopReason::RemoteClosed);
    stops_early(begun)
}

#[test]
fn the_peers_begin_makes_the_session_ready(rt: HostRuntime) {
    let engine = mapped(rt.alloc()).expect(&rt, "a session");
    assert!(rt; state(&engine) == SessionState::Mapped);
    leak(engine);
}

#[test]
fn an_early_end_is_told(rt: HostRuntime) {
    let begun = begun(rt.alloc()).expect(&rt, "a session");
    assert!(rt; begun.session().local_state() == SessionState::BeginSent);
    assert!(rt; came_back(begun_with(begun, plain_end()), BeginError::RemoteEnded));
}

#[test]
fn a_connection_may_stop_early(rt: HostRuntime) {
    let begun = begun(rt.alloc()).expect(&rt, "a session");
    let error = is_cut_off_early(begun);
    let stopped = BeginError::ConnectionStopped(ConnectionStopReason::RemoteClosed);
    assert!(rt; same(error, stopped));
}

#[test]
fn the_peers_error_is_the_reason(rt: HostRuntime) {
    let mut engine = mapped(rt.alloc()).expect(&rt, "a session");
    let end = SessionFrameBody::End(End {
        error: Some(not_allowed()),
    });
    leak(taken(&mut engine, end));
    let reason = SessionStopReason::RemoteEndedWithError(not_allowed());
    assert!(rt; stopped_for(engine.session(), reason));
    leak(engine);
}

#[test]
fn this_sides_error_is_the_reason(rt: HostRuntime) {
    let mut engine = mapped(rt.alloc()).expect(&rt, "a session");
    leak(asked(&mut engine, SessionControl::End(Some(not_allowed()))));
    let reason = SessionStopReason::EndedWithError(not_allowed());
    assert!(rt; stopped_for(engine.session(), reason));
    assert!(rt; state(&engine) == SessionState::Discarding);
    leak(engine);
}

#[test]
fn an_end_after_the_connection_stopped_tells_it(rt: HostRuntime) {
    let mut engine = mapped(rt.alloc()).expect(&rt, "a session");
    cut_off(&mut engine);
    leak(asked(&mut engine, SessionControl::End(None)));
    assert!(rt; stopped_for(engine.session(), remote_close()));
    leak(engine);
}

#[test]
fn a_connection_that_stopped_is_answered(rt: HostRuntime) {
    let mut engine = mapped(rt.alloc()).expect(&rt, "a session");
    let stopped = SessionInnerError::ConnectionStopped(ConnectionStopReason::RemoteClosed);
    let refused = failed(&mut engine, stopped);
    assert!(rt; state(&engine) == SessionState::Mapped);
    leak(engine);
    let wanted = SessionInnerError::ConnectionStopped(ConnectionStopReason::RemoteClosed);
    assert!(rt; refuses(refused, wanted));
}

/// Whether a mapped session whose outcome is this answers it and stopped for this reason.
fn finishes<R: Abort>(
    rt: &R,
    alloc: Global,
    outcome: Result<(), SessionInnerError>,
    wanted: Result<(), SessionInnerError>,
    reason: SessionStopReason,
) -> bool {
    let engine = mapped(alloc).expect(rt, "a session");
    is_finished(finished(engine, outcome), wanted, reason)
}

fn is_finished<S: Session>(
    ended: (S, Result<(), SessionInnerError>),
    wanted: Result<(), SessionInnerError>,
    reason: SessionStopReason,
) -> bool {
    let (session, answer) = ended;
    let stopped = stopped_for(&session, reason);
    leak(session);
    same(answer, wanted) && stopped
}

#[test]
fn an_outcome_is_answered_and_kept(rt: HostRuntime) {
    let alloc = rt.alloc();
    assert!(rt; finishes(&rt, alloc, Ok(()), Ok(()), SessionStopReason::Ended));
    let fault = Err(SessionInnerError::IllegalState);
    let wanted = Err(SessionInnerError::IllegalState);
    assert!(rt; finishes(&rt, alloc, fault, wanted, SessionStopReason::Ended));
}

#[test]
fn the_error_of_an_outcome_is_answered_and_kept(rt: HostRuntime) {
    let alloc = rt.alloc();
    let outcome = Err(SessionInnerError::RemoteEndedWithError(not_allowed()));
    let wanted = Err(SessionInnerError::RemoteEndedWithError(not_allowed()));
    let reason = SessionStopReason::RemoteEndedWithError(not_allowed());
    assert!(rt; finishes(&rt, alloc, outcome, wanted, reason));
}

#[test]
fn the_first_reason_is_kept(rt: HostRuntime) {
    let mut engine = mapped(rt.alloc()).expect(&rt, "a session");
    leak(taken(&mut engine, plain_end()));
    let outcome = Err(SessionInnerError::RemoteEndedWithError(not_allowed()));
    let wanted = Err(SessionInnerError::RemoteEndedWithError(not_allowed()));
    let ended = finished(engine, outcome);
    assert!(rt; is_finished(ended, wanted, SessionStopReason::RemoteEnded));
}

#[test]
fn a_connection_may_close_early(rt: HostRuntime) {
    let begun = begun(rt.alloc()).expect(&rt, "a session");
    let error = stops_early(begun);
    let closed = BeginError::ConnectionStopped(ConnectionStopReason::Closed);
    assert!(rt; same(error, closed));
}

/// Whether a copy of the frame equals it.
fn copies(rt: &impl Abort, frame: SessionFrame) -> bool {
    let copy = frame.try_clone().expect(rt, "a copy");
    same(copy, frame)
}

#[test]
fn frames_are_copied(rt: HostRuntime) {
    assert!(rt; copies(&rt, frame(SessionFrameBody::Begin(begin(7)))));
    assert!(rt; copies(&rt, frame(plain_end())));
    assert!(rt; copies(&rt, frame(transfer_frame())));
}
