//! What the tests call the engine with, and compare its answers to.

use amqp_below_ids::CountIds;
use amqp_below_layer::{Answers, LayerBelow, SessionInnerError};
use amqp_below_sessions::{HandleDeclare, HandleDischarge, PlainSession, Session};
use amqp_engine_events::*;
use amqp_test_values::{begin, leak, plain_session};
use amqp_txn_types::{
    ConnectionStopReason, End, Frame, Frames, LinkFrame, SessionState, SessionStopReason,
};
use std::alloc::Global;
use std::process::Abort;

/// A frame of the session, on its channel.
pub fn frame(body: SessionFrameBody) -> SessionFrame {
    SessionFrame { channel: 3, body }
}

/// An end without an error.
pub fn plain_end() -> SessionFrameBody {
    SessionFrameBody::End(End { error: None })
}

/// A session of this side that sent its begin.
pub fn begun(alloc: Global) -> Option<ClientBegin<PlainSession>> {
    begun_over(alloc, plain_session(alloc, SessionState::Unmapped, 7))
}

/// That session, which sent its begin.
fn begun_over<S: Session>(alloc: Global, session: S) -> Option<ClientBegin<S>> {
    first_of(SessionEngine::begin_client_session(alloc, session))
}

/// The first value of an Ok.
pub fn first_of<T, U, E>(answer: Result<(T, U), E>) -> Option<T> {
    match answer {
        Ok((first, second)) => {
            leak(second);
            Some(first)
        }
        Err(refused) => {
            leak(refused);
            None
        }
    }
}

/// The engine of a session that the peer's begin made ready.
pub fn mapped(alloc: Global) -> Option<SessionEngine<PlainSession>> {
    match begun(alloc) {
        Some(begun) => made_ready(begun),
        None => None,
    }
}

fn made_ready<S: Session>(begun: ClientBegin<S>) -> Option<SessionEngine<S>> {
    match begun.on_frame(frame(SessionFrameBody::Begin(begin(7)))) {
        Ok(engine) => Some(engine),
        Err(refused) => {
            leak(refused);
            None
        }
    }
}

/// The engine of a session that sent its end.
pub fn ended(alloc: Global) -> Option<SessionEngine<PlainSession>> {
    match mapped(alloc) {
        Some(engine) => Some(end_sent(engine)),
        None => None,
    }
}

/// The engine, of which the session sent its end.
fn end_sent<S: Session>(mut engine: SessionEngine<S>) -> SessionEngine<S> {
    leak(told_to_end(&mut engine));
    engine
}

/// What the engine answers to a control. Like those below it says nothing of the session, so that
/// each call of the engine is proved once.
pub fn asked<S: Session + HandleDeclare + HandleDischarge>(
    engine: &mut SessionEngine<S>,
    control: SessionControl,
) -> Result<Turn, SessionInnerError> {
    engine.on_control(control, &mut CountIds::new())
}

/// What the engine answers to a frame that comes.
pub fn taken<S: Session>(
    engine: &mut SessionEngine<S>,
    body: SessionFrameBody,
) -> Result<Turn, SessionInnerError> {
    engine.on_incoming(frame(body))
}

/// What the engine answers to a frame of a link.
pub fn sent<S: Session>(
    engine: &mut SessionEngine<S>,
    frame: LinkFrame,
) -> Result<Turn, SessionInnerError> {
    engine.on_outgoing_link_frames(frame)
}

/// What the engine answers to a fault.
pub fn failed<S: Session>(
    engine: &mut SessionEngine<S>,
    fault: SessionInnerError,
) -> Result<Turn, SessionInnerError> {
    let answer = engine.on_error(&fault);
    leak(fault);
    answer
}

/// What the engine answers where it is told to end the session.
pub fn told_to_end<S: Session>(engine: &mut SessionEngine<S>) -> Result<Turn, SessionInnerError> {
    engine.end_session(None)
}

/// The connection of the engine's session was closed by the peer.
pub fn cut_off<S: Session>(engine: &mut SessionEngine<S>) {
    engine.note_connection_stop(ConnectionStopReason::RemoteClosed);
}

/// The session of the engine, and the outcome that it answers.
pub fn finished<S: Session>(
    engine: SessionEngine<S>,
    outcome: Result<(), SessionInnerError>,
) -> (S, Result<(), SessionInnerError>) {
    engine.finish(outcome)
}

/// The state of the engine's session.
pub fn state<S: Session>(engine: &SessionEngine<S>) -> SessionState {
    engine.session().local_state()
}

/// Whether the session stopped for this reason.
pub fn stopped_for<S: Session>(session: &S, reason: SessionStopReason) -> bool {
    let equal = session.session_stop_reason() == Some(&reason);
    leak(reason);
    equal
}

/// A turn that sends nothing.
pub fn quiet(alloc: Global, running: Running) -> Turn {
    turn(alloc, running, None)
}

/// A turn with an end to be sent.
pub fn turn(alloc: Global, running: Running, ended: Option<End>) -> Turn {
    Turn {
        running,
        sent: Answers {
            given: Frames::new(alloc),
            window: None,
        },
        ended,
        reply: ControlReply::Nothing,
    }
}

/// A turn with a reply.
pub fn replied(alloc: Global, reply: ControlReply) -> Turn {
    Turn {
        running: Running::Continue,
        sent: Answers {
            given: Frames::new(alloc),
            window: None,
        },
        ended: None,
        reply,
    }
}

/// The one frame that is to be sent.
pub fn only_frame(rt: &impl Abort, answer: Result<Turn, SessionInnerError>) -> Option<Frame> {
    let mut turn = answer.expect(rt, "a turn");
    let frame = turn.sent.given.items.pop();
    leak(turn);
    frame
}
