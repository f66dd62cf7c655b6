//! How a session ends. Part 2 of the standard, section 2.5.2 (ending a session).

ghost use Rattle.std.specs.Prelude.{◌≡◌, false, is_some, not};
ghost use Rattle.amqp_txn_types.specs.Counts.{Rose};
ghost use Rattle.amqp_engine_events.specs.Calls.{OrNoCopy};
ghost use Rattle.amqp_engine_events.specs.Ends.{AnswersOutcome, EndsSession, Finishes, KeepsAndAnswers, KeepsAndEnds, PeerAnswersEnd, PeerEnds, SendsEnd, TakesEnd, answer_of};
ghost use Rattle.amqp_engine_events.specs.Reasons.{copies_local, stop_of_outcome};
ghost use Rattle.amqp_engine_events.specs.States.{takes_end};
ghost use Rattle.amqp_engine_events.specs.Turns.{CausedBy};

use crate::reasons::{connection_stop_for, local_stop, remote_stop};
use crate::turn::{Running, Turn, quiet, sending_end};
use amqp_below_layer::SessionInnerError;
use amqp_below_sessions::Session;
use amqp_txn_types::{End, Error, IncomingChannel, SessionState, SessionStopReason, TryClone};
use std::alloc::Global;

/// Sends the session's end.
fn send_end<S: Session>(
    alloc: Global,
    session: &mut S,
    error: Option<Error>,
    running: Running,
) -> Result<Turn, SessionInnerError>
    ensures sends { SendsEnd S.told S.kept S.names S.calls.end_sent session.old session.new error
        running result }
    ensures cause { CausedBy false (Rose (S.told session.old).refusals
        (S.told session.new).refusals) result }
{
    match session.send_end(error) {
        Ok(end) => Ok(sending_end(alloc, running, end)),
        Err(fault) => Err(fault),
    }
}

/// Ends the session, by its state: its end is sent where it still owes one.
pub(crate) fn end_session<S: Session>(
    alloc: Global,
    session: &mut S,
    error: Option<Error>,
) -> Result<Turn, SessionInnerError>
    ensures ends { EndsSession S.told S.kept S.names S.calls.end_sent session.old session.new error
        result }
    ensures cause { CausedBy false (Rose (S.told session.old).refusals
        (S.told session.new).refusals) result }
{
    match session.local_state() {
        SessionState::Unmapped => Ok(quiet(alloc, Running::Stop)),
        SessionState::BeginSent | SessionState::BeginReceived | SessionState::Mapped => {
            send_end(alloc, session, error, Running::Waiting)
        }
        SessionState::EndSent | SessionState::Discarding => Ok(quiet(alloc, Running::Waiting)),
        SessionState::EndReceived => send_end(alloc, session, error, Running::Stop),
    }
}

/// Ends the session since its owner asks for it. The reason is copied before anything is changed.
pub(crate) fn end_by_control<S: Session>(
    alloc: Global,
    session: &mut S,
    error: Option<Error>,
) -> Result<Turn, SessionInnerError>
    ensures ends { OrNoCopy (copies_local error (S.kept session.old).connection) session.old
        session.new
        (KeepsAndEnds S.told S.kept S.names S.calls.stop S.calls.end_sent session.old session.new
        error result) result }
    ensures cause { CausedBy false (Rose (S.told session.old).refusals
        (S.told session.new).refusals) result }
{
    let reason = local_stop(session, &error)?;
    session.set_session_stop_reason(reason);
    end_session(alloc, session, error)
}

/// Keeps why the peer ended the session, and answers its end.
fn answer_end<S: Session>(
    alloc: Global,
    session: &mut S,
    reason: SessionStopReason,
) -> Result<Turn, SessionInnerError>
    ensures answers { KeepsAndAnswers S.told S.kept S.names S.calls.stop S.calls.end_sent
        session.old session.new reason result }
    ensures cause { CausedBy false (Rose (S.told session.old).refusals
        (S.told session.new).refusals) result }
{
    session.set_session_stop_reason(reason);
    send_end(alloc, session, None, Running::Stop)
}

/// The peer ends a session in which frames pass. What is kept of the connection is copied before
/// anything is changed.
fn peer_ends<S: Session>(
    alloc: Global,
    session: &mut S,
    channel: IncomingChannel,
    end: End,
) -> Result<Turn, SessionInnerError>
    ensures ends { PeerEnds S.told S.kept S.names S.calls.end_received S.calls.stop S.calls.end_sent
        session.old session.new channel end result }
    ensures cause { CausedBy false (Rose (S.told session.old).refusals
        (S.told session.new).refusals) result }
{
    let connection = connection_stop_for(session, &end)?;
    session.on_incoming_end(channel, &end)?;
    answer_end(alloc, session, remote_stop(end.error, connection))
}

/// The end that was awaited has come.
fn peer_answers_end<S: Session>(
    alloc: Global,
    session: &mut S,
    channel: IncomingChannel,
    end: &End,
) -> Result<Turn, SessionInnerError>
    ensures answers { PeerAnswersEnd S.told S.kept S.names S.calls.end_received session.old
        session.new channel end.now result }
    ensures cause { CausedBy false (Rose (S.told session.old).refusals
        (S.told session.new).refusals) result }
{
    match session.on_incoming_end(channel, end) {
        Ok(()) => Ok(quiet(alloc, Running::Stop)),
        Err(fault) => Err(fault),
    }
}

/// An end of the peer's comes, which is answered where none was sent.
pub(crate) fn take_end<S: Session>(
    alloc: Global,
    session: &mut S,
    channel: IncomingChannel,
    end: End,
) -> Result<Turn, SessionInnerError>
    ensures takes { TakesEnd S.told S.kept S.names S.calls.end_received S.calls.stop
        S.calls.end_sent session.old session.new channel end result }
    ensures cause { CausedBy (not (takes_end (S.told session.old).fixed.state))
        (Rose (S.told session.old).refusals (S.told session.new).refusals) result }
{
    match session.local_state() {
        SessionState::Mapped => peer_ends(alloc, session, channel, end),
        SessionState::EndSent | SessionState::Discarding => {
            peer_answers_end(alloc, session, channel, &end)
        }
        SessionState::Unmapped
        | SessionState::BeginSent
        | SessionState::BeginReceived
        | SessionState::EndReceived => Err(SessionInnerError::IllegalState),
    }
}

/// What is answered for an outcome: that the connection stopped is no fault of the session.
fn answer_of(outcome: Result<(), SessionInnerError>) -> Result<(), SessionInnerError>
    ensures { result ≡ answer_of outcome }
{
    match outcome {
        Err(SessionInnerError::ConnectionStopped(_)) => Ok(()),
        other => other,
    }
}

/// The reason that an outcome tells, and what is answered for it.
fn reason_and_answer(
    outcome: Result<(), SessionInnerError>,
) -> (SessionStopReason, Result<(), SessionInnerError>)
    ensures reason { result.0 ≡ stop_of_outcome outcome }
    ensures answer { AnswersOutcome false outcome result.1 }
{
    match outcome {
        Err(SessionInnerError::ConnectionStopped(reason)) => {
            (SessionStopReason::ConnectionStopped(reason), Ok(()))
        }
        Err(SessionInnerError::RemoteEndedWithError(error)) => {
            let answer = match error.try_clone() {
                Ok(copy) => SessionInnerError::RemoteEndedWithError(copy),
                Err(_) => SessionInnerError::NoMemory,
            };
            (SessionStopReason::RemoteEndedWithError(error), Err(answer))
        }
        Err(SessionInnerError::RemoteEnded) => (
            SessionStopReason::RemoteEnded,
            Err(SessionInnerError::RemoteEnded),
        ),
        other => (SessionStopReason::Ended, other),
    }
}

/// Whether it is kept why the session stopped.
fn has_stopped<S: Session>(session: &S) -> bool
    ensures { result ≡ is_some (S.kept session.now).stop }
{
    match session.session_stop_reason() {
        None => false,
        Some(_) => true,
    }
}

/// Keeps the reason that the outcome tells, where none is kept.
pub(crate) fn finish<S: Session>(
    session: &mut S,
    outcome: Result<(), SessionInnerError>,
) -> Result<(), SessionInnerError>
    ensures keeps { Finishes S.told S.kept S.names S.calls.stop session.old session.new outcome }
    ensures answer { AnswersOutcome (is_some (S.kept session.old).stop) outcome result }
{
    if has_stopped(session) {
        return answer_of(outcome);
    }
    let (reason, answer) = reason_and_answer(outcome);
    session.set_session_stop_reason(reason);
    answer
}
