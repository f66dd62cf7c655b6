//! How a session of this side begins. Part 2 of the standard, section 2.5.1 (establishing a
//! session).

ghost use Rattle.std.specs.Prelude.{◌≡◌, IfErr};
ghost use Rattle.amqp_txn_types.specs.Counts.{Rose};
ghost use Rattle.amqp_below_sessions.specs.declared.stop_reason.StopReason.TheVariants as reasons;
ghost use Rattle.amqp_engine_events.specs.Begins.{FirstFrame, SendsBegin, StoppedEarly, TakesPeersBegin, begin_refusal, ended_early};
ghost use Rattle.amqp_engine_events.specs.Reasons.{KeepsStop};

use crate::engine::SessionEngine;
use crate::reasons::connection_stop_or_closed;
use crate::turn::{SessionFrame, SessionFrameBody};
use amqp_below_layer::SessionInnerError;
use amqp_below_sessions::{BeginError, Session};
use amqp_txn_types::{Begin, ConnectionStopReason, Error, IncomingChannel};
use std::alloc::Global;
use std::marker::Model;

/// A session of this side that sent its begin, and awaits the peer's.
#[derive(Drop)]
pub struct ClientBegin<S> {
    session: S,
    alloc: Global,
}

impl<S> Model for ClientBegin<S> {
    ghost Value = { S };

    ghost view = { λ begun. begun.session };
}

impl<S> ClientBegin<S> {
    /// A session whose begin was sent.
    pub(crate) fn new(alloc: Global, session: S) -> Self
        ensures { result ≡ session }
    {
        ClientBegin { session, alloc }
    }

    /// The session.
    pub fn session(&self) -> &S
        ensures { result.now ≡ self.now }
    {
        &self.session
    }
}

impl<S: Session> ClientBegin<S> {
    /// The first frame that comes for the session: the peer's begin makes it ready.
    ///
    /// # Errors
    ///
    /// Each comes with the session.
    ///
    /// - For a begin that the session refuses, its refusal by name where there is one of that name,
    ///   else `IllegalState`.
    /// - For an end `RemoteEnded` or `RemoteEndedWithError`; it isn't given to the session.
    /// - For a link's frame `IllegalState`; it isn't given to the session.
    pub fn on_frame(self, frame: SessionFrame) -> Result<SessionEngine<S>, (S, BeginError)>
        ensures { FirstFrame S.told S.kept S.names S.calls.begin_received self
            (record { 0 = frame.channel }) frame.body result }
    {
        let ClientBegin { session, alloc } = self;
        let channel = IncomingChannel(frame.channel);
        match frame.body {
            SessionFrameBody::Begin(begin) => take_peers_begin(alloc, session, channel, begin),
            SessionFrameBody::Link(link) => {
                drop(link);
                Err((session, BeginError::IllegalState))
            }
            SessionFrameBody::End(end) => Err((session, ended_early(end.error))),
        }
    }

    /// The connection stopped before the peer's begin came: the session, and `ConnectionStopped`
    /// with the reason that the session keeps, or `Closed`. Its copy may run out of memory.
    pub fn connection_stopped(self) -> (S, BeginError)
        ensures session { result.0 ≡ self }
        ensures error { StoppedEarly (S.kept self).connection result.1 }
    {
        let ClientBegin { session, alloc: _ } = self;
        match connection_stop_or_closed(&session) {
            Ok(reason) => (session, BeginError::ConnectionStopped(reason)),
            Err(_) => (session, BeginError::NoMemory),
        }
    }

    /// Keeps why the connection stopped. The first reason is kept.
    pub fn note_connection_stop(&mut self, reason: ConnectionStopReason)
        ensures { KeepsStop S.told S.kept S.names S.calls.stop self.old self.new
            (reasons.Connection reason) }
    {
        self.session.set_connection_stop_reason(reason);
    }
}

/// The session's begin is to be sent.
pub(crate) fn send_begin<S: Session>(mut session: S) -> Result<(S, Begin), (S, BeginError)>
    ensures begins { SendsBegin S.told S.kept S.names S.calls.begin_sent session result }
    ensures cause { IfErr result (λ refused.
        Rose (S.told session).refusals (S.told refused.0).refusals) }
{
    match session.send_begin() {
        Ok(begin) => Ok((session, begin)),
        Err(error) => Err((session, error)),
    }
}

/// The peer's begin is given to the session.
fn take_peers_begin<S: Session>(
    alloc: Global,
    mut session: S,
    channel: IncomingChannel,
    begin: Begin,
) -> Result<SessionEngine<S>, (S, BeginError)>
    ensures { TakesPeersBegin S.told S.kept S.names S.calls.begin_received session channel begin
        result }
{
    match session.on_incoming_begin(channel, begin) {
        Ok(()) => Ok(SessionEngine::new(alloc, session)),
        Err(fault) => Err((session, begin_refusal(fault))),
    }
}

/// A refusal of the peer's begin, by its name where there is one of it.
fn begin_refusal(fault: SessionInnerError) -> BeginError
    ensures { result ≡ begin_refusal fault }
{
    match fault {
        SessionInnerError::ConnectionStopped(reason) => BeginError::ConnectionStopped(reason),
        SessionInnerError::RemoteEnded => BeginError::RemoteEnded,
        SessionInnerError::RemoteEndedWithError(error) => BeginError::RemoteEndedWithError(error),
        SessionInnerError::NoMemory => BeginError::NoMemory,
        SessionInnerError::UnattachedHandle
        | SessionInnerError::RemoteAttachingLinkNameNotFound
        | SessionInnerError::HandleInUse
        | SessionInnerError::IllegalState
        | SessionInnerError::TransferFrameToSender
        | SessionInnerError::UnknownTxnId => BeginError::IllegalState,
    }
}

/// The peer ended the session before it began.
fn ended_early(error: Option<Error>) -> BeginError
    ensures { result ≡ ended_early error }
{
    match error {
        None => BeginError::RemoteEnded,
        Some(error) => BeginError::RemoteEndedWithError(error),
    }
}
