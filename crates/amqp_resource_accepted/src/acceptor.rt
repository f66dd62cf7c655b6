//! The acceptor of sessions.

ghost use Rattle.std.specs.Prelude.{◌≡◌};
ghost use Rattle.amqp_engine_builder.specs.Builders.{default_builder};
ghost use Rattle.amqp_engine_events.specs.Begins.{StoppedEarly};
ghost use Rattle.amqp_resource_accepted.specs.Accepted.{AcceptsOn};
ghost use Rattle.amqp_resource_accepted.specs.Accepting.{AcceptsNext, AcceptsOrNoMemory};

use crate::accepted::{AcceptedSession, Parts, accept_parts, copy_parts};
use crate::acceptor_builder::SessionAcceptorBuilder;
use amqp_below_connections::{ConnectionEnd, IncomingSession};
use amqp_below_sessions::BeginError;
use amqp_engine_builder::Builder;
use amqp_links::Poll;
use amqp_txn_types::{Begin, ConnectionStopReason, OutgoingChannel, TryClone};
use std::alloc::Global;

/// Accepts sessions that the peer began, each as its builder says. Part 2 of the standard, section
/// 2.5.1 (establishing a session).
#[derive(Drop)]
pub struct SessionAcceptor(pub Builder);

impl Default for SessionAcceptor {
    ghost is_default = { λ acceptor. acceptor.0 ≡ default_builder };

    fn default() -> Self {
        SessionAcceptor(Builder::default())
    }
}

/// Why no session is accepted any more: a copy of the reason why the connection stopped, or that it
/// was closed. The copy may run out of memory.
fn stopped_early<C: ConnectionEnd>(connection: &C) -> BeginError
    ensures { StoppedEarly (C.told connection.now).stop result }
{
    match connection.stop_reason() {
        None => BeginError::ConnectionStopped(ConnectionStopReason::Closed),
        Some(reason) => match reason.try_clone() {
            Ok(copy) => BeginError::ConnectionStopped(copy),
            Err(_) => BeginError::NoMemory,
        },
    }
}

impl SessionAcceptor {
    /// An acceptor with the default builder.
    pub fn new() -> Self
        ensures { result.0 ≡ default_builder }
    {
        SessionAcceptor(Builder::new())
    }

    /// A builder of acceptors, whose fields are not set.
    pub fn builder() -> SessionAcceptorBuilder
        ensures { result ≡ default_builder }
    {
        SessionAcceptorBuilder::new()
    }

    /// Accepts a session that the peer began, on this channel of ours: it is ready, and its begin
    /// is to be sent. It is transactional exactly where the builder has an acceptor of control
    /// links. Later turns of the engine take their memory from `alloc`.
    ///
    /// # Errors
    ///
    /// `NoMemory` alone.
    pub fn accept_incoming_session(
        &self,
        alloc: Global,
        incoming: IncomingSession,
        channel: OutgoingChannel,
    ) -> Result<(AcceptedSession, Begin), BeginError>
        ensures { AcceptsOn self.now.0 incoming channel result }
    {
        let Ok(parts) = copy_parts(&self.0) else {
            drop(incoming);
            return Err(BeginError::NoMemory);
        };
        Ok(accept_parts(alloc, parts, incoming, channel))
    }

    /// Accepts the session that waits longest at the connection, on a channel that the connection
    /// gives. It is `Pending` where none waits and the connection hasn't stopped.
    ///
    /// # Errors
    ///
    /// - `NoMemory` where memory runs out for what the session is made of, which is copied first:
    ///   the connection is as it was then, and the session still waits.
    /// - `ConnectionStopped` where no session will come any more, with the reason that the
    ///   connection tells, or `Closed`; `NoMemory` where memory runs out for a copy of the reason.
    /// - What the connection refuses the channel for: `LocalChannelMaxReached` for
    ///   `ChannelMaxReached`, else the error of its name. The session that waited is dropped then.
    pub fn accept<C: ConnectionEnd>(
        &self,
        alloc: Global,
        connection: &mut C,
    ) -> Poll<Result<(AcceptedSession, Begin), BeginError>>
        ensures { AcceptsOrNoMemory C.told C.next_session_gives C.allocate_gives connection.old
            connection.new self.now.0 result }
    {
        let Ok(parts) = copy_parts(&self.0) else {
            return Poll::Ready(Err(BeginError::NoMemory));
        };
        accept_next(alloc, parts, connection)
    }
}

/// Accepts the session that waits longest at the connection: it is made of these parts.
fn accept_next<C: ConnectionEnd>(
    alloc: Global,
    parts: Parts,
    connection: &mut C,
) -> Poll<Result<(AcceptedSession, Begin), BeginError>>
    requires { parts.sent ≡ parts.begin }
    ensures { AcceptsNext C.told C.next_session_gives C.allocate_gives connection.old
        connection.new parts.control parts.begin result }
{
    let Poll::Ready(next) = connection.next_incoming_session() else {
        drop(parts);
        return Poll::Pending;
    };
    let Some(incoming) = next else {
        drop(parts);
        return Poll::Ready(Err(stopped_early(connection)));
    };
    match connection.allocate_session() {
        Ok(channel) => Poll::Ready(Ok(accept_parts(alloc, parts, incoming, channel))),
        Err(refused) => {
            drop(parts);
            drop(incoming);
            Poll::Ready(Err(BeginError::from(refused)))
        }
    }
}
