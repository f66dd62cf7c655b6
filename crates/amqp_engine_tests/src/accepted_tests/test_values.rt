//! What the tests are made of.

use amqp_accept_links::ControlLinkAcceptor;
use amqp_accept_listener::ListenerSession;
use amqp_below_connections::{IncomingSession, MemoryConnection};
use amqp_below_sessions::{BeginError, PlainSession};
use amqp_links::Poll;
use amqp_resource_accepted::*;
use amqp_resource_session::TxnSession;
use amqp_test_values::{begin, leak, transfer as transfer_on};
use amqp_txn_types::{Begin, ConnectionStopReason, DeliveryState, Frame, Payload};
use std::alloc::Global;
use std::mem::replace;

/// A session that does transactions, whose peer's attaches wait.
pub type Listening = TxnSession<ListenerSession<PlainSession>>;

/// A session that the peer began on its channel 3.
pub fn incoming() -> IncomingSession {
    IncomingSession {
        channel: 3,
        begin: begin(7),
    }
}

/// A connection with one channel, on which so many sessions wait.
pub fn connection(alloc: Global, count: u8) -> MemoryConnection {
    let mut connection = MemoryConnection::new(alloc, 0);
    for _turn in 0..count {
        leak(connection.push_session(incoming()));
    }
    connection
}

/// The same, stopped by the peer.
pub fn stopped_connection(alloc: Global, count: u8) -> MemoryConnection {
    let mut connection = connection(alloc, count);
    connection.set_stop_reason(ConnectionStopReason::RemoteClosed);
    connection
}

/// An acceptor that accepts control links.
pub fn transactional() -> SessionAcceptor {
    SessionAcceptor::builder()
        .control_link_acceptor(ControlLinkAcceptor::default())
        .build()
}

/// The session that was accepted, where one was.
pub fn session_of(
    answer: Poll<Result<(AcceptedSession, Begin), BeginError>>,
) -> Option<AcceptedSession> {
    match answer {
        Poll::Pending => None,
        Poll::Ready(Ok((session, begin))) => {
            leak(begin);
            Some(session)
        }
        Poll::Ready(Err(error)) => {
            leak(error);
            None
        }
    }
}

/// What an acceptor answers, in a word.
pub fn word(answer: Poll<Result<(AcceptedSession, Begin), BeginError>>) -> &'static str {
    match answer {
        Poll::Pending => "pending",
        Poll::Ready(Ok((session, begin))) => {
            leak(begin);
            kind(session)
        }
        Poll::Ready(Err(error)) => error_word(error),
    }
}

fn kind(session: AcceptedSession) -> &'static str {
    let found = match &session {
        AcceptedSession::Plain(_) => "plain",
        AcceptedSession::Transactional(_) => "transactional",
    };
    leak(session);
    found
}

/// An error, in a word.
pub fn error_word(error: BeginError) -> &'static str {
    let found = match &error {
        BeginError::ConnectionStopped(ConnectionStopReason::RemoteClosed) => "stopped by the peer",
        BeginError::LocalChannelMaxReached => "no channel",
        _ => "another error",
    };
    leak(error);
    found
}

/// An unsettled transfer of a delivery on a handle that no link has.
pub fn transfer(state: Option<DeliveryState>) -> Frame {
    let mut transfer = transfer_on(5);
    transfer.delivery_id = Some(7);
    leak(replace(&mut transfer.state, state));
    Frame::Transfer {
        transfer,
        payload: Payload::new(),
    }
}
