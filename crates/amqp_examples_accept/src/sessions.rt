//! Sessions of a connection.

use amqp_accept_links::ControlLinkAcceptor;
use amqp_below_connections::ConnectionEnd;
use amqp_below_sessions::{BeginError, PlainSession};
use amqp_engine_builder::Builder;
use amqp_engine_events::ClientBegin;
use amqp_links::Poll;
use amqp_resource_accepted::{AcceptedSession, SessionAcceptor};
use amqp_txn_types::{Begin, Handle};
use std::alloc::Global;

/// Accepts the session that waits longest, with transactions. The begin is to be sent.
pub fn accept_session<C: ConnectionEnd>(
    alloc: Global,
    connection: &mut C,
) -> Poll<Result<(AcceptedSession, Begin), BeginError>> {
    let acceptor = SessionAcceptor::builder()
        .control_link_acceptor(ControlLinkAcceptor::default())
        .build();
    let answer = acceptor.accept(alloc, connection);
    drop(acceptor);
    answer
}

/// Begins a session of this side. The begin is to be sent, and the peer's awaited.
pub fn begin_session<C: ConnectionEnd>(
    alloc: Global,
    connection: &mut C,
) -> Result<(ClientBegin<PlainSession>, Begin), BeginError> {
    let builder = Builder::new().incoming_window(100).handle_max(Handle(7));
    builder.begin(alloc, connection)
}
