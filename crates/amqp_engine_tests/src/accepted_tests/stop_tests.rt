//! What accepting a link answers once its session stopped, and who ended it closed its queue.

use crate::accepted_tests::link_tests::accept_link;
use crate::accepted_tests::test_values::{connection, session_of};
use amqp_accept_links::{AcceptorAttachError, LinkAcceptor, SessionHandle};
use amqp_accept_listener::ListenerSession;
use amqp_below_layer::SessionInnerError;
use amqp_below_sessions::{ListenerSessionEndpoint, PlainSession};
use amqp_engine_events::{SessionEngine, SessionFrame, SessionFrameBody};
use amqp_links::Poll;
use amqp_resource_accepted::*;
use amqp_test_values::{leak, same};
use amqp_txn_types::{ConnectionStopReason, End, SessionStopReason};
use std::alloc::Global;

/// The engine of a session that does no transactions.
type Engine = SessionEngine<ListenerSession<PlainSession>>;

/// The engine of a session that does no transactions, where it is one.
fn plain_engine(session: AcceptedSession) -> Option<Engine> {
    match session {
        AcceptedSession::Plain(engine) => Some(engine),
        AcceptedSession::Transactional(engine) => {
            leak(engine);
            None
        }
    }
}

/// The session that waits at a connection, accepted.
fn accept_session(alloc: Global) -> Option<Engine> {
    let acceptor = SessionAcceptor::new();
    let mut connection = connection(alloc, 1);
    let answer = acceptor.accept(alloc, &mut connection);
    leak(acceptor);
    leak(connection);
    plain_engine(session_of(answer)?)
}

/// Whether accepting a link answers that the session stopped for this reason.
fn tells_stop<T>(answer: Poll<Result<T, AcceptorAttachError>>, reason: SessionStopReason) -> bool {
    match answer {
        Poll::Ready(Err(error)) => same(error, AcceptorAttachError::SessionStopped(reason)),
        other => {
            leak(other);
            leak(reason);
            false
        }
    }
}

/// The peer's end comes, and the session's owner closes its queue.
fn end_by_peer(engine: &mut Engine) {
    let end = SessionFrameBody::End(End { error: None });
    leak(engine.on_incoming(SessionFrame {
        channel: 3,
        body: end,
    }));
    engine.session_mut().close_listener();
}

#[test]
fn a_session_that_the_peer_ended_is_told(rt: HostRuntime) {
    let alloc = rt.alloc();
    let mut engine = accept_session(alloc).expect(&rt, "a session");
    end_by_peer(&mut engine);
    let answer = accept_link(alloc, &mut engine);
    leak(engine);
    assert!(rt; tells_stop(answer, SessionStopReason::RemoteEnded));
}

/// What accepting a link answers once the peer closed the connection.
fn after_remote_close(alloc: Global, engine: Engine) -> bool {
    let stopped = SessionInnerError::ConnectionStopped(ConnectionStopReason::RemoteClosed);
    let (mut session, outcome) = engine.finish(Err(stopped));
    leak(outcome);
    session.close_listener();
    let acceptor = LinkAcceptor::new();
    let answer = acceptor.accept(alloc, &mut SessionHandle::new(&mut session));
    leak(acceptor);
    leak(session);
    tells_stop(
        answer,
        SessionStopReason::ConnectionStopped(ConnectionStopReason::RemoteClosed),
    )
}

#[test]
fn a_connection_that_the_peer_closed_is_told(rt: HostRuntime) {
    let alloc = rt.alloc();
    let engine = accept_session(alloc).expect(&rt, "a session");
    assert!(rt; after_remote_close(alloc, engine));
}
