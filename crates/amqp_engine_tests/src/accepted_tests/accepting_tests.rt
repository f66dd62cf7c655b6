//! Sessions that are accepted and begun, on each answer of the connection.

use crate::accepted_tests::test_values::{
    connection, error_word, incoming, stopped_connection, transactional, word,
};
use amqp_accept_links::ControlLinkAcceptor;
use amqp_below_connections::MemoryConnection;
use amqp_below_layer::LayerBelow;
use amqp_below_sessions::Session;
use amqp_engine_builder::Builder;
use amqp_resource_accepted::*;
use amqp_test_values::{leak, value_of};
use amqp_txn_types::{OutgoingChannel, SessionState};
use std::alloc::Global;

/// What an acceptor answers, in a word.
fn accepted(alloc: Global, acceptor: SessionAcceptor, mut on: MemoryConnection) -> &'static str {
    let found = word(acceptor.accept(alloc, &mut on));
    leak(acceptor);
    leak(on);
    found
}

#[test]
fn a_session_that_waits_is_accepted(rt: HostRuntime) {
    let alloc = rt.alloc();
    let plain = accepted(alloc, SessionAcceptor::new(), connection(alloc, 1));
    assert!(rt; plain == "plain");
}

#[test]
fn a_session_with_control_links_is_accepted(rt: HostRuntime) {
    let alloc = rt.alloc();
    let accepted = accepted(alloc, transactional(), connection(alloc, 1));
    assert!(rt; accepted == "transactional");
}

#[test]
fn no_session_waits(rt: HostRuntime) {
    let alloc = rt.alloc();
    let pending = accepted(alloc, SessionAcceptor::default(), connection(alloc, 0));
    assert!(rt; pending == "pending");
}

#[test]
fn no_session_will_come(rt: HostRuntime) {
    let alloc = rt.alloc();
    let stopped = accepted(alloc, SessionAcceptor::new(), stopped_connection(alloc, 0));
    assert!(rt; stopped == "stopped by the peer");
}

#[test]
fn a_session_waits_on_a_stopped_connection(rt: HostRuntime) {
    let alloc = rt.alloc();
    let stopped = accepted(alloc, SessionAcceptor::new(), stopped_connection(alloc, 1));
    assert!(rt; stopped == "stopped by the peer");
}

#[test]
fn no_channel_is_left(rt: HostRuntime) {
    let alloc = rt.alloc();
    let mut on = connection(alloc, 2);
    let acceptor = SessionAcceptor::new();
    let first = word(acceptor.accept(alloc, &mut on));
    let second = word(acceptor.accept(alloc, &mut on));
    leak(acceptor);
    leak(on);
    assert!(rt; first == "plain");
    assert!(rt; second == "no channel");
}

/// Whether a session is accepted on this channel, with a begin that answers the peer's.
fn answers_peer(alloc: Global, acceptor: SessionAcceptor) -> bool {
    let answer = acceptor.accept_incoming_session(alloc, incoming(), OutgoingChannel(4));
    leak(acceptor);
    let Some((session, begin)) = value_of(answer) else {
        return false;
    };
    let channel = begin.remote_channel;
    leak(begin);
    channel == Some(3) && is_plain_on(session, OutgoingChannel(4))
}

/// Whether a session is mapped on this channel.
fn is_mapped_on<S: Session>(session: &S, channel: OutgoingChannel) -> bool {
    session.local_state() == SessionState::Mapped && session.outgoing_channel() == channel
}

/// Whether a session does no transactions, and is mapped on this channel.
fn is_plain_on(session: AcceptedSession, channel: OutgoingChannel) -> bool {
    let found = match &session {
        AcceptedSession::Plain(engine) => is_mapped_on(engine.session(), channel),
        AcceptedSession::Transactional(_) => false,
    };
    leak(session);
    found
}

#[test]
fn an_accepted_session_answers_the_peer(rt: HostRuntime) {
    assert!(rt; answers_peer(rt.alloc(), SessionAcceptor::new()));
}

/// What beginning a session answers, in a word.
fn begun(alloc: Global, builder: Builder, mut on: MemoryConnection) -> &'static str {
    let answer = begin(alloc, builder, &mut on);
    leak(on);
    match answer {
        Ok((session, begin)) => {
            leak(begin);
            began_kind(session)
        }
        Err(error) => error_word(error),
    }
}

fn began_kind(session: BeganSession) -> &'static str {
    let found = match &session {
        BeganSession::Plain(_) => "plain",
        BeganSession::Transactional(_) => "transactional",
    };
    leak(session);
    found
}

#[test]
fn a_session_of_this_side_begins(rt: HostRuntime) {
    let alloc = rt.alloc();
    assert!(rt; begun(alloc, Builder::new(), connection(alloc, 0)) == "plain");
}

#[test]
fn a_session_with_control_links_begins(rt: HostRuntime) {
    let alloc = rt.alloc();
    let builder = Builder::new().control_link_acceptor(ControlLinkAcceptor::default());
    assert!(rt; begun(alloc, builder, connection(alloc, 0)) == "transactional");
}

#[test]
fn no_session_begins_on_a_stopped_connection(rt: HostRuntime) {
    let alloc = rt.alloc();
    let builder = Builder::new().control_link_acceptor(ControlLinkAcceptor::default());
    let stopped = begun(alloc, builder, stopped_connection(alloc, 0));
    assert!(rt; stopped == "stopped by the peer");
}
