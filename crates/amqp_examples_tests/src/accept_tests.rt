//! Sessions that are accepted and begun, their links, and a controller on one.

use amqp_below_connections::{IncomingSession, MemoryConnection};
use amqp_engine_events::{SessionEngine, SessionFrame, SessionFrameBody};
use amqp_examples_accept::{
    Attached, accept_session, attach_control, begin_session, close_listener, hear_frame, next_link,
    take,
};
use amqp_examples_controller::{attach, poll_attach};
use amqp_links::{Poll, Progress};
use amqp_resource_accepted::AcceptedSession;
use amqp_test_values::{begin, control_attach, is_done, leak, plain_session, sender_attach};
use amqp_txn_types::{Attach, Frame, Role, SessionState, Text};
use std::alloc::Global;
use std::process::Abort;

/// A session that was accepted.
fn accepted(rt: &impl Abort, alloc: Global) -> AcceptedSession {
    let mut connection = MemoryConnection::new(alloc, 0);
    let peers = IncomingSession {
        channel: 3,
        begin: begin(7),
    };
    assert!(rt; is_done(connection.append_session(peers)));
    let answer = accept_session(alloc, &mut connection);
    leak(connection);
    match answer {
        Poll::Ready(Ok((session, sent))) => {
            leak(sent);
            session
        }
        other => {
            leak(other);
            panic!(rt; "no session")
        }
    }
}

/// A frame with an attach.
fn attaching(attach: Attach) -> SessionFrame {
    SessionFrame {
        channel: 3,
        body: SessionFrameBody::Link(Frame::Attach(attach)),
    }
}

/// The peer's attach of the control link of this side.
fn peers_attach(alloc: Global) -> Attach {
    let mut attach = control_attach(Text::new(alloc), 5);
    attach.role = Role::Receiver;
    attach
}

#[test]
fn a_link_is_accepted(rt: HostRuntime) {
    let alloc = rt.alloc();
    let AcceptedSession::Transactional(mut engine) = accepted(&rt, alloc) else {
        panic!(rt; "it is plain")
    };
    let attach = attaching(sender_attach(Text::new(alloc), 5, None));
    let heard = is_done(take(&mut engine, attach));
    let found = next_link(alloc, &mut engine);
    let is_found = matches!(&found, Ok(Some(_)));
    leak(found);
    close_listener(&mut engine);
    let after = next_link(alloc, &mut engine);
    let stopped = after.is_err();
    leak(after);
    leak(engine);
    assert!(rt; heard && is_found && stopped);
}

#[test]
fn a_session_begins(rt: HostRuntime) {
    let alloc = rt.alloc();
    let mut connection = MemoryConnection::new(alloc, 0);
    let begun = is_done(begin_session(alloc, &mut connection));
    leak(connection);
    assert!(rt; begun);
}

/// Whether the wait gave a controller.
fn is_attached(found: Attached) -> bool {
    let attached = matches!(&found, Progress::Ready(Ok(_)));
    leak(found);
    attached
}

#[test]
fn a_controller_is_attached_on_an_engine(rt: HostRuntime) {
    let alloc = rt.alloc();
    let session = plain_session(alloc, SessionState::Mapped, 7);
    let mut engine = SessionEngine::new(alloc, session);
    let asked = attach_control(alloc, &mut engine, Text::new(alloc));
    let (waiting, sent) = asked.expect(&rt, "an attach");
    leak(sent);
    let (turn, found) = hear_frame(&mut engine, attaching(peers_attach(alloc)), waiting);
    leak(engine);
    assert!(rt; is_done(turn));
    assert!(rt; is_attached(found));
}

#[test]
fn a_controller_waits_for_the_peer(rt: HostRuntime) {
    let alloc = rt.alloc();
    let mut session = plain_session(alloc, SessionState::Mapped, 7);
    let asked = attach(alloc, &mut session, Text::new(alloc));
    let (waiting, sent) = asked.expect(&rt, "an attach");
    leak(sent);
    let found = poll_attach(&mut session, waiting);
    leak(session);
    let is_pending = matches!(&found, Progress::Pending(_));
    leak(found);
    assert!(rt; is_pending);
}
