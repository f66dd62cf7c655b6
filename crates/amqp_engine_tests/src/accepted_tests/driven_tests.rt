//! A transactional session over a listener, driven by its engine: a post is kept and handed at its
//! commit, one on a handle without a link is vetoed there, a plain frame is handed at once, an id
//! that isn't live stops it.

use crate::accepted_tests::engine_calls::{Engine, accepted, asked, committed, given_for, taken};
use crate::accepted_tests::test_values::transfer;
use amqp_below_layer::SessionInnerError;
use amqp_below_sessions::ListenerSessionEndpoint;
use amqp_engine_events::SessionControl;
use amqp_resource_session::{StopCode, numbered_id};
use amqp_test_values::{control_attach, leak, refuses, relay, sender_attach, under};
use amqp_txn_types::{Frame, InputHandle, Role, Text, TransactionError};
use std::alloc::Global;

/// A session with a receiver of its own on the handle of the posts, and a live id.
fn receiving(alloc: Global) -> Option<Engine> {
    let mut engine = accepted(alloc)?;
    let control = SessionControl::AllocateIncomingLink {
        link_name: Text::new(alloc),
        link_relay: relay(alloc, Role::Receiver),
        input_handle: InputHandle(5),
    };
    leak(asked(&mut engine, control));
    leak(asked(&mut engine, SessionControl::AllocateTransactionId));
    Some(engine)
}

#[test]
fn a_post_on_a_handle_without_a_link_is_vetoed(rt: HostRuntime) {
    let mut engine = accepted(rt.alloc()).expect(&rt, "a session");
    leak(asked(&mut engine, SessionControl::AllocateTransactionId));
    let id = numbered_id(1);
    let given = given_for(&mut engine, transfer(under(id)));
    let vetoed = committed(&mut engine, id);
    let still_live = engine.session().is_live(&id);
    leak(engine);
    assert!(rt; given == Some(1));
    assert!(rt; vetoed == Some(Err(TransactionError::Rollback)));
    assert!(rt; !still_live);
}

#[test]
fn a_post_is_kept_and_committed(rt: HostRuntime) {
    let mut engine = receiving(rt.alloc()).expect(&rt, "a session");
    let id = numbered_id(1);
    let live = engine.session().is_live(&id);
    let given = given_for(&mut engine, transfer(under(id)));
    let handed = committed(&mut engine, id);
    let still_live = engine.session().is_live(&id);
    leak(engine);
    assert!(rt; live);
    assert!(rt; given == Some(1));
    assert!(rt; handed == Some(Ok(1)));
    assert!(rt; !still_live);
}

#[test]
fn a_plain_frame_is_handed(rt: HostRuntime) {
    let alloc = rt.alloc();
    let mut engine = accepted(alloc).expect(&rt, "a session");
    let link = sender_attach(Text::new(alloc), 1, None);
    let given = given_for(&mut engine, Frame::Attach(link));
    let (mut session, outcome) = engine.finish(Ok(()));
    leak(outcome);
    let waits = session.next_attach();
    leak(session);
    assert!(rt; given == Some(0));
    assert!(rt; waits.is_some());
}

#[test]
fn an_id_that_is_not_live_stops_the_session(rt: HostRuntime) {
    let mut engine = accepted(rt.alloc()).expect(&rt, "a session");
    let answer = taken(&mut engine, transfer(under(numbered_id(1))));
    let code = engine.session().stop_code();
    let after = taken(&mut engine, transfer(None));
    leak(engine);
    assert!(rt; refuses(answer, SessionInnerError::UnknownTxnId));
    assert!(rt; code == Some(StopCode::UnknownTxnId));
    assert!(rt; refuses(after, SessionInnerError::IllegalState));
}

#[test]
fn a_control_link_is_opened(rt: HostRuntime) {
    let alloc = rt.alloc();
    let mut engine = accepted(alloc).expect(&rt, "a session");
    let given = given_for(
        &mut engine,
        Frame::Attach(control_attach(Text::new(alloc), 0)),
    );
    let opened = engine.session().links_opened();
    leak(engine);
    assert!(rt; given == Some(2));
    assert!(rt; opened == 1);
}
