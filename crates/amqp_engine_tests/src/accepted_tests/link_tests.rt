//! The links of a session that was accepted: from the peer's begin and attaches to a post that is
//! committed.

use crate::accepted_tests::engine_calls::{
    Engine, asked, committed, given_for, transactional_engine,
};
use crate::accepted_tests::test_values::{connection, session_of, transactional, transfer};
use amqp_accept_links::{AcceptorAttachError, LinkAcceptor, LinkEndpoint, SessionHandle};
use amqp_below_sessions::ListenerSessionEndpoint;
use amqp_engine_events::{SessionControl, SessionEngine};
use amqp_links::Poll;
use amqp_resource_session::numbered_id;
use amqp_test_values::{control_attach, leak, sender_attach, under, value_of};
use amqp_txn_types::{Frame, Frames, OutputHandle, Text, TransactionId};
use std::alloc::Global;
use std::process::Abort;

/// What accepting a link answers.
pub type Accepted = Poll<Result<(LinkEndpoint, Frames), AcceptorAttachError>>;

/// What an acceptor of links answers for the attach that waits longest.
pub fn accept_link<S: ListenerSessionEndpoint>(
    alloc: Global,
    engine: &mut SessionEngine<S>,
) -> Accepted {
    let acceptor = LinkAcceptor::new();
    let mut handle = SessionHandle::new(engine.session_mut());
    let answer = acceptor.accept(alloc, &mut handle);
    drop(handle);
    leak(acceptor);
    answer
}

/// The session that waits at a connection, accepted.
fn accept_session(alloc: Global) -> Option<Engine> {
    let acceptor = transactional();
    let mut connection = connection(alloc, 1);
    let answer = acceptor.accept(alloc, &mut connection);
    leak(acceptor);
    leak(connection);
    transactional_engine(session_of(answer)?)
}

/// How many frames are to be sent for the attach of the peer's control link.
fn attach_control(alloc: Global, engine: &mut Engine) -> Option<usize> {
    given_for(engine, Frame::Attach(control_attach(Text::new(alloc), 0)))
}

/// How many frames are to be sent for the attach of the peer's sender.
fn attach_sender(alloc: Global, engine: &mut Engine) -> Option<usize> {
    let name = value_of(Text::from_str(alloc, "orders"))?;
    given_for(engine, Frame::Attach(sender_attach(name, 5, None)))
}

/// How many frames are to be sent for the receiver that was accepted, where one was.
fn frames_of_receiver(answer: Accepted) -> Option<usize> {
    let found = match &answer {
        Poll::Ready(Ok((LinkEndpoint::Receiver(_), frames))) => Some(frames.len()),
        _ => None,
    };
    leak(answer);
    found
}

/// How many transfers the layer below took for the receiver.
fn transfers_below(engine: &Engine) -> Option<u64> {
    let relay = engine.session().below().session().relay(OutputHandle(1))?;
    Some(relay.transfers)
}

/// A session with the peer's control link and a receiver for its sender.
fn with_links(rt: &impl Abort, alloc: Global) -> Engine {
    let mut engine = accept_session(alloc).expect(rt, "a session");
    assert!(rt; attach_control(alloc, &mut engine) == Some(2));
    assert!(rt; attach_sender(alloc, &mut engine) == Some(0));
    let receiver = accept_link(alloc, &mut engine);
    assert!(rt; frames_of_receiver(receiver) == Some(2));
    engine
}

/// How many frames are given back for a post under the id.
fn post(engine: &mut Engine, txn_id: TransactionId) -> Option<usize> {
    given_for(engine, transfer(under(txn_id)))
}

#[test]
fn a_post_on_an_accepted_link_is_committed(rt: HostRuntime) {
    let mut engine = with_links(&rt, rt.alloc());
    let id = numbered_id(1);
    leak(asked(&mut engine, SessionControl::AllocateTransactionId));
    let presumed = post(&mut engine, id);
    let held_back = transfers_below(&engine);
    let handed = committed(&mut engine, id);
    let taken = transfers_below(&engine);
    leak(engine);
    assert!(rt; presumed == Some(1));
    assert!(rt; held_back == Some(0));
    assert!(rt; handed == Some(Ok(1)));
    assert!(rt; taken == Some(1));
}

#[test]
fn no_link_waits(rt: HostRuntime) {
    let alloc = rt.alloc();
    let mut engine = accept_session(alloc).expect(&rt, "a session");
    let answer = accept_link(alloc, &mut engine);
    leak(engine);
    assert!(rt; matches!(&answer, Poll::Pending));
    leak(answer);
}
