//! The calls of a transactional session over a listener, without an engine, and over one that
//! accepts links at once: each succeeds where there is memory.

use crate::accepted_tests::test_values::{Listening, transfer};
use amqp_accept_at_once::AcceptingListener;
use amqp_accept_links::{ControlLinkAcceptor, LinkAcceptor};
use amqp_accept_listener::ListenerSession;
use amqp_below_ids::CountIds;
use amqp_below_layer::{LayerBelow, SessionInnerError};
use amqp_below_sessions::{HandleDeclare, NameState, PlainSession, Session};
use amqp_engine_builder::Builder;
use amqp_resource_session::{HandleControlLink, TxnSession, numbered_id};
use amqp_test_values::{
    begin, control_attach, detach, disposition, flow, is_done, leak, relay, sender_attach,
    transfer as transfer_on, under, value_of,
};
use amqp_txn_types::{
    ConnectionStopReason, End, Frame, Frames, Handle, IncomingChannel, InputHandle, LinkFlow,
    OutgoingChannel, OutputHandle, Role, SessionState, SessionStopReason, Text,
};
use std::alloc::Global;

/// A mapped session.
fn mapped(alloc: Global) -> Listening {
    let session = Builder::new().into_session(alloc, OutgoingChannel(4), SessionState::Mapped);
    let control = ControlLinkAcceptor::default();
    TxnSession::new(alloc, ListenerSession::new(alloc, session, control))
}

/// A session in this state over a listener that accepts links at once.
fn at_once(alloc: Global, state: SessionState) -> TxnSession<AcceptingListener<PlainSession>> {
    let session = Builder::new().into_session(alloc, OutgoingChannel(4), state);
    let listener = ListenerSession::new(alloc, session, ControlLinkAcceptor::default());
    let accepting = AcceptingListener::new(alloc, listener, LinkAcceptor::new());
    TxnSession::new(alloc, accepting)
}

/// Whether the session allocates an id.
fn allocates_id(session: &mut Listening) -> bool {
    let answer = session.allocate_transaction_id(&mut CountIds::new());
    let is_allocated = answer.is_ok();
    leak(answer);
    is_allocated
}

/// How many frames are given back; 100 where the call was refused.
fn count_given(answer: Result<Frames, SessionInnerError>) -> usize {
    let count = match &answer {
        Ok(given) => given.len(),
        Err(_) => 100,
    };
    leak(answer);
    count
}

/// How many frames are given back for a frame; 100 where it was refused.
fn heard(session: &mut Listening, frame: Frame) -> usize {
    count_given(session.on_incoming_frame(frame))
}

#[test]
fn a_post_is_kept_by_a_call(rt: HostRuntime) {
    let mut session = mapped(rt.alloc());
    let is_allocated = allocates_id(&mut session);
    let given = heard(&mut session, transfer(under(numbered_id(1))));
    leak(session);
    assert!(rt; is_allocated);
    assert!(rt; given == 1);
}

/// The number of a control link that is opened by a call, and how many frames are given back for
/// it.
fn opened_by_call(alloc: Global, session: &mut Listening) -> Option<(u64, usize)> {
    let attach = control_attach(Text::new(alloc), 0);
    let answer = session.on_incoming_control_attach(&attach);
    leak(attach);
    let (link, given) = value_of(answer)?;
    let count = given.len();
    leak(given);
    Some((link, count))
}

#[test]
fn a_control_link_is_opened_by_a_call(rt: HostRuntime) {
    let alloc = rt.alloc();
    let mut session = mapped(alloc);
    let opened = opened_by_call(alloc, &mut session);
    let again = opened_by_call(alloc, &mut session);
    let code = session.stop_code();
    leak(session);
    assert!(rt; opened == Some((0, 2)));
    assert!(rt; again == None);
    assert!(rt; code == None);
}

#[test]
fn a_control_link_is_opened_by_its_attach(rt: HostRuntime) {
    let alloc = rt.alloc();
    let mut session = mapped(alloc);
    let given = heard(
        &mut session,
        Frame::Attach(control_attach(Text::new(alloc), 0)),
    );
    let opened = session.links_opened();
    leak(session);
    assert!(rt; given == 2);
    assert!(rt; opened == 1);
}

/// Allocates a link of this side.
fn allocate<S: Session>(alloc: Global, session: &mut S) -> Option<OutputHandle> {
    let answer = session.allocate_link(Text::new(alloc), relay(alloc, Role::Receiver));
    value_of(answer)
}

/// Allocates a link that the peer attached on handle 5.
fn allocate_incoming<S: Session>(alloc: Global, session: &mut S) -> Option<OutputHandle> {
    let answer = session.allocate_incoming_link(
        Text::new(alloc),
        relay(alloc, Role::Receiver),
        InputHandle(5),
    );
    value_of(answer)
}

/// How the name of the links above is known.
fn known<S: Session>(alloc: Global, session: &S) -> NameState {
    session.name_state(&Text::new(alloc))
}

/// Whether a link of this side is allocated and freed, and then one that the peer attached.
fn allocates<S: Session>(alloc: Global, mut session: S) -> bool {
    let first = allocate(alloc, &mut session) == Some(OutputHandle(0));
    let waits = known(alloc, &session) == NameState::Waiting;
    let freed = session.deallocate_link(OutputHandle(0));
    let second = allocate_incoming(alloc, &mut session) == Some(OutputHandle(0));
    let taken = known(alloc, &session) == NameState::Taken;
    leak(session);
    first && waits && freed && second && taken
}

#[test]
fn links_are_allocated_and_freed(rt: HostRuntime) {
    let alloc = rt.alloc();
    assert!(rt; allocates(alloc, at_once(alloc, SessionState::Mapped)));
}

#[test]
fn frames_of_a_link_are_heard(rt: HostRuntime) {
    let alloc = rt.alloc();
    let mut session = mapped(alloc);
    assert!(rt; allocate_incoming(alloc, &mut session) == Some(OutputHandle(0)));
    assert!(rt; heard(&mut session, Frame::Flow(flow(Some(Handle(5))))) == 0);
    assert!(rt; heard(&mut session, transfer(None)) == 0);
    assert!(rt; heard(&mut session, Frame::Disposition(disposition(0))) == 0);
    assert!(rt; heard(&mut session, Frame::Detach(detach(5))) == 1);
    leak(session);
}

/// Whether the session passes what the link with output handle 0 is to send.
fn passes<S: Session>(alloc: Global, session: &mut S) -> bool {
    let attach = sender_attach(Text::new(alloc), 0, None);
    let attached = is_done(session.on_outgoing_attach(&attach));
    leak(attach);
    let answer = disposition(0);
    let disposed = is_done(session.on_outgoing_disposition(&answer));
    leak(answer);
    let last = detach(0);
    let detached = is_done(session.on_outgoing_detach(&last));
    leak(last);
    attached && disposed && detached
}

/// Whether the session sends a flow of the link, and owes none of its own.
fn grants<S: Session>(session: &mut S) -> bool {
    let granting = LinkFlow {
        link_credit: Some(1),
        ..LinkFlow::new(Handle(0))
    };
    let granted = is_done(session.on_outgoing_flow(granting));
    let owed = session.maybe_outgoing_session_flow();
    let none = owed.is_none();
    leak(owed);
    granted && none
}

/// Whether the session sends a transfer that continues a delivery.
fn continues<S: Session>(session: &mut S) -> bool {
    let mut sent = transfer_on(5).delivery_id(7);
    let answer = session.on_outgoing_transfer(InputHandle(5), &mut sent, false);
    leak(sent);
    is_done(answer)
}

/// Whether the session sends all frames of the link.
fn sends<S: Session>(alloc: Global, mut session: S) -> bool {
    let passed = passes(alloc, &mut session);
    let granted = grants(&mut session);
    let continued = continues(&mut session);
    leak(session);
    passed && granted && continued
}

#[test]
fn frames_of_a_link_are_sent(rt: HostRuntime) {
    let alloc = rt.alloc();
    assert!(rt; sends(alloc, at_once(alloc, SessionState::Mapped)));
}

/// Whether the session keeps why it and its connection stopped.
fn keeps_reasons<S: Session>(session: &mut S) -> bool {
    session.set_session_stop_reason(SessionStopReason::Ended);
    session.set_connection_stop_reason(ConnectionStopReason::Closed);
    session.session_stop_reason().is_some() && session.connection_stop_reason().is_some()
}

/// Whether the session ends, and takes the peer's end.
fn ends<S: Session>(session: &mut S) -> bool {
    let sent = is_done(session.send_end(None));
    let end = End { error: None };
    let taken = is_done(session.on_incoming_end(IncomingChannel(3), &end));
    leak(end);
    sent && taken && session.local_state() == SessionState::Unmapped
}

/// Whether the session keeps its reasons, and then ends.
fn stops<S: Session>(mut session: S) -> bool {
    let kept = keeps_reasons(&mut session);
    let ended = ends(&mut session);
    leak(session);
    kept && ended
}

#[test]
fn a_session_ends(rt: HostRuntime) {
    assert!(rt; stops(at_once(rt.alloc(), SessionState::Mapped)));
}

/// Whether the session begins, and takes the peer's begin.
fn begins<S: Session>(mut session: S) -> bool {
    let sent = is_done(session.send_begin());
    let taken = is_done(session.on_incoming_begin(IncomingChannel(3), begin(7)));
    let state = session.local_state();
    leak(session);
    sent && taken && state == SessionState::Mapped
}

#[test]
fn a_session_begins(rt: HostRuntime) {
    assert!(rt; begins(at_once(rt.alloc(), SessionState::Unmapped)));
}

#[test]
fn a_control_link_is_attached_below(rt: HostRuntime) {
    let alloc = rt.alloc();
    let mut session = at_once(alloc, SessionState::Mapped);
    let attach = control_attach(Text::new(alloc), 0);
    let given = count_given(session.on_control_attach(&attach));
    leak(attach);
    let opened = session.links_opened();
    leak(session);
    assert!(rt; given == 2);
    assert!(rt; opened == 0);
}
