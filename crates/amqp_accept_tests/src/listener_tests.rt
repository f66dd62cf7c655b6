//! What no clause says: that the calls succeed where there is memory.

use amqp_accept_links::ControlLinkAcceptor;
use amqp_accept_listener::ListenerSession;
use amqp_below_ids::CountIds;
use amqp_below_layer::{LayerBelow, SessionInnerError};
use amqp_below_sessions::{
    AllocLinkError, AllocTxnIdError, HandleDeclare, HandleDischarge, ListenerSessionEndpoint,
    NameState, PlainSession, Session,
};
use amqp_test_values::{
    control_attach, flow, gives, leak, plain_session, refuses, relay, sender_attach,
};
use amqp_txn_types::{
    Attach, Flow, Frames, Handle, InputHandle, OutputHandle, Role, SessionState, SessionStopReason,
    Text, TransactionError, TransactionId,
};
use std::alloc::Global;
use std::process::Abort;

/// A listener over a mapped session without links.
pub fn listener(alloc: Global) -> ListenerSession<PlainSession> {
    let plain = plain_session(alloc, SessionState::Mapped, 9);
    ListenerSession::new(alloc, plain, ControlLinkAcceptor::default())
}

/// A flow that grants credit to the link with a handle.
fn granting(handle: u32, credit: u32) -> Flow {
    let mut granting = flow(Some(Handle(handle)));
    granting.link_credit = Some(credit);
    granting
}

/// Whether the answer is an Ok with this many frames.
pub fn gives_frames(answer: Result<Frames, SessionInnerError>, count: usize) -> bool {
    let found = match &answer {
        Ok(given) => given.len() == count,
        Err(_) => false,
    };
    leak(answer);
    found
}

/// Whether there is none.
pub fn is_none<T>(value: Option<T>) -> bool {
    let none = value.is_none();
    leak(value);
    none
}

fn name(rt: &impl Abort, alloc: Global, name: &str) -> Text {
    Text::from_str(alloc, name).expect(rt, "an Ok")
}

/// The peer attaches a link.
fn attach_to<S: LayerBelow>(
    rt: &impl Abort,
    alloc: Global,
    session: &mut S,
    link: &str,
) -> Result<Frames, SessionInnerError> {
    session.on_incoming_attach(sender_attach(name(rt, alloc, link), 5, None))
}

/// The peer attaches the control link "c".
fn attach_control<S: LayerBelow>(
    rt: &impl Abort,
    alloc: Global,
    session: &mut S,
) -> Result<Frames, SessionInnerError> {
    let attach = control_attach(name(rt, alloc, "c"), 3);
    let answer = session.on_control_attach(&attach);
    leak(attach);
    answer
}

/// What an attach to a control link is answered.
fn hears_control<S: LayerBelow>(
    session: &mut S,
    attach: &Attach,
) -> Result<Frames, SessionInnerError> {
    session.on_control_attach(attach)
}

/// Whether a flow of that credit for the handle is an Ok without frames.
fn grants<S: LayerBelow>(session: &mut S, handle: u32, credit: u32) -> bool {
    gives_frames(session.on_incoming_flow(granting(handle, credit)), 0)
}

/// Whether the next attach that waits is of this name.
pub fn is_next<E: ListenerSessionEndpoint>(session: &mut E, name: &str) -> bool {
    let next = session.next_attach();
    let same = match &next {
        Some(attach) => attach.name.as_str() == name,
        None => false,
    };
    leak(next);
    same
}

/// Whether no attach waits.
pub fn none_waits<E: ListenerSessionEndpoint>(session: &mut E) -> bool {
    is_none(session.next_attach())
}

/// Closes the queue.
pub fn close<E: ListenerSessionEndpoint>(session: &mut E) {
    session.close_listener();
}

/// Whether the queue is closed.
pub fn is_closed<E: ListenerSessionEndpoint>(session: &E) -> bool {
    session.listener_closed()
}

/// Keeps the reason why the session stopped.
pub fn stop<S: Session>(session: &mut S, reason: SessionStopReason) {
    session.set_session_stop_reason(reason);
}

/// Whether the name is known so.
fn is_known<S: Session>(
    rt: &impl Abort,
    alloc: Global,
    session: &S,
    link: &str,
    state: NameState,
) -> bool {
    let link = name(rt, alloc, link);
    let known = session.name_state(&link);
    leak(link);
    known == state
}

/// Allocates a link of this side.
fn allocate<S: Session>(
    rt: &impl Abort,
    alloc: Global,
    session: &mut S,
    link: &str,
) -> Result<OutputHandle, AllocLinkError> {
    session.allocate_link(name(rt, alloc, link), relay(alloc, Role::Sender))
}

/// Allocates a link that the peer attached on handle 5.
fn allocate_incoming<S: Session>(
    rt: &impl Abort,
    alloc: Global,
    session: &mut S,
    link: &str,
) -> Result<OutputHandle, AllocLinkError> {
    let relay = relay(alloc, Role::Sender);
    session.allocate_incoming_link(name(rt, alloc, link), relay, InputHandle(5))
}

/// Whether two flows were passed on to a link, with these credits.
fn has_credits(session: &PlainSession, output: OutputHandle, first: u32, second: u32) -> bool {
    let Some(relay) = session.relay(output) else {
        return false;
    };
    match relay.flows.as_slice() {
        [one, other] => one.link_credit == Some(first) && other.link_credit == Some(second),
        _ => false,
    }
}

#[test]
fn attaches_wait_in_order(rt: HostRuntime) {
    let alloc = rt.alloc();
    let mut listener = listener(alloc);
    assert!(rt; gives_frames(attach_to(&rt, alloc, &mut listener, "a"), 0));
    assert!(rt; gives_frames(attach_to(&rt, alloc, &mut listener, "b"), 0));
    assert!(rt; is_next(&mut listener, "a"));
    assert!(rt; is_next(&mut listener, "b"));
    assert!(rt; none_waits(&mut listener));
    assert!(rt; !is_closed(&listener));
    leak(listener);
}

#[test]
fn a_closed_queue_refuses_by_the_name(rt: HostRuntime) {
    let alloc = rt.alloc();
    let mut listener = listener(alloc);
    assert!(rt;
        gives(
            allocate_incoming(&rt, alloc, &mut listener, "a"),
            OutputHandle(0)
        )
    );
    close(&mut listener);
    assert!(rt; is_closed(&listener));
    let taken = attach_to(&rt, alloc, &mut listener, "a");
    assert!(rt; refuses(taken, SessionInnerError::HandleInUse));
    let unknown = attach_to(&rt, alloc, &mut listener, "b");
    assert!(rt; refuses(unknown, SessionInnerError::UnattachedHandle));
    leak(listener);
}

#[test]
fn an_attach_that_is_waited_for_passes_the_queue(rt: HostRuntime) {
    let alloc = rt.alloc();
    let mut listener = listener(alloc);
    assert!(rt; gives(allocate(&rt, alloc, &mut listener, "a"), OutputHandle(0)));
    assert!(rt; gives_frames(attach_to(&rt, alloc, &mut listener, "a"), 0));
    assert!(rt; is_known(&rt, alloc, &listener, "a", NameState::Taken));
    assert!(rt; none_waits(&mut listener));
    leak(listener);
}

#[test]
fn held_flows_are_replayed_in_order(rt: HostRuntime) {
    let alloc = rt.alloc();
    let mut listener = listener(alloc);
    assert!(rt; grants(&mut listener, 5, 1));
    assert!(rt; grants(&mut listener, 6, 9));
    assert!(rt; grants(&mut listener, 5, 2));
    let allocated = allocate_incoming(&rt, alloc, &mut listener, "a");
    let output = allocated.expect(&rt, "an Ok");
    assert!(rt; has_credits(listener.session(), output, 1, 2));
    leak(listener);
}

#[test]
fn held_flows_stay_where_the_link_is_refused(rt: HostRuntime) {
    let alloc = rt.alloc();
    let mut listener = listener(alloc);
    assert!(rt; gives(allocate(&rt, alloc, &mut listener, "a"), OutputHandle(0)));
    assert!(rt; grants(&mut listener, 5, 1));
    assert!(rt; grants(&mut listener, 5, 2));
    let refused = allocate_incoming(&rt, alloc, &mut listener, "a");
    assert!(rt; refuses(refused, AllocLinkError::DuplicatedLinkName));
    let allocated = allocate_incoming(&rt, alloc, &mut listener, "b");
    let output = allocated.expect(&rt, "an Ok");
    assert!(rt; has_credits(listener.session(), output, 1, 2));
    leak(listener);
}

#[test]
fn a_control_link_is_answered(rt: HostRuntime) {
    let alloc = rt.alloc();
    let mut listener = listener(alloc);
    assert!(rt; gives_frames(attach_control(&rt, alloc, &mut listener), 2));
    let again = attach_control(&rt, alloc, &mut listener);
    assert!(rt; refuses(again, SessionInnerError::HandleInUse));
    stop(&mut listener, SessionStopReason::Ended);
    let stopped = attach_control(&rt, alloc, &mut listener);
    assert!(rt; refuses(stopped, SessionInnerError::IllegalState));
    leak(listener);
}

#[test]
fn a_link_to_no_coordinator_is_no_control_link(rt: HostRuntime) {
    let alloc = rt.alloc();
    let mut listener = listener(alloc);
    let attach = sender_attach(name(&rt, alloc, "c"), 5, None);
    let answer = hears_control(&mut listener, &attach);
    leak(attach);
    assert!(rt; refuses(answer, SessionInnerError::IllegalState));
    assert!(rt; is_known(&rt, alloc, &listener, "c", NameState::Unknown));
    assert!(rt; gives_frames(attach_control(&rt, alloc, &mut listener), 2));
    leak(listener);
}

/// Each call for a transaction is refused.
fn does_no_transactions<S: HandleDeclare + HandleDischarge>(rt: &impl Abort, session: &mut S) {
    let id = TransactionId::from([7; 16]);
    let allocated = session.allocate_transaction_id(&mut CountIds::new());
    assert!(rt; refuses(allocated, AllocTxnIdError::NotImplemented));
    let unknown = TransactionError::UnknownId;
    assert!(rt; gives(session.commit_transaction(&id), Err(unknown)));
    assert!(rt; refuses(session.rollback_transaction(&id), unknown));
}

#[test]
fn a_listener_does_no_transactions(rt: HostRuntime) {
    let mut listener = listener(rt.alloc());
    does_no_transactions(&rt, &mut listener);
    leak(listener);
}
