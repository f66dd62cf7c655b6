//! The plain session, called as its users call it.

use amqp_below_ids::CountIds;
use amqp_below_layer::{Answers, LayerBelow, SessionInnerError, Verdict, take_frame};
use amqp_below_sessions::*;
use amqp_test_values::{
    begin, detach, disposition, flow, gives, is_done, judges, leak, plain_session, refuses, relay,
    sender_attach, takes_work, transfer,
};
use amqp_txn_types::{
    ConnectionStopReason, End, Flow, Frame, Frames, Handle, IncomingChannel, InputHandle, LinkFlow,
    LinkFlows, OutputHandle, Payload, Role, SessionState, SessionStopReason, Text,
    TransactionError, TransactionId,
};
use std::alloc::Global;
use std::process::Abort;

fn link_flow(handle: u32) -> LinkFlow {
    LinkFlow {
        link_credit: Some(10),
        ..LinkFlow::new(Handle(handle))
    }
}

fn name_of(rt: &impl Abort, alloc: Global, name: &str) -> Text {
    Text::from_str(alloc, name).expect(rt, "an Ok")
}

/// Allocates a link of this side's receiver.
fn allocate<S: Session>(
    rt: &impl Abort,
    alloc: Global,
    session: &mut S,
    name: &str,
) -> Result<OutputHandle, AllocLinkError> {
    session.allocate_link(name_of(rt, alloc, name), relay(alloc, Role::Receiver))
}

/// The peer attaches a link on handle 5.
fn attach_to<S: LayerBelow>(
    rt: &impl Abort,
    alloc: Global,
    below: &mut S,
    name: &str,
) -> Result<Frames, SessionInnerError> {
    below.on_incoming_attach(sender_attach(name_of(rt, alloc, name), 5, None))
}

/// A transfer of one octet comes.
fn transfer_to<S: LayerBelow>(
    rt: &impl Abort,
    alloc: Global,
    below: &mut S,
    handle: u32,
) -> Result<Frames, SessionInnerError> {
    let payload = Payload::from_slice(alloc, b"m").expect(rt, "an Ok");
    below.on_incoming_transfer(transfer(handle), payload)
}

/// Whether the name is known so.
fn is_known<S: Session>(
    rt: &impl Abort,
    alloc: Global,
    session: &S,
    name: &str,
    state: NameState,
) -> bool {
    let name = name_of(rt, alloc, name);
    let known = session.name_state(&name);
    leak(name);
    known == state
}

/// Frees a link: whether there was one.
fn frees<S: Session>(session: &mut S, output: u32) -> bool {
    session.deallocate_link(OutputHandle(output))
}

#[test]
fn a_transfer_on_an_unmapped_handle_is_refused(rt: HostRuntime) {
    let alloc = rt.alloc();
    let mut plain = plain_session(alloc, SessionState::Mapped, 9);
    let answer = transfer_to(&rt, alloc, &mut plain, 4);
    assert!(rt; refuses(answer, SessionInnerError::UnattachedHandle));
    leak(plain);
}

#[test]
fn a_name_is_allocated_once(rt: HostRuntime) {
    let alloc = rt.alloc();
    let mut plain = plain_session(alloc, SessionState::Mapped, 9);
    assert!(rt; gives(allocate(&rt, alloc, &mut plain, "a"), OutputHandle(0)));
    assert!(rt; is_known(&rt, alloc, &plain, "a", NameState::Waiting));
    let again = allocate(&rt, alloc, &mut plain, "a");
    assert!(rt; refuses(again, AllocLinkError::DuplicatedLinkName));
    leak(plain);
}

#[test]
fn a_freed_handle_comes_next(rt: HostRuntime) {
    let alloc = rt.alloc();
    let mut plain = plain_session(alloc, SessionState::Mapped, 9);
    assert!(rt; gives(allocate(&rt, alloc, &mut plain, "a"), OutputHandle(0)));
    assert!(rt; frees(&mut plain, 0));
    assert!(rt; !frees(&mut plain, 0));
    assert!(rt; gives(allocate(&rt, alloc, &mut plain, "b"), OutputHandle(0)));
    leak(plain);
}

#[test]
fn the_last_freed_handle_comes_first(rt: HostRuntime) {
    let alloc = rt.alloc();
    let mut plain = plain_session(alloc, SessionState::Mapped, 9);
    assert!(rt; is_done(allocate(&rt, alloc, &mut plain, "a")));
    assert!(rt; is_done(allocate(&rt, alloc, &mut plain, "b")));
    assert!(rt; is_done(allocate(&rt, alloc, &mut plain, "c")));
    assert!(rt; frees(&mut plain, 0));
    assert!(rt; frees(&mut plain, 2));
    assert!(rt; frees(&mut plain, 1));
    assert!(rt; gives(allocate(&rt, alloc, &mut plain, "d"), OutputHandle(1)));
    assert!(rt; gives(allocate(&rt, alloc, &mut plain, "e"), OutputHandle(2)));
    assert!(rt; gives(allocate(&rt, alloc, &mut plain, "f"), OutputHandle(0)));
    leak(plain);
}

/// Allocates the link "a" of this side, which the peer attached on handle 5.
fn allocate_as<S: Session>(
    rt: &impl Abort,
    alloc: Global,
    session: &mut S,
    role: Role,
) -> Result<OutputHandle, AllocLinkError> {
    let relay = relay(alloc, role);
    session.allocate_incoming_link(name_of(rt, alloc, "a"), relay, InputHandle(5))
}

/// The same of this side's receiver.
fn allocate_incoming<S: Session>(
    rt: &impl Abort,
    alloc: Global,
    session: &mut S,
) -> Result<OutputHandle, AllocLinkError> {
    allocate_as(rt, alloc, session, Role::Receiver)
}

#[test]
fn an_incoming_link_is_taken_at_once(rt: HostRuntime) {
    let alloc = rt.alloc();
    let mut plain = plain_session(alloc, SessionState::Mapped, 9);
    assert!(rt; gives(allocate_incoming(&rt, alloc, &mut plain), OutputHandle(0)));
    assert!(rt; is_known(&rt, alloc, &plain, "a", NameState::Taken));
    let again = allocate_incoming(&rt, alloc, &mut plain);
    assert!(rt; refuses(again, AllocLinkError::DuplicatedLinkName));
    leak(plain);
}

#[test]
fn the_relay_keeps_a_flow(rt: HostRuntime) {
    let alloc = rt.alloc();
    let mut plain = plain_session(alloc, SessionState::Mapped, 9);
    let output = allocate_incoming(&rt, alloc, &mut plain).expect(&rt, "an Ok");
    let mut came = flow(Some(Handle(5)));
    came.link_credit = Some(10);
    assert!(rt; hears_flow(&mut plain, came));
    let mut wanted = LinkFlows::new(alloc);
    assert!(rt; is_done(wanted.push(link_flow(5))));
    assert!(rt; keeps_flows(&plain, output, &wanted));
    leak(wanted);
    leak(plain);
}

/// Whether a flow that comes is an Ok.
fn hears_flow<S: LayerBelow>(below: &mut S, flow: Flow) -> bool {
    is_done(below.on_incoming_flow(flow))
}

/// Whether these flows are kept for the link.
fn keeps_flows(plain: &PlainSession, output: OutputHandle, wanted: &LinkFlows) -> bool {
    match plain.relay(output) {
        None => false,
        Some(relay) => relay.flows == *wanted,
    }
}

/// A transfer of one octet, which is no work of a transaction.
fn plain_transfer(rt: &impl Abort, alloc: Global, handle: u32) -> Frame {
    Frame::Transfer {
        transfer: transfer(handle),
        payload: Payload::from_slice(alloc, b"m").expect(rt, "an Ok"),
    }
}

/// The answer to a plain transfer after which the peer's next one has this id.
fn told_window(alloc: Global, next_incoming_id: u32) -> Answers {
    let mut told = flow(None);
    told.next_incoming_id = Some(next_incoming_id);
    Answers {
        given: Frames::new(alloc),
        window: Some(told),
    }
}

#[test]
fn each_transfer_of_a_run_tells_a_window_of_two(rt: HostRuntime) {
    let alloc = rt.alloc();
    let mut plain = plain_session(alloc, SessionState::BeginSent, 9);
    assert!(rt; hears_begin(&mut plain, 9));
    assert!(rt; is_done(allocate_incoming(&rt, alloc, &mut plain)));
    let first = plain_transfer(&rt, alloc, 5);
    assert!(rt; takes_so(&mut plain, first, told_window(alloc, 1)));
    let second = plain_transfer(&rt, alloc, 5);
    assert!(rt; takes_so(&mut plain, second, told_window(alloc, 2)));
    leak(plain);
}

/// Whether the peer's begin is an Ok.
fn hears_begin<S: Session>(session: &mut S, handle_max: u32) -> bool {
    is_done(session.on_incoming_begin(IncomingChannel(3), begin(handle_max)))
}

/// Whether a frame is taken, and answered so.
fn takes_so<S: LayerBelow>(below: &mut S, frame: Frame, wanted: Answers) -> bool {
    gives(take_frame(below, frame), wanted)
}

#[test]
fn no_handle_above_the_greatest(rt: HostRuntime) {
    let alloc = rt.alloc();
    let mut plain = plain_session(alloc, SessionState::Mapped, 0);
    assert!(rt; gives(allocate(&rt, alloc, &mut plain, "a"), OutputHandle(0)));
    let next = allocate(&rt, alloc, &mut plain, "b");
    assert!(rt; refuses(next, AllocLinkError::HandleMaxReached));
    leak(plain);
}

#[test]
fn a_link_lives_from_attach_to_detach(rt: HostRuntime) {
    let alloc = rt.alloc();
    let mut plain = plain_session(alloc, SessionState::Mapped, 9);
    assert!(rt; is_done(allocate(&rt, alloc, &mut plain, "a")));
    assert!(rt; is_done(attach_to(&rt, alloc, &mut plain, "a")));
    assert!(rt; is_known(&rt, alloc, &plain, "a", NameState::Taken));
    assert!(rt; is_done(transfer_to(&rt, alloc, &mut plain, 5)));
    assert!(rt; hears_detach(&mut plain));
    assert!(rt; is_known(&rt, alloc, &plain, "a", NameState::Unknown));
    leak(plain);
}

/// Whether a detach of handle 5 is an Ok.
fn hears_detach<S: LayerBelow>(below: &mut S) -> bool {
    is_done(below.on_incoming_detach(detach(5)))
}

#[test]
fn the_window_is_told_once(rt: HostRuntime) {
    let alloc = rt.alloc();
    let mut plain = plain_session(alloc, SessionState::Mapped, 9);
    assert!(rt; is_done(allocate(&rt, alloc, &mut plain, "a")));
    assert!(rt; is_done(attach_to(&rt, alloc, &mut plain, "a")));
    assert!(rt; is_done(transfer_to(&rt, alloc, &mut plain, 5)));
    assert!(rt; tells_window(&mut plain));
    assert!(rt; !tells_window(&mut plain));
    leak(plain);
}

/// Whether there is a window to tell.
fn tells_window<S: LayerBelow>(below: &mut S) -> bool {
    is_some(below.maybe_outgoing_session_flow())
}

/// Whether there is one.
fn is_some<T>(answer: Option<T>) -> bool {
    let some = answer.is_some();
    leak(answer);
    some
}

/// A session begins, and ends on this side first.
fn begins_and_ends<S: Session>(rt: &impl Abort, session: &mut S) {
    assert!(rt; hears_begin(session, 4));
    assert!(rt; is_done(session.send_begin()));
    assert!(rt; session.local_state() == SessionState::Mapped);
    assert!(rt; gives(session.send_end(None), End { error: None }));
    assert!(rt; session.local_state() == SessionState::EndSent);
    let end = End { error: None };
    assert!(rt; is_done(session.on_incoming_end(IncomingChannel(3), &end)));
    leak(end);
    assert!(rt; session.local_state() == SessionState::Unmapped);
}

#[test]
fn a_session_begins_and_ends(rt: HostRuntime) {
    let mut plain = plain_session(rt.alloc(), SessionState::Unmapped, 9);
    begins_and_ends(&rt, &mut plain);
    leak(plain);
}

/// What goes out is answered by whether a first transfer has a tag.
fn checks_what_goes_out<S: Session>(rt: &impl Abort, session: &mut S) {
    let mut sent = transfer(0);
    let untagged = session.on_outgoing_transfer(InputHandle(2), &mut sent, true);
    assert!(rt; refuses(untagged, SessionInnerError::IllegalState));
    assert!(rt; is_done(session.on_outgoing_transfer(InputHandle(2), &mut sent, false)));
    leak(sent);
    assert!(rt; is_done(session.on_outgoing_flow(link_flow(0))));
    let answer = disposition(0);
    assert!(rt; is_done(session.on_outgoing_disposition(&answer)));
    leak(answer);
    let last = detach(0);
    assert!(rt; is_done(session.on_outgoing_detach(&last)));
    leak(last);
}

#[test]
fn what_goes_out_is_checked(rt: HostRuntime) {
    let mut plain = plain_session(rt.alloc(), SessionState::Mapped, 9);
    checks_what_goes_out(&rt, &mut plain);
    leak(plain);
}

/// Each call for a transaction is refused.
pub fn does_no_transactions<S: HandleDeclare + HandleDischarge>(rt: &impl Abort, session: &mut S) {
    let id = TransactionId::from([7; 16]);
    let allocated = session.allocate_transaction_id(&mut CountIds::new());
    assert!(rt; refuses(allocated, AllocTxnIdError::NotImplemented));
    let unknown = TransactionError::UnknownId;
    assert!(rt; gives(session.commit_transaction(&id), Err(unknown)));
    assert!(rt; refuses(session.rollback_transaction(&id), unknown));
}

/// Two stop reasons are given, and one of the connection.
fn stops<S: Session>(session: &mut S) {
    session.set_session_stop_reason(SessionStopReason::Ended);
    session.set_session_stop_reason(SessionStopReason::RemoteEnded);
    session.set_connection_stop_reason(ConnectionStopReason::Closed);
}

#[test]
fn the_first_stop_reason_is_kept(rt: HostRuntime) {
    let alloc = rt.alloc();
    let mut plain = plain_session(alloc, SessionState::Mapped, 9);
    stops(&mut plain);
    let stopped = allocate(&rt, alloc, &mut plain, "a");
    let wanted = AllocLinkError::SessionStopped(SessionStopReason::Ended);
    assert!(rt; refuses(stopped, wanted));
    leak(plain);
}

#[test]
fn a_plain_session_does_no_transactions(rt: HostRuntime) {
    let alloc = rt.alloc();
    let mut plain = plain_session(alloc, SessionState::Mapped, 9);
    does_no_transactions(&rt, &mut plain);
    leak(plain);
}

#[test]
fn a_plain_session_takes_what_it_accepted(rt: HostRuntime) {
    let alloc = rt.alloc();
    let mut plain = plain_session(alloc, SessionState::Mapped, 9);
    assert!(rt; is_done(allocate_incoming(&rt, alloc, &mut plain)));
    assert!(rt; judges(alloc, &mut plain, 5, Verdict::Accept));
    assert!(rt; takes_work(alloc, &mut plain, 5));
    leak(plain);
}

#[test]
fn a_transfer_on_an_unmapped_handle_is_vetoed(rt: HostRuntime) {
    let alloc = rt.alloc();
    let mut plain = plain_session(alloc, SessionState::Mapped, 9);
    assert!(rt; judges(alloc, &mut plain, 4, Verdict::Veto));
    leak(plain);
}

#[test]
fn a_transfer_to_a_sender_is_vetoed(rt: HostRuntime) {
    let alloc = rt.alloc();
    let mut plain = plain_session(alloc, SessionState::Mapped, 9);
    assert!(rt; is_done(allocate_as(&rt, alloc, &mut plain, Role::Sender)));
    assert!(rt; judges(alloc, &mut plain, 5, Verdict::Veto));
    leak(plain);
}

/// Whether a review of no frames answers this.
fn reviews_none<S: LayerBelow>(alloc: Global, below: &mut S, wanted: Verdict) -> bool {
    let none = Frames::new(alloc);
    let answer = below.review(&none);
    leak(none);
    gives(answer, wanted)
}

#[test]
fn only_a_mapped_session_accepts(rt: HostRuntime) {
    let alloc = rt.alloc();
    let mut plain = plain_session(alloc, SessionState::Mapped, 9);
    assert!(rt; reviews_none(alloc, &mut plain, Verdict::Accept));
    leak(plain);
    let mut ended = plain_session(alloc, SessionState::EndSent, 9);
    assert!(rt; reviews_none(alloc, &mut ended, Verdict::Veto));
    leak(ended);
}
