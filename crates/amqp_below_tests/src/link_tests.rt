//! What no clause says of the ends of links: that the calls succeed where there is memory, and
//! printed texts.

use amqp_links::*;
use amqp_test_values::{
    call_numbers, is_done, leak, link_end, not_allowed, other_text, refuses, same,
};
use amqp_txn_types::{
    Binary, DeliveryState, Fields, LinkEnd, Payload, Role, SessionStopReason, Symbol, Text, Token,
    TryClone, Value,
};
use std::alloc::{Alloc, Global};
use std::process::Abort;

fn end(rt: &(impl Abort + Alloc<A = Global>), role: Role) -> LinkEnd {
    link_end(Text::from_str(rt.alloc(), "q").expect(rt, "an Ok"), role, 3)
}

/// An end is that of the tests.
fn is_end(rt: &(impl Abort + Alloc<A = Global>), found: &LinkEnd, role: Role) {
    let want = end(rt, role);
    assert!(rt; *found == want);
    leak(want);
}

fn sender(rt: &(impl Abort + Alloc<A = Global>)) -> WireSender {
    WireSender::new(rt.alloc(), end(rt, Role::Sender))
}

fn receiver(rt: &(impl Abort + Alloc<A = Global>)) -> WireReceiver {
    WireReceiver::new(rt.alloc(), end(rt, Role::Receiver))
}

/// The message `a`.
fn sendable(rt: &(impl Abort + Alloc<A = Global>), settled: Option<bool>) -> Sendable {
    Sendable {
        payload: Payload::from_slice(rt.alloc(), b"a").expect(rt, "an Ok"),
        message_format: 0,
        settled,
    }
}

/// Sends the message `a` without a state: how it was sent.
fn send<L: SenderLink>(
    rt: &(impl Abort + Alloc<A = Global>),
    link: &mut L,
    settled: Option<bool>,
) -> Sent {
    let sent = link.send(sendable(rt, settled), None, true);
    sent.expect(rt, "a send")
}

/// A send is answered `IllegalState`.
fn is_refused<L: SenderLink>(rt: &(impl Abort + Alloc<A = Global>), link: &mut L) {
    let why = SendError::LinkStateError(LinkStateError::IllegalState);
    assert!(rt; refuses(link.send(sendable(rt, None), None, true), why));
}

/// A look for the answer finds that.
fn finds<L: SenderLink>(rt: &impl Abort, link: &mut L, token: Token, want: Poll<Answer>) {
    assert!(rt; same(link.outcome(&token), want));
}

/// The next look for a delivery finds that.
fn receives<L: ReceiverLink>(
    rt: &impl Abort,
    link: &mut L,
    want: Poll<Result<Delivery, RecvError>>,
) {
    assert!(rt; same(link.recv(), want));
}

/// Whether a flow with that credit is put.
fn flows<L: ReceiverLink>(link: &mut L, credit: u32, include_properties: bool) -> bool {
    let put = link.send_flow(Some(credit), None, true, include_properties);
    same(put, Ok(()))
}

/// Puts the value under the key.
fn insert<L: ReceiverLink>(
    rt: &(impl Abort + Alloc<A = Global>),
    link: &mut L,
    key: &str,
    value: Value,
) {
    let key = Symbol::from_str(rt.alloc(), key).expect(rt, "an Ok");
    link.insert_property(key, value).expect(rt, "an Ok");
}

fn info(rt: &(impl Abort + Alloc<A = Global>), delivery_id: u32) -> DeliveryInfo {
    DeliveryInfo {
        delivery_id,
        delivery_tag: Binary::from_slice(rt.alloc(), b"\x07").expect(rt, "an Ok"),
        rcv_settle_mode: None,
    }
}

fn delivery(rt: &(impl Abort + Alloc<A = Global>), delivery_id: u32) -> Delivery {
    Delivery {
        info: info(rt, delivery_id),
        payload: Payload::from_slice(rt.alloc(), b"m").expect(rt, "an Ok"),
    }
}

/// The answer is taken, where it is awaited.
fn answers(wire: &mut WireSender, number: u64, answer: Answer) -> bool {
    wire.answer(Token(number), answer)
}

#[test]
fn an_answer_is_given_once(rt: HostRuntime) {
    let mut wire = sender(&rt);
    assert!(rt; send(&rt, &mut wire, None) == Sent::Unsettled(Token(0)));
    finds(&rt, &mut wire, Token(0), Poll::Pending);
    assert!(rt; answers(&mut wire, 0, Ok(Some(DeliveryState::Accepted))));
    assert!(rt; !answers(&mut wire, 0, Ok(None)));
    let accepted = Poll::Ready(Ok(Some(DeliveryState::Accepted)));
    finds(&rt, &mut wire, Token(0), accepted);
    finds(&rt, &mut wire, Token(0), Poll::Pending);
    assert!(rt; !answers(&mut wire, 0, Ok(None)));
    leak(wire);
}

/// The message of that place was sent so.
fn is_message(
    rt: &(impl Abort + Alloc<A = Global>),
    put: &SentMessages,
    place: usize,
    settled: Option<bool>,
    sent: Sent,
) {
    let want = SentMessage {
        sendable: sendable(rt, settled),
        state: None,
        batchable: true,
        sent,
    };
    assert!(rt; put.as_slice().get(place) == Some(&want));
    leak(want);
}

#[test]
fn what_was_sent_is_put(rt: HostRuntime) {
    let mut wire = sender(&rt);
    assert!(rt; send(&rt, &mut wire, None) == Sent::Unsettled(Token(0)));
    assert!(rt; send(&rt, &mut wire, Some(true)) == Sent::Settled);
    assert!(rt; send(&rt, &mut wire, Some(false)) == Sent::Unsettled(Token(1)));
    assert!(rt; wire.put().len() == 3);
    is_message(&rt, wire.put(), 0, None, Sent::Unsettled(Token(0)));
    is_message(&rt, wire.put(), 1, Some(true), Sent::Settled);
    is_message(&rt, wire.put(), 2, Some(false), Sent::Unsettled(Token(1)));
    leak(wire);
}

/// A copy of the message `a`, settled.
fn copied_sendable(rt: &(impl Abort + Alloc<A = Global>)) -> Sendable {
    let sendable = sendable(rt, Some(true));
    let copy = sendable.try_clone().expect(rt, "an Ok");
    leak(sendable);
    copy
}

/// The message `a` is sent, settled, with a state and not batchable.
fn sends_with_state<L: SenderLink>(rt: &(impl Abort + Alloc<A = Global>), link: &mut L) {
    let settled = sendable(rt, Some(true));
    let sent = link.send(settled, Some(DeliveryState::Released), false);
    assert!(rt; same(sent, Ok(Sent::Settled)));
}

#[test]
fn a_send_keeps_its_state(rt: HostRuntime) {
    let mut wire = sender(&rt);
    sends_with_state(&rt, &mut wire);
    let want = SentMessage {
        sendable: copied_sendable(&rt),
        state: Some(DeliveryState::Released),
        batchable: false,
        sent: Sent::Settled,
    };
    assert!(rt; wire.put().len() == 1);
    assert!(rt; wire.put().as_slice().get(0) == Some(&want));
    leak(want);
    leak(wire);
}

#[test]
fn an_answer_goes_to_its_token(rt: HostRuntime) {
    let mut wire = sender(&rt);
    send(&rt, &mut wire, None);
    send(&rt, &mut wire, None);
    assert!(rt; !answers(&mut wire, 2, Ok(None)));
    assert!(rt; answers(&mut wire, 1, Err(LinkStateError::RemoteClosed)));
    finds(&rt, &mut wire, Token(0), Poll::Pending);
    let closed = Poll::Ready(Err(LinkStateError::RemoteClosed));
    finds(&rt, &mut wire, Token(1), closed);
    assert!(rt; answers(&mut wire, 0, Ok(None)));
    finds(&rt, &mut wire, Token(0), Poll::Ready(Ok(None)));
    leak(wire);
}

/// A close without an error is answered so.
fn closes<L: SenderLink>(rt: &impl Abort, link: &mut L, want: Result<(), DetachError>) {
    assert!(rt; same(link.close(None), want));
}

/// The first, the third and the fifth call fail.
#[test]
fn listed_calls_of_a_sender_fail(rt: HostRuntime) {
    let mut wire = sender(&rt);
    wire.set_failing(call_numbers(rt.alloc(), &[1, 3, 5]).expect(&rt, "an Ok"));
    is_refused(&rt, &mut wire);
    send(&rt, &mut wire, None);
    assert!(rt; answers(&mut wire, 0, Ok(None)));
    let illegal = Poll::Ready(Err(LinkStateError::IllegalState));
    finds(&rt, &mut wire, Token(0), illegal);
    finds(&rt, &mut wire, Token(0), Poll::Ready(Ok(None)));
    closes(&rt, &mut wire, Err(DetachError::IllegalState));
    assert!(rt; wire.put().len() == 1);
    assert!(rt; wire.closes().len() == 0);
    leak(wire);
}

#[test]
fn a_close_keeps_its_error(rt: HostRuntime) {
    let mut wire = sender(&rt);
    assert!(rt; same(wire.close(Some(not_allowed())), Ok(())));
    closes(&rt, &mut wire, Ok(()));
    let want = Some(not_allowed());
    assert!(rt; wire.closes().len() == 2);
    assert!(rt; wire.closes().as_slice().get(0) == Some(&want));
    assert!(rt; matches!(wire.closes().as_slice(), [_, None]));
    is_end(&rt, wire.end(), Role::Sender);
    leak(want);
    leak(wire);
}

/// Whether a disposition of delivery 4 is put.
fn disposes<L: ReceiverLink>(
    rt: &(impl Abort + Alloc<A = Global>),
    link: &mut L,
    settled: Option<bool>,
    state: DeliveryState,
) -> bool {
    let info = info(rt, 4);
    let disposed = same(link.dispose(&info, settled, state), Ok(()));
    leak(info);
    disposed
}

/// A copy of what names delivery 4.
fn copied_info(rt: &(impl Abort + Alloc<A = Global>)) -> DeliveryInfo {
    let info = info(rt, 4);
    let copy = info.try_clone().expect(rt, "an Ok");
    leak(info);
    copy
}

/// The message of that place is that.
fn is_put(rt: &impl Abort, put: &ReceiverMessages, place: usize, want: ReceiverMessage) {
    assert!(rt; put.as_slice().get(place) == Some(&want));
    leak(want);
}

/// The message of that place is a disposition of delivery 4.
fn is_disposition(
    rt: &(impl Abort + Alloc<A = Global>),
    put: &ReceiverMessages,
    place: usize,
    settled: Option<bool>,
    state: DeliveryState,
) {
    let delivery = copied_info(rt);
    let want = ReceiverMessage::Disposition {
        delivery,
        settled,
        state,
    };
    is_put(rt, put, place, want);
}

#[test]
fn dispositions_are_put(rt: HostRuntime) {
    let mut wire = receiver(&rt);
    assert!(rt; disposes(&rt, &mut wire, Some(true), DeliveryState::Released));
    assert!(rt; disposes(&rt, &mut wire, None, DeliveryState::Accepted));
    assert!(rt; disposes(&rt, &mut wire, Some(false), DeliveryState::Accepted));
    assert!(rt; wire.put().len() == 3);
    is_disposition(&rt, wire.put(), 0, Some(true), DeliveryState::Released);
    is_disposition(&rt, wire.put(), 1, None, DeliveryState::Accepted);
    is_disposition(&rt, wire.put(), 2, Some(false), DeliveryState::Accepted);
    is_end(&rt, wire.end(), Role::Receiver);
    leak(wire);
}

/// The property `a`, null.
fn property(rt: &(impl Abort + Alloc<A = Global>)) -> Fields {
    let key = Symbol::from_str(rt.alloc(), "a").expect(rt, "an Ok");
    let mut fields = Fields::new(rt.alloc());
    assert!(rt; is_done(fields.insert(key, Value::Null)));
    fields
}

fn flow(credit: u32, properties: Option<Fields>) -> ReceiverMessage {
    ReceiverMessage::Flow {
        credit: Some(credit),
        drain: None,
        echo: true,
        properties,
    }
}

/// Three flows, the first without a property.
#[test]
fn flows_are_put(rt: HostRuntime) {
    let mut wire = receiver(&rt);
    assert!(rt; flows(&mut wire, 5, true));
    insert(&rt, &mut wire, "a", Value::Null);
    assert!(rt; flows(&mut wire, 6, true));
    assert!(rt; flows(&mut wire, 7, false));
    assert!(rt; wire.put().len() == 3);
    is_put(&rt, wire.put(), 0, flow(5, None));
    is_put(&rt, wire.put(), 1, flow(6, Some(property(&rt))));
    is_put(&rt, wire.put(), 2, flow(7, None));
    leak(wire);
}

fn deliver(rt: &(impl Abort + Alloc<A = Global>), wire: &mut WireReceiver, delivery_id: u32) {
    wire.append_delivery(delivery(rt, delivery_id))
        .expect(rt, "an Ok");
}

/// A copy of the delivery of that number.
fn copied_delivery(rt: &(impl Abort + Alloc<A = Global>), delivery_id: u32) -> Delivery {
    let delivery = delivery(rt, delivery_id);
    let copy = delivery.try_clone().expect(rt, "an Ok");
    leak(delivery);
    copy
}

#[test]
fn deliveries_come_in_order(rt: HostRuntime) {
    let mut wire = receiver(&rt);
    receives(&rt, &mut wire, Poll::Pending);
    deliver(&rt, &mut wire, 1);
    deliver(&rt, &mut wire, 2);
    let first = copied_delivery(&rt, 1);
    receives(&rt, &mut wire, Poll::Ready(Ok(first)));
    let second = copied_delivery(&rt, 2);
    receives(&rt, &mut wire, Poll::Ready(Ok(second)));
    receives(&rt, &mut wire, Poll::Pending);
    leak(wire);
}

#[test]
fn listed_calls_of_a_receiver_fail(rt: HostRuntime) {
    let mut wire = receiver(&rt);
    wire.set_failing(call_numbers(rt.alloc(), &[1, 2, 3]).expect(&rt, "an Ok"));
    assert!(rt; !disposes(&rt, &mut wire, None, DeliveryState::Accepted));
    let illegal = RecvError::LinkStateError(LinkStateError::IllegalState);
    receives(&rt, &mut wire, Poll::Ready(Err(illegal)));
    assert!(rt; !flows(&mut wire, 5, false));
    assert!(rt; wire.put().len() == 0);
    assert!(rt; same(wire.set_credit(7), Ok(())));
    assert!(rt; wire.credit() == 7);
    leak(wire);
}

/// The link has the property `a`, null, and no other.
fn has_property<L: ReceiverLink>(rt: &(impl Abort + Alloc<A = Global>), link: &L) {
    let want = property(rt);
    assert!(rt; link.properties() == Some(&want));
    leak(want);
}

/// Three inserts and a removal.
#[test]
fn properties_change_by_their_two_calls(rt: HostRuntime) {
    let mut wire = receiver(&rt);
    assert!(rt; wire.properties().is_none());
    insert(&rt, &mut wire, "a", Value::Uint(1));
    insert(&rt, &mut wire, "b", Value::Uint(2));
    insert(&rt, &mut wire, "a", Value::Null);
    let gone = Symbol::from_str(rt.alloc(), "b").expect(&rt, "an Ok");
    wire.remove_property(&gone);
    leak(gone);
    has_property(&rt, &wire);
    leak(wire);
}

#[test]
fn link_state_errors_have_texts(rt: HostRuntime) {
    let table = [
        (
            LinkStateError::IllegalState,
            "the state of the link does not allow it",
        ),
        (
            LinkStateError::ExpectImmediateDetach,
            "the remote attach is to be followed by a detach",
        ),
        (LinkStateError::RemoteDetached, "the remote link detached"),
        (
            LinkStateError::RemoteDetachedWithError(not_allowed()),
            "the remote link detached with an error: \
             Error { condition: AmqpError(NotAllowed), description: None, info: None }",
        ),
        (LinkStateError::RemoteClosed, "the remote link closed"),
        (
            LinkStateError::RemoteClosedWithError(not_allowed()),
            "the remote link closed with an error: \
             Error { condition: AmqpError(NotAllowed), description: None, info: None }",
        ),
        (
            LinkStateError::SessionStopped(SessionStopReason::RemoteEnded),
            "the session stopped: RemoteEnded",
        ),
        (LinkStateError::NoMemory, "out of memory"),
    ];
    let other = other_text(rt.alloc(), &table);
    leak(table);
    assert!(rt; other == Ok(None));
}

#[test]
fn detach_errors_have_texts(rt: HostRuntime) {
    let table = [
        (
            DetachError::IllegalState,
            "the state of the link does not allow it",
        ),
        (
            DetachError::SessionStopped(SessionStopReason::RemoteEnded),
            "the session stopped: RemoteEnded",
        ),
        (DetachError::DetachedByRemote, "the remote link detached"),
        (
            DetachError::RemoteDetachedWithError(not_allowed()),
            "the remote link detached with an error: \
             Error { condition: AmqpError(NotAllowed), description: None, info: None }",
        ),
        (DetachError::ClosedByRemote, "the remote link closed"),
        (
            DetachError::RemoteClosedWithError(not_allowed()),
            "the remote link closed with an error: \
             Error { condition: AmqpError(NotAllowed), description: None, info: None }",
        ),
        (DetachError::NoMemory, "out of memory"),
    ];
    let other = other_text(rt.alloc(), &table);
    leak(table);
    assert!(rt; other == Ok(None));
}

#[test]
fn errors_of_flows_and_dispositions_have_texts(rt: HostRuntime) {
    let table = [
        (
            IllegalLinkStateError::IllegalState,
            "the state of the link does not allow it",
        ),
        (
            IllegalLinkStateError::SessionStopped(SessionStopReason::RemoteEnded),
            "the session stopped: RemoteEnded",
        ),
        (IllegalLinkStateError::NoMemory, "out of memory"),
    ];
    let other = other_text(rt.alloc(), &table);
    leak(table);
    assert!(rt; other == Ok(None));
}

#[test]
fn errors_of_receives_have_texts(rt: HostRuntime) {
    let table = [
        (
            RecvError::LinkStateError(LinkStateError::RemoteDetached),
            "the remote link detached",
        ),
        (
            RecvError::TransferLimitExceeded,
            "the remote sent more than the credit allows",
        ),
        (RecvError::NoMemory, "out of memory"),
    ];
    let other = other_text(rt.alloc(), &table);
    leak(table);
    assert!(rt; other == Ok(None));
}

#[test]
fn errors_of_sends_have_texts(rt: HostRuntime) {
    let table = [
        (
            SendError::LinkStateError(LinkStateError::IllegalState),
            "the state of the link does not allow it",
        ),
        (
            SendError::Detached(DetachError::ClosedByRemote),
            "the link was detached: the remote link closed",
        ),
        (
            SendError::NonTerminalDeliveryState,
            "a delivery state that is not terminal came in place of an outcome",
        ),
        (
            SendError::IllegalDeliveryState,
            "a delivery state came that the delivery cannot have",
        ),
        (
            SendError::MessageSizeExceeded(MessageSizeExceeded {
                size: 9,
                max_size: 8,
            }),
            "the message has 9 octets, and the link takes at most 8",
        ),
        (
            SendError::MessageEncodeError,
            "the message cannot be encoded",
        ),
        (SendError::NoMemory, "out of memory"),
    ];
    let other = other_text(rt.alloc(), &table);
    leak(table);
    assert!(rt; other == Ok(None));
}
