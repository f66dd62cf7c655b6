//! What a broker holds after some frames, and what it refuses.

use amqp_below_layer::{LayerBelow, SessionInnerError, Verdict};
use amqp_test_values::{
    detach, disposition, flow, is_done, judges, leak, refuses, sender_attach, transfer,
};
use amqp_txn_types::{
    Attach, DeliveryState, Handle, Payload, Role, Target, TargetArchetype, Text, Transfer,
};
use std::alloc::{Alloc, Global};
use std::process::Abort;
use txn_broker_queues::Broker;

/// The name of a queue.
fn name_of(rt: &(impl Abort + Alloc<A = Global>), name: &str) -> Text {
    Text::from_str(rt.alloc(), name).expect(rt, "memory")
}

/// Attaches a link to the queue q, of which the peer is this end.
fn link(rt: &(impl Abort + Alloc<A = Global>), broker: &mut Broker, handle: u32, role: Role) {
    let queue = Target::default().address(name_of(rt, "q"));
    let name = Text::new(rt.alloc());
    let mut attach = sender_attach(name, handle, Some(TargetArchetype::Target(queue)));
    attach.role = role;
    assert!(rt; is_done(broker.on_incoming_attach(attach)));
}

/// A broker to which the peer may send on handle 1, into the queue q.
fn open_broker(rt: &(impl Abort + Alloc<A = Global>)) -> Broker {
    let mut broker = Broker::new(rt.alloc());
    link(rt, &mut broker, 1, Role::Sender);
    broker
}

/// The same, with a link on handle 2 on which the peer receives from that queue.
fn open_both_ways(rt: &(impl Abort + Alloc<A = Global>)) -> Broker {
    let mut broker = open_broker(rt);
    link(rt, &mut broker, 2, Role::Receiver);
    broker
}

/// Sends a message without octets on handle 1.
fn send(rt: &impl Abort, broker: &mut Broker) {
    let sent = broker.on_incoming_transfer(transfer(1), Payload::new());
    assert!(rt; is_done(sent));
}

/// The transfer without octets is refused so.
fn refuses_transfer(rt: &impl Abort, broker: &mut Broker, sent: Transfer, why: SessionInnerError) {
    let answer = broker.on_incoming_transfer(sent, Payload::new());
    assert!(rt; refuses(answer, why));
}

/// The attach is refused so.
fn refuses_attach(rt: &impl Abort, broker: &mut Broker, attach: Attach, why: SessionInnerError) {
    assert!(rt; refuses(broker.on_incoming_attach(attach), why));
}

/// This end accepts all messages.
fn accept(rt: &impl Abort, broker: &mut Broker, role: Role) {
    let mut accepted = disposition(0).state(DeliveryState::Accepted);
    accepted.role = role;
    accepted.last = Some(u32::MAX);
    assert!(rt; is_done(broker.on_incoming_disposition(accepted)));
}

/// So many messages wait in the queue q, the first with that number.
fn holds(rt: &(impl Abort + Alloc<A = Global>), broker: &Broker, count: usize, first: Option<u32>) {
    let name = name_of(rt, "q");
    let found = broker.queue(&name).expect(rt, "memory");
    leak(name);
    let messages = found.expect(rt, "a queue");
    assert!(rt; messages.len() == count);
    let number = match messages.get(0) {
        Some(message) => Some(message.number),
        None => None,
    };
    assert!(rt; number == first);
    leak(messages);
}

#[test]
fn a_range_removes_what_is_there_and_nothing_that_comes_later(rt: HostRuntime) {
    let mut broker = open_broker(&rt);
    send(&rt, &mut broker);
    accept(&rt, &mut broker, Role::Sender);
    holds(&rt, &broker, 1, Some(0));
    accept(&rt, &mut broker, Role::Receiver);
    holds(&rt, &broker, 0, None);
    send(&rt, &mut broker);
    holds(&rt, &broker, 1, Some(1));
    leak(broker);
}

#[test]
fn credit_brings_copies_and_removes_nothing(rt: HostRuntime) {
    let mut broker = open_both_ways(&rt);
    send(&rt, &mut broker);
    send(&rt, &mut broker);
    let credit = flow(Some(Handle(2))).link_credit(1);
    let given = broker.on_incoming_flow(credit).expect(&rt, "frames");
    assert!(rt; given.len() == 1);
    leak(given);
    holds(&rt, &broker, 2, Some(0));
    leak(broker);
}

#[test]
fn a_transfer_is_refused_in_the_order_of_the_table(rt: HostRuntime) {
    let mut broker = open_both_ways(&rt);
    let unattached = SessionInnerError::UnattachedHandle;
    refuses_transfer(&rt, &mut broker, transfer(3), unattached);
    let to_sender = SessionInnerError::TransferFrameToSender;
    refuses_transfer(&rt, &mut broker, transfer(2), to_sender);
    let more = transfer(1).more(true);
    refuses_transfer(&rt, &mut broker, more, SessionInnerError::IllegalState);
    let aborted = transfer(1).aborted(true);
    refuses_transfer(&rt, &mut broker, aborted, SessionInnerError::IllegalState);
    leak(broker);
}

#[test]
fn an_attach_needs_a_free_handle_and_an_address(rt: HostRuntime) {
    let mut broker = open_broker(&rt);
    let again = sender_attach(Text::new(rt.alloc()), 1, None);
    refuses_attach(&rt, &mut broker, again, SessionInnerError::HandleInUse);
    let bare = sender_attach(Text::new(rt.alloc()), 2, None);
    refuses_attach(&rt, &mut broker, bare, SessionInnerError::IllegalState);
    leak(broker);
}

#[test]
fn a_queue_outlives_its_links_and_an_unknown_one_is_none(rt: HostRuntime) {
    let mut broker = open_broker(&rt);
    send(&rt, &mut broker);
    assert!(rt; is_done(broker.on_incoming_detach(detach(1))));
    let again = broker.on_incoming_detach(detach(1));
    assert!(rt; refuses(again, SessionInnerError::UnattachedHandle));
    holds(&rt, &broker, 1, Some(0));
    let unknown = name_of(&rt, "r");
    let found = broker.queue(&unknown).expect(&rt, "memory");
    leak(unknown);
    assert!(rt; found.is_none());
    leak(found);
    leak(broker);
}

#[test]
fn a_review_vetoes_what_would_be_refused(rt: HostRuntime) {
    let mut broker = open_broker(&rt);
    assert!(rt; judges(rt.alloc(), &mut broker, 1, Verdict::Accept));
    assert!(rt; judges(rt.alloc(), &mut broker, 2, Verdict::Veto));
    leak(broker);
}
