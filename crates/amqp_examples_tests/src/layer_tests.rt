//! Parts of one's own, below a session and beside it.

use amqp_below_ids::{IdSource, numbered_id};
use amqp_below_layer::{LayerBelow, Verdict};
use amqp_examples::{
    BoundedQueue, CountedLink, NodeIds, attach_and_declare, record_transfer, refuse_second,
    send_and_hear, serve_both,
};
use amqp_links::{Sendable, SenderLink, WireSender};
use amqp_resource_record::{Reply, Step, Steps, Stop};
use amqp_test_values::{
    control_attach, detach, gives, judges, leak, link_end, takes_work, transfer,
};
use amqp_txn_types::{
    DeliveryState, Frame, LinkEnd, Payload, Role, SessionState, Text, TransactionId,
};
use std::alloc::Global;
use std::process::Abort;

/// The declare of no global id.
const DECLARE: [u8; 7] = [0, 0x53, 0x77, 0, 0x53, 0x31, 0x45];

/// A message without octets.
fn message() -> Sendable {
    Sendable {
        payload: Payload::new(),
        message_format: 0,
        settled: None,
    }
}

/// The sending end of a link without a name.
fn sender(alloc: Global) -> LinkEnd {
    link_end(Text::new(alloc), Role::Sender, 0)
}

#[test]
fn a_full_queue_vetoes(rt: HostRuntime) {
    let alloc = rt.alloc();
    let mut queue = BoundedQueue::new(alloc, 1);
    let mapped = queue.local_state() == SessionState::Mapped;
    let accepted = judges(alloc, &mut queue, 1, Verdict::Accept);
    let taken = takes_work(alloc, &mut queue, 1);
    let vetoed = judges(alloc, &mut queue, 1, Verdict::Veto);
    let count = queue.messages().len();
    leak(queue);
    assert!(rt; mapped && accepted && taken && vetoed);
    assert!(rt; count == 1);
}

#[test]
fn a_node_draws_its_ids(rt: HostRuntime) {
    let mut ids = NodeIds::new(1, 2);
    let first = ids.draw();
    leak(ids);
    let octets = [0, 0, 0, 0, 0, 0, 0, 1, 0, 0, 0, 0, 0, 0, 0, 2];
    assert!(rt; first == TransactionId::from(octets));
}

/// How many messages a link counts of one that it sends.
fn counted(alloc: Global) -> u64 {
    let mut link = CountedLink::new(WireSender::new(alloc, sender(alloc)));
    leak(link.send(message(), None, false));
    let sent = link.sent();
    leak(link);
    sent
}

#[test]
fn a_link_counts_what_it_sends(rt: HostRuntime) {
    assert!(rt; counted(rt.alloc()) == 1);
}

#[test]
fn a_sender_hears_the_answer(rt: HostRuntime) {
    let alloc = rt.alloc();
    let heard = send_and_hear(alloc, sender(alloc), message());
    assert!(rt; gives(heard, Some(Ok(Some(DeliveryState::Accepted)))));
}

#[test]
fn a_recorder_keeps_what_was_taken(rt: HostRuntime) {
    let kept = record_transfer(rt.alloc(), transfer(1), Payload::new());
    assert!(rt; gives(kept, 1));
}

#[test]
fn a_plan_refuses_the_second_call(rt: HostRuntime) {
    let refused = refuse_second(rt.alloc(), detach(1), detach(2));
    assert!(rt; gives(refused, 1));
}

#[test]
fn two_sessions_are_served_side_by_side(rt: HostRuntime) {
    let alloc = rt.alloc();
    let (first, second) = serve_both(&rt, alloc, Steps::new(alloc), Steps::new(alloc));
    let done = first.stop == Stop::Done && second.stop == Stop::Done;
    leak(first);
    leak(second);
    assert!(rt; done);
}

/// A declare on the first control link.
fn declare(rt: &impl Abort, alloc: Global) -> Step {
    Step::Control {
        link: 0,
        payload: Payload::from_slice(alloc, &DECLARE).expect(rt, "a payload"),
    }
}

#[test]
fn a_session_declares(rt: HostRuntime) {
    let alloc = rt.alloc();
    let attach = Step::Frame(Frame::Attach(control_attach(Text::new(alloc), 0)));
    let declare = declare(&rt, alloc);
    let reply = attach_and_declare(alloc, &attach, &declare);
    leak(attach);
    leak(declare);
    assert!(rt; gives(reply, Reply::Declared(numbered_id(1))));
}
