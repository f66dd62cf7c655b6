//! Transactions of this side.

use crate::ready_link::{ReadyLink, accepting, declaring, id, rolled_back};
use amqp_controller_acquisition::{TransactionAcquisition, TxnAcquisition};
use amqp_controller_calls::TransactionBase;
use amqp_controller_posting::{TransactionPosting, TransactionRetirement};
use amqp_controller_transactions::{Controller, Transaction, TransactionDischarge};
use amqp_examples_controller::{
    CommitEnd, answer_message, commit_on_link, commit_once, pass_on, post_and_commit, post_once,
    take_once,
};
use amqp_links::{
    Delivery, DeliveryInfo, DispositionError, Progress, Sendable, WireReceiver, WireSender,
};
use amqp_test_values::{gives, is_done, leak, link_end, value_of};
use amqp_txn_types::{Binary, DeliveryState, Outcome, Payload, Role, Text, Token, TransactionId};
use std::alloc::Global;
use std::process::Abort;
use std::sync::Wait;

/// A transaction that is only named.
#[derive(Drop)]
struct Named(TransactionId);

impl TransactionBase for Named {
    ghost id = { λ named. named.0 };

    fn txn_id(&self) -> &TransactionId {
        &self.0
    }
}

impl TransactionPosting for Named {}

impl TransactionRetirement for Named {
    type RetireError = DispositionError;
}

/// A message without octets.
fn message() -> Sendable {
    Sendable {
        payload: Payload::new(),
        message_format: 0,
        settled: None,
    }
}

/// A receiver on which a delivery waits.
fn receiver(rt: &impl Abort, alloc: Global) -> WireReceiver {
    let mut wire = WireReceiver::new(alloc, link_end(Text::new(alloc), Role::Receiver, 1));
    let info = DeliveryInfo {
        delivery_id: 7,
        delivery_tag: Binary::new(alloc),
        rcv_settle_mode: None,
    };
    let payload = Payload::new();
    assert!(rt; is_done(wire.deliver(Delivery { info, payload })));
    wire
}

#[test]
fn a_commit_on_a_link_is_accepted(rt: HostRuntime) {
    let alloc = rt.alloc();
    let mut link = declaring(alloc, Some(DeliveryState::Accepted));
    let committed = commit_on_link(alloc, &mut link);
    leak(link);
    assert!(rt; gives(committed, true));
}

#[test]
fn work_is_done_under_a_transaction(rt: HostRuntime) {
    let alloc = rt.alloc();
    let mut sender = accepting(alloc);
    let posted = post_once(&Named(id()), &mut sender, message());
    leak(sender);
    assert!(rt; gives(posted, Some(Outcome::Accepted)));
    let mut receiver = receiver(&rt, alloc);
    let taken = take_once(&Named(id()), &mut receiver);
    leak(receiver);
    assert!(rt; gives(taken, Some(Payload::new())));
}

#[test]
fn a_commit_over_a_controller_is_accepted(rt: HostRuntime) {
    let link = declaring(rt.alloc(), Some(DeliveryState::Accepted));
    let controller = Controller::new(rt.alloc(), link);
    let committed = commit_once(&rt, &controller);
    leak(controller);
    assert!(rt; gives(committed, true));
}

/// How a post ends under a transaction whose commit is answered so.
fn posted<R: Wait>(rt: &R, alloc: Global, answer: Option<DeliveryState>) -> Option<CommitEnd> {
    let controller = Controller::new(alloc, declaring(alloc, answer));
    let mut sender = accepting(alloc);
    let end = post_and_commit(rt, &controller, &mut sender, message());
    leak(sender);
    leak(controller);
    value_of(end)
}

#[test]
fn a_commit_ends(rt: HostRuntime) {
    let alloc = rt.alloc();
    let accepted = posted(&rt, alloc, Some(DeliveryState::Accepted));
    assert!(rt; accepted == Some(CommitEnd::Accepted));
    let rolled_back = posted(&rt, alloc, Some(rolled_back()));
    assert!(rt; rolled_back == Some(CommitEnd::RolledBack));
    let unanswered = posted(&rt, alloc, None);
    assert!(rt; unanswered == Some(CommitEnd::GivenUp));
}

/// A transaction over the controller.
fn declared<'t, R: Wait + Abort>(
    rt: &R,
    controller: &'t Controller<ReadyLink>,
) -> Transaction<'t, ReadyLink> {
    let declaring = Transaction::declare(controller, rt, None).expect(rt, "a declare");
    match declaring.poll(rt) {
        Progress::Ready(declared) => declared.expect(rt, "a transaction"),
        Progress::Pending(_declaring) => panic!(rt; "no answer"),
    }
}

/// A transaction over the controller, with the receiver whose deliveries it acquires.
fn acquired<'r, 't, R: Wait + Abort>(
    rt: &R,
    alloc: Global,
    controller: &'t Controller<ReadyLink>,
    receiver: &'r mut WireReceiver,
) -> TxnAcquisition<'r, Transaction<'t, ReadyLink>, WireReceiver> {
    let transaction = declared(rt, controller);
    match transaction.acquire(alloc, receiver, 1) {
        Ok(acquisition) => acquisition,
        Err(_refused) => panic!(rt; "it is refused"),
    }
}

#[test]
fn a_delivery_is_passed_on(rt: HostRuntime) {
    let alloc = rt.alloc();
    let controller = Controller::new(alloc, declaring(alloc, Some(DeliveryState::Accepted)));
    let mut receiver = receiver(&rt, alloc);
    let mut acquisition = acquired(&rt, alloc, &controller, &mut receiver);
    let mut sender = accepting(alloc);
    let passed = pass_on(&mut acquisition, &mut sender);
    leak(sender);
    leak(acquisition.abandon(&rt));
    leak(receiver);
    leak(controller);
    assert!(rt; passed == Some(Outcome::Accepted));
}

#[test]
fn no_answer_is_awaited(rt: HostRuntime) {
    let alloc = rt.alloc();
    let wire = WireSender::new(alloc, link_end(Text::new(alloc), Role::Sender, 0));
    let controller = Controller::new(alloc, wire);
    let awaited = answer_message(&rt, &controller, Token(0), Ok(None));
    leak(controller);
    assert!(rt; !awaited);
}
