//! What is received and retired under an acquisition.

use super::fixtures::{
    WireAcquisition, acquired, controller, delivery, ends_discharged, id, receiver, seventh, skips,
};
use crate::transaction_tests::values::{passed, refused, same};
use amqp_links::{
    DeliveryInfo, FlowError, LinkStateError, Poll, ReceiverMessage, RecvError, WireReceiver,
};
use amqp_test_values::leak;
use amqp_txn_types::{DeliveryState, Modified, Outcome, Rejected, TransactionalState};
use std::alloc::Global;
use std::process::Abort;

#[test]
fn a_delivery_is_received(rt: HostRuntime) {
    let alloc = rt.alloc();
    let controller = controller(&rt, alloc);
    let mut wire = receiver(&rt, alloc, &[]);
    passed(&rt, wire.deliver(delivery(alloc)));
    let mut acquisition = acquired(&rt, alloc, &controller, &mut wire);
    let found = acquisition.recv();
    skips(&rt, acquisition);
    leak(controller);
    leak(wire);
    assert!(rt; same(found, Poll::Ready(Ok(delivery(alloc)))));
}

/// The acquisition is given up without a cleanup.
#[test]
fn the_credit_is_set(rt: HostRuntime) {
    let alloc = rt.alloc();
    let controller = controller(&rt, alloc);
    let mut wire = receiver(&rt, alloc, &[]);
    let mut acquisition = acquired(&rt, alloc, &controller, &mut wire);
    passed(&rt, acquisition.set_credit(5));
    ends_discharged(&rt, &controller, acquisition);
    leak(controller);
    let credit = wire.credit();
    leak(wire);
    assert!(rt; credit == 5);
}

/// The second call of the receiver is that of the credit, and the third is the look.
#[test]
fn faults_of_the_receiver_are_passed_on(rt: HostRuntime) {
    let alloc = rt.alloc();
    let controller = controller(&rt, alloc);
    let mut wire = receiver(&rt, alloc, &[2, 3]);
    let mut acquisition = acquired(&rt, alloc, &controller, &mut wire);
    let fault = refused(&rt, acquisition.set_credit(5));
    let found = acquisition.recv();
    skips(&rt, acquisition);
    leak(controller);
    leak(wire);
    assert!(rt; same(fault, FlowError::IllegalState));
    let want = RecvError::LinkStateError(LinkStateError::IllegalState);
    assert!(rt; same(found, Poll::Ready(Err(want))));
}

/// A modification that says that the delivery failed.
fn failed() -> Modified {
    Modified {
        delivery_failed: Some(true),
        undeliverable_here: None,
        message_annotations: None,
    }
}

/// Retires the delivery with each outcome.
fn retires(rt: &impl Abort, acquisition: &mut WireAcquisition<'_, '_>, info: &DeliveryInfo) {
    passed(rt, acquisition.accept(info));
    passed(rt, acquisition.reject(info, None));
    passed(rt, acquisition.release(info));
    passed(rt, acquisition.modify(info, failed()));
}

/// The message of that place retires the seventh delivery with the outcome.
fn is_retired(rt: &impl Abort, alloc: Global, wire: &WireReceiver, place: usize, outcome: Outcome) {
    let state = TransactionalState {
        txn_id: id(rt),
        outcome: Some(outcome),
    };
    let want = ReceiverMessage::Disposition {
        delivery: seventh(alloc),
        settled: None,
        state: DeliveryState::TransactionalState(state),
    };
    let equal = match wire.put().as_slice().get(place) {
        None => false,
        Some(message) => *message == want,
    };
    leak(want);
    assert!(rt; equal);
}

/// The seventh delivery was retired with each outcome, after the flow of the acquisition.
fn all_retired(rt: &impl Abort, alloc: Global, wire: &WireReceiver) {
    is_retired(rt, alloc, wire, 1, Outcome::Accepted);
    is_retired(
        rt,
        alloc,
        wire,
        2,
        Outcome::Rejected(Rejected { error: None }),
    );
    is_retired(rt, alloc, wire, 3, Outcome::Released);
    is_retired(rt, alloc, wire, 4, Outcome::Modified(failed()));
    assert!(rt; wire.put().len() == 5);
}

#[test]
fn a_delivery_is_retired_with_each_outcome(rt: HostRuntime) {
    let alloc = rt.alloc();
    let controller = controller(&rt, alloc);
    let mut wire = receiver(&rt, alloc, &[]);
    let info = seventh(alloc);
    let mut acquisition = acquired(&rt, alloc, &controller, &mut wire);
    retires(&rt, &mut acquisition, &info);
    ends_discharged(&rt, &controller, acquisition);
    leak(info);
    leak(controller);
    all_retired(&rt, alloc, &wire);
    leak(wire);
}
