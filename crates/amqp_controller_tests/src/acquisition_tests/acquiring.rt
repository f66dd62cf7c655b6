//! Acquiring deliveries.

use super::fixtures::{
    a_and_b, acquired, as_of, controller, flow_is, receiver, skips, still_waits, transaction,
    waits, with_uint,
};
use crate::transaction_tests::values::{passed, refused, same};
use amqp_controller_acquisition::TransactionAcquisition;
use amqp_controller_transactions::TransactionDischarge;
use amqp_links::{FlowError, WireReceiver};
use amqp_test_values::leak;
use amqp_txn_types::{Binary, Fields, Symbol, Value};
use std::alloc::Global;
use std::process::Abort;
use std::sync::Wait;

/// The properties that name 010203.
fn naming(rt: &impl Abort, alloc: Global) -> Fields {
    let key = Symbol::from_str(alloc, "txn-id").expect(rt, "a key");
    let id = Binary::from_slice(alloc, &[1, 2, 3]).expect(rt, "an id");
    let mut fields = Fields::new(alloc);
    passed(rt, fields.insert(key, Value::Binary(id)));
    fields
}

/// The flow of the cleanup fails.
#[test]
fn acquiring_puts_one_flow_that_names_the_transaction(rt: HostRuntime) {
    let alloc = rt.alloc();
    let controller = controller(&rt, alloc);
    let mut wire = receiver(&rt, alloc, &[2]);
    let acquisition = acquired(&rt, alloc, &controller, &mut wire);
    skips(&rt, acquisition);
    leak(controller);
    let flow = flow_is(&wire, 1, None, naming(&rt, alloc));
    let puts = wire.put().len();
    leak(wire);
    assert!(rt; flow);
    assert!(rt; puts == 1);
}

/// Acquiring fails as illegal, puts nothing, and leaves the receiver, with the properties of
/// another; the call of the receiver after it has that number.
fn fails_and_leaves<R: Wait + Abort>(
    rt: &R,
    alloc: Global,
    mut wire: WireReceiver,
    other: WireReceiver,
    next: u64,
) {
    waits(rt, alloc, &mut wire);
    let controller = controller(rt, alloc);
    let transaction = transaction(rt, &controller);
    let (transaction, fault) = refused(rt, transaction.acquire(alloc, &mut wire, 1));
    leak(transaction.abandon(rt));
    leak(controller);
    still_waits(rt, alloc, &mut wire, next);
    let none = wire.put().is_empty();
    let left = as_of(&wire, &other);
    leak(wire);
    leak(other);
    assert!(rt; same(fault, FlowError::IllegalState));
    assert!(rt; none);
    assert!(rt; left);
}

#[test]
fn a_refused_flow_leaves_the_properties(rt: HostRuntime) {
    let alloc = rt.alloc();
    let wire = a_and_b(&rt, alloc, &[2]);
    let other = a_and_b(&rt, alloc, &[]);
    fails_and_leaves(&rt, alloc, wire, other, 3);
}

/// A receiver whose properties name a transaction.
fn named_before(rt: &impl Abort, alloc: Global) -> WireReceiver {
    let mut wire = receiver(rt, alloc, &[]);
    with_uint(rt, alloc, &mut wire, "txn-id", 1);
    wire
}

#[test]
fn a_second_acquisition_is_illegal(rt: HostRuntime) {
    let alloc = rt.alloc();
    let wire = named_before(&rt, alloc);
    let other = named_before(&rt, alloc);
    fails_and_leaves(&rt, alloc, wire, other, 2);
}
