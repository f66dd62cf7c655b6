//! Two transactions over one controller.

use crate::transaction_tests::links::{CountingLink, assert_counts, counting, fill};
use crate::transaction_tests::rows::gives_up;
use crate::transaction_tests::values::{id, passed, pending, ready};
use amqp_controller_calls::{Abandoned, TransactionBase};
use amqp_controller_transactions::{Controller, Declaring, Transaction, TransactionDischarge};
use amqp_test_values::leak;
use amqp_txn_types::{Declared, DeliveryState, TransactionId};
use std::process::Abort;
use std::sync::Wait;

/// The declare of that number is answered with that id, once the link has the answer.
fn answers<R: Wait + Abort>(
    rt: &R,
    controller: &Controller<CountingLink>,
    number: u64,
    declaring: Declaring<'_, CountingLink>,
    txn_id: TransactionId,
) {
    let state = DeliveryState::Declared(Declared { txn_id });
    fill(rt, controller, number, state);
    let transaction = ready(rt, declaring.poll(rt)).expect(rt, "an Ok");
    assert!(rt; *transaction.txn_id() == txn_id);
    gives_up(rt, transaction, 0, Abandoned::Skipped);
}

#[test]
fn two_transactions_are_polled_in_any_order(rt: HostRuntime) {
    let controller = counting(&rt, &[]);
    let first = Transaction::declare(&controller, &rt, None).expect(&rt, "an Ok");
    let second = Transaction::declare(&controller, &rt, None).expect(&rt, "an Ok");
    answers(&rt, &controller, 1, second, TransactionId::from([9; 16]));
    let first = pending(&rt, first.poll(&rt));
    answers(&rt, &controller, 0, first, id());
    assert_counts(&rt, &controller, (2, 3, 0));
    leak(controller);
}

/// A transaction of that id, whose declare is the message of that number.
fn declared<'t, R: Wait + Abort>(
    rt: &R,
    controller: &'t Controller<CountingLink>,
    number: u64,
    txn_id: TransactionId,
) -> Transaction<'t, CountingLink> {
    let declaring = Transaction::declare(controller, rt, None).expect(rt, "an Ok");
    fill(
        rt,
        controller,
        number,
        DeliveryState::Declared(Declared { txn_id }),
    );
    ready(rt, declaring.poll(rt)).expect(rt, "an Ok")
}

#[test]
fn two_discharges_are_polled_in_any_order(rt: HostRuntime) {
    let controller = counting(&rt, &[]);
    let first = declared(&rt, &controller, 0, id());
    let second = declared(&rt, &controller, 1, TransactionId::from([9; 16]));
    let first = passed(&rt, first.commit(&rt));
    let second = passed(&rt, second.rollback(&rt));
    fill(&rt, &controller, 3, DeliveryState::Accepted);
    passed(&rt, ready(&rt, second.poll(&rt)));
    let first = pending(&rt, first.poll(&rt));
    fill(&rt, &controller, 2, DeliveryState::Accepted);
    passed(&rt, ready(&rt, first.poll(&rt)));
    assert_counts(&rt, &controller, (4, 5, 0));
    leak(controller);
}
