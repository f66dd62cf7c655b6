//! Calls over the lock, on transactions that borrow their controller.

use crate::transaction_tests::links::{
    CountingLink, assert_counts, assert_last, counting, fill, illegal, late,
};
use crate::transaction_tests::rows::{
    accepted_row, discharged_row, gives_up, put_once, rejected_row, rolled_back_row,
    second_commit_row, undischarged_row, unsent_row,
};
use crate::transaction_tests::values::{
    ROLLBACK, declaration, declares, id, pending, ready, refused, rejection, same,
};
use amqp_controller_calls::{Abandoned, ControllerSendError, TransactionBase};
use amqp_controller_transactions::{
    Controller, DEFAULT_ROLLBACK_ON_DROP_TRIALS, Transaction, TransactionDischarge,
};
use amqp_test_values::leak;
use amqp_txn_types::DeliveryState;
use std::process::Abort;
use std::sync::Wait;

/// The transaction 010203 over the controller, after one put and two looks.
pub fn begun<'t, R: Wait + Abort>(
    rt: &R,
    controller: &'t Controller<CountingLink>,
) -> Transaction<'t, CountingLink> {
    let declaring = Transaction::declare(controller, rt, None).expect(rt, "an Ok");
    let declaring = pending(rt, declaring.poll(rt));
    assert_counts(rt, controller, (1, 1, 0));
    fill(rt, controller, 0, DeliveryState::Declared(declaration()));
    ready(rt, declaring.poll(rt)).expect(rt, "an Ok")
}

#[test]
fn a_declare_is_put_once(rt: HostRuntime) {
    for (global_id, octets) in declares() {
        let controller = counting(&rt, &[]);
        leak(Transaction::declare(&controller, &rt, global_id).expect(&rt, "an Ok"));
        put_once(&rt, &controller, octets);
        leak(controller);
    }
}

#[test]
fn each_poll_of_a_declare_looks_once(rt: HostRuntime) {
    let controller = counting(&rt, &[]);
    let transaction = begun(&rt, &controller);
    assert_counts(&rt, &controller, (1, 2, 0));
    assert!(rt; *transaction.txn_id() == id() && !transaction.is_discharged());
    assert!(rt; transaction.rollback_on_drop_trials() == DEFAULT_ROLLBACK_ON_DROP_TRIALS);
    gives_up(&rt, transaction, 0, Abandoned::Skipped);
    assert_counts(&rt, &controller, (1, 2, 0));
    leak(controller);
}

#[test]
fn a_discharged_value_puts_nothing_more(rt: HostRuntime) {
    let controller = counting(&rt, &[]);
    discharged_row(&rt, begun(&rt, &controller));
    assert_counts(&rt, &controller, (2, 4, 0));
    leak(controller);
}

fn accepted<R: Wait + Abort + AllocGlobal>(rt: &R, fail: bool) {
    let controller = counting(rt, &[]);
    accepted_row(rt, begun(rt, &controller), fail);
    assert_counts(rt, &controller, (2, 4, 0));
    leak(controller);
}

#[test]
fn a_discharge_is_polled_to_its_end(rt: HostRuntime) {
    accepted(&rt, false);
    accepted(&rt, true);
}

#[test]
fn a_commit_that_is_rejected_leaves_the_value(rt: HostRuntime) {
    let controller = counting(&rt, &[]);
    assert!(rt; same(rejected_row(&rt, begun(&rt, &controller)), rejection()));
    leak(controller);
}

#[test]
fn a_discharge_that_is_rejected_leaves_the_value(rt: HostRuntime) {
    let controller = counting(&rt, &[]);
    assert!(rt; same(undischarged_row(&rt, begun(&rt, &controller)), rejection()));
    leak(controller);
}

/// Giving it up puts nothing.
#[test]
fn a_value_that_was_rolled_back_is_given_up(rt: HostRuntime) {
    let controller = counting(&rt, &[]);
    rolled_back_row(&rt, begun(&rt, &controller));
    assert_counts(&rt, &controller, (2, 4, 0));
    leak(controller);
}

#[test]
fn a_value_that_was_rolled_back_is_committed_again(rt: HostRuntime) {
    let controller = counting(&rt, &[]);
    second_commit_row(&rt, begun(&rt, &controller));
    assert_counts(&rt, &controller, (3, 5, 0));
    leak(controller);
}

#[test]
fn a_refused_declare_is_no_transaction(rt: HostRuntime) {
    let controller = counting(&rt, &[1]);
    let error = refused(&rt, Transaction::declare(&controller, &rt, None));
    assert!(rt; same(error, illegal()));
    assert_counts(&rt, &controller, (0, 0, 0));
    leak(controller);
}

/// The calls of the link: a declare, two looks, and the commit, which fails.
#[test]
fn a_refused_commit_hands_the_value_back(rt: HostRuntime) {
    let controller = counting(&rt, &[4]);
    let error = unsent_row(&rt, begun(&rt, &controller));
    assert!(rt; same(error, illegal()));
    leak(controller);
}

#[test]
fn a_refused_discharge_leaves_the_value(rt: HostRuntime) {
    let controller = counting(&rt, &[4]);
    let mut transaction = begun(&rt, &controller);
    let error = refused(&rt, transaction.discharge(&rt, false));
    assert!(rt; same(error, illegal()));
    assert!(rt; !transaction.is_discharged());
    assert_counts(&rt, &controller, (1, 2, 0));
    leak(transaction.abandon(&rt));
    leak(controller);
}

#[test]
fn giving_up_looks_as_often_as_it_may(rt: HostRuntime) {
    let controller = counting(&rt, &[]);
    gives_up(&rt, begun(&rt, &controller), 2, Abandoned::Unanswered);
    assert_last(&rt, &controller, &ROLLBACK);
    assert_counts(&rt, &controller, (2, 4, 0));
    leak(controller);
}

/// Over a late link, whose answer is a state that isn't Declared.
#[test]
fn a_declare_that_is_accepted_is_no_transaction(rt: HostRuntime) {
    let controller = Controller::new(rt.alloc(), late(&rt, None, 0));
    let declaring = Transaction::declare(&controller, &rt, None).expect(&rt, "an Ok");
    let error = refused(&rt, ready(&rt, declaring.poll(&rt)));
    assert!(rt; same(error, ControllerSendError::IllegalDeliveryState));
    leak(controller);
}

/// With three trials, over a link that is pending at two looks.
#[test]
fn giving_up_is_answered_at_the_third_look(rt: HostRuntime) {
    let controller = Controller::new(rt.alloc(), late(&rt, Some(declaration()), 2));
    let declaring = Transaction::declare(&controller, &rt, None).expect(&rt, "an Ok");
    let mut transaction = ready(&rt, declaring.poll(&rt)).expect(&rt, "an Ok");
    transaction.set_rollback_on_drop_trials(3);
    let want = Abandoned::Answered(Some(DeliveryState::Accepted));
    assert!(rt; same(transaction.abandon(&rt), want));
    leak(controller);
}
