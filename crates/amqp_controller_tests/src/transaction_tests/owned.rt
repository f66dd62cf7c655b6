//! Calls over the lock, on transactions that own their controller.

use crate::transaction_tests::links::{
    CountingLink, LateLink, Lent, assert_counts, counting, fill, illegal, late,
};
use crate::transaction_tests::rows::{
    accepted_row, asks, discharged_row, gives_up, put_once, rejected_row, rolled_back_row,
    second_commit_row, undischarged_row, unsent_row,
};
use crate::transaction_tests::values::{
    declaration, declares, id, passed, pending, ready, refused, rejection, same,
};
use amqp_controller_calls::{Abandoned, TransactionBase};
use amqp_controller_transactions::{
    Controller, OwnedDischargeError, OwnedTransaction, TransactionDischarge,
};
use amqp_links::DetachError;
use amqp_test_values::leak;
use amqp_txn_types::DeliveryState;
use std::process::Abort;
use std::sync::Wait;

/// The transaction 010203, of whose link the calls of those numbers are to fail: a declare, put
/// without a look; pending, one look; then answered.
pub fn begun<R: Wait + Abort + AllocGlobal>(
    rt: &R,
    failing: &[u64],
) -> OwnedTransaction<CountingLink> {
    let controller = counting(rt, failing);
    let declare = OwnedTransaction::declare_with_controller(controller, rt, None);
    let declaring = passed(rt, declare);
    assert_counts(rt, declaring.controller(), (1, 0, 0));
    let declaring = pending(rt, declaring.poll(rt));
    assert_counts(rt, declaring.controller(), (1, 1, 0));
    let state = DeliveryState::Declared(declaration());
    fill(rt, declaring.controller(), 0, state);
    passed(rt, ready(rt, declaring.poll(rt)))
}

#[test]
fn a_declare_is_put_once(rt: HostRuntime) {
    for (global_id, octets) in declares() {
        let controller = counting(&rt, &[]);
        let declare = OwnedTransaction::declare_with_controller(controller, &rt, global_id);
        let declaring = passed(&rt, declare);
        put_once(&rt, declaring.controller(), octets);
        leak(declaring);
    }
}

#[test]
fn each_poll_of_a_declare_looks_once(rt: HostRuntime) {
    let transaction = begun(&rt, &[]);
    assert_counts(&rt, transaction.controller(), (1, 2, 0));
    assert!(rt; *transaction.txn_id() == id() && !transaction.is_discharged());
    gives_up(&rt, transaction, 0, Abandoned::Skipped);
}

#[test]
fn a_discharged_value_puts_nothing_more(rt: HostRuntime) {
    discharged_row(&rt, begun(&rt, &[]));
}

#[test]
fn a_discharge_is_polled_to_its_end(rt: HostRuntime) {
    accepted_row(&rt, begun(&rt, &[]), false);
    accepted_row(&rt, begun(&rt, &[]), true);
}

#[test]
fn a_commit_that_is_rejected_leaves_the_value(rt: HostRuntime) {
    let error = rejected_row(&rt, begun(&rt, &[]));
    assert!(rt; same(error, OwnedDischargeError::ControllerSendError(rejection())));
}

#[test]
fn a_discharge_that_is_rejected_leaves_the_value(rt: HostRuntime) {
    let error = undischarged_row(&rt, begun(&rt, &[]));
    assert!(rt; same(error, OwnedDischargeError::ControllerSendError(rejection())));
}

#[test]
fn a_value_that_was_rolled_back_is_given_up(rt: HostRuntime) {
    rolled_back_row(&rt, begun(&rt, &[]));
}

#[test]
fn a_value_that_was_rolled_back_is_committed_again(rt: HostRuntime) {
    second_commit_row(&rt, begun(&rt, &[]));
}

/// The calls of the link: a declare, two looks, and the commit, which fails.
#[test]
fn a_refused_commit_hands_the_value_back(rt: HostRuntime) {
    let error = unsent_row(&rt, begun(&rt, &[4]));
    assert!(rt; same(error, OwnedDischargeError::ControllerSendError(illegal())));
}

#[test]
fn a_refused_declare_hands_the_controller_back(rt: HostRuntime) {
    let controller = counting(&rt, &[1]);
    let declare = OwnedTransaction::declare_with_controller(controller, &rt, None);
    let (controller, error) = refused(&rt, declare);
    assert!(rt; same(error, illegal()));
    assert_counts(&rt, &controller, (0, 0, 0));
    leak(controller);
}

/// The calls of the link: a declare, two looks, a commit, two looks, and the close, which fails.
/// After one look and one close the value is discharged, puts nothing more, and is given up as
/// discharged.
#[test]
fn a_failed_close_hands_the_value_back_discharged(rt: HostRuntime) {
    let commit = asks(&rt, begun(&rt, &[7]), false, DeliveryState::Accepted);
    let (mut transaction, error) = refused(&rt, ready(&rt, commit.poll(&rt)));
    let want = OwnedDischargeError::DetachError(DetachError::IllegalState);
    assert!(rt; same(error, want));
    assert_counts(&rt, transaction.controller(), (2, 4, 1));
    assert!(rt; transaction.is_discharged());
    leak(transaction.discharge(&rt, true).expect(&rt, "an Ok"));
    assert_counts(&rt, transaction.controller(), (2, 4, 1));
    gives_up(&rt, transaction, 20, Abandoned::Discharged);
}

#[test]
fn giving_up_is_unanswered(rt: HostRuntime) {
    gives_up(&rt, begun(&rt, &[]), 2, Abandoned::Unanswered);
}

/// With three trials, over a link that is pending at two looks.
#[test]
fn giving_up_is_answered_at_the_third_look(rt: HostRuntime) {
    let controller = Controller::new(rt.alloc(), late(&rt, Some(declaration()), 2));
    let declare = OwnedTransaction::declare_with_controller(controller, &rt, None);
    let declaring = passed(&rt, declare);
    let mut transaction = passed(&rt, ready(&rt, declaring.poll(&rt)));
    transaction.set_rollback_on_drop_trials(3);
    let want = Abandoned::Answered(Some(DeliveryState::Accepted));
    assert!(rt; same(transaction.abandon(&rt), want));
}

/// The transaction 010203 over a lent link, which outlives it.
fn begun_over<'l, R: Wait + Abort + AllocGlobal>(
    rt: &R,
    link: &'l mut LateLink,
) -> OwnedTransaction<Lent<'l, LateLink>> {
    let controller = Controller::new(rt.alloc(), Lent { link });
    let declare = OwnedTransaction::declare_with_controller(controller, rt, None);
    passed(rt, ready(rt, passed(rt, declare).poll(rt)))
}

/// So many messages and closes were put on the link.
fn assert_link<R: Abort>(rt: &R, link: LateLink, want: (usize, usize)) {
    let counts = (link.wire.put().len(), link.wire.closes().len());
    leak(link);
    assert!(rt; counts == want);
}

#[test]
fn a_committed_transaction_closes_its_link_once(rt: HostRuntime) {
    let mut link = late(&rt, Some(declaration()), 0);
    let commit = passed(&rt, begun_over(&rt, &mut link).commit(&rt));
    passed(&rt, ready(&rt, commit.poll(&rt)));
    assert_link(&rt, link, (2, 1));
}

#[test]
fn a_transaction_that_is_given_up_closes_nothing(rt: HostRuntime) {
    let mut link = late(&rt, Some(declaration()), 0);
    let want = Abandoned::Answered(Some(DeliveryState::Accepted));
    assert!(rt; same(begun_over(&rt, &mut link).abandon(&rt), want));
    assert_link(&rt, link, (2, 0));
}
