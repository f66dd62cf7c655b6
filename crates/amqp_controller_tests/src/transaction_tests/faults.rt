//! Faults of the link under a controller's lock, which the calls over the lock pass on.

use crate::transaction_tests::links::{assert_counts, counting, illegal};
use crate::transaction_tests::rows::{gives_up, unfound_row};
use crate::transaction_tests::values::{passed, ready, refused, same};
use crate::transaction_tests::{borrowed, owned};
use amqp_controller_calls::Abandoned;
use amqp_controller_transactions::{OwnedDischargeError, OwnedTransaction, Transaction};
use amqp_test_values::leak;
use std::process::Abort;
use std::sync::Wait;

/// A declare whose look fails.
fn undeclared<R: Wait + Abort + AllocGlobal>(rt: &R) {
    let controller = counting(rt, &[2]);
    let declaring = Transaction::declare(&controller, rt, None).expect(rt, "an Ok");
    let error = refused(rt, ready(rt, declaring.poll(rt)));
    assert!(rt; same(error, illegal()));
    leak(controller);
}

/// An owned declare whose look fails: its controller is handed back.
fn undeclared_owned<R: Wait + Abort + AllocGlobal>(rt: &R) {
    let declare = OwnedTransaction::declare_with_controller(counting(rt, &[2]), rt, None);
    let declaring = passed(rt, declare);
    let (controller, error) = refused(rt, ready(rt, declaring.poll(rt)));
    assert!(rt; same(error, illegal()));
    assert_counts(rt, &controller, (1, 1, 0));
    leak(controller);
}

#[test]
fn a_look_that_fails_ends_the_declare(rt: HostRuntime) {
    undeclared(&rt);
    undeclared_owned(&rt);
}

/// The calls of the link: a declare, two looks, a commit, and the look, which fails.
#[test]
fn a_look_that_fails_leaves_the_value(rt: HostRuntime) {
    let controller = counting(&rt, &[5]);
    let error = unfound_row(&rt, borrowed::begun(&rt, &controller));
    assert!(rt; same(error, illegal()));
    leak(controller);
    let error = unfound_row(&rt, owned::begun(&rt, &[5]));
    assert!(rt; same(error, OwnedDischargeError::ControllerSendError(illegal())));
}

/// The calls of the link: a declare, two looks, and those of a transaction that is given up, of
/// which one fails. Then the same of an owned one.
fn given_up<R: Wait + Abort + AllocGlobal>(rt: &R, failing: u64) {
    let controller = counting(rt, &[failing]);
    let transaction = borrowed::begun(rt, &controller);
    gives_up(rt, transaction, 2, Abandoned::Failed(illegal()));
    leak(controller);
    let transaction = owned::begun(rt, &[failing]);
    gives_up(rt, transaction, 2, Abandoned::Failed(illegal()));
}

#[test]
fn giving_up_fails_where_the_link_does(rt: HostRuntime) {
    given_up(&rt, 4);
    given_up(&rt, 6);
}
