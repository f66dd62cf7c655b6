//! Controllers that are closed.

use crate::transaction_tests::links::{Lent, assert_counts, counting, late};
use crate::transaction_tests::values::{passed, refused, same};
use amqp_controller_transactions::Controller;
use amqp_links::{DetachError, SenderLink};
use amqp_test_values::{leak, plain_error};
use amqp_txn_types::{AmqpError, Error, ErrorCondition};
use std::process::Abort;
use std::sync::Wait;

fn internal_error() -> Error {
    plain_error(ErrorCondition::AmqpError(AmqpError::InternalError))
}

/// Closes a controller, with an error where there is one.
fn close<L: SenderLink + Drop, R: Wait>(
    rt: &R,
    controller: Controller<L>,
    error: Option<Error>,
) -> Result<(), (Controller<L>, DetachError)> {
    match error {
        None => controller.close(rt),
        Some(error) => controller.close_with_error(rt, error),
    }
}

/// A close is refused with the controller handed back, after one close.
fn refused_row<R: Wait + Abort + AllocGlobal>(rt: &R, error: Option<Error>) {
    let (controller, fault) = refused(rt, close(rt, counting(rt, &[1]), error));
    assert!(rt; same(fault, DetachError::IllegalState));
    assert_counts(rt, &controller, (0, 0, 1));
    leak(controller);
}

#[test]
fn a_refused_close_hands_the_controller_back(rt: HostRuntime) {
    refused_row(&rt, Some(internal_error()));
    refused_row(&rt, None);
}

/// A lent link is closed once, with the error that the close names.
fn close_row<R: Wait + Abort + AllocGlobal>(rt: &R, error: Option<Error>, want: Option<Error>) {
    let mut link = late(rt, None, 0);
    let controller = Controller::new(rt.alloc(), Lent { link: &mut link });
    passed(rt, close(rt, controller, error));
    assert!(rt; link.wire.closes().len() == 1);
    let found = link.wire.closes().as_slice().last().expect(rt, "a close");
    assert!(rt; *found == want);
    leak(want);
    leak(link);
}

#[test]
fn a_close_names_no_error(rt: HostRuntime) {
    close_row(&rt, None, None);
}

#[test]
fn a_close_names_its_error(rt: HostRuntime) {
    close_row(&rt, Some(internal_error()), Some(internal_error()));
}
