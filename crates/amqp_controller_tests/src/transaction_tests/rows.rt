//! The steps of a transaction's end, borrowed or owned.

use crate::transaction_tests::links::{CountingLink, assert_counts, assert_last, fill};
use crate::transaction_tests::values::{
    COMMIT, ROLLBACK, passed, pending, ready, refused, rolled_back, same, unknown_id,
};
use amqp_controller_calls::Abandoned;
use amqp_controller_transactions::{
    Controller, Discharging, OwnedTransaction, Transaction, TransactionDischarge,
};
use amqp_test_values::leak;
use amqp_txn_types::DeliveryState;
use std::process::Abort;
use std::sync::Wait;

/// A transaction over a counting link.
pub trait Over {
    fn over(&self) -> &Controller<CountingLink>;

    fn set_trials(&mut self, trials: u32);

    fn has_read_rollback(&self) -> bool;
}

impl Over for Transaction<'_, CountingLink> {
    fn over(&self) -> &Controller<CountingLink> {
        self.controller()
    }

    fn set_trials(&mut self, trials: u32) {
        self.set_rollback_on_drop_trials(trials);
    }

    fn has_read_rollback(&self) -> bool {
        self.is_rolled_back()
    }
}

impl Over for OwnedTransaction<CountingLink> {
    fn over(&self) -> &Controller<CountingLink> {
        self.controller()
    }

    fn set_trials(&mut self, trials: u32) {
        self.set_rollback_on_drop_trials(trials);
    }

    fn has_read_rollback(&self) -> bool {
        self.is_rolled_back()
    }
}

/// A declare is put on the controller's link once, and no look is made.
pub fn put_once<R: Wait + Abort + AllocGlobal>(
    rt: &R,
    controller: &Controller<CountingLink>,
    octets: &[u8],
) {
    assert_last(rt, controller, octets);
    assert_counts(rt, controller, (1, 0, 0));
}

/// Giving it up with that many trials ends so.
pub fn gives_up<T: TransactionDischarge + Over, R: Wait + Abort>(
    rt: &R,
    mut value: T,
    trials: u32,
    want: Abandoned,
) {
    value.set_trials(trials);
    assert!(rt; same(value.abandon(rt), want));
}

/// A commit that is accepted marks the value: one put and no look; a poll without an answer,
/// pending, one look; then the answer, one look more.
fn commits<T: TransactionDischarge + Over, R: Wait + Abort + AllocGlobal>(rt: &R, value: &mut T) {
    let waiting = passed(rt, value.discharge(rt, false));
    assert_counts(rt, value.over(), (2, 2, 0));
    assert_last(rt, value.over(), &COMMIT);
    let waiting = pending(rt, value.poll_discharge(rt, waiting));
    assert_counts(rt, value.over(), (2, 3, 0));
    assert!(rt; !value.is_discharged());
    fill(rt, value.over(), 1, DeliveryState::Accepted);
    passed(rt, ready(rt, value.poll_discharge(rt, waiting)));
    assert_counts(rt, value.over(), (2, 4, 0));
    assert!(rt; value.is_discharged());
}

/// A discharged value puts nothing more and is done without a look, and is given up as discharged.
pub fn discharged_row<T: TransactionDischarge + Over, R: Wait + Abort + AllocGlobal>(
    rt: &R,
    mut value: T,
) {
    commits(rt, &mut value);
    let waiting = passed(rt, value.discharge(rt, true));
    passed(rt, ready(rt, value.poll_discharge(rt, waiting)));
    assert_counts(rt, value.over(), (2, 4, 0));
    gives_up(rt, value, 20, Abandoned::Discharged);
}

/// A commit, or a rollback where `fail` is true: one put of its octets and no look; then pending,
/// one look; then the answer is there.
pub fn asks<T: TransactionDischarge + Over, R: Wait + Abort + AllocGlobal>(
    rt: &R,
    value: T,
    fail: bool,
    answer: DeliveryState,
) -> Discharging<T> {
    let (begun, octets) = if fail {
        (value.rollback(rt), ROLLBACK)
    } else {
        (value.commit(rt), COMMIT)
    };
    let discharge = passed(rt, begun);
    assert_counts(rt, discharge.value().over(), (2, 2, 0));
    assert_last(rt, discharge.value().over(), &octets);
    let discharge = pending(rt, discharge.poll(rt));
    assert_counts(rt, discharge.value().over(), (2, 3, 0));
    fill(rt, discharge.value().over(), 1, answer);
    discharge
}

/// A discharge that is accepted, to its end.
pub fn accepted_row<T: TransactionDischarge + Over, R: Wait + Abort + AllocGlobal>(
    rt: &R,
    value: T,
    fail: bool,
) {
    let discharge = asks(rt, value, fail, DeliveryState::Accepted);
    passed(rt, ready(rt, discharge.poll(rt)));
}

/// Why a value was handed back: it isn't discharged, after so many puts, looks and closes.
fn handed_back<T: TransactionDischarge + Over, R: Wait + Abort>(
    rt: &R,
    back: (T, T::Error),
    want: (usize, u32, u32),
) -> T::Error {
    let (value, error) = back;
    assert_counts(rt, value.over(), want);
    assert!(rt; !value.is_discharged() && !value.has_read_rollback());
    leak(value.abandon(rt));
    error
}

/// The error of a commit that is rejected: one look, and the value is handed back undischarged.
pub fn rejected_row<T: TransactionDischarge + Over, R: Wait + Abort + AllocGlobal>(
    rt: &R,
    value: T,
) -> T::Error {
    let commit = asks(rt, value, false, DeliveryState::Rejected(unknown_id()));
    handed_back(rt, refused(rt, ready(rt, commit.poll(rt))), (2, 4, 0))
}

/// The value after a commit that the coordinator answered by a rollback: it isn't discharged.
fn rolls_back<T: TransactionDischarge + Over, R: Wait + Abort + AllocGlobal>(
    rt: &R,
    value: T,
) -> T {
    let commit = asks(rt, value, false, DeliveryState::Rejected(rolled_back()));
    let (value, error) = refused(rt, ready(rt, commit.poll(rt)));
    leak(error);
    assert!(rt; value.has_read_rollback() && !value.is_discharged());
    assert_counts(rt, value.over(), (2, 4, 0));
    value
}

/// A value that the coordinator rolled back is given up as that.
pub fn rolled_back_row<T: TransactionDischarge + Over, R: Wait + Abort + AllocGlobal>(
    rt: &R,
    value: T,
) {
    gives_up(rt, rolls_back(rt, value), 20, Abandoned::RolledBack);
}

/// A second commit of a value that was rolled back puts a discharge again, and is accepted.
pub fn second_commit_row<T: TransactionDischarge + Over, R: Wait + Abort + AllocGlobal>(
    rt: &R,
    value: T,
) {
    let commit = passed(rt, rolls_back(rt, value).commit(rt));
    assert_counts(rt, commit.value().over(), (3, 4, 0));
    assert_last(rt, commit.value().over(), &COMMIT);
    fill(rt, commit.value().over(), 2, DeliveryState::Accepted);
    passed(rt, ready(rt, commit.poll(rt)));
}

/// The error of a discharge that is rejected: the value isn't discharged, neither while the wait
/// goes on nor at its end.
pub fn undischarged_row<T: TransactionDischarge + Over, R: Wait + Abort>(
    rt: &R,
    mut value: T,
) -> T::Error {
    let waiting = passed(rt, value.discharge(rt, false));
    let waiting = pending(rt, value.poll_discharge(rt, waiting));
    assert!(rt; !value.is_discharged());
    fill(rt, value.over(), 1, DeliveryState::Rejected(unknown_id()));
    let error = refused(rt, ready(rt, value.poll_discharge(rt, waiting)));
    handed_back(rt, (value, error), (2, 4, 0))
}

/// The error of a commit that the link refuses to send: the value is handed back as it was.
pub fn unsent_row<T: TransactionDischarge + Over, R: Wait + Abort>(rt: &R, value: T) -> T::Error {
    handed_back(rt, refused(rt, value.commit(rt)), (1, 2, 0))
}

/// The error of a commit whose first look fails: the value is handed back as it was.
pub fn unfound_row<T: TransactionDischarge + Over, R: Wait + Abort>(rt: &R, value: T) -> T::Error {
    let commit = passed(rt, value.commit(rt));
    handed_back(rt, refused(rt, ready(rt, commit.poll(rt))), (2, 3, 0))
}
