//! How acquisitions end.

use super::fixtures::{
    WireAcquisition, WireTransaction, a_and_b, acquired, answers, as_of, controller,
    ends_discharged, flow_is, is_to_fail, last_is, next_call_is, puts, receiver, skips,
    still_waits, waits,
};
use crate::transaction_tests::links::illegal;
use crate::transaction_tests::values::{
    COMMIT, ROLLBACK, passed, pending, ready, refused, rolled_back, same,
};
use amqp_controller_acquisition::AcquisitionDischarging;
use amqp_controller_calls::{Abandoned, ControllerSendError};
use amqp_controller_transactions::{Controller, TransactionDischarge};
use amqp_links::{FlowError, WireReceiver, WireSender};
use amqp_test_values::leak;
use amqp_txn_types::{DeliveryState, Fields, Rejected};
use std::alloc::Global;
use std::process::Abort;
use std::sync::Wait;

/// An acquisition whose end is awaited.
type WireDischarging<'r, 't> = AcquisitionDischarging<'r, WireTransaction<'t>, WireReceiver>;

/// The receiver put that many messages. The last is the flow of a cleanup of no other properties.
fn is_cleaned(rt: &impl Abort, alloc: Global, wire: WireReceiver, puts: usize) {
    let cleaned = flow_is(&wire, 0, Some(true), Fields::new(alloc));
    let count = wire.put().len();
    leak(wire);
    assert!(rt; cleaned);
    assert!(rt; count == puts);
}

/// The receiver put one message, and its properties are a and b.
fn is_as_before(rt: &impl Abort, alloc: Global, wire: WireReceiver) {
    let other = a_and_b(rt, alloc, &[]);
    let left = as_of(&wire, &other);
    leak(other);
    let count = wire.put().len();
    leak(wire);
    assert!(rt; left);
    assert!(rt; count == 1);
}

/// A discharge of the acquisition, which was put.
fn begun<'r, 't, R: Wait + Abort>(
    rt: &R,
    acquisition: WireAcquisition<'r, 't>,
    fail: bool,
) -> WireDischarging<'r, 't> {
    if fail {
        passed(rt, acquisition.rollback(rt))
    } else {
        passed(rt, acquisition.commit(rt))
    }
}

/// A discharge that was put with these octets is pending at first, and done once it is accepted.
/// The declare, its look, the discharge and two looks are five calls.
fn ends<R: Wait + Abort>(
    rt: &R,
    alloc: Global,
    controller: &Controller<WireSender>,
    discharging: WireDischarging<'_, '_>,
    octets: &[u8],
) {
    let discharging = pending(rt, discharging.poll(rt));
    assert!(rt; last_is(rt, alloc, controller, octets));
    answers(rt, controller, 1, DeliveryState::Accepted);
    passed(rt, ready(rt, discharging.poll(rt)));
    assert!(rt; next_call_is(rt, alloc, controller, 6));
    assert!(rt; puts(rt, controller) == 2);
}

/// A discharge cleans up once, and is put once.
fn discharge_row<R: Wait + Abort>(rt: &R, alloc: Global, fail: bool, octets: &[u8]) {
    let controller = controller(rt, alloc);
    let mut wire = receiver(rt, alloc, &[]);
    let acquisition = acquired(rt, alloc, &controller, &mut wire);
    let discharging = begun(rt, acquisition, fail);
    ends(rt, alloc, &controller, discharging, octets);
    leak(controller);
    is_cleaned(rt, alloc, wire, 2);
}

#[test]
fn a_discharge_cleans_up_and_is_put_once(rt: HostRuntime) {
    discharge_row(&rt, rt.alloc(), false, &COMMIT);
    discharge_row(&rt, rt.alloc(), true, &ROLLBACK);
}

/// The flows of the receiver are that of the acquisition, and that of the cleanup, which fails. The
/// acquisition that is handed back is then given up as discharged, without another cleanup.
#[test]
fn a_commit_after_a_failed_cleanup_puts_nothing(rt: HostRuntime) {
    let alloc = rt.alloc();
    let controller = controller(&rt, alloc);
    let mut wire = a_and_b(&rt, alloc, &[2]);
    let acquisition = acquired(&rt, alloc, &controller, &mut wire);
    let (acquisition, error) = refused(&rt, acquisition.commit(&rt));
    assert!(rt; same(error, illegal()));
    assert!(rt; puts(&rt, &controller) == 1);
    ends_discharged(&rt, &controller, acquisition);
    leak(controller);
    is_as_before(&rt, alloc, wire);
}

/// The third call of the control link is the discharge. Giving the acquisition up cleans up again.
#[test]
fn a_refused_discharge_hands_the_acquisition_back(rt: HostRuntime) {
    let alloc = rt.alloc();
    let controller = controller(&rt, alloc);
    is_to_fail(&rt, alloc, &controller, 3);
    let mut wire = receiver(&rt, alloc, &[]);
    let acquisition = acquired(&rt, alloc, &controller, &mut wire);
    let (acquisition, error) = refused(&rt, acquisition.commit(&rt));
    assert!(rt; same(error, illegal()));
    skips(&rt, acquisition);
    assert!(rt; puts(&rt, &controller) == 1);
    leak(controller);
    is_cleaned(&rt, alloc, wire, 3);
}

#[test]
fn a_failed_cleanup_leaves_the_other_properties(rt: HostRuntime) {
    let alloc = rt.alloc();
    let controller = controller(&rt, alloc);
    let mut wire = a_and_b(&rt, alloc, &[2]);
    let mut acquisition = acquired(&rt, alloc, &controller, &mut wire);
    let fault = refused(&rt, acquisition.cleanup());
    assert!(rt; same(fault, FlowError::IllegalState));
    ends_discharged(&rt, &controller, acquisition);
    leak(controller);
    is_as_before(&rt, alloc, wire);
}

#[test]
fn a_cleanup_takes_the_credit_back(rt: HostRuntime) {
    let alloc = rt.alloc();
    let controller = controller(&rt, alloc);
    let mut wire = receiver(&rt, alloc, &[]);
    let mut acquisition = acquired(&rt, alloc, &controller, &mut wire);
    passed(&rt, acquisition.cleanup());
    ends_discharged(&rt, &controller, acquisition);
    leak(controller);
    is_cleaned(&rt, alloc, wire, 2);
}

/// The poll of a rollback that is answered so hands the acquisition back undischarged.
fn handed_back_row<R: Wait + Abort>(
    rt: &R,
    alloc: Global,
    state: DeliveryState,
    want: ControllerSendError,
) {
    let controller = controller(rt, alloc);
    let mut wire = receiver(rt, alloc, &[]);
    let acquisition = acquired(rt, alloc, &controller, &mut wire);
    let discharging = pending(rt, begun(rt, acquisition, true).poll(rt));
    answers(rt, &controller, 1, state);
    let (acquisition, error) = refused(rt, ready(rt, discharging.poll(rt)));
    assert!(rt; same(error, want));
    assert!(rt; !acquisition.txn().is_discharged());
    skips(rt, acquisition);
    leak(controller);
    leak(wire);
}

#[test]
fn a_refused_end_hands_the_acquisition_back(rt: HostRuntime) {
    let want = ControllerSendError::IllegalDeliveryState;
    handed_back_row(&rt, rt.alloc(), DeliveryState::Released, want);
    let state = DeliveryState::Rejected(Rejected { error: None });
    let want = ControllerSendError::Rejected(Rejected { error: None });
    handed_back_row(&rt, rt.alloc(), state, want);
}

/// It is given up without a rollback, after another cleanup.
#[test]
fn an_acquisition_that_was_rolled_back_cleans_up(rt: HostRuntime) {
    let alloc = rt.alloc();
    let controller = controller(&rt, alloc);
    let mut wire = receiver(&rt, alloc, &[]);
    let acquisition = acquired(&rt, alloc, &controller, &mut wire);
    let discharging = begun(&rt, acquisition, false);
    answers(&rt, &controller, 1, DeliveryState::Rejected(rolled_back()));
    let (acquisition, error) = refused(&rt, ready(&rt, discharging.poll(&rt)));
    leak(error);
    assert!(rt; same(acquisition.abandon(&rt), Abandoned::RolledBack));
    assert!(rt; puts(&rt, &controller) == 2);
    leak(controller);
    is_cleaned(&rt, alloc, wire, 3);
}

/// What giving an acquisition up with one trial comes to.
fn given_up<R: Wait>(rt: &R, mut acquisition: WireAcquisition<'_, '_>) -> Abandoned {
    acquisition.txn_mut().set_rollback_on_drop_trials(1);
    acquisition.abandon(rt)
}

/// One rollback is put, and looked for once.
fn gives_up<R: Wait + Abort>(rt: &R, alloc: Global) {
    let controller = controller(rt, alloc);
    let mut wire = receiver(rt, alloc, &[]);
    waits(rt, alloc, &mut wire);
    let acquisition = acquired(rt, alloc, &controller, &mut wire);
    assert!(rt; same(given_up(rt, acquisition), Abandoned::Unanswered));
    assert!(rt; last_is(rt, alloc, &controller, &ROLLBACK));
    assert!(rt; puts(rt, &controller) == 2);
    assert!(rt; next_call_is(rt, alloc, &controller, 5));
    leak(controller);
    still_waits(rt, alloc, &mut wire, 4);
    is_cleaned(rt, alloc, wire, 2);
}

/// A rollback that the control link refuses, which is its third call, isn't looked for.
fn fails_to_roll_back<R: Wait + Abort>(rt: &R, alloc: Global) {
    let controller = controller(rt, alloc);
    is_to_fail(rt, alloc, &controller, 3);
    let mut wire = receiver(rt, alloc, &[]);
    let acquisition = acquired(rt, alloc, &controller, &mut wire);
    assert!(rt; same(given_up(rt, acquisition), Abandoned::Failed(illegal())));
    assert!(rt; next_call_is(rt, alloc, &controller, 4));
    leak(controller);
    is_cleaned(rt, alloc, wire, 2);
}

#[test]
fn an_abandon_cleans_up_and_rolls_back(rt: HostRuntime) {
    gives_up(&rt, rt.alloc());
    fails_to_roll_back(&rt, rt.alloc());
}

#[test]
fn an_abandon_once_discharged_puts_nothing(rt: HostRuntime) {
    let alloc = rt.alloc();
    let controller = controller(&rt, alloc);
    let mut wire = receiver(&rt, alloc, &[]);
    waits(&rt, alloc, &mut wire);
    let acquisition = acquired(&rt, alloc, &controller, &mut wire);
    ends_discharged(&rt, &controller, acquisition);
    assert!(rt; puts(&rt, &controller) == 2);
    leak(controller);
    still_waits(&rt, alloc, &mut wire, 3);
    let count = wire.put().len();
    leak(wire);
    assert!(rt; count == 1);
}
