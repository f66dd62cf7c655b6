//! Acquiring deliveries by a transaction that owns its controller.

use super::fixtures::{answers, controller, declaration, id, is_to_fail, receiver};
use crate::transaction_tests::values::{passed, ready, refused, same};
use amqp_controller_acquisition::{TransactionAcquisition, TxnAcquisition};
use amqp_controller_calls::{Abandoned, TransactionBase};
use amqp_controller_transactions::{OwnedDischargeError, OwnedTransaction, TransactionDischarge};
use amqp_links::{DetachError, WireReceiver, WireSender};
use amqp_test_values::leak;
use amqp_txn_types::DeliveryState;
use std::alloc::Global;
use std::process::Abort;
use std::sync::Wait;

/// The transaction 010203, which owns its controller.
fn declared<R: Wait + Abort>(rt: &R, alloc: Global) -> OwnedTransaction<WireSender> {
    let controller = controller(rt, alloc);
    let begun = OwnedTransaction::declare_with_controller(controller, rt, None);
    let declaring = passed(rt, begun);
    answers(rt, declaring.controller(), 0, declaration(rt));
    passed(rt, ready(rt, declaring.poll(rt)))
}

/// It is given up by a rollback that isn't answered.
#[test]
fn an_owned_transaction_acquires(rt: HostRuntime) {
    let alloc = rt.alloc();
    let mut wire = receiver(&rt, alloc, &[]);
    let transaction = declared(&rt, alloc);
    let acquisition = passed(&rt, transaction.acquire(alloc, &mut wire, 1));
    let named = *acquisition.txn_id() == id(&rt);
    let gone = acquisition.abandon(&rt);
    let puts = wire.put().len();
    leak(wire);
    assert!(rt; named);
    assert!(rt; same(gone, Abandoned::Unanswered));
    assert!(rt; puts == 2);
}

/// An acquisition by a transaction that owns its controller.
type OwnedAcquisition<'r> = TxnAcquisition<'r, OwnedTransaction<WireSender>, WireReceiver>;

/// A commit of the transaction itself is accepted.
fn commits<R: Wait + Abort>(rt: &R, transaction: &mut OwnedTransaction<WireSender>) {
    let waiting = passed(rt, transaction.discharge(rt, false));
    answers(rt, transaction.controller(), 1, DeliveryState::Accepted);
    passed(rt, ready(rt, transaction.poll_discharge(rt, waiting)));
}

/// An acquisition whose transaction is committed, before its link is closed.
fn committed<'r, R: Wait + Abort>(
    rt: &R,
    alloc: Global,
    wire: &'r mut WireReceiver,
) -> OwnedAcquisition<'r> {
    let mut acquisition = passed(rt, declared(rt, alloc).acquire(alloc, wire, 1));
    commits(rt, acquisition.txn_mut());
    acquisition
}

/// Its end cleans the receiver up, and closes the control link.
#[test]
fn a_committed_acquisition_ends(rt: HostRuntime) {
    let alloc = rt.alloc();
    let mut wire = receiver(&rt, alloc, &[]);
    let discharging = passed(&rt, committed(&rt, alloc, &mut wire).commit(&rt));
    passed(&rt, ready(&rt, discharging.poll(&rt)));
    let puts = wire.put().len();
    leak(wire);
    assert!(rt; puts == 2);
}

/// The calls of the control link: a declare, its look, a commit, its look, and the close.
#[test]
fn a_failed_close_hands_the_acquisition_back(rt: HostRuntime) {
    let alloc = rt.alloc();
    let mut wire = receiver(&rt, alloc, &[]);
    let acquisition = committed(&rt, alloc, &mut wire);
    is_to_fail(&rt, alloc, acquisition.txn().controller(), 5);
    let discharging = passed(&rt, acquisition.commit(&rt));
    let (acquisition, error) = refused(&rt, ready(&rt, discharging.poll(&rt)));
    let discharged = acquisition.txn().is_discharged();
    let gone = acquisition.abandon(&rt);
    leak(wire);
    assert!(rt;
        same(
            error,
            OwnedDischargeError::DetachError(DetachError::IllegalState)
        )
    );
    assert!(rt; discharged);
    assert!(rt; same(gone, Abandoned::Discharged));
}
