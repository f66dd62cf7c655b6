//! What no clause says: that the calls succeed where there is memory; and the clauses, seen on
//! small logs.

ghost use Rattle.std.specs.Prelude.{◌≡◌, ◌<◌};

use crate::arrival_values::{id, number_of, work};
use amqp_resource_log::{ArrivalLog, Looks};
use amqp_test_values::leak;
use amqp_txn_types::{TransactionId, TxnWorkFrame};
use std::marker::Brand;
use std::process::Abort;
use std::sync::ledger::{Blank, Ledger};

fn open<R: Abort>(rt: &R, log: &mut ArrivalLog, octet: u8) {
    let txn_id = id(octet);
    log.make_room().expect(rt, "an Ok");
    assert!(rt; !log.is_live(&txn_id));
    log.open_id(txn_id).expect(rt, "an Ok");
    assert!(rt; log.is_live(&txn_id));
}

fn keep<R: Abort>(rt: &R, log: &mut ArrivalLog, octet: u8, number: u32) {
    let txn_id = id(octet);
    assert!(rt; log.is_live(&txn_id));
    log.append(&txn_id, work(number)).expect(rt, "an Ok");
}

/// Works 1 to 5, the odd ones under the id 1 and the even ones under the id 2.
fn two_ids<R: Abort>(rt: &R, log: &mut ArrivalLog) {
    open(rt, log, 1);
    open(rt, log, 2);
    keep(rt, log, 1, 1);
    keep(rt, log, 2, 2);
    keep(rt, log, 1, 3);
    keep(rt, log, 2, 4);
    keep(rt, log, 1, 5);
}

#[test]
fn new_log_keeps_nothing(rt: HostRuntime) {
    let log = ArrivalLog::new(rt.alloc());
    assert!(rt; log.dead() == 0);
    assert!(rt; log.live() == 0);
    assert!(rt; log.first(&id(1)) == None);
    assert!(rt; !log.is_live(&id(1)));
    leak(log);
}

#[test]
fn ids_interleave(rt: HostRuntime) {
    let mut log = ArrivalLog::new(rt.alloc());
    two_ids(&rt, &mut log);
    assert!(rt; log.live() == 5);
    assert!(rt; log.count(&id(1)) == 3);
    assert!(rt; log.count(&id(2)) == 2);
    assert!(rt; log.first(&id(1)) == Some(0));
    assert!(rt; log.first(&id(2)) == Some(1));
    leak(log);
}

/// The first work of an id, taken out.
fn take_first<L: Ledger>(
    log: &mut ArrivalLog,
    txn_id: &TransactionId,
    looks: &mut Looks<L>,
) -> Option<TxnWorkFrame> {
    let place = log.first(txn_id)?;
    Some(log.take(place, looks))
}

/// What a test does to a log of two ids.
enum Case {
    Takes,
    ClosesUp,
    Compacts,
    Ends,
}

fn run_case<L: Ledger, R: Abort>(rt: &R, case: Case, log: &mut ArrivalLog, blank: Blank)
    requires name { blank.name ≡ L.name }
    requires parts { blank.parts ≡ L.parts }
    requires some { 0 < blank.parts }
{
    let mut looks = Looks::<L>::new(blank);
    match case {
        Case::Takes => takes(rt, log, &mut looks),
        Case::ClosesUp => closes_up(rt, log, &mut looks),
        Case::Compacts => compacts(rt, log, &mut looks),
        Case::Ends => ends(rt, log, &mut looks),
    }
}

/// The case on a log of works 1 to 5, with a count of looks of its own.
fn with_two_ids<R: Abort + AllocGlobal>(rt: &R, case: Case) {
    let mut log = ArrivalLog::new(rt.alloc());
    two_ids(rt, &mut log);
    run_case::<Brand, R>(rt, case, &mut log, Blank::new(1));
    leak(log);
}

fn takes<L: Ledger, R: Abort>(rt: &R, log: &mut ArrivalLog, looks: &mut Looks<L>) {
    assert!(rt; number_of(take_first(log, &id(2), looks)) == Some(2));
    assert!(rt; log.first(&id(2)) == Some(3));
    if let Some(place) = log.first(&id(1)) {
        assert!(rt; number_of(Some(log.take(place, looks))) == Some(1));
    }
    assert!(rt; log.dead() == 2);
    assert!(rt; log.first(&id(1)) == Some(2));
}

#[test]
fn work_is_taken_in_order(rt: HostRuntime) {
    with_two_ids(&rt, Case::Takes);
}

fn closes_up<L: Ledger, R: Abort>(rt: &R, log: &mut ArrivalLog, looks: &mut Looks<L>) {
    assert!(rt; number_of(take_first(log, &id(1), looks)) == Some(1));
    log.close_up(looks);
    assert!(rt; log.dead() == 0);
    assert!(rt; log.first(&id(2)) == Some(0));
    assert!(rt; log.first(&id(1)) == Some(1));
    assert!(rt; number_of(take_first(log, &id(2), looks)) == Some(2));
    assert!(rt; number_of(take_first(log, &id(2), looks)) == Some(4));
    assert!(rt; number_of(take_first(log, &id(2), looks)) == None);
}

#[test]
fn closed_up_log_keeps_its_order(rt: HostRuntime) {
    with_two_ids(&rt, Case::ClosesUp);
}

fn compacts<L: Ledger, R: Abort>(rt: &R, log: &mut ArrivalLog, looks: &mut Looks<L>) {
    leak(take_first(log, &id(1), looks));
    leak(take_first(log, &id(1), looks));
    log.compact(looks);
    assert!(rt; log.dead() == 2);
    leak(take_first(log, &id(1), looks));
    log.compact(looks);
    assert!(rt; log.dead() == 0);
    assert!(rt; log.live() == 2);
}

#[test]
fn log_is_closed_up_once_more_is_dead_than_live(rt: HostRuntime) {
    with_two_ids(&rt, Case::Compacts);
}

fn ends<L: Ledger, R: Abort>(rt: &R, log: &mut ArrivalLog, looks: &mut Looks<L>) {
    let txn_id = id(2);
    leak(take_first(log, &txn_id, looks));
    leak(take_first(log, &txn_id, looks));
    assert!(rt; log.is_live(&txn_id));
    assert!(rt; log.count(&txn_id) == 0);
    log.end(&txn_id);
    assert!(rt; !log.is_live(&txn_id));
    assert!(rt; log.is_live(&id(1)));
    assert!(rt; log.live() == 3);
}

#[test]
fn ended_id_is_live_no_more(rt: HostRuntime) {
    with_two_ids(&rt, Case::Ends);
}
