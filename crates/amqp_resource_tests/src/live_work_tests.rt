//! What a session keeps as one value: that its calls succeed where there is memory, and its
//! clauses, seen on small values.

ghost use Rattle.std.specs.Prelude.{◌≡◌, ◌<◌};

use crate::arrival_values::{id, work};
use amqp_resource_log::{LiveWork, Looks};
use amqp_test_values::leak;
use amqp_txn_types::strip;
use std::alloc::Global;
use std::marker::Brand;
use std::process::Abort;
use std::sync::ledger::{Blank, Ledger};

#[test]
fn new_value_keeps_nothing(rt: HostRuntime) {
    let live = LiveWork::new(rt.alloc());
    assert!(rt; live.is_empty());
    assert!(rt; live.home(&id(1)) == None);
    assert!(rt; live.count(&id(1)) == 0);
    assert!(rt; live.owed() == 0);
    leak(live);
}

fn keep<R: Abort>(rt: &R, live: &mut LiveWork, octet: u8, number: u32) {
    let txn_id = id(octet);
    assert!(rt; live.is_live(&txn_id));
    assert!(rt; live.keep(&txn_id, work(number)) == Ok(true));
}

fn add<R: Abort>(rt: &R, live: &mut LiveWork, octet: u8, home: Option<u64>) {
    let txn_id = id(octet);
    live.make_room().expect(rt, "an Ok");
    assert!(rt; !live.is_live(&txn_id));
    live.add(txn_id, home);
    assert!(rt; live.is_live(&txn_id));
}

/// Works 1 to 3: the odd ones under the id 1, of the link 7, and the even one under the id 2, of no
/// link.
fn two_ids<R: Abort>(rt: &R, live: &mut LiveWork) {
    add(rt, live, 1, Some(7));
    add(rt, live, 2, None);
    keep(rt, live, 1, 1);
    keep(rt, live, 2, 2);
    keep(rt, live, 1, 3);
}

#[test]
fn ids_have_their_links(rt: HostRuntime) {
    let mut live = LiveWork::new(rt.alloc());
    two_ids(&rt, &mut live);
    assert!(rt; live.home(&id(1)) == Some(Some(7)));
    assert!(rt; live.home(&id(2)) == Some(None));
    assert!(rt; live.home(&id(3)) == None);
    assert!(rt; live.len() == 2);
    assert!(rt; live.count(&id(1)) == 2);
    assert!(rt; live.frame_count() == 3);
    leak(live);
}

fn drops<L: Ledger, R: Abort>(rt: &R, live: &mut LiveWork, blank: Blank)
    requires name { blank.name ≡ L.name }
    requires parts { blank.parts ≡ L.parts }
    requires some { 0 < blank.parts }
{
    let mut looks = Looks::<L>::new(blank);
    live.drop_all(&id(1), &mut looks);
    assert!(rt; !live.is_live(&id(1)));
    assert!(rt; live.frame_count() == 1);
    assert!(rt; live.owed() == 2);
    live.compact(&mut looks);
    assert!(rt; live.owed() == 0);
    assert!(rt; live.count(&id(2)) == 1);
}

#[test]
fn dropped_id_leaves_the_other(rt: HostRuntime) {
    let mut live = LiveWork::new(rt.alloc());
    two_ids(&rt, &mut live);
    drops::<Brand, HostRuntime>(&rt, &mut live, Blank::new(1));
    leak(live);
}

/// Whether the two are equal.
fn is_that<T: PartialEq>(found: &T, wanted: T) -> bool {
    let equal = *found == wanted;
    leak(wanted);
    equal
}

fn takes<L: Ledger, R: Abort>(rt: &R, live: &mut LiveWork, alloc: Global, blank: Blank)
    requires name { blank.name ≡ L.name }
    requires parts { blank.parts ≡ L.parts }
    requires some { 0 < blank.parts }
{
    let txn_id = id(1);
    let mut looks = Looks::<L>::new(blank);
    let list = Vec::with_capacity(alloc, live.count(&txn_id)).expect(rt, "an Ok");
    let taken = live.take_all(&txn_id, list, &mut looks);
    assert!(rt; taken.len() == 2);
    assert!(rt; is_that(&taken[0], strip(work(1))));
    assert!(rt; is_that(&taken[1], strip(work(3))));
    leak(taken);
    assert!(rt; !live.is_live(&txn_id));
    assert!(rt; live.count(&id(2)) == 1);
}

#[test]
fn taken_work_is_in_order_and_stripped(rt: HostRuntime) {
    let mut live = LiveWork::new(rt.alloc());
    two_ids(&rt, &mut live);
    takes::<Brand, HostRuntime>(&rt, &mut live, rt.alloc(), Blank::new(1));
    leak(live);
}

#[test]
fn work_of_an_id_that_is_not_live_is_let_go(rt: HostRuntime) {
    let mut live = LiveWork::new(rt.alloc());
    two_ids(&rt, &mut live);
    assert!(rt; live.keep(&id(3), work(4)) == Ok(false));
    assert!(rt; live.frame_count() == 3);
    leak(live);
}
