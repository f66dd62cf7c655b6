//! A record in which one field of one entry was changed is legal no more, by the slow program.

use crate::Ran;
use crate::tests::run_over::A;
use crate::tests::run_tests::ran;
use amqp_below_layer::{Answers, Echoes};
use amqp_below_streams::SureSink;
use amqp_resource_record::{Driven, Reply, Step, is_legal};
use amqp_test_values::leak;
use amqp_txn_types::{Frames, TransactionId};
use std::alloc::{Alloc, Global};
use std::mem::replace;
use std::process::Abort;

const ONE_COMMIT: &str = "attach c 0\nattach d 1\ncontrol 0 00537700533145\n\
     post 00000000000000000000000000000001 1 7 - - 6869\n\
     control 0 005377005332c01301a01000000000000000000000000000000001\n";

/// What was driven of one committed transaction, on the first of two links.
fn driven_of(rt: &(impl Abort + Alloc<A = Global>)) -> Driven {
    let mut sink = SureSink::new(rt.alloc());
    let ran = ran(rt, &["run", A], ONE_COMMIT, &mut sink);
    leak(sink);
    let Ran {
        status: _,
        driven,
        entries,
        below,
    } = ran;
    leak(entries);
    leak(below);
    driven.expect(rt, "steps that were driven")
}

/// Whether the record is legal with that reply in that place.
fn is_legal_with(rt: &(impl Abort + Alloc<A = Global>), place: usize, reply: Reply) -> bool {
    let mut entries = driven_of(rt).entries.into_vec();
    assert!(rt; place < entries.len());
    leak(replace(&mut entries[place].reply, reply));
    let legal = is_legal(entries.as_slice());
    leak(entries);
    legal
}

/// Whether the record is legal with the control message in that place on that link.
fn is_legal_on(rt: &(impl Abort + Alloc<A = Global>), place: usize, other: u64) -> bool {
    let mut entries = driven_of(rt).entries.into_vec();
    assert!(rt; place < entries.len());
    if let Step::Control { link, .. } = &mut entries[place].step {
        *link = other;
    }
    let legal = is_legal(entries.as_slice());
    leak(entries);
    legal
}

#[test]
fn the_record_as_it_was_is_legal(rt: HostRuntime) {
    assert!(rt; is_legal_on(&rt, 4, 0));
}

#[test]
fn another_id_is_refused(rt: HostRuntime) {
    let reply = Reply::Declared(TransactionId::from([7; 16]));
    assert!(rt; !is_legal_with(&rt, 2, reply));
}

#[test]
fn a_post_without_its_disposition_is_refused(rt: HostRuntime) {
    let reply = Reply::Frames(Answers {
        given: Frames::new(rt.alloc()),
        window: None,
    });
    assert!(rt; !is_legal_with(&rt, 3, reply));
}

#[test]
fn a_missing_echo_is_refused(rt: HostRuntime) {
    let reply = Reply::Accepted(Echoes::new(rt.alloc()));
    assert!(rt; !is_legal_with(&rt, 4, reply));
}

#[test]
fn a_commit_by_another_link_is_refused(rt: HostRuntime) {
    assert!(rt; !is_legal_on(&rt, 4, 1));
}
