//! What a transactional session answers to a review, as a layer below another.

use crate::session_tests::{Recorded, answer_of, counts_of, planned, post};
use amqp_below_layer::{OpenSession, Verdict};
use amqp_below_recorder::Recorder;
use amqp_resource_session::*;
use amqp_test_values::{judges, leak, takes_work};
use std::alloc::Global;

/// A session over a recorder without a plan.
fn recorded(alloc: Global) -> Recorded {
    TxnSession::new(alloc, Recorder::new(alloc, OpenSession::new(alloc)))
}

#[test]
fn a_review_that_is_accepted_below_is_accepted(rt: HostRuntime) {
    let alloc = rt.alloc();
    let mut session = recorded(alloc);
    let accepted = judges(alloc, &mut session, 1, Verdict::Accept);
    let taken = takes_work(alloc, &mut session, 1);
    let counts = counts_of(&session);
    leak(session);
    assert!(rt; accepted);
    assert!(rt; taken);
    assert!(rt; counts == [2, 0]);
}

#[test]
fn a_review_that_is_vetoed_below_is_vetoed(rt: HostRuntime) {
    let alloc = rt.alloc();
    let mut session = planned(alloc, 2).expect(&rt, "an Ok");
    let vetoed = judges(alloc, &mut session, 1, Verdict::Veto);
    let counts = counts_of(&session);
    leak(session);
    assert!(rt; vetoed);
    assert!(rt; counts == [0, 1]);
}

#[test]
fn a_stopped_session_vetoes_each_review_unasked(rt: HostRuntime) {
    let alloc = rt.alloc();
    let mut ids = CountIds::new();
    let mut session = recorded(alloc);
    let _word = answer_of(&mut session, post(true, numbered_id(9)), &mut ids);
    let code = session.stop_code();
    let vetoed = judges(alloc, &mut session, 1, Verdict::Veto);
    let counts = counts_of(&session);
    leak(session);
    assert!(rt; code == Some(StopCode::UnknownTxnId));
    assert!(rt; vetoed);
    assert!(rt; counts == [0, 0]);
}
