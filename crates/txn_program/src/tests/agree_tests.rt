//! Runs of two parties, each worked by hand.

use crate::tests::listen_tests::listener_session;
use crate::tests::run_over::{A, assert_over};
use amqp_below_layer::OpenSession;
use amqp_txn_types::Handle;
use std::alloc::{Alloc, Global};
use std::process::Abort;

/// Runs the program over a layer that takes everything, and compares its status and its text.
fn assert_run(
    rt: &(impl Abort + Alloc<A = Global>),
    words: &[&str],
    lines: &str,
    status: u8,
    text: &str,
) {
    let below = OpenSession::new(rt.alloc());
    assert_over(rt, below, words, lines, (status, text));
}

#[test]
fn a_cut_before_the_answer_leaves_it_unheard(rt: HostRuntime) {
    assert_run(
        &rt,
        &["agree", "1", A],
        "declare 0\narrive\nreturn\npost 0 1 7 true - 61\ncommit 0\narrive\narrive\n\
         cut\nreturn\n",
        0,
        "txn 0 nothing\nskipped 1\nstop none\nhanded 0\ntaken transfer 1 7 true - 61\n",
    );
}

#[test]
fn a_rollback_hands_nothing(rt: HostRuntime) {
    assert_run(
        &rt,
        &["agree", "1", A],
        "declare 0\narrive\nreturn\npost 0 1 7 true - 61\nrollback 0\narrive\narrive\n\
         return\n",
        0,
        "txn 0 rolled-back\nskipped 0\nstop none\nhanded 0\n",
    );
}

#[test]
fn a_vetoed_commit_is_heard_as_rejected(rt: HostRuntime) {
    assert_run(
        &rt,
        &["agree", "1", "--refuse", "1", A],
        "declare 0\narrive\nreturn\npost 0 1 7 true - 61\ncommit 0\narrive\narrive\n\
         return\n",
        0,
        "txn 0 rejected\nskipped 0\nstop none\nhanded 0\n",
    );
}

#[test]
fn a_commit_that_ran_out_of_memory_below_has_no_answer(rt: HostRuntime) {
    assert_run(
        &rt,
        &["agree", "1", "--starve", "1", A],
        "declare 0\narrive\nreturn\npost 0 1 7 true - 61\ncommit 0\narrive\narrive\n\
         return\n",
        8,
        "txn 0 nothing\nskipped 1\nstop below-no-memory\nhanded 0\n",
    );
}

#[test]
fn a_frame_under_a_dead_id_stops_the_session(rt: HostRuntime) {
    assert_run(
        &rt,
        &["agree", "2", "--refuse", "9", "--starve", "8,9", A],
        "declare 1\narrive\nreturn\nlink-end 1\npost 0 1 7 true - 61\nplain flow 1 2\n\
         arrive\narrive\narrive\ndeclare 0\n",
        1,
        "txn 0 nothing\ntxn 1 undeclared\nskipped 1\nstop unknown-txn-id\nhanded 0\n",
    );
}

#[test]
fn a_line_outside_the_table_is_told(rt: HostRuntime) {
    let text = "not a step: line 2\n";
    assert_run(&rt, &["agree", "1", A], "arrive\narrive 1\n", 3, text);
}

#[test]
fn nine_controllers_are_outside_the_table(rt: HostRuntime) {
    assert_run(&rt, &["agree", "9", A], "", 2, "usage\n");
}

#[test]
fn a_seed_is_outside_the_table(rt: HostRuntime) {
    assert_run(&rt, &["agree", "1", "--seed", "1"], "", 2, "usage\n");
}

#[test]
fn a_refused_attach_is_told_alone(rt: HostRuntime) {
    // Handle 0 alone may be used, and there are two links.
    let below = listener_session(rt.alloc(), Handle(0));
    let text = "attach-refused handle-in-use\n";
    assert_over(&rt, below, &["agree", "2", A], "arrive\n", (1, text));
}
