//! Whole runs: what the program answers to words and lines, with ample memory.

use crate::tests::run_over::{A, is_written, run_over};
use crate::*;
use amqp_below_layer::OpenSession;
use amqp_below_streams::SureSink;
use amqp_resource_record::is_legal;
use amqp_test_values::leak;
use std::alloc::{Alloc, Global};
use std::process::Abort;

pub(crate) const B: &str = "00000000000000000000000000000002";

/// Runs the program over a recorder that takes everything.
pub(crate) fn ran(
    rt: &(impl Abort + Alloc<A = Global>),
    words: &[&str],
    input: &str,
    sink: &mut SureSink,
) -> Ran<OpenSession> {
    run_over(rt, OpenSession::new(rt.alloc()), words, input, sink)
}

/// Whether the record of a run is legal by the slow program; no record is.
fn has_legal_record<S>(ran: &Ran<S>) -> bool {
    match &ran.driven {
        Some(driven) => is_legal(driven.entries.as_slice()),
        None => true,
    }
}

/// The status of a run, and whether its record is legal.
fn status_of_run(
    rt: &(impl Abort + Alloc<A = Global>),
    words: &[&str],
    input: &str,
    sink: &mut SureSink,
) -> (u8, bool) {
    let ran = ran(rt, words, input, sink);
    let status = ran.status;
    let legal = has_legal_record(&ran);
    leak(ran);
    (status, legal)
}

/// Runs the program, compares its status and its text, and its record with the slow program's
/// answer.
pub(crate) fn assert_run(
    rt: &(impl Abort + Alloc<A = Global>),
    words: &[&str],
    input: &str,
    status: u8,
    text: &str,
) {
    let mut sink = SureSink::new(rt.alloc());
    let (ended, legal) = status_of_run(rt, words, input, &mut sink);
    let written = is_written(sink, text);
    assert!(rt; ended == status);
    assert!(rt; written);
    assert!(rt; legal);
}

#[test]
fn the_empty_input_is_done(rt: HostRuntime) {
    assert_run(&rt, &["run", A], "", 0, "stop done\nhanded 0\n");
}

#[test]
fn one_commit_hands_one_transfer(rt: HostRuntime) {
    assert_run(
        &rt,
        &["run", A],
        "attach c 0\n\
         control 0 00537700533145\n\
         post 00000000000000000000000000000001 1 7 - - 6869\n\
         control 0 005377005332c01301a01000000000000000000000000000000001\n",
        0,
        "attached 0\n\
         declared 00000000000000000000000000000001\n\
         ok\n\
         out disposition receiver 7 - true txn:00000000000000000000000000000001:accepted\n\
         accepted\n\
         stop done\n\
         handed 0\n\
         taken transfer 1 7 - - 6869\n",
    );
}

#[test]
fn ids_interleave_and_are_handed_in_commit_order(rt: HostRuntime) {
    assert_run(
        &rt,
        &["run", A, B],
        "attach c 0\n\
         control 0 00537700533145\n\
         control 0 00537700533145\n\
         post 00000000000000000000000000000001 1 1 true - 50\n\
         post 00000000000000000000000000000002 1 2 true - 51\n\
         post 00000000000000000000000000000001 1 3 true - 52\n\
         control 0 005377005332c01301a01000000000000000000000000000000002\n\
         control 0 005377005332c01301a01000000000000000000000000000000001\n",
        0,
        "attached 0\n\
         declared 00000000000000000000000000000001\n\
         declared 00000000000000000000000000000002\n\
         ok\n\
         ok\n\
         ok\n\
         accepted\n\
         accepted\n\
         stop done\n\
         handed 0\n\
         taken transfer 1 2 true - 51\n\
         taken transfer 1 1 true - 50\n\
         taken transfer 1 3 true - 52\n",
    );
}

#[test]
fn an_empty_commit_hands_nothing(rt: HostRuntime) {
    assert_run(
        &rt,
        &["run", A],
        "attach c 0\n\
         control 0 00537700533145\n\
         control 0 005377005332c01301a01000000000000000000000000000000001\n",
        0,
        "attached 0\n\
         declared 00000000000000000000000000000001\n\
         accepted\n\
         stop done\n\
         handed 0\n",
    );
}

#[test]
fn settled_or_unnumbered_posts_are_answered_ok_alone(rt: HostRuntime) {
    assert_run(
        &rt,
        &["run", A],
        "attach c 0\n\
         control 0 00537700533145\n\
         post 00000000000000000000000000000001 1 7 true - 61\n\
         post 00000000000000000000000000000001 1 - - - 62\n\
         control 0 005377005332c01301a01000000000000000000000000000000001\n",
        0,
        "attached 0\n\
         declared 00000000000000000000000000000001\n\
         ok\n\
         ok\n\
         accepted\n\
         stop done\n\
         handed 0\n\
         taken transfer 1 7 true - 61\n\
         taken transfer 1 - - - 62\n",
    );
}

#[test]
fn a_rollback_hands_nothing(rt: HostRuntime) {
    assert_run(
        &rt,
        &["run", A],
        "attach c 0\n\
         control 0 00537700533145\n\
         post 00000000000000000000000000000001 1 1 true - 50\n\
         control 0 005377005332c01402a0100000000000000000000000000000000141\n\
         control 0 005377005332c01301a01000000000000000000000000000000001\n",
        0,
        "attached 0\n\
         declared 00000000000000000000000000000001\n\
         ok\n\
         accepted\n\
         rejected unknown-id\n\
         stop done\n\
         handed 0\n",
    );
}

#[test]
fn sixteen_live_draws_are_rejected(rt: HostRuntime) {
    assert_run(
        &rt,
        &["run", A],
        "attach c 0\ncontrol 0 00537700533145\ncontrol 0 00537700533145\n",
        0,
        "attached 0\n\
         declared 00000000000000000000000000000001\n\
         rejected unknown-id ids-repeat\n\
         stop done\n\
         handed 0\n",
    );
}

#[test]
fn words_and_lines_outside_the_tables_have_their_texts(rt: HostRuntime) {
    assert_run(&rt, &["run"], "attach c 0\n", 2, "usage\n");
    assert_run(&rt, &["run", "01"], "", 2, "usage\n");
    assert_run(&rt, &["--help"], "", 2, "usage\n");
    assert_run(&rt, &["threads", "1", "1"], "", 2, "usage\n");
    assert_run(
        &rt,
        &["run", A],
        "attach c 0\nfoo",
        3,
        "not a step: line 2\n",
    );
    assert_run(
        &rt,
        &["run", A],
        "attach c 0\r\n",
        3,
        "not a step: line 1\n",
    );
    assert_run(&rt, &["run", A], "\n", 3, "not a step: line 1\n");
}
