//! Workers on one session: that they work beside each other, and the words of `threads`.

use crate::meeting::Meeting;
use crate::memory_streams::{assert_written, texts_of};
use amqp_below_layer::OpenSession;
use amqp_below_recorder::Recorder;
use amqp_below_streams::SureSink;
use amqp_test_values::leak;
use amqp_txn_types::CallNumbers;
use std::alloc::{Alloc, Global};
use std::process::Abort;
use std::sync::Wait;
use std::thread::Threads;
use txn_gate::OpenGate;
use txn_program_threads::{serve_threads, serve_threads_words};

#[test]
fn two_workers_work_beside_each_other(rt: HostRuntime) {
    let gate = Meeting::new(1);
    let below = Recorder::new(rt.alloc(), OpenSession::new(rt.alloc()));
    let ran = serve_threads(&rt, rt.alloc(), below, 2, 2, &gate);
    assert!(rt; !gate.was_missed());
    assert!(rt; ran.status == 0 && ran.entries == 18 && ran.taken == 8);
    assert!(rt; ran.commits == 4 && ran.rollbacks == 0);
    leak(ran);
    leak(gate);
}

#[test]
fn a_worker_ends_at_its_first_refusal(rt: HostRuntime) {
    let mut below = Recorder::new(rt.alloc(), OpenSession::new(rt.alloc()));
    let mut plan = CallNumbers::new(rt.alloc());
    plan.append(1).expect(&rt, "ample memory");
    below.set_plan(plan);
    let ran = serve_threads(&rt, rt.alloc(), below, 1, 3, &OpenGate);
    assert!(rt; ran.status == 1 && ran.entries == 5 && ran.taken == 0);
    assert!(rt; ran.commits == 0 && ran.refused == 1);
    leak(ran);
}

/// The words end with this status, and their text is that text.
fn assert_threads<R: Abort + Alloc<A = Global> + Threads + Wait + Sync>(
    rt: &R,
    words: &[&str],
    status: u8,
    text: &str,
) {
    let texts = texts_of(rt, words);
    let below = Recorder::new(rt.alloc(), OpenSession::new(rt.alloc()));
    let mut sink = SureSink::new(rt.alloc());
    let ran = serve_threads_words(rt, rt.alloc(), texts.as_slice(), below, &mut sink);
    let ended = ran.status;
    leak(ran);
    leak(texts);
    assert_written(rt, sink, text);
    assert!(rt; ended == status);
}

#[test]
fn rounds_are_committed_but_for_each_third(rt: HostRuntime) {
    let one = "workers 1\nentries 5\ncommits 1\nrollbacks 0\ntaken 2\n";
    assert_threads(&rt, &["threads", "1", "1"], 0, one);
    let three = "workers 1\nentries 13\ncommits 2\nrollbacks 1\ntaken 4\n";
    assert_threads(&rt, &["threads", "1", "3"], 0, three);
}

/// The words are outside the table.
fn is_usage<R: Abort + Alloc<A = Global> + Threads + Wait + Sync>(rt: &R, words: &[&str]) {
    assert_threads(rt, words, 2, "usage\n");
}

#[test]
fn other_words_are_outside_the_table(rt: HostRuntime) {
    is_usage(&rt, &["threads", "0", "1"]);
    is_usage(&rt, &["threads", "9", "1"]);
    is_usage(&rt, &["threads", "1", "0"]);
    is_usage(&rt, &["threads", "1", "1001"]);
    is_usage(&rt, &["threads", "1", "01"]);
    is_usage(&rt, &["make", "1", "1"]);
    is_usage(&rt, &["threads", "1"]);
    is_usage(&rt, &["threads", "1", "1", "1"]);
}
