//! Runs of `broker` through a session over a broker, each worked by hand.

use crate::memory_streams::{A, assert_written, source_of, texts_of};
use amqp_below_streams::SureSink;
use amqp_test_values::leak;
use std::alloc::{Alloc, Global};
use std::process::Abort;
use txn_broker_run::run_broker;

/// Runs `broker A` over the lines: it ends well, and its text is that text.
fn assert_broker(rt: &(impl Abort + Alloc<A = Global>), lines: &str, text: &str) {
    let words = texts_of(rt, &["broker", A]);
    let mut source = source_of(rt, lines);
    let mut sink = SureSink::new(rt.alloc());
    let ran = run_broker(rt.alloc(), words.as_slice(), &mut source, &mut sink);
    let ended = ran.status;
    leak(ran);
    leak(words);
    leak(source);
    assert_written(rt, sink, text);
    assert!(rt; ended == 0);
}

#[test]
fn a_commit_puts_its_message_after_those_that_were_there(rt: HostRuntime) {
    let lines = "attach c 0\n\
        link q 1 sender\n\
        control 0 00537700533145\n\
        post 00000000000000000000000000000001 1 7 true - 50\n\
        transfer 1 8 true 51\n\
        control 0 005377005332c01301a01000000000000000000000000000000001\n";
    let text = "attached 0\n\
        ok\n\
        out attach q 1 receiver\n\
        out flow 1 200\n\
        declared 00000000000000000000000000000001\n\
        ok\n\
        ok\n\
        accepted\n\
        stop done\n\
        handed 0\n\
        queue q 2\n\
        message 0 51\n\
        message 1 50\n";
    assert_broker(&rt, lines, text);
}

#[test]
fn a_vetoed_commit_leaves_its_queue(rt: HostRuntime) {
    let lines = "attach c 0\n\
        link q 1 sender\n\
        transfer 1 1 true 50\n\
        control 0 00537700533145\n\
        retire 00000000000000000000000000000001 receiver 0 - true accepted\n\
        control 0 005377005332c01402a0100000000000000000000000000000000141\n\
        control 0 00537700533145\n\
        retire 00000000000000000000000000000001 receiver 0 - true accepted\n\
        post 00000000000000000000000000000001 5 2 true - 52\n\
        control 0 005377005332c01301a01000000000000000000000000000000001\n";
    let text = "attached 0\n\
        ok\n\
        out attach q 1 receiver\n\
        out flow 1 200\n\
        ok\n\
        declared 00000000000000000000000000000001\n\
        ok\n\
        accepted\n\
        declared 00000000000000000000000000000001\n\
        ok\n\
        ok\n\
        rejected rollback\n\
        stop done\n\
        handed 0\n\
        queue q 1\n\
        message 0 50\n";
    assert_broker(&rt, lines, text);
}

#[test]
fn a_commit_of_a_removal_alone_takes_its_message(rt: HostRuntime) {
    let lines = "attach c 0\n\
        link q 1 sender\n\
        transfer 1 1 true 50\n\
        control 0 00537700533145\n\
        retire 00000000000000000000000000000001 receiver 0 - true accepted\n\
        control 0 005377005332c01301a01000000000000000000000000000000001\n";
    let text = "attached 0\n\
        ok\n\
        out attach q 1 receiver\n\
        out flow 1 200\n\
        ok\n\
        declared 00000000000000000000000000000001\n\
        ok\n\
        accepted\n\
        stop done\n\
        handed 0\n\
        queue q 0\n";
    assert_broker(&rt, lines, text);
}
