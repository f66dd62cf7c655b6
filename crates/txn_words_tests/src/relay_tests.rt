//! Relays of two messages, each worked by hand.

use crate::memory_streams::{A, assert_written, source_of, texts_of};
use amqp_below_streams::SureSink;
use amqp_test_values::leak;
use std::alloc::{Alloc, Global};
use std::process::Abort;
use txn_relay::run_relay;

/// Runs `relay A` over the lines: it ends well, and its text is that text.
fn assert_relay(rt: &(impl Abort + Alloc<A = Global>), lines: &str, text: &str) {
    let words = texts_of(rt, &["relay", A]);
    let mut source = source_of(rt, lines);
    let mut sink = SureSink::new(rt.alloc());
    let ran = run_relay(rt.alloc(), words.as_slice(), &mut source, &mut sink);
    let ended = ran.status;
    leak(ran);
    leak(words);
    leak(source);
    assert_written(rt, sink, text);
    assert!(rt; ended == 0);
}

#[test]
fn a_message_is_moved(rt: HostRuntime) {
    let lines = "message 50\nmessage 51\n\
        go\narrive\nreturn\n\
        go\narrive\narrive\narrive\nreturn\n";
    let text = "from 1\nmessage 1 51\n\
        to 1\nmessage 2 50\n\
        heard 1\nskipped 0\nstop none\n";
    assert_relay(&rt, lines, text);
}

#[test]
fn an_answer_that_is_cut_off_leaves_the_message_moved(rt: HostRuntime) {
    let lines = "message 50\nmessage 51\n\
        go\narrive\nreturn\n\
        go\narrive\narrive\narrive\ncut\nreturn\n";
    let text = "from 1\nmessage 1 51\n\
        to 1\nmessage 2 50\n\
        heard 0\nskipped 1\nstop none\n";
    assert_relay(&rt, lines, text);
}

#[test]
fn a_commit_that_is_cut_off_leaves_the_message(rt: HostRuntime) {
    let lines = "message 50\nmessage 51\n\
        go\narrive\nreturn\n\
        go\narrive\narrive\ncut\narrive\nreturn\n";
    let text = "from 2\nmessage 0 50\nmessage 1 51\n\
        to 0\n\
        heard 0\nskipped 2\nstop none\n";
    assert_relay(&rt, lines, text);
}
