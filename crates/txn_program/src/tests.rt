//! What no clause says: the tables of lines and words by examples from outside, printed texts, and
//! runs of the program over layers, sources and sinks of the tests' own.
//!
//! What a test made isn't taken apart at its end: the process gives all its memory back at once.

mod agree_tests;
mod changed_tests;
mod listen_tests;
mod long_run_tests;
mod process_tests;
mod refusal_tests;
mod run_over;
mod run_tests;
mod seed_tests;
mod stream_tests;
mod worked_tests;

use crate::*;
use amqp_below_layer::Exchanges;
use amqp_resource_record::{Driven, Entries, Step, Steps, Stop};
use amqp_test_values::leak;
use amqp_txn_types::{Frames, TryClone};
use std::alloc::Global;
use std::process::Abort;

const ALL_LINES: &str = "attach c 0\nlink my.d-1_x 4294967295 receiver\nflow 1 200\nflow -\n\
     transfer 1 7 - 6869\npost 0A 1 7 - - FF\n\
     disposition receiver 3 5 false released\nretire 0a0B sender 6 - true rejected\n\
     detach 1 true\ncontrol 18446744073709551615 00537700533145\nlink-end 0\n\
     end\nremote-end\nconnection-stop";

#[test]
fn every_line_is_a_step(rt: HostRuntime) {
    let steps = spells(rt.alloc(), ALL_LINES.as_bytes()).expect(&rt, "an Ok");
    let count = steps.len();
    leak(steps);
    assert!(rt; count == 14);
}

/// Whether the line of that number is told as the first outside the table.
fn is_outside(alloc: Global, lines: &str, number: usize) -> bool {
    let spelled = spells(alloc, lines.as_bytes());
    let told = matches!(&spelled, Err(SpellError::Line(found)) if *found == number);
    leak(spelled);
    told
}

#[test]
fn the_first_line_outside_the_table_is_told(rt: HostRuntime) {
    for (lines, number) in [
        ("\n", 1),
        ("attach c 0\n\nfoo", 2),
        ("attach c 0\r\n", 1),
        ("attach  c 0", 1),
        ("attach c 0 ", 1),
        ("attach c 00", 1),
        ("attach c 4294967296", 1),
        ("detach 1 yes", 1),
        ("transfer 1 7 - 686", 1),
        ("post - 1 7 - - 61", 1),
        ("control 18446744073709551616 61", 1),
        ("end now", 1),
        ("attach \u{e9} 0", 1),
    ] {
        assert!(rt; is_outside(rt.alloc(), lines, number));
    }
}

/// A run without steps.
fn no_steps(alloc: Global) -> Driven {
    Driven {
        entries: Entries::new(alloc),
        stop: Stop::Done,
        at: 0,
        handed: 0,
    }
}

/// Whether the report of a run without steps, after which these frames were taken, is that text.
fn reports(rt: &impl Abort, alloc: Global, taken: Exchanges, want: &str) -> bool {
    let driven = no_steps(alloc);
    let text = report(alloc, &driven, &taken).expect(rt, "an Ok");
    leak(driven);
    leak(taken);
    let same = text.as_str() == want;
    leak(text);
    same
}

/// The frame of the first line, as a taken one that was given nothing back.
fn taken_of(rt: &impl Abort, alloc: Global, steps: &Steps) -> Exchanges {
    let mut taken = Exchanges::new(alloc);
    if let Some(Step::Frame(frame)) = steps.get(0) {
        let frame = frame.try_clone().expect(rt, "an Ok");
        taken
            .append((frame, Frames::new(alloc)))
            .expect(rt, "an Ok");
    }
    taken
}

/// Whether the report in which the frame of a line was taken is that text.
fn reports_taking(rt: &impl Abort, alloc: Global, line: &str, want: &str) -> bool {
    let steps = spells(alloc, line.as_bytes()).expect(rt, "an Ok");
    let taken = taken_of(rt, alloc, &steps);
    leak(steps);
    reports(rt, alloc, taken, want)
}

#[test]
fn frames_are_printed_with_their_states(rt: HostRuntime) {
    for (line, want) in [
        (
            "attach c 0",
            "stop done\nhanded 0\ntaken attach c 0 sender\n",
        ),
        ("flow 1 200", "stop done\nhanded 0\ntaken flow 1 200\n"),
        ("flow -", "stop done\nhanded 0\ntaken flow - -\n"),
        (
            "transfer 1 - true -",
            "stop done\nhanded 0\ntaken transfer 1 - true - -\n",
        ),
        (
            "post 0A 1 7 - - FF",
            "stop done\nhanded 0\ntaken transfer 1 7 - txn:0a:- ff\n",
        ),
        (
            "retire 0a sender 6 - true rejected",
            "stop done\nhanded 0\ntaken disposition sender 6 - true txn:0a:rejected\n",
        ),
        (
            "disposition receiver 3 5 false released",
            "stop done\nhanded 0\ntaken disposition receiver 3 5 false released\n",
        ),
        (
            "detach 1 true",
            "stop done\nhanded 0\ntaken detach 1 true\n",
        ),
    ] {
        assert!(rt; reports_taking(&rt, rt.alloc(), line, want));
    }
}

#[test]
fn an_empty_run_has_a_report(rt: HostRuntime) {
    let taken = Exchanges::new(rt.alloc());
    assert!(rt; reports(&rt, rt.alloc(), taken, "stop done\nhanded 0\n"));
}

#[test]
fn a_bad_line_is_told_by_its_number(rt: HostRuntime) {
    let text = format!(in rt.alloc(); "{}", SpellError::Line(2)).expect(&rt, "an Ok");
    assert!(rt; text.as_str() == "line 2 is outside the table");
    leak(text);
}
