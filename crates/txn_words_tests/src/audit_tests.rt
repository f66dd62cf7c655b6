//! Reports that fit, reports that don't and what is told of them, and inputs outside the form.

use crate::memory_streams::{A, assert_written, source_of, texts_of};
use amqp_below_streams::{SureSink, SureSource};
use amqp_test_values::leak;
use amqp_txn_types::Binary;
use std::alloc::{Alloc, Global};
use std::process::Abort;
use txn_audit::run_audit;

const B: &str = "00000000000000000000000000000002";

/// A source of those lines.
fn lines_of(rt: &(impl Abort + Alloc<A = Global>), lines: &[&str]) -> SureSource {
    let mut octets = Vec::new(rt.alloc());
    for line in lines {
        octets
            .extend_from_slice(line.as_bytes())
            .expect(rt, "memory");
        octets.push(b'\n').expect(rt, "memory");
    }
    SureSource::new(Binary::from_vec(octets))
}

/// An audit of what the source has ends with that status and that text, and tells that, or nothing
/// where that is empty.
fn reads_so(
    rt: &(impl Abort + Alloc<A = Global>),
    words: &[&str],
    mut source: SureSource,
    ends: (u8, &str, &str),
) {
    let (status, text, why) = ends;
    let words = texts_of(rt, words);
    let mut sink = SureSink::new(rt.alloc());
    let ran = run_audit(rt.alloc(), words.as_slice(), &mut source, &mut sink);
    assert!(rt; ran.status == status);
    let told = match &ran.why {
        Some(line) => line.as_str() == why,
        None => why.is_empty(),
    };
    assert!(rt; told);
    leak(ran);
    leak(words);
    leak(source);
    assert_written(rt, sink, text);
}

/// An audit of these lines ends so.
fn ends_so(
    rt: &(impl Abort + Alloc<A = Global>),
    words: &[&str],
    input: &[&str],
    ends: (u8, &str, &str),
) {
    reads_so(rt, words, lines_of(rt, input), ends);
}

const COMMIT: [&str; 13] = [
    "attach c 0",
    "control 0 00537700533145",
    "post 00000000000000000000000000000001 1 7 - - 6869",
    "control 0 005377005332c01301a01000000000000000000000000000000001",
    "report",
    "attached 0",
    "declared 00000000000000000000000000000001",
    "ok",
    "out disposition receiver 7 - true txn:00000000000000000000000000000001:accepted",
    "accepted",
    "stop done",
    "handed 0",
    "taken transfer 1 7 - - 6869",
];

#[test]
fn the_report_of_a_listen_that_stops_fits(rt: HostRuntime) {
    let input = [
        "attach c 4",
        "link q 1 sender",
        "control 0 00537700533145",
        "post 00000000000000000000000000000001 1 7 - - 6869",
        "control 0 005377005332c01301a01000000000000000000000000000000001",
        "post 00000000000000000000000000000001 1 8 - - 6869",
        "report",
        "attached 0",
        "out attach c 0 receiver",
        "out flow 0 200",
        "ok",
        "out attach q 1 receiver",
        "out flow 1 200",
        "declared 00000000000000000000000000000001",
        "ok",
        "out disposition receiver 7 - true txn:00000000000000000000000000000001:accepted",
        "accepted",
        "stop unknown-txn-id",
        "handed 0",
        "taken attach q 1 sender",
        "taken transfer 1 7 - - 6869",
    ];
    ends_so(&rt, &["audit", A], &input, (0, "yes\n", ""));
}

/// The layer below took one of three frames of a commit.
#[test]
fn the_report_of_a_run_that_the_layer_below_stops_fits(rt: HostRuntime) {
    let input = [
        "attach c 0",
        "control 0 00537700533145",
        "post 00000000000000000000000000000001 1 1 true - 50",
        "post 00000000000000000000000000000001 1 2 true - 51",
        "post 00000000000000000000000000000001 1 3 true - 52",
        "control 0 005377005332c01301a01000000000000000000000000000000001",
        "report",
        "attached 0",
        "declared 00000000000000000000000000000001",
        "ok",
        "ok",
        "ok",
        "stop below-no-memory",
        "handed 1",
        "taken transfer 1 1 true - 50",
    ];
    ends_so(&rt, &["audit", A], &input, (0, "yes\n", ""));
    let mut more = input;
    more[13] = "handed 2";
    let why = "line 9 of the report: wanted taken transfer 1 2 true - 51, found no further line";
    ends_so(&rt, &["audit", A], &more, (1, "no\n", why));
    more[13] = "handed 4";
    let why =
        "line 7 of the report: wanted handed N, N at most what the step hands, found handed 4";
    ends_so(&rt, &["audit", A], &more, (1, "no\n", why));
}

/// The last line of the report has no line feed.
#[test]
fn a_line_after_one_without_a_line_feed_is_numbered(rt: HostRuntime) {
    let source = source_of(&rt, "flow -\nreport\nok");
    let why = "line 2 of the report: wanted a stop, found no further line";
    reads_so(&rt, &["audit", A], source, (1, "no\n", why));
}

#[test]
fn a_report_of_a_commit_fits(rt: HostRuntime) {
    ends_so(&rt, &["audit", A], &COMMIT, (0, "yes\n", ""));
}

#[test]
fn a_changed_report_is_told_at_its_line(rt: HostRuntime) {
    let other = "line 2 of the report: wanted declared 00000000000000000000000000000002, \
        found declared 00000000000000000000000000000001";
    ends_so(&rt, &["audit", B], &COMMIT, (1, "no\n", other));
    let taken = "line 8 of the report: wanted taken transfer 1 7 - - 6869, found no further line";
    ends_so(&rt, &["audit", A], &COMMIT[..12], (1, "no\n", taken));
    let mut handed = COMMIT;
    handed[11] = "handed 1";
    let why = "line 7 of the report: wanted handed 0, found handed 1";
    ends_so(&rt, &["audit", A], &handed, (1, "no\n", why));
}

/// An audit of the input with the first id ends with `no`, and tells that.
fn is_told(rt: &(impl Abort + Alloc<A = Global>), input: &str, why: &str) {
    ends_so(rt, &["audit", A], &[input], (1, "no\n", why));
}

#[test]
fn a_reply_that_may_not_come_is_told(rt: HostRuntime) {
    let why = "line 1 of the report: wanted attached 0, found attached 1";
    is_told(&rt, "attach c 0\nreport\nattached 1", why);
    let why = "line 2 of the report: wanted link-closed not-allowed, found no-link";
    let input = "attach c 0\ncontrol 0 -\nreport\nattached 0\nno-link";
    is_told(&rt, input, why);
    let why = "line 1 of the report: wanted stop unknown-txn-id, found ok";
    is_told(&rt, "post 01 1 7 - - -\nreport\nok", why);
    let why = "line 2 of the report: wanted ok, found out flow x";
    is_told(&rt, "flow -\nflow -\nreport\nok\nout flow x", why);
}

#[test]
fn a_stop_that_may_not_come_is_told(rt: HostRuntime) {
    let why = "line 1 of the report: wanted a stop, found no further line";
    is_told(&rt, "flow -\nreport", why);
    let why = "line 2 of the report: wanted stop done, found stop ended";
    is_told(&rt, "flow -\nreport\nok\nstop ended", why);
    let why = "line 1 of the report: wanted a line of a reply to the step, or of a stop that it \
        allows, found stop done";
    is_told(&rt, "flow -\nreport\nstop done", why);
    let why = "line 3 of the report: wanted handed N, found no further line";
    is_told(&rt, "flow -\nreport\nok\nstop done", why);
}

#[test]
fn another_frame_taken_is_told(rt: HostRuntime) {
    let why = "line 4 of the report: wanted taken flow - -, found taken flow 1 1";
    let input = "flow -\nreport\nok\nstop done\nhanded 0\ntaken flow 1 1";
    is_told(&rt, input, why);
    let why = "line 5 of the report: wanted no further line, found taken flow - -";
    let input = "flow -\nreport\nok\nstop done\nhanded 0\ntaken flow - -\ntaken flow - -";
    is_told(&rt, input, why);
}

/// A post of which the disposition is shown in another way, or isn't shown.
#[test]
fn the_disposition_of_a_post_is_told(rt: HostRuntime) {
    let mut other = COMMIT;
    other[8] = "out disposition receiver 7 - false -";
    let wanted = "line 4 of the report: wanted out disposition receiver 7 - true \
        txn:00000000000000000000000000000001:accepted, found out disposition receiver 7 - false -";
    ends_so(&rt, &["audit", A], &other, (1, "no\n", wanted));
    let none = "line 4 of the report: wanted out disposition receiver 7 - true \
        txn:00000000000000000000000000000001:accepted, found no further line";
    ends_so(&rt, &["audit", A], &COMMIT[..8], (1, "no\n", none));
}

#[test]
fn an_input_outside_the_form_is_told_by_its_status(rt: HostRuntime) {
    ends_so(&rt, &["audit"], &COMMIT, (2, "usage\n", ""));
    let line = "not a step: line 2\n";
    ends_so(&rt, &["audit", A], &["attach c 0"], (3, line, ""));
    let outside = ["attach c 0", "x", "report"];
    ends_so(&rt, &["audit", A], &outside, (3, line, ""));
}
