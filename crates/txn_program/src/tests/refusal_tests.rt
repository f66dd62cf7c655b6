//! Runs that are refused below or ended, and made runs.

use crate::tests::run_over::{A, assert_over};
use crate::tests::run_tests::{B, assert_run, ran};
use amqp_below_layer::{LayerBelow, OpenSession};
use amqp_below_recorder::Recorder;
use amqp_below_streams::SureSink;
use amqp_test_values::leak;
use std::alloc::{Alloc, Global};
use std::process::Abort;

/// Two transactions of which the second is committed first: their lines, and what each is answered.
const LINES: [(&str, &str); 8] = [
    ("attach c 0\n", "attached 0\n"),
    (
        "control 0 00537700533145\n",
        "declared 00000000000000000000000000000001\n",
    ),
    (
        "control 0 00537700533145\n",
        "declared 00000000000000000000000000000002\n",
    ),
    (
        "post 00000000000000000000000000000001 1 1 true - 50\n",
        "ok\n",
    ),
    (
        "post 00000000000000000000000000000002 1 2 true - 51\n",
        "ok\n",
    ),
    (
        "post 00000000000000000000000000000001 1 3 true - 52\n",
        "ok\n",
    ),
    (
        "control 0 005377005332c01301a01000000000000000000000000000000002\n",
        "accepted\n",
    ),
    (
        "control 0 005377005332c01301a01000000000000000000000000000000001\n",
        "accepted\n",
    ),
];

/// One transaction of three posts, and its commit.
const ONE_COMMIT: &str = "attach c 0\n\
    control 0 00537700533145\n\
    post 00000000000000000000000000000001 1 1 true - 50\n\
    post 00000000000000000000000000000001 1 2 true - 51\n\
    post 00000000000000000000000000000001 1 3 true - 52\n\
    control 0 005377005332c01301a01000000000000000000000000000000001\n";

/// What they are answered where the commit is vetoed.
const VETOED: &str = "attached 0\n\
    declared 00000000000000000000000000000001\n\
    ok\n\
    ok\n\
    ok\n\
    rejected rollback\n\
    stop done\n\
    handed 0\n";

#[test]
fn a_vetoed_commit_hands_nothing(rt: HostRuntime) {
    assert_run(&rt, &["run", "--refuse", "2", A], ONE_COMMIT, 0, VETOED);
}

#[test]
fn out_of_memory_within_a_commit_tells_what_was_taken(rt: HostRuntime) {
    assert_run(
        &rt,
        &["run", "--starve", "2", A],
        ONE_COMMIT,
        8,
        "attached 0\n\
         declared 00000000000000000000000000000001\n\
         ok\n\
         ok\n\
         ok\n\
         stop below-no-memory\n\
         handed 1\n\
         taken transfer 1 1 true - 50\n",
    );
}

#[test]
fn a_call_in_both_plans_is_vetoed_first(rt: HostRuntime) {
    let words = ["run", "--refuse", "2", "--starve", "2", A];
    assert_run(&rt, &words, ONE_COMMIT, 0, VETOED);
}

/// The lines from a place on, up to another.
fn put_lines(rt: &impl Abort, lines: &mut String, from: usize, to: usize) {
    for (index, (line, _)) in LINES.iter().enumerate() {
        if from <= index && index < to {
            lines.push_str(line).expect(rt, "an Ok");
        }
    }
}

/// What the lines up to a place are answered, and a text after that.
fn put_answers(rt: &impl Abort, answers: &mut String, to: usize, end: &str) {
    for (index, (_, answer)) in LINES.iter().enumerate() {
        if index < to {
            answers.push_str(answer).expect(rt, "an Ok");
        }
    }
    answers.push_str(end).expect(rt, "an Ok");
}

/// Runs lines that were put together, and compares with answers that were.
fn assert_put(
    rt: &(impl Abort + Alloc<A = Global>),
    words: &[&str],
    texts: (String, String),
    status: u8,
) {
    let (lines, answers) = texts;
    assert_run(rt, words, lines.as_str(), status, answers.as_str());
    leak(lines);
    leak(answers);
}

/// Runs all lines under a plan: the lines up to a place are answered as they are without it, and
/// then comes that text.
fn assert_planned(
    rt: &(impl Abort + Alloc<A = Global>),
    plan: (&str, &str),
    answered: usize,
    ends: (u8, &str),
) {
    let (word, numbers) = plan;
    let (status, end) = ends;
    let mut lines = String::new(rt.alloc());
    let mut answers = String::new(rt.alloc());
    put_lines(rt, &mut lines, 0, 8);
    put_answers(rt, &mut answers, answered, end);
    let words = ["run", word, numbers, A, B];
    assert_put(rt, &words, (lines, answers), status);
}

#[test]
fn each_frame_of_two_commits_may_be_vetoed(rt: HostRuntime) {
    let one = "rejected rollback\nstop done\nhanded 0\ntaken transfer 1 2 true - 51\n";
    let both = "rejected rollback\nrejected rollback\nstop done\nhanded 0\n";
    assert_planned(&rt, ("--refuse", "1"), 6, (0, both));
    assert_planned(&rt, ("--refuse", "2"), 7, (0, one));
    assert_planned(&rt, ("--refuse", "2,2"), 7, (0, one));
    assert_planned(&rt, ("--refuse", "3"), 7, (0, one));
    assert_planned(&rt, ("--refuse", "18446744073709551615,3"), 7, (0, one));
}

#[test]
fn each_frame_of_two_commits_may_want_memory(rt: HostRuntime) {
    let first = "stop below-no-memory\nhanded 0\n";
    let second = "stop below-no-memory\nhanded 0\ntaken transfer 1 2 true - 51\n";
    let third = "stop below-no-memory\nhanded 1\ntaken transfer 1 2 true - 51\n\
                 taken transfer 1 1 true - 50\n";
    assert_planned(&rt, ("--starve", "1"), 6, (8, first));
    assert_planned(&rt, ("--starve", "2"), 7, (8, second));
    assert_planned(&rt, ("--starve", "2,2"), 7, (8, second));
    assert_planned(&rt, ("--starve", "3"), 7, (8, third));
    assert_planned(&rt, ("--starve", "18446744073709551615,3"), 7, (8, third));
}

/// What the commits before a place handed.
fn taken_up_to(place: usize) -> &'static str {
    if place < 7 {
        ""
    } else if place < 8 {
        "taken transfer 1 2 true - 51\n"
    } else {
        "taken transfer 1 2 true - 51\ntaken transfer 1 1 true - 50\ntaken transfer 1 3 true - 52\n"
    }
}

/// The lines with an end in that place.
fn put_ended(rt: &impl Abort, lines: &mut String, place: usize) {
    put_lines(rt, lines, 0, place);
    lines.push_str("end\n").expect(rt, "an Ok");
    put_lines(rt, lines, place, 8);
}

/// What the lines with an end in that place are answered.
fn put_ended_answers(rt: &impl Abort, answers: &mut String, place: usize) {
    put_answers(rt, answers, place, "stop ended\nhanded 0\n");
    answers.push_str(taken_up_to(place)).expect(rt, "an Ok");
}

fn assert_ended(rt: &(impl Abort + Alloc<A = Global>), place: usize) {
    let mut lines = String::new(rt.alloc());
    let mut answers = String::new(rt.alloc());
    put_ended(rt, &mut lines, place);
    put_ended_answers(rt, &mut answers, place);
    assert_put(rt, &["run", A, B], (lines, answers), 1);
}

#[test]
fn an_end_in_any_place_hands_nothing_more(rt: HostRuntime) {
    for place in 0..9usize {
        assert_ended(&rt, place);
    }
}

/// Whether the recorder has these plans of what it refuses and what it starves.
fn has_plans<S: LayerBelow>(below: &Recorder<S>, refused: &[u64], starved: &[u64]) -> bool {
    below.plan().as_slice() == refused && below.starved().as_slice() == starved
}

fn assert_plans(
    rt: &(impl Abort + Alloc<A = Global>),
    words: &[&str],
    input: &str,
    plans: (&[u64], &[u64]),
) {
    let (refused, starved) = plans;
    let mut sink = SureSink::new(rt.alloc());
    let ran = ran(rt, words, input, &mut sink);
    leak(sink);
    let same = has_plans(&ran.below, refused, starved);
    leak(ran);
    assert!(rt; same);
}

#[test]
fn the_plans_are_those_of_the_words(rt: HostRuntime) {
    assert_plans(&rt, &["run", "--refuse", "3,1,3", A], "", (&[3, 1, 3], &[]));
    assert_plans(
        &rt,
        &["run", "--refuse", "3,1,3", A],
        "foo",
        (&[3, 1, 3], &[]),
    );
    assert_plans(
        &rt,
        &["run", "--starve", "3,1,3", A],
        "foo",
        (&[], &[3, 1, 3]),
    );
    assert_plans(
        &rt,
        &["run", "--refuse", "2", "--starve", "5", A],
        "",
        (&[2], &[5]),
    );
    assert_plans(&rt, &["run", A], "", (&[], &[]));
    assert_plans(
        &rt,
        &["run", "--starve", "5", "--refuse", "2", A],
        "",
        (&[], &[]),
    );
    assert_plans(&rt, &["run", "--refuse", "3,1,3"], "", (&[], &[]));
    assert_plans(&rt, &["make", "1"], "", (&[], &[]));
}

#[test]
fn words_outside_the_table_are_usage(rt: HostRuntime) {
    for list in [
        "0",
        "",
        "1,",
        ",1",
        "01",
        "1 2",
        "+1",
        "18446744073709551616",
    ] {
        assert_run(&rt, &["run", "--refuse", list, A], "foo", 2, "usage\n");
        assert_run(&rt, &["run", "--starve", list, A], "foo", 2, "usage\n");
    }
    for count in ["0", "20001", "04", "", "4294967297", "-1"] {
        assert_run(&rt, &["make", count], "foo", 2, "usage\n");
    }
    assert_run(&rt, &["run", "--refuse"], "", 2, "usage\n");
    assert_run(&rt, &["--refuse", "1", "run", A], "", 2, "usage\n");
    assert_run(&rt, &["run", A, "--refuse", "1"], "", 2, "usage\n");
    assert_run(&rt, &["run", "--starve"], "", 2, "usage\n");
    assert_run(&rt, &["run", "--starve", "1"], "", 2, "usage\n");
    assert_run(
        &rt,
        &["run", "--starve", "1", "--refuse", "1", A],
        "",
        2,
        "usage\n",
    );
    assert_run(
        &rt,
        &["run", "--starve", "1", "--starve", "1", A],
        "",
        2,
        "usage\n",
    );
    assert_run(&rt, &["make"], "", 2, "usage\n");
    assert_run(&rt, &["make", "1", "2"], "", 2, "usage\n");
}

/// That many sevens, parted by commas.
fn put_sevens(rt: &impl Abort, list: &mut String, count: u32) {
    for _ in 1..count {
        list.push_str("7,").expect(rt, "an Ok");
    }
    list.push_str("7").expect(rt, "an Ok");
}

/// Runs no lines with a list of that many numbers.
fn assert_sevens(rt: &(impl Abort + Alloc<A = Global>), count: u32, status: u8, text: &str) {
    let mut list = String::new(rt.alloc());
    put_sevens(rt, &mut list, count);
    let words = ["run", "--refuse", list.as_str(), A];
    assert_run(rt, &words, "", status, text);
    leak(list);
}

#[test]
fn a_list_has_64_numbers_at_most(rt: HostRuntime) {
    assert_sevens(&rt, 64, 0, "stop done\nhanded 0\n");
    assert_sevens(&rt, 65, 2, "usage\n");
}

#[test]
fn four_made_transactions_are_summed_up(rt: HostRuntime) {
    assert_run(
        &rt,
        &["make", "4"],
        "",
        0,
        "steps 21\ncommits 3\nrollbacks 1\ntaken 9\n",
    );
}

#[test]
fn twenty_thousand_made_transactions_are_summed_up(rt: HostRuntime) {
    let text = "steps 100001\ncommits 13334\nrollbacks 6666\ntaken 40002\n";
    assert_over(
        &rt,
        OpenSession::new(rt.alloc()),
        &["make", "20000"],
        "",
        (0, text),
    );
}
