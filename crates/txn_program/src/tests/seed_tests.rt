//! Runs with drawn ids, and the words about them. The ids are those of another implementation of
//! ChaCha.

use crate::tests::run_over::{A, assert_over};
use amqp_below_layer::OpenSession;
use std::alloc::{Alloc, Global};
use std::process::Abort;

const DECLARE: &str = "attach c 0\ncontrol 0 00537700533145\n";

/// Runs one declare over a layer that takes everything.
fn assert_open(rt: &(impl Abort + Alloc<A = Global>), words: &[&str], ends: (u8, &str)) {
    assert_over(rt, OpenSession::new(rt.alloc()), words, DECLARE, ends);
}

#[test]
fn a_seed_draws_version_4_uuids(rt: HostRuntime) {
    assert_open(
        &rt,
        &["run", "--seed", "1"],
        (
            0,
            "attached 0\ndeclared 5a85f1b51ecf4dbb9042daec4b61f71d\nstop done\nhanded 0\n",
        ),
    );
}

#[test]
fn the_least_and_the_greatest_number_are_seeds(rt: HostRuntime) {
    assert_open(
        &rt,
        &["run", "--seed", "0"],
        (
            0,
            "attached 0\ndeclared 3e00ef2f895f40d6bf5bb8e81f09a5a1\nstop done\nhanded 0\n",
        ),
    );
    assert_open(
        &rt,
        &["run", "--refuse", "1", "--seed", "18446744073709551615"],
        (
            0,
            "attached 0\ndeclared 3c2a801d4e044a8fb9747f39ff19ff69\nstop done\nhanded 0\n",
        ),
    );
}

#[test]
fn other_words_after_seed_are_usage(rt: HostRuntime) {
    for seed in ["01", "", "-1", "18446744073709551616", A] {
        assert_open(&rt, &["run", "--seed", seed], (2, "usage\n"));
    }
    assert_open(&rt, &["run", "--seed"], (2, "usage\n"));
    assert_open(&rt, &["run", "--seed", "1", A], (2, "usage\n"));
}

#[test]
fn words_in_another_order_are_usage(rt: HostRuntime) {
    assert_open(&rt, &["listen"], (2, "usage\n"));
    assert_open(&rt, &["run", A, "--seed", "1"], (2, "usage\n"));
    let turned = ["run", "--seed", "1", "--refuse", "1"];
    assert_open(&rt, &turned, (2, "usage\n"));
    assert_open(&rt, &["make", "--seed", "1"], (2, "usage\n"));
}
