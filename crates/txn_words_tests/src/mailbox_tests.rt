//! Two senders to one server: that they run beside each other, which no clause says, and runs of
//! `mailbox`, each worked by hand.

ghost use Rattle.std.specs.Prelude.{◌≡◌, length, IfOk};

use crate::meeting::Meeting;
use crate::memory_streams::{A, assert_written, source_of, texts_of};
use amqp_below_ids::CountIds;
use amqp_below_layer::OpenSession;
use amqp_below_streams::SureSink;
use amqp_resource_record::{Step, Steps, Stop};
use amqp_resource_session::TxnSession;
use amqp_test_values::leak;
use amqp_txn_types::NoMemory;
use std::alloc::{Alloc, Global};
use std::process::Abort;
use std::sync::Wait;
use std::thread::Threads;
use txn_mailbox::run_mailbox;
use txn_mailbox_serving::serve_two;

/// Two ends of a link that isn't open.
fn two_ends(alloc: Global, link: u64) -> Result<Steps, NoMemory>
    ensures { IfOk result (λ steps. length steps ≡ 2) }
{
    let mut steps = Steps::new(alloc);
    steps.append(Step::LinkEnd { link })?;
    steps.append(Step::LinkEnd { link })?;
    Ok(steps)
}

#[test]
fn the_senders_run_beside_each_other(rt: HostRuntime) {
    let gate = Meeting::new(0);
    let first = two_ends(rt.alloc(), 4).expect(&rt, "memory");
    let second = two_ends(rt.alloc(), 8).expect(&rt, "memory");
    let session = TxnSession::new(rt.alloc(), OpenSession::new(rt.alloc()));
    let served = serve_two(
        &rt,
        rt.alloc(),
        session,
        CountIds::new(),
        &first,
        &second,
        &gate,
    );
    let served = match served {
        Ok(served) => served,
        Err(back) => {
            leak(back);
            panic!(rt; "memory")
        }
    };
    assert!(rt; !gate.was_missed());
    assert!(rt; served.entries.len() == 6);
    assert!(rt; served.stop == Stop::Done);
    leak(served);
    leak(first);
    leak(second);
    leak(gate);
}

/// Runs `mailbox A` over the lines, and compares its status and its text.
fn assert_mailbox<R: Abort + Alloc<A = Global> + Threads + Wait + Sync>(
    rt: &R,
    lines: &str,
    status: u8,
    text: &str,
) {
    let words = texts_of(rt, &["mailbox", A]);
    let mut source = source_of(rt, lines);
    let mut sink = SureSink::new(rt.alloc());
    let ran = run_mailbox(rt, rt.alloc(), words.as_slice(), &mut source, &mut sink);
    let ended = ran.status;
    leak(ran);
    leak(words);
    leak(source);
    assert_written(rt, sink, text);
    assert!(rt; ended == status);
}

#[test]
fn a_commit_of_one_sender_beside_a_transfer_of_the_other(rt: HostRuntime) {
    let lines = "0 control 0 00537700533145\n\
        0 post 00000000000000000000000000000001 1 1 true - 50\n\
        0 control 0 005377005332c01301a01000000000000000000000000000000001\n\
        1 transfer 2 1 true 51\n";
    let text = "entries 6\nsent 0 3\nsent 1 1\ntaken 2\nstop done\n";
    assert_mailbox(&rt, lines, 0, text);
}

#[test]
fn a_post_under_an_id_that_is_not_live_stops(rt: HostRuntime) {
    let lines = "0 post 00000000000000000000000000000001 1 1 true - 50\n";
    let text = "entries 2\nsent 0 0\nsent 1 0\ntaken 0\nstop unknown-txn-id\n";
    assert_mailbox(&rt, lines, 1, text);
}

#[test]
fn a_third_sender_is_no_line(rt: HostRuntime) {
    let lines = "0 link-end 0\n2 link-end 0\n";
    assert_mailbox(&rt, lines, 3, "not a step: line 2\n");
}
