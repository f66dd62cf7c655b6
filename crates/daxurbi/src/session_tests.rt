//! Tests of the session that a slot holds: that steps are answered where there is memory, by the
//! words of the tables, which no clause says; and that what was told is what comes.

use amqp_txn_types::TransactionId;
use daxurbi_layer::{BelowAnswer, NamedError};
use daxurbi_session::{MessageKind, SlotIds, SlotSession, Stepped, message_in, payload_of};
use std::alloc::Global;
use std::process::Abort;

/// A session whose id is sixteen times 7.
fn session<R: Abort>(rt: &R, alloc: Global) -> SlotSession {
    let ids = SlotIds::from_octets(alloc, &[7; 16]).expect(rt, "an Ok");
    SlotSession::new(alloc, ids)
}

/// Makes a step that is answered.
fn answered<R: Abort>(rt: &R, slot: &mut SlotSession, line: &str, answer: BelowAnswer) {
    assert_eq!(rt; slot.step_line(line.as_bytes(), answer), Stepped::Answered);
}

/// Whether the report is this text.
fn reports(slot: &SlotSession, text: &str) -> bool {
    match slot.report() {
        Ok(report) => report.as_str() == text,
        Err(_) => false,
    }
}

/// Whether these are the lines of the frames that a commit would hand.
fn is_pending(slot: &SlotSession, text: &str) -> bool {
    match slot.pending(&TransactionId::from([7; 16])) {
        Ok(Some(frames)) => frames.as_str() == text,
        _ => false,
    }
}

/// Opens a link and declares, and one settled transfer comes under the id.
fn begin<R: Abort>(rt: &R, slot: &mut SlotSession) {
    answered(rt, slot, "attach c 0", BelowAnswer::Take);
    answered(rt, slot, "control 0 00537700533145", BelowAnswer::Take);
    assert!(rt; reports(slot, "declared 07070707070707070707070707070707\n"));
    answered(
        rt,
        slot,
        "post 07070707070707070707070707070707 1 0 true - 2a",
        BelowAnswer::Take,
    );
}

const COMMIT: &str = "control 0 005377005332c01301a01007070707070707070707070707070707";

#[test]
fn a_commit_hands_what_was_pending(rt: HostRuntime) {
    let mut slot = session(&rt, rt.alloc());
    assert!(rt; reports(&slot, ""));
    begin(&rt, &mut slot);
    assert!(rt; is_pending(&slot, "transfer 1 0 true - 2a\n"));
    answered(&rt, &mut slot, COMMIT, BelowAnswer::Take);
    assert!(rt; reports(&slot, "accepted\ntaken transfer 1 0 true - 2a\n"));
    assert!(rt; !is_pending(&slot, ""));
    drop(slot);
}

#[test]
fn what_is_told_is_answered(rt: HostRuntime) {
    let mut slot = session(&rt, rt.alloc());
    begin(&rt, &mut slot);
    answered(&rt, &mut slot, COMMIT, BelowAnswer::Veto);
    assert!(rt; reports(&slot, "rejected rollback\n"));
    let in_use = BelowAnswer::Refuse(NamedError::HandleInUse);
    answered(&rt, &mut slot, "attach d 1", in_use);
    assert!(rt; reports(&slot, "attach-refused handle-in-use\n"));
    answered(&rt, &mut slot, "flow -", BelowAnswer::Veto);
    assert!(rt; reports(&slot, "ok\ntaken flow - -\n"));
    let unattached = BelowAnswer::Refuse(NamedError::UnattachedHandle);
    assert_eq!(rt; slot.step_line(b"flow 9 1", unattached), Stepped::Stopped);
    assert!(rt; reports(&slot, "stop unattached-handle\nhanded 0\n"));
    assert_eq!(rt;
        slot.step_line(b"flow -", BelowAnswer::Take),
        Stepped::StoppedBefore
    );
    assert!(rt; reports(&slot, "stop unattached-handle\nhanded 0\n"));
    drop(slot);
}

#[test]
fn a_disposition_is_answered_as_it_was_told(rt: HostRuntime) {
    let mut slot = session(&rt, rt.alloc());
    begin(&rt, &mut slot);
    let post = "post 07070707070707070707070707070707 1 1 - - 2b";
    answered(&rt, &mut slot, post, BelowAnswer::Take);
    assert!(rt;
        reports(
            &slot,
            "ok\nout disposition receiver 1 - true txn:07070707070707070707070707070707:accepted\n"
        )
    );
    let in_use = BelowAnswer::Refuse(NamedError::HandleInUse);
    assert_eq!(rt; slot.step_line(post.as_bytes(), in_use), Stepped::Stopped);
    assert!(rt; reports(&slot, "stop handle-in-use\nhanded 0\n"));
    drop(slot);
}

#[test]
fn a_line_that_is_no_step_changes_nothing(rt: HostRuntime) {
    let mut slot = session(&rt, rt.alloc());
    answered(&rt, &mut slot, "attach c 0", BelowAnswer::Take);
    assert_eq!(rt;
        slot.step_line(b"attach c 0\n", BelowAnswer::Take),
        Stepped::NotAStep
    );
    assert!(rt; reports(&slot, "attached 0\n"));
    drop(slot);
}

#[test]
fn a_seed_gives_the_uuids_of_chacha_with_20_rounds(rt: HostRuntime) {
    let mut seed = [0; 32];
    for at in 0..32 {
        seed[at] = at as u8;
    }
    let mut slot = SlotSession::new(rt.alloc(), SlotIds::from_seed(seed));
    answered(&rt, &mut slot, "attach c 0", BelowAnswer::Take);
    answered(
        &rt,
        &mut slot,
        "control 0 00537700533145",
        BelowAnswer::Take,
    );
    assert!(rt; reports(&slot, "declared 39fd2b7dd9c5496a8dbd0377b8dc4a49\n"));
    answered(
        &rt,
        &mut slot,
        "control 0 00537700533145",
        BelowAnswer::Take,
    );
    assert!(rt; reports(&slot, "declared 8a35d86fbcde4accb2cc7d4cd8ea2492\n"));
    drop(slot);
}

#[test]
fn messages_are_read_as_they_are_written(rt: HostRuntime) {
    let id = TransactionId::from([7; 16]);
    let mut octets = [0; 64];
    let len = payload_of(MessageKind::Rollback, id, &mut octets);
    assert_eq!(rt;
        message_in(&octets[..len]),
        Some((MessageKind::Rollback, Some(id)))
    );
    let len = payload_of(MessageKind::Declare, id, &mut octets);
    assert_eq!(rt;
        message_in(&octets[..len]),
        Some((MessageKind::Declare, None))
    );
    assert_eq!(rt; message_in(b"42"), None);
}
