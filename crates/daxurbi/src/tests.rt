//! What no clause says: that the calls succeed where there is memory. And each misuse, as a number.

use crate::codes::{
    ALREADY_OPEN, NOT_A_MESSAGE, NOT_A_SEED, NOT_A_STEP, NOT_AN_ANSWER, NOT_AN_ID, NOT_IDS,
    NOT_LIVE, NOT_OPEN, OK, SHORT_BUFFER,
};
use crate::handle::Handle;
use crate::*;
use std::alloc::Global;

fn closed(alloc: Global) -> Slot {
    Slot {
        session: Handle::none(alloc),
        is_open: false,
    }
}

/// Lets a slot go, with its session where it is open.
fn let_go(slot: Slot) {
    let Slot { session, is_open } = slot;
    if is_open {
        drop(session.into_box());
    } else {
        session.let_go();
    }
}

#[test]
fn a_step_is_made_and_reported(rt: HostRuntime) {
    let alloc = rt.alloc();
    let mut slot = closed(alloc);
    let mut text = [0; 16];
    let mut needed = 0;
    let opened = daxurbi_open(alloc, &mut slot, &[7; 32]);
    let stepped = daxurbi_step(alloc, &mut slot, b"attach c 0", 0);
    let reported = daxurbi_report(alloc, &mut slot, &mut text, &mut needed);
    let closed = daxurbi_close(alloc, &mut slot);
    let_go(slot);
    assert_eq!(rt; [opened, stepped, reported, closed], [OK; 4]);
    assert_eq!(rt; &text[..needed.min(16)], b"attached 0\n".as_slice());
}

#[test]
fn misuse_of_a_slot_is_answered(rt: HostRuntime) {
    let alloc = rt.alloc();
    let mut slot = closed(alloc);
    let mut needed = 0;
    let closed_step = daxurbi_step(alloc, &mut slot, b"flow -", 0);
    let short_seed = daxurbi_open(alloc, &mut slot, &[7; 31]);
    let short_ids = daxurbi_open_with_ids(alloc, &mut slot, &[7; 15]);
    let opened = daxurbi_open_with_ids(alloc, &mut slot, &[7; 16]);
    let again = daxurbi_open(alloc, &mut slot, &[7; 32]);
    let no_step = daxurbi_step(alloc, &mut slot, b"", 0);
    let no_answer = daxurbi_step(alloc, &mut slot, b"flow -", 10);
    let stepped = daxurbi_step(alloc, &mut slot, b"flow -", 0);
    let short = daxurbi_report(alloc, &mut slot, &mut [], &mut needed);
    let dead = daxurbi_pending(alloc, &mut slot, &[7; 16], &mut [], &mut needed);
    let long = daxurbi_pending(alloc, &mut slot, &[7; 33], &mut [], &mut needed);
    let closed = daxurbi_close(alloc, &mut slot);
    let twice = daxurbi_close(alloc, &mut slot);
    let_go(slot);
    assert_eq!(rt;
        [closed_step, short_seed, short_ids, opened, again, no_step],
        [NOT_OPEN, NOT_A_SEED, NOT_IDS, OK, ALREADY_OPEN, NOT_A_STEP]
    );
    assert_eq!(rt;
        [no_answer, stepped, short, dead, long, closed, twice],
        [
            NOT_AN_ANSWER,
            OK,
            SHORT_BUFFER,
            NOT_LIVE,
            NOT_AN_ID,
            OK,
            NOT_OPEN
        ]
    );
    assert_eq!(rt; needed, 18);
}

#[test]
fn a_payload_is_read_as_it_was_written(rt: HostRuntime) {
    let mut octets = [0; 64];
    let mut id = [0; 32];
    let mut needed = 0;
    let mut kind = 9;
    let written = daxurbi_payload(4, &[7; 16], &mut octets, &mut needed);
    let read = daxurbi_message(&octets[..needed.min(64)], &mut kind, &mut id, &mut needed);
    let no_kind = daxurbi_payload(5, &[], &mut octets, &mut needed);
    let no_message = daxurbi_message(b"42", &mut kind, &mut id, &mut needed);
    assert_eq!(rt;
        [written, read, no_kind, no_message],
        [OK, OK, NOT_A_MESSAGE, NOT_A_MESSAGE]
    );
    assert_eq!(rt; kind, 4);
    assert_eq!(rt; needed, 16);
    assert_eq!(rt; &id[..16], [7; 16].as_slice());
}
