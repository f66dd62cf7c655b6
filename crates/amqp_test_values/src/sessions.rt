//! Sessions, and what they keep for a link, that the tests of several crates use.

ghost use Rattle.std.specs.Prelude.{◌≡◌};
ghost use Rattle.amqp_test_values.specs.Sessions.{IsNew, relay_of};

use crate::frames::{begin, work};
use amqp_below_layer::{LayerBelow, Verdict, take_frame};
use amqp_below_sessions::{PlainSession, Relay};
use amqp_txn_types::{Items, OutgoingChannel, ReceiverSettleMode, Role, SessionState, Text};
use std::alloc::Global;

/// A session without links on channel 7, with windows of two transfers.
pub fn plain_session(alloc: Global, state: SessionState, handle_max: u32) -> PlainSession
    ensures { IsNew state handle_max result }
{
    PlainSession::new(alloc, OutgoingChannel(7), state, begin(handle_max))
}

/// What a session keeps for a link to which nothing came.
pub fn relay(alloc: Global, role: Role) -> Relay
    ensures { result ≡ relay_of role }
{
    Relay {
        name: Text::new(alloc),
        role,
        rcv_settle_mode: ReceiverSettleMode::First,
        flows: Items::new(alloc),
        transfers: 0,
    }
}

/// Whether the review of a transfer on the handle and a disposition answers this.
pub fn judges<S: LayerBelow>(alloc: Global, below: &mut S, handle: u32, verdict: Verdict) -> bool {
    let Ok(frames) = work(alloc, handle) else {
        return false;
    };
    match below.review(&frames) {
        Ok(found) => found == verdict,
        Err(_) => false,
    }
}

/// Whether a transfer on the handle and a disposition are taken, one after the other.
pub fn takes_work<S: LayerBelow>(alloc: Global, below: &mut S, handle: u32) -> bool {
    let Ok(frames) = work(alloc, handle) else {
        return false;
    };
    for frame in frames.into_vec() {
        if take_frame(below, frame).is_err() {
            return false;
        }
    }
    true
}
