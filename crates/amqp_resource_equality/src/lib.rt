//! When two steps, replies or entries are one: `==` of them is equality.
//!
//! A derived `==` gives a contract no more than that it is symmetric and transitive. Whoever tests
//! with it whether a record holds the step that a caller tells wants to know that the two are one:
//!
//! ```
//! if !same_step(&entry.step, &told.step) {
//!     return Err(Differs);
//! }
//! // here a proof knows that the steps are one, and at the Err that they aren't
//! ```
//!
//! It stands on `amqp_resource_record`. It carries the promise that each test is true exactly where
//! the two are one; of two lists of drawn ids and of two entries exactly where their ids are, since
//! the room that a list has for more is no part of its `==`. The tests of the parts, down to the
//! fields of a frame, are in its `proofs/`, for whoever compares these.
#![tactic(auto)]

ghost use Rattle.std.specs.Prelude.{◌≡◌, ◌↔◌, IsTrue};

use amqp_below_ids::Drawn;
use amqp_below_layer::SessionInnerError;
use amqp_resource_record::{Entry, Reply, Step};
use amqp_txn_types::{Error, Frame, TransactionId};

/// Whether two ids are one.
pub fn same_id(a: &TransactionId, b: &TransactionId) -> bool
    ensures { IsTrue result ↔ (a.now ≡ b.now) }
{
    *a == *b
}

/// Whether two lists of drawn ids have the same ids, in order.
pub fn same_drawn(a: &Drawn, b: &Drawn) -> bool
    ensures { IsTrue result ↔ (a.now.ids ≡ b.now.ids) }
{
    *a == *b
}

/// Whether two frames are one.
pub fn same_frame(a: &Frame, b: &Frame) -> bool
    ensures { IsTrue result ↔ (a.now ≡ b.now) }
{
    *a == *b
}

/// Whether two errors are one.
pub fn same_error(a: &Error, b: &Error) -> bool
    ensures { IsTrue result ↔ (a.now ≡ b.now) }
{
    *a == *b
}

/// Whether two refusals of the layer below are one.
pub fn same_fault(a: &SessionInnerError, b: &SessionInnerError) -> bool
    ensures { IsTrue result ↔ (a.now ≡ b.now) }
{
    *a == *b
}

/// Whether two steps are one.
pub fn same_step(a: &Step, b: &Step) -> bool
    ensures { IsTrue result ↔ (a.now ≡ b.now) }
{
    *a == *b
}

/// Whether two replies are one.
pub fn same_reply(a: &Reply, b: &Reply) -> bool
    ensures { IsTrue result ↔ (a.now ≡ b.now) }
{
    *a == *b
}

/// Whether two entries have the same step, drew the same ids and have the same reply.
pub fn same_entry(a: &Entry, b: &Entry) -> bool
    ensures { IsTrue result ↔ ((a.now.step ≡ b.now.step) × (a.now.drawn.ids ≡ b.now.drawn.ids)
        × (a.now.reply ≡ b.now.reply)) }
{
    *a == *b
}
