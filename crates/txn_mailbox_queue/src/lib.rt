//! The queue of two senders and one server, and the rule that it keeps.
//!
//! | item | is |
//! |---|---|
//! | [`Item`] | a sender's number and a place in its list |
//! | [`Queue`] | a bounded queue of items, under the rule |
//! | [`Seat`] | a pass: what its holder may do, and what it knows |
//! | [`open_queue`] | a queue, with the one pass that may do all |
//! | [`give_first`], [`give_second`] | make a pass of a sender's right to put |
//! | [`put_all`], [`put`] | put a sender's items |
//! | [`take`] | takes an item |
//! | [`take_in_first`], [`take_in_second`] | take a sender's pass in again |
//! | [`count_items`] | what a pass that may do all knows of the items |
//!
//! Two threads put items and one takes them, and no lock is held:
//!
//! ```text
//! let (queue, mut server) = open_queue::<L>(alloc, 4)?;
//! let first = give_first(&queue, &mut server);
//! let second = give_second(&queue, &mut server);
//! // in two threads:
//! let first = put_all(rt, &queue, &OpenGate, first, 0, 2);
//! let second = put_all(rt, &queue, &OpenGate, second, 1, 2);
//! // in the thread that serves:
//! let item = take(rt, &queue, &mut server);
//! ```
//!
//! It stands on `crossbeam_queue`, and on `txn_gate` for what a sender passes before it puts an
//! item. The rule: of each sender, the places that were taken and then those in the queue are 0, 1,
//! 2 and so on, up to the number that it has put. The promise that this crate carries: each call
//! keeps the rule, and tells the holder of a pass what follows from it.
#![tactic(auto)]

mod item;
mod passes;
mod queue;
mod rule;

pub use item::{Item, View};
pub use passes::{count_items, give_first, give_second, open_queue, take_in_first, take_in_second};
pub use queue::{put, put_all, take};
pub use rule::{First, InOrder, Lengths, Puts, Queue, Seat, Second, Takes, Totals};
