//! One session that serves the steps of two senders.
//!
//! | item | is |
//! |---|---|
//! | [`serve_two`] | serves two lists of steps, which two threads put into one queue |
//! | [`Served`] | what it leaves |
//! | [`Marks`] | of each entry, who sent its step |
//!
//! Two threads put the places of their steps into one lock-free queue, each in its order. The
//! caller's thread takes them as they come, and makes each step on the session:
//!
//! ```text
//! first:   step 0, step 1 ..  --\
//!                                >-- queue --> caller: session.step(..)
//! second:  step 0, step 1 ..  --/
//! ```
//!
//! It stands on the session, on the queue with its rule (`txn_mailbox_queue`), on `txn_gate` for
//! what a sender passes before it puts a step, and on the lines for the attach of a control link.
//! The promise that this crate carries: what is served is a run of the two attaches and then of the
//! two lists in some order that keeps each list's own, so that each step of a list is served once
//! and after those before it.
#![tactic(auto)]

mod copies;
mod ready;
mod senders;
mod server;
mod serving;

pub use server::{Marks, Served};
pub use serving::serve_two;
