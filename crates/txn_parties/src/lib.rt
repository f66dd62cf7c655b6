//! Two parties that agree: a controller's side and a resource over two wires, as plain data.
//!
//! Controllers declare transactions, post and retire under them, and commit them or roll them back.
//! What they put goes over a forward wire to a resource, which answers each item by a step of its
//! session; the answers to declares and discharges go over a back wire. Both wires keep their order
//! and lose nothing, but that a cut may come at any point, after which nothing arrives or returns.
//!
//! ```text
//!                put                                  arrive
//!   controllers -----> [ item | item | item | .. ] -----------> resource --> layer below
//!        ^                     forward wire                        |
//!        |                                                         | one reply for each declare
//!        |  return                                                 | and each discharge
//!        +--------- [ .. | answer | answer ] <---------------------+
//!                          back wire
//! ```
//!
//! An [`Event`] is one thing that may happen, and [`Happened`] says what did. What a transaction
//! has [`Heard`] is read from the answers that returned. The definitions in `specs/` say what one
//! event does (`Turn`), which places of the resource's record are the frames of a transaction
//! (`span`), and which frames were handed to the layer below (`drawn_on`).
//!
//! Of every list of events, with a cut at any point, [`parties_agree`] says:
//!
//! 1. No frame is handed twice. What the layer below took since the beginning are the frames at the
//!    places that were drawn on, each stripped of its transaction ([`what_was_taken_is_drawn_on`]).
//! 2. A transaction that heard `Committed`: all of its frames were handed, in order and next to
//!    each other.
//! 3. One that heard `RolledBack` or `Rejected`: none of them was.
//! 4. One that heard `Nothing`: none of them was, or all of them, or only the first of them. The
//!    last is so only where the layer below ran out of memory at the transaction's own commit, and
//!    then the session stopped there. Over a layer that is sure nothing was handed then.
//! 5. What it heard is the answer that the resource gave to its own request.
//!
//! It stands on `amqp_resource_record` (the record of the resource) and what that stands on, and on
//! nothing of sessions: that a session's step answers by its record is proved where sessions are.
#![tactic(auto)]

mod event;
mod item;
mod laws;

pub use event::{Event, Happened, Heard};
pub use item::{Answered, Asked, Halt, Item, ReplyState};
pub use laws::{events_follow_one_another, parties_agree, what_was_taken_is_drawn_on};
