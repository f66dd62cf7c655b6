//! A session that a program asks and tells: the session of one slot of the library `daxurbi`.
//!
//! | item | is |
//! |---|---|
//! | [`SlotSession`] | a session, where its ids come from, and what its last step made |
//! | [`SlotIds`] | ids of a seed, or of a list |
//! | [`Stepped`] | whether a step was answered |
//! | [`payload_of`], [`message_in`], [`MessageKind`] | control messages as octets |
//!
//! ```text
//! let mut slot = SlotSession::new(alloc, SlotIds::from_seed([7; 32]));
//! let stepped = slot.step_line(b"attach c 0", BelowAnswer::Take);
//! let text = slot.report()?; // attached 0
//! ```
//!
//! Before a commit a program asks [`SlotSession::pending`] which frames it would hand, asks its own
//! layer about them, and tells with the step what that answered. The session keeps no record: what
//! a step handed stands there until the next one. Below stand the session of
//! `amqp_resource_session` over the layer of `daxurbi_layer`, and the lines of
//! `txn_program_lines` and `txn_program_report`. The promise that this crate carries: a session
//! that stands for a record stands, after a step that was answered, for the record with that step,
//! and what it says was handed is exactly what the record says the step hands.
#![tactic(auto)]

mod control_payloads;
mod last_step;
mod reporting;
mod slot_ids;
mod slot_session;
mod told_steps;

pub use control_payloads::{MessageKind, message_in, payload_of};
pub use last_step::{Ending, LastStep};
pub use slot_ids::SlotIds;
pub use slot_session::{SlotSession, Stepped};
