//! The lines of an input: what each spells, and the steps of all of them.
//!
//! | item | is |
//! |---|---|
//! | [`spells`] | the steps of the lines of octets, or the first line that isn't one |
//! | [`read_lines`], [`LineReader`] | numbered lines, read into whatever takes them |
//! | [`step_of_line`], [`step_of_words`] | the step of one line |
//! | [`frame_of_words`], [`flow_line`] .. | the frame of one line |
//! | [`word_at`], [`u32_at`], [`name_at`] .. | the next word of a line, by its kind, and those after it |
//! | [`txn_id_of`], [`payload_of`] .. | what one word means |
//! | [`attach_of`], [`transfer_of`], [`state_under`] | a frame of what a line names, and a state |
//! | [`cut_at`], [`cut_line`], [`first_line`] | the first piece of octets, and the rest |
//!
//! ```text
//! let steps = spells(alloc, b"attach c 0\nflow -\n")?; // two steps
//! ```
//!
//! Below stand the steps of `amqp_resource_record` and the types of `amqp_txn_types`. The promise
//! that this crate carries: octets spell exactly the steps that the table of lines says, a line each.
#![tactic(auto)]

mod frame_lines;
mod line_words;
mod numbered_lines;
mod pieces;
mod spelled_steps;
mod step_lines;
mod unread;

pub use frame_lines::{
    attach_line, attach_of, detach_line, disposition_line, disposition_of, flow_line, flow_of,
    frame_of_words, link_flow_line, link_line, post_line, retire_line, state_of, state_under,
    transfer_line, transfer_of,
};
pub use line_words::{
    Deliveries, Delivery, bool_at, bool_of, deliveries_at, delivery_at, end_at, is_text, name_at,
    name_of, number_of, optional_bool_at, optional_outcome_of, optional_u32_at, outcome_of,
    payload_of, role_at, role_of, txn_id_of, u32_at, u32_of, u64_at, word_at,
};
pub use numbered_lines::{LineReader, SpellError, first_line, read_lines};
pub use pieces::{cut_at, cut_line};
pub use spelled_steps::spells;
pub use step_lines::{control_line, link_end_line, step_of_line, step_of_words};
pub use unread::Unread;
