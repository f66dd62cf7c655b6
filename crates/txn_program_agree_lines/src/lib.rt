//! The lines of events of two parties.
//!
//! | line | is |
//! |---|---|
//! | `declare C` | controller C declares a new transaction |
//! | `post X H ID SET OUT PAYLOAD` | transaction X posts a transfer |
//! | `retire X ROLE FIRST LAST BOOL OUT` | transaction X retires deliveries |
//! | `commit X`, `rollback X` | transaction X is to be discharged |
//! | `link-end C` | controller C ends its link |
//! | `plain LINE` | a frame under no transaction: a `transfer`, `flow`, `disposition` or `detach` line |
//! | `arrive`, `return`, `cut` | an item arrives, an answer returns, the wires are cut |
//!
//! C and X are numbers, to 4,294,967,295; the other words are those of the lines of steps.
//!
//! ```text
//! let event = event_of_line(alloc, b"commit 0")?; // Event::Commit(0)
//! ```
//!
//! Below stand the words of lines of `txn_program_lines` and the events of `txn_parties`. The
//! promise that this crate carries: a line spells exactly the event that the table says, or none.
#![tactic(auto)]

mod event_lines;
mod events;

pub use event_lines::{event_of_line, event_of_words, plain_line, post_line, retire_line};
pub use events::{Events, spelled_events};
