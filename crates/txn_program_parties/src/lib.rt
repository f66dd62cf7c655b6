//! What the words that run two parties share: `agree` and `relay`.
//!
//! | item | is |
//! |---|---|
//! | [`put_stop_or_none`] | the line of why the resource's session stopped, if it did |
//! | [`write_text`] | the text of a run written, with the status that the program ends with |
//!
//! ```text
//! put_stop_or_none(&mut out, world.stop())?; // stop none
//! ```
//!
//! Below stand the two parties of `txn_parties`, the text of a report and the edges of a program. The
//! promise that this crate carries: the line of a stop has its word, and a text is written as far as
//! the status that is returned says.
#![tactic(auto)]

mod stop_line;
mod writing;

pub use stop_line::put_stop_or_none;
pub use writing::write_text;
