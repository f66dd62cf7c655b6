//! The lines of a report that is read: which lines show a frame, and what refused.
//!
//! | item | is |
//! |---|---|
//! | [`is_out_line`] | whether a line is `out FRAME` |
//! | [`is_stop_line`] | whether the first word of a line is `stop` |
//! | [`refusal_of_attach`] | the code of a line `attach-refused WORD` |
//! | [`refusal_of_stop`] | the code of a line `stop WORD` of a refusal below |
//!
//! ```text
//! is_out_line(b"out flow 1 200")?; // true
//! is_out_line(b"out flow 01 200")?; // false: a leading zero
//! refusal_of_stop(b"stop handle-in-use"); // Some(StopCode::HandleInUse)
//! ```
//!
//! Below stand the words of lines and the text of a report. The promise that this crate carries:
//! a line is read by the table of the report's frames, and a word of a refusal is the one that the
//! report writes for it.
#![tactic(auto)]

mod out_lines;
mod refusals;

pub use out_lines::{is_out_line, is_stop_line};
pub use refusals::{refusal_of_attach, refusal_of_stop};
