//! Laws of an audit, for the reader: functions whose contracts are the laws. What they do is to read
//! their arguments, or nothing.
//!
//! | law | says |
//! |---|---|
//! | [`a_report_of_a_legal_run_fits`] | the text of a report, read line by line, fits |
//! | [`a_report_of_a_run_fits`] | so does the report of what was driven for an input |
//! | [`a_report_that_is_written_fits`] | so does every report that `run` or `listen` writes |
//! | [`a_frame_that_can_be_shown_is_read`] | the line of a frame is read as that of a frame |
//! | [`frame_is_within_types`], [`entries_are_within_types`], [`exchanges_are_within_types`] | the numbers, ids and octets of frames are within their types |
//!
//! ```
//! let ran = serve_run(alloc, command, below, &mut input, &mut output);
//! a_report_that_is_written_fits(&ran); // what was written fits the steps of the input
//! ```
//!
//! Below stand the audit, the runs and the text of a report. The promise that this crate carries: an
//! audit answers yes to every report that a run writes, of its steps and its ids, where each attach
//! that the layer below gave back has a name that a line can spell.
#![tactic(auto)]

mod laws;
mod within_types;

pub use laws::{
    a_frame_that_can_be_shown_is_read, a_report_of_a_legal_run_fits, a_report_of_a_run_fits,
    a_report_that_is_written_fits,
};
pub use within_types::{
    entries_are_within_types, exchanges_are_within_types, frame_is_within_types,
};
