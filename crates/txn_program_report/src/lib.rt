//! The text of a report: what a run answered, line by line, and what the layer below took of it.
//!
//! | item | is |
//! |---|---|
//! | [`report`], [`report_string`] | the report of a run |
//! | [`put_entries`], [`put_stop`], [`put_handed`], [`put_taken`] | its parts, each put at the end of a text |
//! | [`put_frame`], [`put_reply`] | a frame, and a reply |
//! | [`put`], [`put_word`], [`put_number`], [`put_count`] .. | words and numbers |
//! | [`stop_word`], [`role_word`] .. | the word of a value |
//!
//! ```
//! report(alloc, &driven, &taken)?;
//! // attached 0
//! // stop done
//! // handed 0
//! // taken attach q 1 sender
//! ```
//!
//! Below stand the record and its types. The promise that this crate carries: the text of a run is
//! the one that the tables of replies, stops and frames say, an entry after another.
#![tactic(auto)]

mod frame_text;
mod report_words;
mod reports;

pub use frame_text::{put_flow, put_frame};
pub use report_words::{
    bool_word, error_word, put, put_count, put_number, put_number_word, put_octets,
    put_optional_handle, put_optional_number, put_optional_state, put_payload, put_txn_id,
    put_word, reject_words, role_word, settled_word, stop_word,
};
pub use reports::{
    put_entries, put_entry, put_handed, put_reply, put_reply_frames, put_stop, put_taken, report,
    report_string,
};
