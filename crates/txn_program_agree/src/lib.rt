//! The command `agree`: a run of two parties.
//!
//! `agree C [--refuse LIST] [--starve LIST] ID ..` makes two parties over the recorder that it is
//! handed, with C controllers and the ids that declares draw, plays the events that the lines of
//! the input spell, and writes what each transaction heard:
//!
//! | line | says |
//! |---|---|
//! | `txn X HEARD` | what X heard: `undeclared`, `nothing`, `committed`, `rolled-back` or `rejected` |
//! | `skipped N` | how many events did nothing |
//! | `stop WORD` | why the resource's session stopped, `none` where it didn't |
//! | `handed N` | how many frames of the item at which it stopped were taken |
//! | `taken FRAME` | a frame that the layer below took |
//!
//! Where the layer below refused the attach of a control link, the text is `attach-refused WORD`.
//!
//! ```
//! let command = agree_command_of(alloc, words)?;
//! let ran = serve_agree(alloc, command, below, &mut input, &mut output);
//! // txn 0 committed
//! // skipped 0
//! // stop none
//! // handed 0
//! // taken transfer 1 7 true - 61
//! ```
//!
//! Below stand the two parties of `txn_world`, the lines of events and the edges of a program. The
//! promise that this crate carries: whatever the input, the two parties that it writes of were
//! reached, turn by turn, by the events that the lines spell; the layer below has taken exactly what
//! was drawn on; and the outcome that each transaction heard agrees with what the resource did.
#![tactic(auto)]

mod agree_text;
mod agree_words;
mod playing;
mod process_end;
mod serving;

pub use agree_words::{AgreeCommand, agree_command_of};
pub use process_end::end_agree;
pub use serving::serve_agree;
