//! Two lists of steps, served by one session: what the word `mailbox` does.
//!
//! | item | is |
//! |---|---|
//! | [`run_mailbox`], [`MailboxRan`] | a run for words and an input, and what it leaves |
//! | [`end_mailbox`] | the same for the arguments of a process |
//! | [`mailbox_ids`] | the ids of the words |
//! | [`two_lists_of`], [`TwoLists`] | the two lists that octets spell |
//!
//! Each line of the input is `0 ` or `1 ` and the line of a step. Two threads put the steps of the
//! two lists into one queue, one session serves them as they come, after the attaches of two
//! control links, and what is written are numbers that don't depend on how the lists interleave,
//! where the steps of one list don't matter to those of the other:
//!
//! ```text
//! mailbox 00000000000000000000000000000001
//!     0 control 0 00537700533145
//!     1 transfer 2 1 true 51
//! entries 4
//! sent 0 1
//! sent 1 1
//! taken 1
//! stop done
//! ```
//!
//! It stands on `txn_mailbox_serving`, which serves two lists, on the edges of a program and its
//! lines, and takes the limit of the input and the status of a stop from the runs of one list. The
//! promise that this crate carries: what a run with status 0, 1 or 8 has served are the lists that
//! its input spells, as `serve_two` promises, and the numbers that are written are those of what
//! was served.
#![tactic(auto)]

mod lists;
mod runs;
mod texts;
mod words;

pub use lists::{Sender, TwoLists, two_lists_of};
pub use runs::{MailboxRan, end_mailbox, run_mailbox};
pub use txn_mailbox_serving::{Marks, Served, serve_two};
pub use words::mailbox_ids;
