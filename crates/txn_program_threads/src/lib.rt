//! The words `threads W R`: so many workers on one session, each in a thread of its own, and the
//! numbers of what they made.
//!
//! | item | is |
//! |---|---|
//! | [`Workplace`] | the session under a lock, the gate and the rounds of each worker |
//! | [`run_worker`] | one worker: an attach, then its rounds |
//! | [`Work`] | what a worker gives back: its share, its receipts, and whether it is done |
//! | [`serve_threads`] | starts so many workers, joins them and closes the session |
//! | [`ThreadsRan`] | what came of it: status, history, numbers and the layer below |
//! | [`ThreadsCommand`], [`threads_command_of`] | what the words ask for |
//! | [`serve_threads_command`] | runs the workers and writes the numbers |
//! | [`serve_threads_words`] | the same for words, which may be outside the table |
//! | [`end_threads_over`] | the same for a process, whose arguments may be faulty |
//!
//! A worker attaches a control link of its own. In each round it declares a transaction, posts
//! twice under it and discharges it, every third time by a rollback:
//!
//! ```text
//! let below = Recorder::new(alloc, OpenSession::new(alloc));
//! let ran = serve_threads(&rt, alloc, below, 2, 3, &OpenGate);
//! assert_eq!(rt; ran.entries, 26);
//! ```
//!
//! It stands on the session under a lock and on what all commands of the program share. The promise
//! that it carries: each step of a worker has its receipt, is on a link and under an id that the
//! worker's own receipts gave, and a worker that is done made all of its rounds; the history is a
//! legal record whose work the layer below has taken; with status 0 it holds exactly what the
//! workers were to make; where the receipts are the history, each of its steps is a worker's; and
//! status, text and recorder are those of that run. It reads no input.
#![tactic(auto)]

mod counts;
mod ending;
mod gathering;
mod process_end;
mod serving;
mod starting;
mod threads_command;
mod threads_ran;
mod threads_text;
mod threads_words;
mod worker;
mod worker_steps;

pub use process_end::end_threads_over;
pub use serving::serve_threads;
pub use threads_command::{serve_threads_command, serve_threads_words};
pub use threads_ran::ThreadsRan;
pub use threads_words::{ThreadsCommand, threads_command_of};
pub use worker::{Work, Workplace, run_worker};
