//! The edges of a program: its arguments, its input, its output, its words, and how it ends.
//!
//! | item | is |
//! |---|---|
//! | [`read_up_to`], [`Reading`] | an input, read whole up to a limit |
//! | [`write_all`], [`write_and_end`] | a text, written whole, and the status that comes of it |
//! | [`end_unserved`], [`Unserved`] | the ends of a program that does nothing |
//! | [`status`] | the statuses |
//! | [`arguments`], [`Fault`], [`end_at_fault`] | the arguments of a process, and its end without them |
//! | [`id_words`], [`id_list_of`], [`Ids`] | the ids that words name |
//! | [`call_list_of`], [`count_of`] | a list of calls, and a count |
//! | [`StdSource`], [`StdSink`] | readers and writers of the standard library |
//!
//! ```
//! match read_up_to(alloc, &mut input, 1_048_576)? {
//!     Reading::Whole(octets) => serve(alloc, octets, &mut output),
//!     Reading::Fault => end_unserved(alloc, Unserved::ReadFault, &mut output),
//!     Reading::TooLong => end_unserved(alloc, Unserved::TooLong, &mut output),
//! }
//! ```
//!
//! A `main` makes a source of standard input and a sink of standard output, and lends both to a
//! call that answers the status. What it can't give that call are arguments that couldn't be read:
//!
//! ```
//! fn main(rt: HostRuntime) -> ExitCode {
//!     let mut input = StdSource::new(rt.reader());
//!     let mut output = StdSink::new(io::writer(&rt));
//!     let status = match arguments(&rt) {
//!         Ok(arguments) => serve(rt.alloc(), &arguments, &mut input, &mut output),
//!         Err(fault) => end_at_fault(fault, &mut output),
//!     };
//!     ExitCode::from(status)
//! }
//! ```
//!
//! Below stand the streams, the sources of ids and the words of lines. The promise that this crate
//! carries: what is read is the whole input or one octet past the limit, what is written is the
//! whole text, a front of it where the sink failed, or nothing where memory ran out.
#![tactic(auto)]

mod fault;
mod input;
mod output;
pub mod status;
mod std_streams;
mod unserved;
mod words;

pub use fault::{Fault, arguments, end_at_fault};
pub use input::{Reading, read_up_to};
pub use output::{write_all, write_and_end};
pub use std_streams::{StdSink, StdSource};
pub use unserved::{Unserved, end_unserved};
pub use words::{Ids, TransactionIds, call_list_of, count_of, id_list_of, id_of, id_words};
