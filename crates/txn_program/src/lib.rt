//! The program over a transactional session, as a library: arguments and lines in, a text out.
//!
//! [`run`] is the top call: it reads the arguments and does what they ask for, as the crate of each
//! command has it; `run`, `listen` and `make` are runs of steps, `agree` is a run of two parties, and
//! `threads` one of workers in threads. [`run_commands`] does the same without `threads`, and is
//! proved to return. [`command_of`] reads the arguments alone, and [`run_command`] is the rest of
//! [`run_commands`]. [`spells`] reads the lines of a run, and [`report`] writes what it made:
//!
//! ```
//! let below = Recorder::new(alloc, OpenSession::new(alloc));
//! let ran = run(&rt, alloc, arguments, below, &mut input, &mut output);
//! // attached 0
//! // declared 00000000000000000000000000000001
//! // stop done
//! // handed 0
//! ```
//!
//! Below it stand the commands, each in a crate of its own. The promise that it carries is that of
//! the command, for the arguments of each; arguments outside the table of words are told so.
#![tactic(auto)]

mod commands;
#[cfg(test)]
mod tests;

pub use commands::{Command, command_of, run, run_command, run_commands};
pub use txn_program_agree::AgreeCommand;
pub use txn_program_edges::{Ids, Reading, StdSink, StdSource, TransactionIds, status};
pub use txn_program_lines::{SpellError, spells};
pub use txn_program_report::report;
pub use txn_program_runs::{INPUT_LIMIT, Layer, Plans, Ran, RunCommand};
pub use txn_program_threads::{ThreadsCommand, ThreadsRan, serve_threads};
