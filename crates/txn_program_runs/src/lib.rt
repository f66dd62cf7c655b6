//! Runs of steps: what `run`, `listen` and `make` do.
//!
//! A run reads the lines of the input, drives their steps through a session over the recorder that
//! it is handed, and writes the report; `make` drives steps that it makes, and writes a summary.
//!
//! | item | is |
//! |---|---|
//! | [`run_command_of`], [`RunCommand`] | the command that words give |
//! | [`serve_run`], [`Ran`] | a call for a command, and what it leaves |
//! | [`serve_over`], [`end_over`] | the same for the arguments of a process, over a layer of its own |
//! | [`ends_count`] | how many commits or rollbacks a history holds |
//!
//! ```
//! let below = Recorder::new(alloc, OpenSession::new(alloc));
//! let command = run_command_of(alloc, words)?;
//! let ran = serve_run(alloc, command, below, &mut input, &mut output);
//! // attached 0
//! // declared 00000000000000000000000000000001
//! // stop done
//! // handed 0
//! ```
//!
//! Below stand the session, the record, the layer below, and the edges of a program. The promise
//! that it carries: whatever the input, a run that is answered with status 0, 1 or 8 is a legal run
//! over a front of the steps that the input spells, written as its report, and the layer below has
//! taken exactly the work of that run; while the layer below counts no refusal, a run is answered
//! with 0 where no step is an end or a frame under an id that isn't live, with 1 where one is, or
//! with 6 where memory runs out, and a made run with 0 or 6.
#![tactic(auto)]

mod made_steps;
mod process_end;
mod run_command;
mod run_words;
mod step_runs;
mod summary;

pub use process_end::end_over;
pub use run_command::{serve_over, serve_run};
pub use run_words::{Layer, Plans, RunCommand, command_over, run_command_of};
pub use step_runs::{INPUT_LIMIT, Ran, end_without_memory, status_of_stop};
pub use summary::ends_count;
