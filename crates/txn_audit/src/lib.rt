//! The audit of a report: whether it is that of a legal run.
//!
//! Its arguments are `audit ID ID ..`, as those of a run. Its input are the step lines of the run, a
//! line that is exactly `report`, and the lines of a report that somebody else wrote. It writes
//! `yes` with status 0 exactly where a legal run explains the report, and `no` with status 1 exactly
//! where none does.
//!
//! ```
//! let ran = run_audit(alloc, &arguments, &mut input, &mut output);
//! ExitCode::from(ran.status)
//! ```
//!
//! Below stand the judge of the lines, and the edges of a program. The promise that this crate
//! carries: the status is that of the table, and each has its exact cause.
#![tactic(auto)]

mod audit_input;
mod audit_runs;
mod process_end;

pub use audit_input::{AuditInput, audit_words, read_parts};
pub use audit_runs::{Answer, AuditRan, INPUT_LIMIT, run_audit};
pub use process_end::end_audit;
