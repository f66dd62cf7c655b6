//! Whether a report is that of a legal run: of these steps, drawing these ids.
//!
//! [`audit`] reads the lines of a report that somebody else wrote, and answers yes exactly where a
//! legal run explains it. Nothing is driven: what is kept is what a session would keep, and each
//! line is compared with the replies that the step may be given after those before it.
//!
//! ```
//! let steps = spells(alloc, b"attach c 0\n")?;
//! let mut ids = ListIds::new(alloc, &[id])?;
//! audit(alloc, &steps, &mut ids, b"attached 0\nstop done\nhanded 0\n")?; // true
//! ```
//!
//! Below stand the record, what a session keeps, and the texts of lines and of reports. The promise
//! that this crate carries: the answer is yes exactly where there is a legal record of which these
//! lines are a report.
#![tactic(auto)]

mod audits;
mod difference;
mod discharges;
mod endings;
mod frames;
mod judged_lines;
mod links;
mod outs;
mod replies;
mod texts;

pub use audits::{audit, first_difference};
pub use difference::{Difference, Wanted};
pub use outs::Outs;
