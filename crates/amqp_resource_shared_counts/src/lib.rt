//! What several owners count together, and numbers of which two may be the same.
//!
//! | item | is |
//! |---|---|
//! | [`Share`] | a count of steps, beside some parts of a ledger |
//! | [`add_up`] | the steps that shares count |
//! | [`first_repeat`] | the first number that stands among those before it |
//!
//! The book of the ledger stands with what is counted, such as under a lock, and each owner has a
//! share. Whoever holds shares with all parts of the ledger knows that they count every step:
//!
//! ```text
//! let (mut book, part) = blank.open::<L>();
//! let mut all = Share::new(part);
//! let mut one = all.split(1);
//! one.add_one(&mut book);
//! ```
//!
//! It stands on the ledgers of std alone. The promise that it carries: shares with all parts add up
//! to the book's total, and a search for a number that stands twice finds two such places exactly
//! where there are any, in n log n for n numbers.
#![tactic(auto)]

mod repeats;
mod share;

pub use repeats::first_repeat;
pub use share::{Share, add_up};
