//! Where the ids of declares come from, and the ids that one declare draws.
//!
//! | type | is |
//! |---|---|
//! | [`IdSource`] | a stream of ids, whose next ones are a function of its state |
//! | [`ListIds`] | the ids of a list, the last one again and again |
//! | [`CountIds`] | the numbers from 1 as ids of 16 octets |
//! | [`Drawn`] | the ids that one declare drew, at most 16 |
//!
//! ```text
//! let mut ids = CountIds::new();
//! let mut drawn = Drawn::new(alloc);
//! drawn.make_room()?;
//! drawn.push(ids.draw());
//! ```
//!
//! Below stand the types of `amqp_txn_types`. The promise that this crate carries: a source gives
//! its stream in order, and drawn ids are kept in the order in which they were drawn.
#![tactic(auto)]

mod count_ids;
mod drawn;
mod ids;
mod list_ids;
#[cfg(test)]
mod tests;

pub use count_ids::{CountIds, numbered_id};
pub use drawn::Drawn;
pub use ids::IdSource;
pub use list_ids::ListIds;
