//! The messages of some queues, by number.
//!
//! | type | is |
//! |---|---|
//! | [`MessageTable`] | the messages that came, which of them wait still, and in which queue |
//! | [`Mark`] | what is kept of one message |
//!
//! Messages are numbered from 0 in the order in which they come. A range of numbers is removed in
//! the time that the waiting messages in it take, whatever its length, and the first messages of a
//! queue are found in the time that they take:
//!
//! ```text
//! let queue = table.add_queue()?;
//! table.reserve(1)?;
//! table.push(place, queue); // number 0
//! table.remove(0, 4_294_967_296);
//! assert_eq!(table.numbers(alloc, queue, 1)?.len(), 0);
//! ```
//!
//! The promise that this crate carries: what waits in a queue are the messages that were pushed to
//! it and in no range that was removed after they came, in their order.
#![tactic(auto)]

mod cell;
mod links;
mod mark;
mod skips;
mod table;

pub use mark::Mark;
pub use table::MessageTable;
