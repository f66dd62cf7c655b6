//! The work under live transactions, kept in one log in the order in which it came, with an index
//! for each id. Part 4 of the standard (OASIS AMQP 1.0), section 4.4 (transactional work).
//!
//! An [`ArrivalLog`] is a list of cells. Work that comes under a live id is its last cell, live.
//! Work that is taken out leaves a dead cell, and [`ArrivalLog::close_up`] takes the dead cells out
//! of the list. So what is kept for an id is the work of its live cells, in the order in which it
//! came, whatever came under other ids between.
//!
//! ```text
//! let mut log = ArrivalLog::new(alloc);
//! log.make_room()?;
//! log.open_id(id)?;
//! log.append(&id, work)?;
//! while let Some(place) = log.first(&id) {
//!     hand(log.take(place, &mut looks));
//! }
//! log.end(&id);
//! log.compact(&mut looks);
//! ```
//!
//! [`Looks`] counts the looks into the log: one for each cell whose work is taken, and one for each
//! live cell when the log is closed up. Three calls alone read a cell, and each counts its look.
//!
//! Below stand the types of `amqp_txn_types`. The promise that this crate carries: the index gives,
//! for each live id, the places of its live cells, rising; and each call says what becomes of the
//! cells, of the live ids and of the count of looks.
#![tactic(auto)]

mod cell;
mod cell_list;
mod copies;
mod index;
mod live_id;
mod live_work;
mod log;
mod looks;
mod posts;
mod removal;

pub use cell::Cell;
pub use live_work::LiveWork;
pub use log::ArrivalLog;
pub use looks::Looks;
pub use posts::presumptive;
