//! Ids that are drawn at random: version 4 uuids (RFC 9562, section 5.4).
//!
//! | item | is |
//! |---|---|
//! | [`UuidIds`] | the version 4 uuids of a generator's stream, as ids of 16 octets |
//! | [`seeded_ids`] | those of the generator that a number seeds |
//!
//! ```text
//! let mut ids = seeded_ids(1);
//! let first = ids.draw(); // the same at each run
//! let mut others = UuidIds::new(rng); // any generator of rand_core
//! ```
//!
//! Below stand the trait of id sources of `amqp_below_ids`, and the crates `uuid`, `rand_core` and
//! `rand_chacha`. The promise that this crate carries: a source gives the version 4 uuids of its
//! generator's stream, each of the next sixteen octets, in order.
#![tactic(auto)]

mod seeded;
#[cfg(test)]
mod tests;
mod uuid_ids;

pub use seeded::seeded_ids;
pub use uuid_ids::UuidIds;
