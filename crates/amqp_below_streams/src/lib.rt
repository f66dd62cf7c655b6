//! Where octets come from and go.
//!
//! | type | is |
//! |---|---|
//! | [`ByteSource`] | what octets are read from, once and in order |
//! | [`ByteSink`] | what octets are written to, into room that was made |
//! | [`SureSource`], [`SureSink`] | bodies in memory that never fail |
//! | [`MemorySource`], [`MemorySink`] | bodies in memory of which some calls fail |
//!
//! ```text
//! let mut source = SureSource::new(Binary::from_slice(alloc, b"abc")?);
//! let mut buffer = [0; 2];
//! assert!(source.read(&mut buffer) == Ok(2));
//! ```
//!
//! Below stand the types of `amqp_txn_types`. The promise that this crate carries: a source that
//! tells its octets gives each once and in order, a sink holds what was written to it.
#![tactic(auto)]

mod memory_sink;
mod memory_source;
mod sink;
mod source;
#[cfg(test)]
mod tests;

pub use memory_sink::MemorySink;
pub use memory_source::MemorySource;
pub use sink::{ByteSink, SureSink};
pub use source::{ByteSource, Failed, SureSource};
