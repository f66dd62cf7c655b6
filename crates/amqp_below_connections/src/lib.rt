//! The end of a connection, as sessions see it.
//!
//! | item | is |
//! |---|---|
//! | [`ConnectionEnd`] | the end of a connection, on which sessions wait and channels are given |
//! | [`MemoryConnection`] | such an end in memory |
//!
//! ```text
//! let mut connection = MemoryConnection::new(alloc, 7);
//! connection.append_session(IncomingSession { channel: 0, begin })?;
//! let Poll::Ready(Some(incoming)) = connection.next_incoming_session() else { .. };
//! let channel = connection.allocate_session()?; // channels are given from 0 on
//! ```
//!
//! Below stand the types of `amqp_txn_types`, the errors of `amqp_below_sessions` and the polls of
//! `amqp_links`. The promise that this crate carries: a connection in memory gives sessions in the
//! order in which they came, and each of its channels once. 'The standard' is OASIS AMQP 1.0.
#![tactic(auto)]

mod connection;
mod memory_connection;

pub use connection::{AllocSessionError, ConnectionEnd, IncomingSession};
pub use memory_connection::MemoryConnection;
