//! Sessions are built field by field.
//!
//! A [`Builder`] holds what a session's begin says, and whether its links may be control links.
//! Each setter is named after its field, takes the builder and gives it back (`sessions` of
//! `amqp_examples_accept`):
//!
//! ```rust
//! /// Begins a session of this side. The begin is to be sent, and the peer's awaited.
//! pub fn begin_session<C: ConnectionEnd>(
//!     alloc: Global,
//!     connection: &mut C,
//! ) -> Result<(ClientBegin<PlainSession>, Begin), BeginError> {
//!     let builder = Builder::new().incoming_window(100).handle_max(Handle(7));
//!     builder.begin(alloc, connection)
//! }
//! ```
//!
//! Below stand the plain session of `amqp_below_sessions`, the engine of `amqp_engine_events`, the
//! end of a connection of `amqp_below_connections` and the acceptor for control links of
//! `amqp_accept_links`. The promise that this crate carries: a setter changes its own field alone,
//! and the session that is built has the builder's fields. 'The standard' is OASIS AMQP 1.0.
#![tactic(auto)]

mod builder;

pub use builder::Builder;
