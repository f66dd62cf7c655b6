//! The coordinator of transactions of AMQP 1.0, over a session that allocates and discharges them,
//! and the store of the work of transactions.
//!
//! | type | is |
//! |---|---|
//! | [`TxnCoordinator`] | the ids that were declared to it; it hears messages, asks the session |
//! | [`ResourceTransaction`] | the work of one transaction, kept in the order in which it came |
//! | [`TransactionManager`] | the transactions of a resource, each under its id |
//!
//! ```text
//! let mut coordinator = TxnCoordinator::new(alloc);
//! let reply = coordinator.on_delivery(&body, &mut session, &mut ids)?;
//! ```
//!
//! Below stand the types, where the presumptive disposition of a post is defined, the codec of
//! control messages, and the traits of a session. The promise that this crate carries: a
//! coordinator holds exactly the ids that it declared and that weren't discharged by it since, each
//! of its answers has the cause that its name says, and a transaction's work is kept in order. 'The
//! standard' is OASIS AMQP 1.0, part 4.
#![tactic(auto)]

mod coordinator;
mod errors;
mod outcomes;
mod resource_transaction;
mod transaction_manager;

pub use coordinator::TxnCoordinator;
pub use errors::{CoordinatorError, DischargeError};
pub use outcomes::{CoordinatorReply, SuccessfulOutcome};
pub use resource_transaction::ResourceTransaction;
pub use transaction_manager::TransactionManager;
