//! Control messages on a link that is lent: what declares, discharges and gives up a transaction.
//!
//! | call | puts | answers |
//! |---|---|---|
//! | [`declare_on_link`] | a declare | [`DeclareOnLink`], polled for the transaction's id |
//! | [`discharge_on_link`] | a commit or a rollback | [`DischargeOnLink`], polled for its outcome |
//! | [`abandon_on_link`] | a rollback | [`Abandoned`], after a number of looks |
//!
//! No call waits, and none takes a lock: a control link is any [`SenderLink`] that the caller
//! lends.
//!
//! ```text
//! /// Declares a transaction on a control link and commits it: whether the commit was answered as
//! /// accepted. A commit that wasn't answered yet is given up with one look.
//! fn commit_on_link<L: SenderLink>(
//!     alloc: Global,
//!     link: &mut L,
//! ) -> Result<bool, ControllerSendError> {
//!     let declared = match declare_on_link(alloc, link, None)?.poll(link) {
//!         Progress::Ready(declared) => declared?,
//!         Progress::Pending(_declare) => return Ok(false),
//!     };
//!     match discharge_on_link(alloc, link, &declared.txn_id, Some(false))?.poll(link) {
//!         Progress::Ready(accepted) => {
//!             accepted?;
//!             Ok(true)
//!         }
//!         Progress::Pending(_commit) => {
//!             drop(abandon_on_link(alloc, link, &declared.txn_id, 1));
//!             Ok(false)
//!         }
//!     }
//! }
//! ```
//!
//! Answers have come before they are polled here. A client that waits keeps what `Pending` hands
//! back, and polls that once more frames have come.
//!
//! Below stand the messages of `amqp_txn_codec` and the links of `amqp_links`. The promise that
//! this crate carries: each call makes one send of its one message, in its canonical spelling,
//! unsettled, without a state and not batchable, and no other call; a poll makes one look and no
//! other call, is pending exactly where the link has no answer for its message, and answers by what
//! the link has; giving up makes one send and at most as many looks as it may; every fault is one
//! that the link answered. How often a link is called shows in contracts where the link says what
//! one call leaves of it, as a wire does. 'The standard' is OASIS AMQP 1.0.
//!
//! [`SenderLink`]: amqp_links::SenderLink
#![tactic(auto)]

mod abandon;
mod declare;
mod discharge;
mod errors;
mod send;
mod transaction_base;

pub use abandon::{Abandoned, abandon_on_link};
pub use declare::{DeclareOnLink, declare_on_link};
pub use discharge::{DischargeOnLink, discharge_on_link};
pub use errors::{ControllerSendError, link_state_of};
pub use transaction_base::TransactionBase;
