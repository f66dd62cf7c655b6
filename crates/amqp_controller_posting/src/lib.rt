//! Work under a transaction on this side: messages that are posted, deliveries that are retired.
//!
//! | item | is |
//! |---|---|
//! | [`TransactionPosting`] | the four posts: a message or a copy of it, batchable or not |
//! | [`DeliveryFut`] | a post whose outcome is awaited |
//! | [`PostResult`] | that outcome, or why there is none ([`PostError`]) |
//! | [`TransactionRetirement`] | the outcomes of a received delivery under a transaction |
//!
//! The work borrows its transaction, so `?` is as usual here (`messages` of
//! `amqp_examples_controller`):
//!
//! ```rust
//! /// Posts a message: its outcome, or `None` where that is still out.
//! pub fn post_once<T: TransactionPosting, L: SenderLink>(
//!     transaction: &T,
//!     sender: &mut L,
//!     sendable: Sendable,
//! ) -> Result<Option<Outcome>, PostError> {
//!     match transaction.post(sender, sendable)?.poll(sender) {
//!         Progress::Ready(outcome) => Ok(Some(outcome?)),
//!         Progress::Pending(_post) => Ok(None),
//!     }
//! }
//!
//! /// Receives a message and retires it as accepted: its octets, or `None` where none was received.
//! pub fn take_once<T: TransactionRetirement, R: ReceiverLink>(
//!     transaction: &T,
//!     receiver: &mut R,
//! ) -> Result<Option<Payload>, T::RetireError> {
//!     let Poll::Ready(Ok(delivery)) = receiver.recv() else {
//!         return Ok(None);
//!     };
//!     transaction.accept(receiver, &delivery.info)?;
//!     Ok(Some(delivery.payload))
//! }
//! ```
//!
//! A transaction is any type with `TransactionBase` of `amqp_controller_calls`; links are those of
//! `amqp_links`, lent by the caller, and nothing here waits or takes a lock. The promise that this
//! crate carries: each post makes one send, with the transactional state of the id and no outcome,
//! and no other call; each retirement makes one `dispose`, with the state of id and outcome, and no
//! other call; a poll makes one look and no other call, and answers by what the link has. 'The
//! standard' is OASIS AMQP 1.0.
#![tactic(auto)]

mod errors;
mod post;
mod results;
mod retirement;

pub use errors::PostError;
pub use post::{DeliveryFut, TransactionPosting};
pub use results::{FromDeliveryFailure, FromDeliveryState, FromPreSettled, PostResult};
pub use retirement::TransactionRetirement;
