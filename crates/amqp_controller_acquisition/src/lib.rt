//! Acquiring deliveries under a transaction, on this side.
//!
//! | item | is |
//! |---|---|
//! | [`TransactionAcquisition`] | a transaction that may acquire deliveries of a receiver |
//! | [`TxnAcquisition`] | it with that receiver, whose properties name it |
//! | [`AcquisitionDischarging`] | an acquisition whose end is awaited |
//! | [`TransactionExt`] | all that a transaction does |
//! | [`acquire_on_link`], [`clean_up_on_link`] | what both do to a receiver that is lent |
//! | [`TxnIdKey`] | the key by which the properties name it |
//!
//! A client that passes messages on, each under a transaction of its own. What borrows the
//! acquisition may use `?`; what holds it ends it in each way out, since it isn't `Drop` (`relay`
//! of `amqp_examples_controller`):
//!
//! ```rust
//! /// Receives a delivery and posts it on: the outcome of the post, or `None` where there is none, be
//! /// it that nothing came, that a call failed or that the answer is still out.
//! pub fn pass_on<T: TransactionAcquisition + TransactionPosting, R: ReceiverLink, L: SenderLink>(
//!     acquisition: &mut TxnAcquisition<'_, T, R>,
//!     sender: &mut L,
//! ) -> Option<Outcome> {
//!     let Poll::Ready(Ok(delivery)) = acquisition.recv() else {
//!         return None;
//!     };
//!     let sendable = Sendable {
//!         payload: delivery.payload,
//!         message_format: 0,
//!         settled: None,
//!     };
//!     let post = acquisition.txn().post(sender, sendable).ok()?;
//!     acquisition.accept(&delivery.info).ok()?;
//!     match post.poll(sender) {
//!         Progress::Ready(outcome) => outcome.ok(),
//!         Progress::Pending(_post) => None,
//!     }
//! }
//!
//! /// Passes one delivery on under the acquisition, and ends it: whether a commit was answered as
//! /// accepted.
//! pub fn relay_under<L: SenderLink, R: ReceiverLink, S: SenderLink, W: Wait>(
//!     rt: &W,
//!     mut acquisition: TxnAcquisition<'_, Transaction<'_, L>, R>,
//!     sender: &mut S,
//! ) -> bool {
//!     if pass_on(&mut acquisition, sender) == Some(Outcome::Accepted) {
//!         commit_under(rt, acquisition)
//!     } else {
//!         drop(acquisition.abandon(rt));
//!         false
//!     }
//! }
//!
//! /// Commits the transaction of the acquisition, and looks once for the answer.
//! fn commit_under<L: SenderLink, R: ReceiverLink, W: Wait>(
//!     rt: &W,
//!     acquisition: TxnAcquisition<'_, Transaction<'_, L>, R>,
//! ) -> bool {
//!     let answer = match acquisition.commit(rt) {
//!         Ok(commit) => commit.poll(rt),
//!         Err(unsent) => Progress::Ready(Err(unsent)),
//!     };
//!     match answer {
//!         Progress::Ready(Ok(())) => true,
//!         Progress::Ready(Err((acquisition, _error))) => {
//!             drop(acquisition.abandon(rt));
//!             false
//!         }
//!         Progress::Pending(commit) => {
//!             drop(commit.into_value().abandon(rt));
//!             false
//!         }
//!     }
//! }
//! ```
//!
//! Answers have come before they are polled here. A client that waits keeps what `Pending` hands
//! back, and polls that once more frames have come.
//!
//! Below stand the transactions of `amqp_controller_transactions` and the work under them of
//! `amqp_controller_posting`. The promise that this crate carries: an acquisition adds the one
//! property `txn-id` and puts one flow, a cleanup takes that property alone out, whatever the flow
//! is answered, and puts one flow; each refusal hands back the transaction or the acquisition; each
//! call of an acquisition makes the calls of its receiver that its docs name, and passes their
//! answers on; its end is what the control link answered to a commit or a rollback of its
//! transaction. Where a receiver is gone from the answer, as in a refused `acquire`, an `abandon`
//! or an end, that these calls were made is proved, and that no other followed is only tested: a
//! contract can't name that receiver. Nor can one say what a link under a lock holds: where a
//! cleanup failed no discharge is awaited, and that none was put before it is only tested. 'The
//! standard' is OASIS AMQP 1.0.
#![tactic(auto)]

mod acquire;
mod acquisition;
mod discharge;
mod receiver;

pub use acquire::{TransactionAcquisition, TransactionExt};
pub use acquisition::TxnAcquisition;
pub use discharge::AcquisitionDischarging;
pub use receiver::{TxnIdKey, acquire_on_link, clean_up_on_link};
