//! Transactions of the controlling side, over one control link under a lock.
//!
//! | item | is |
//! |---|---|
//! | [`Controller`] | a control link under a lock, over which transactions are declared |
//! | [`ControllerBuilder`], [`Attaching`] | how such a link is attached |
//! | [`Transaction`] | a transaction that borrows its controller; several may share one |
//! | [`OwnedTransaction`] | a transaction with a controller of its own, closed at its end |
//! | [`TransactionDischarge`], [`Discharging`] | how both end |
//!
//! Calls of this crate that take the runtime take the lock; each makes one call of
//! `amqp_controller_calls` under it, and releases the lock. A poll takes it anew, so two
//! transactions over one controller are polled in any order. A call that is made while the guard of
//! [`Controller::link`] lives waits for ever: drop the guard first. `transactions` of
//! `amqp_examples_controller`:
//!
//! ```rust
//! /// Declares a transaction and commits it: whether the commit was answered as accepted.
//! pub fn commit_once<L: SenderLink, R: Wait>(
//!     rt: &R,
//!     controller: &Controller<L>,
//! ) -> Result<bool, ControllerSendError> {
//!     let transaction = match Transaction::declare(controller, rt, None)?.poll(rt) {
//!         Progress::Ready(declared) => declared?,
//!         Progress::Pending(_declaring) => return Ok(false),
//!     };
//!     let commit = match transaction.commit(rt) {
//!         Ok(commit) => commit,
//!         Err((transaction, error)) => {
//!             drop(transaction.abandon(rt));
//!             return Err(error);
//!         }
//!     };
//!     match commit.poll(rt) {
//!         Progress::Ready(Ok(())) => Ok(true),
//!         Progress::Ready(Err((transaction, error))) => {
//!             drop(transaction.abandon(rt));
//!             Err(error)
//!         }
//!         Progress::Pending(commit) => {
//!             drop(commit.into_value().abandon(rt));
//!             Ok(false)
//!         }
//!     }
//! }
//! ```
//!
//! Answers have come before they are polled here. A client that waits keeps what `Pending` hands
//! back, and polls that once more frames have come: `Progress` of `amqp_links` isn't std's `Poll`,
//! and nothing is woken.
//!
//! **A transaction isn't `Drop`**: nothing is rolled back by dropping one, and the check refuses a
//! function that lets one go. So there is no `?` while one is held by value. Do the work in a
//! function that borrows it, where `?` is as usual, and end it by a `match`, each of whose ways out
//! commits it, rolls it back or abandons it.
//!
//! The life of a transaction on this side:
//!
//! ```text
//!              declare            poll: Declared
//!  controller ─────────▶ waiting ───────────────▶ transaction ─── abandon ──▶ gone
//!      ▲                    │                       │      ▲
//!      └── poll: an error ──┘      commit, rollback │      │ poll: an error
//!                                                   ▼      │
//!                                                 waiting ─┘
//!                                                   │ poll: Accepted
//!                                                   ▼
//!                                               discharged ─── spend ──▶ gone
//! ```
//!
//! A poll that reads that the coordinator rolled the transaction back marks it so: it is then given
//! up without a rollback, and may still be committed again. Below stand the calls on a lent link,
//! of `amqp_controller_calls`. The promise that this crate carries is what values show: a
//! transaction is marked discharged exactly by a poll that is `Ready(Ok)`, and rolled back exactly
//! by one that reads so; the poll of a discharged one is `Ready(Ok)` or the error of the close of
//! its link, and each refusal hands back the value or the controller. No contract can name what a
//! link under a lock is before a call and after it. So a call over the lock promises that there are
//! two values of the link between which it made its one call, with the answer that it passes on:
//! that makes it the answer of a link, and of that call. That it makes no other call, and that a
//! discharged transaction makes none but the close, is only tested. Of a borrowed transaction
//! contracts see which controller it has; owned ones are kept apart by their types alone. 'The
//! standard' is OASIS AMQP 1.0.
#![tactic(auto)]

mod attach;
mod awaited_discharge;
mod begun;
mod builder;
mod controller;
mod discharge;
mod owned_declare;
mod owned_errors;
mod owned_transaction;
mod transaction;

pub use attach::Attaching;
pub use awaited_discharge::Discharging;
pub use begun::{Begun, DEFAULT_ROLLBACK_ON_DROP_TRIALS};
pub use builder::ControllerBuilder;
pub use controller::Controller;
pub use discharge::TransactionDischarge;
pub use owned_declare::OwnedDeclaring;
pub use owned_errors::{OwnedDeclareError, OwnedDischargeError};
pub use owned_transaction::{OwnedDeclaringOn, OwnedTransaction};
pub use transaction::{Declaring, Transaction};
