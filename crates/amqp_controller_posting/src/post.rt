//! Posts under a transaction.

ghost use Rattle.std.specs.Prelude.{◌≡◌, true, false};
ghost use Rattle.amqp_controller_calls.specs.Polls.{LooksOnce};
ghost use Rattle.amqp_controller_calls.specs.Sends.{OneSend};
ghost use Rattle.amqp_controller_posting.specs.Posts.{Posts, PostsCopy, outcome_of, post_found};

use crate::errors::PostError;
use crate::results::{FromDeliveryFailure, FromDeliveryState, FromPreSettled, PostResult};
use amqp_controller_calls::TransactionBase;
use amqp_links::{Answer, Poll, Progress, Sendable, SenderLink, Sent};
use amqp_txn_types::{DeliveryState, TransactionId, TransactionalState, TryClone};
use std::marker::Model;

/// A post whose outcome is awaited. A contract sees how it was sent.
#[derive(Debug, Drop, PartialEq)]
pub struct DeliveryFut {
    sent: Sent,
}

impl Model for DeliveryFut {
    ghost use Rattle.amqp_links.specs.declared.sendable.Sent.{Sent};

    ghost Value = { Sent };

    ghost view = { λ d. d.sent };

    ghost inverse = { λ sent. record { sent = sent } };
}

impl DeliveryFut {
    /// Looks once for the outcome. It is `Pending` exactly where the link has no answer yet. A post
    /// that was sent settled is accepted, and there is nothing to look for.
    ///
    /// `Ok` with the outcome in a transactional state, of any transaction, but for `Declared`.
    ///
    /// # Errors
    ///
    /// - `LinkStateError`: the link answered one.
    /// - `IllegalDeliveryState`: every other state, and an answer without one.
    pub fn poll<L: SenderLink>(self, sender: &mut L) -> Progress<DeliveryFut, PostResult>
        ensures looks { LooksOnce L.outcome_gives L.told sender.old sender.new self }
        ensures answer { result ≡ post_found (L.told sender.old) self }
    {
        let Sent::Unsettled(token) = self.sent else {
            return Progress::Ready(PostResult::from_settled());
        };
        match sender.outcome(&token) {
            Poll::Pending => Progress::Pending(self),
            Poll::Ready(answer) => Progress::Ready(outcome_of(answer)),
        }
    }
}

/// The outcome of a post, by what was answered.
fn outcome_of(answer: Answer) -> PostResult
    ensures { result ≡ outcome_of answer }
{
    match answer {
        Ok(None) => PostResult::from_none(),
        Ok(Some(state)) => PostResult::from_delivery_state(state),
        Err(fault) => PostResult::from_link_state_error(fault),
    }
}

/// Sends a message under a transaction, without an outcome.
fn post_under<L: SenderLink>(
    txn_id: &TransactionId,
    sender: &mut L,
    sendable: Sendable,
    batchable: bool,
) -> Result<DeliveryFut, PostError>
    ensures { Posts (OneSend L.send_gives L.told) sender.old sender.new txn_id.now sendable
        batchable result }
{
    let state = DeliveryState::TransactionalState(TransactionalState {
        txn_id: *txn_id,
        outcome: None,
    });
    let sent = sender.send(sendable, Some(state), batchable)?;
    Ok(DeliveryFut { sent })
}

/// Posting messages under a transaction: the resource keeps them until it is committed. Part 4 of
/// the standard, section 4.4.1 (transactional posting).
///
/// Each call puts one send, with the transactional state of the id and no outcome.
///
/// # Errors
///
/// Each call's are what the link's `send` answered, by its name.
pub trait TransactionPosting: TransactionBase {
    /// Posts a message.
    fn post<L: SenderLink>(
        &self,
        sender: &mut L,
        sendable: Sendable,
    ) -> Result<DeliveryFut, PostError>
        ensures { Posts (OneSend L.send_gives L.told) sender.old sender.new (Self.id self.now)
            sendable false result }
    {
        post_under(self.txn_id(), sender, sendable, false)
    }

    /// Posts a message, whose answer the peer may put off to answer several at once.
    fn post_batchable<L: SenderLink>(
        &self,
        sender: &mut L,
        sendable: Sendable,
    ) -> Result<DeliveryFut, PostError>
        ensures { Posts (OneSend L.send_gives L.told) sender.old sender.new (Self.id self.now)
            sendable true result }
    {
        post_under(self.txn_id(), sender, sendable, true)
    }

    /// Posts a copy of a message.
    ///
    /// # Errors
    ///
    /// `NoMemory` also where memory runs out for the copy; nothing is put then.
    fn post_ref<L: SenderLink>(
        &self,
        sender: &mut L,
        sendable: &Sendable,
    ) -> Result<DeliveryFut, PostError>
        ensures { PostsCopy (OneSend L.send_gives L.told) sender.old sender.new (Self.id self.now)
            sendable.now false result }
    {
        post_under(self.txn_id(), sender, sendable.try_clone()?, false)
    }

    /// Posts a copy of a message, as [`TransactionPosting::post_batchable`] posts the message.
    fn post_batchable_ref<L: SenderLink>(
        &self,
        sender: &mut L,
        sendable: &Sendable,
    ) -> Result<DeliveryFut, PostError>
        ensures { PostsCopy (OneSend L.send_gives L.told) sender.old sender.new (Self.id self.now)
            sendable.now true result }
    {
        post_under(self.txn_id(), sender, sendable.try_clone()?, true)
    }
}
