//! Discharging a transaction on a control link that is lent.

ghost use Rattle.std.specs.Prelude.{◌≡◌};
ghost use Rattle.amqp_txn_codec.specs.declared.message.ControlMessageBody.TheVariants as messages;
ghost use Rattle.amqp_links.specs.declared.sendable.Sent.TheVariants as sendings;
ghost use Rattle.amqp_controller_calls.specs.Sends.{OneSend, SendsControl};
ghost use Rattle.amqp_controller_calls.specs.Polls.{LooksOnce, accepted_by, found_of, outcome_of};

use crate::errors::ControllerSendError;
use crate::send::send_control;
use amqp_links::{Answer, Poll, Progress, SenderLink, Sent};
use amqp_txn_codec::{ControlMessageBody, Discharge};
use amqp_txn_types::{Accepted, DeliveryState, TransactionId};
use std::alloc::Global;
use std::marker::Model;

/// A discharge that was sent, and whose outcome is awaited. A contract sees how it was sent.
#[derive(Debug, Drop, PartialEq)]
pub struct DischargeOnLink {
    sent: Sent,
}

impl Model for DischargeOnLink {
    ghost use Rattle.amqp_links.specs.declared.sendable.Sent.{Sent};

    ghost Value = { Sent };

    ghost view = { λ d. d.sent };

    ghost inverse = { λ sent. record { sent = sent } };
}

/// Ends a transaction: puts one discharge, unsettled, without a state, not batchable. Part 4 of the
/// standard, section 4.3 (discharging a transaction).
///
/// A `fail` of `Some(true)` asks for a rollback, `Some(false)` and `None` for a commit.
///
/// # Errors
///
/// What the link's `send` answered, by its name. `NoMemory` also where memory runs out for the
/// octets; the link isn't asked then.
pub fn discharge_on_link<L: SenderLink>(
    alloc: Global,
    link: &mut L,
    txn_id: &TransactionId,
    fail: Option<bool>,
) -> Result<DischargeOnLink, ControllerSendError>
    ensures { SendsControl (OneSend L.send_gives L.told) link.old link.new
        (messages.Discharge (record { txn_id = txn_id.now; fail = fail })) result }
{
    let message = ControlMessageBody::Discharge(Discharge {
        txn_id: *txn_id,
        fail,
    });
    let sent = send_control(alloc, link, &message)?;
    Ok(DischargeOnLink { sent })
}

impl DischargeOnLink {
    /// What is awaited of a discharge that wasn't sent, since the transaction was discharged
    /// before: nothing. A poll of it looks at no link.
    pub fn unsent() -> Self
        ensures { result ≡ sendings.Settled }
    {
        DischargeOnLink {
            sent: Sent::Settled,
        }
    }

    /// How the discharge was sent: unsettled, under the token of its answer; `Settled` where it
    /// wasn't sent.
    pub fn sent(&self) -> Sent
        ensures { result ≡ self.now }
    {
        self.sent
    }

    /// Looks once for the outcome. It is `Pending` exactly where the link has no answer yet.
    ///
    /// `Ok` exactly where the answer is `Accepted`.
    ///
    /// # Errors
    ///
    /// - `Rejected`: the coordinator rejected the discharge.
    /// - `NonTerminalDeliveryState`: no state was answered.
    /// - `LinkStateError`: the link answered one.
    /// - `IllegalDeliveryState`: any other state, or the discharge was sent settled.
    pub fn poll<L: SenderLink>(
        self,
        link: &mut L,
    ) -> Progress<DischargeOnLink, Result<Accepted, ControllerSendError>>
        ensures looks { LooksOnce L.outcome_gives L.told link.old link.new self }
        ensures answer { result ≡ found_of accepted_by (L.told link.old) self }
    {
        let Sent::Unsettled(token) = self.sent else {
            return Progress::Ready(Err(ControllerSendError::IllegalDeliveryState));
        };
        match link.outcome(&token) {
            Poll::Pending => Progress::Pending(self),
            Poll::Ready(answer) => Progress::Ready(accepted(answer)),
        }
    }
}

/// The outcome of a discharge, by its answer.
fn accepted(answer: Answer) -> Result<Accepted, ControllerSendError>
    ensures { result ≡ outcome_of accepted_by answer }
{
    match answer? {
        None => Err(ControllerSendError::NonTerminalDeliveryState),
        Some(DeliveryState::Accepted) => Ok(Accepted),
        Some(DeliveryState::Rejected(rejected)) => Err(ControllerSendError::Rejected(rejected)),
        Some(_) => Err(ControllerSendError::IllegalDeliveryState),
    }
}
