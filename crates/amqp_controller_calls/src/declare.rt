//! Declaring a transaction on a control link that is lent.

ghost use Rattle.std.specs.Prelude.{◌≡◌};
ghost use Rattle.amqp_txn_codec.specs.declared.message.ControlMessageBody.TheVariants as messages;
ghost use Rattle.amqp_controller_calls.specs.Sends.{OneSend, SendsControl};
ghost use Rattle.amqp_controller_calls.specs.Polls.{LooksOnce, declared_by, found_of, outcome_of};

use crate::errors::ControllerSendError;
use crate::send::send_control;
use amqp_links::{Answer, Poll, Progress, SenderLink, Sent};
use amqp_txn_codec::{ControlMessageBody, Declare};
use amqp_txn_types::{Declared, DeliveryState, TransactionId};
use std::alloc::Global;
use std::marker::Model;

/// A declare that was sent, and whose outcome is awaited. A contract sees how it was sent.
#[derive(Debug, Drop, PartialEq)]
pub struct DeclareOnLink {
    sent: Sent,
}

impl Model for DeclareOnLink {
    ghost use Rattle.amqp_links.specs.declared.sendable.Sent.{Sent};

    ghost Value = { Sent };

    ghost view = { λ d. d.sent };

    ghost inverse = { λ sent. record { sent = sent } };
}

/// Asks for a new transaction: puts one declare, unsettled, without a state, not batchable. Part 4
/// of the standard, section 4.2 (declaring a transaction).
///
/// # Errors
///
/// What the link's `send` answered, by its name. `NoMemory` also where memory runs out for the
/// octets; the link isn't asked then.
pub fn declare_on_link<L: SenderLink>(
    alloc: Global,
    link: &mut L,
    global_id: Option<TransactionId>,
) -> Result<DeclareOnLink, ControllerSendError>
    ensures { SendsControl (OneSend L.send_gives L.told) link.old link.new
        (messages.Declare (record { global_id = global_id })) result }
{
    let message = ControlMessageBody::Declare(Declare { global_id });
    let sent = send_control(alloc, link, &message)?;
    Ok(DeclareOnLink { sent })
}

impl DeclareOnLink {
    /// How the declare was sent: unsettled, under the token of its answer.
    pub fn sent(&self) -> Sent
        ensures { result ≡ self.now }
    {
        self.sent
    }

    /// Looks once for the outcome. It is `Pending` exactly where the link has no answer yet.
    ///
    /// `Ok` exactly where the answer is `Declared`.
    ///
    /// # Errors
    ///
    /// - `Rejected`: the coordinator rejected the declare.
    /// - `NonTerminalDeliveryState`: no state was answered.
    /// - `LinkStateError`: the link answered one.
    /// - `IllegalDeliveryState`: any other state, or the declare was sent settled.
    pub fn poll<L: SenderLink>(
        self,
        link: &mut L,
    ) -> Progress<DeclareOnLink, Result<Declared, ControllerSendError>>
        ensures looks { LooksOnce L.outcome_gives L.told link.old link.new self }
        ensures answer { result ≡ found_of declared_by (L.told link.old) self }
    {
        let Sent::Unsettled(token) = self.sent else {
            return Progress::Ready(Err(ControllerSendError::IllegalDeliveryState));
        };
        match link.outcome(&token) {
            Poll::Pending => Progress::Pending(self),
            Poll::Ready(answer) => Progress::Ready(declared(answer)),
        }
    }
}

/// The outcome of a declare, by its answer.
fn declared(answer: Answer) -> Result<Declared, ControllerSendError>
    ensures { result ≡ outcome_of declared_by answer }
{
    match answer? {
        None => Err(ControllerSendError::NonTerminalDeliveryState),
        Some(DeliveryState::Declared(declared)) => Ok(declared),
        Some(DeliveryState::Rejected(rejected)) => Err(ControllerSendError::Rejected(rejected)),
        Some(_) => Err(ControllerSendError::IllegalDeliveryState),
    }
}
