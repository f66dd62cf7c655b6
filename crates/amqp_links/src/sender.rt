//! The end of a link that sends.

use crate::errors::{DetachError, LinkStateError, SendError};
use crate::poll::Poll;
use crate::sendable::{Sendable, Sent};
use amqp_txn_types::{DeliveryState, Error, Token};

/// What the peer answered to an unsettled send: the state of the delivery, where it says one, or
/// that the answer was lost with the link.
pub type Answer = Result<Option<DeliveryState>, LinkStateError>;

/// The end of an attached link that sends messages. Part 2 of the standard, section 2.6 (links).
///
/// Only an Ok of `send` adds to what was put. Every Err counts as a fault: it comes only where the
/// count of faults rose in the call, or stands at its last value, 2^64 - 1.
pub trait SenderLink {
    ghost use Rattle.std.specs.Prelude.{Bool, Option, Result};
    ghost use Rattle.amqp_txn_types.specs.declared.delivery.DeliveryState.{DeliveryState};
    ghost use Rattle.amqp_txn_types.specs.declared.delivery.Error.{Error};
    ghost use Rattle.amqp_txn_types.specs.declared.small.Token.{Token};
    ghost use Rattle.amqp_links.specs.declared.errors.DetachError.{DetachError};
    ghost use Rattle.amqp_links.specs.declared.errors.SendError.{SendError};
    ghost use Rattle.amqp_links.specs.declared.poll.Poll.{Poll};
    ghost use Rattle.amqp_links.specs.declared.sendable.Sendable.{Sendable};
    ghost use Rattle.amqp_links.specs.declared.sendable.Sent.{Sent};
    ghost use Rattle.amqp_links.specs.Sending.{Answer, SenderTold, Sends, Looks, Closes};

    /// What the link tells: what was put, which answers stand ready, and how often it failed.
    ghost told: { Self → SenderTold };

    /// What one send answers and leaves of this link, beside what the link tells.
    ghost send_gives: { Self → Self → Sendable → Option DeliveryState → Bool → Result Sent SendError
        → Type 0 } = { λ _ _ _ _ _ _. Unit {0} };

    /// What one look answers and leaves of this link, beside what the link tells. A call over
    /// every link that promises this of the link before and after it made one look, and no other
    /// call; of one link it says as much as that link says here.
    ghost outcome_gives: { Self → Self → Token → Poll Answer → Type 0 } = { λ _ _ _ _. Unit {0} };

    /// What one close answers and leaves of this link, beside what the link tells.
    ghost close_gives: { Self → Self → Option Error → Result Unit DetachError
        → Type 0 } = { λ _ _ _ _. Unit {0} };

    /// Sends a message, with the state that its transfer says.
    ///
    /// It is sent settled exactly where the sendable's `settled` is `Some(true)`. Else its token is
    /// the number of the messages that were sent unsettled before it.
    fn send(
        &mut self,
        sendable: Sendable,
        state: Option<DeliveryState>,
        batchable: bool,
    ) -> Result<Sent, SendError>
        ensures told { Sends (told self.old) (told self.new) sendable state batchable result }
        ensures gives { send_gives self.old self.new sendable state batchable result };

    /// Looks for the answer to an unsettled send. It is `Pending` exactly where none stands ready.
    fn outcome(&mut self, token: &Token) -> Poll<Result<Option<DeliveryState>, LinkStateError>>
        ensures told { Looks (told self.old) (told self.new) token.now result }
        ensures gives { outcome_gives self.old self.new token.now result };

    /// Closes the link, with an error where there is one. Section 2.6.6 (closing a link).
    fn close(&mut self, error: Option<Error>) -> Result<(), DetachError>
        ensures told { Closes (told self.old) (told self.new) result }
        ensures gives { close_gives self.old self.new error result };
}
