//! Delivery states, outcomes and errors.

ghost use Rattle.std.specs.Prelude.{◌≡◌, Some};
ghost use Rattle.amqp_txn_types.specs.Plain.{plain_error, plain_modified, plain_rejected, plain_transactional_state};

use crate::fields::Fields;
use crate::id::TransactionId;
use crate::items::{NoMemory, TryClone};
use crate::small::{AmqpError, ConnectionError, LinkError, SessionError, TransactionError};
use crate::text::{Symbol, Text};

/// The outcome of a declare: the transaction's id. Part 4 of the standard, section 4.5.5
/// (declared).
#[derive(Clone, Copy, Debug, PartialEq)]
pub struct Declared {
    /// The id that the resource gave.
    pub txn_id: TransactionId,
}

/// What went wrong, as one side tells the other. Part 2 of the standard, section 2.8.14 (error).
#[derive(Debug, Drop, PartialEq)]
pub struct Error {
    /// Which error it is.
    pub condition: ErrorCondition,
    /// A text for people.
    pub description: Option<Text>,
    /// What else is known of it.
    pub info: Option<Fields>,
}

impl Error {
    /// The error that is known by its condition alone. Part 2 of the standard, section 2.8.14.
    pub fn new(condition: ErrorCondition) -> Self
        ensures { result ≡ plain_error condition }
    {
        Error {
            condition,
            description: None,
            info: None,
        }
    }

    /// Sets the text for people.
    pub fn description(mut self, description: Text) -> Self
        ensures { result ≡ record self { description = Some description } }
    {
        self.description = Some(description);
        self
    }

    /// Sets what else is known of it.
    pub fn info(mut self, info: Fields) -> Self
        ensures { result ≡ record self { info = Some info } }
    {
        self.info = Some(info);
        self
    }
}

impl TryClone for Error {
    fn try_clone(&self) -> Result<Self, NoMemory> {
        Ok(Error {
            condition: self.condition.try_clone()?,
            description: self.description.try_clone()?,
            info: self.info.try_clone()?,
        })
    }
}

/// The message can't be processed. Part 3 of the standard, section 3.4.3 (rejected).
#[derive(Debug, Drop, PartialEq)]
pub struct Rejected {
    /// Why it can't.
    pub error: Option<Error>,
}

/// A rejection without a reason. Part 3 of the standard, section 3.4.3 (rejected).
impl Default for Rejected {
    ghost is_default = { λ rejected. rejected ≡ plain_rejected };

    fn default() -> Self {
        Rejected { error: None }
    }
}

impl Rejected {
    /// Sets why the message can't be processed.
    pub fn error(mut self, error: Error) -> Self
        ensures { result ≡ record self { error = Some error } }
    {
        drop(self.error.replace(error));
        self
    }
}

impl TryClone for Rejected {
    fn try_clone(&self) -> Result<Self, NoMemory> {
        Ok(Rejected {
            error: self.error.try_clone()?,
        })
    }
}

/// The message was changed and not processed. Part 3 of the standard, section 3.4.5 (modified).
#[derive(Debug, Drop, PartialEq)]
pub struct Modified {
    /// Whether the transfer counts as a failed attempt.
    pub delivery_failed: Option<bool>,
    /// Whether the message must not come to this receiver again.
    pub undeliverable_here: Option<bool>,
    /// Annotations to be put in place of those of the message.
    pub message_annotations: Option<Fields>,
}

/// A modification that names no change. Part 3 of the standard, section 3.4.5 (modified).
impl Default for Modified {
    ghost is_default = { λ modified. modified ≡ plain_modified };

    fn default() -> Self {
        Modified {
            delivery_failed: None,
            undeliverable_here: None,
            message_annotations: None,
        }
    }
}

impl Modified {
    /// Sets whether the transfer counts as a failed attempt.
    pub fn delivery_failed(mut self, delivery_failed: bool) -> Self
        ensures { result ≡ record self { delivery_failed = Some delivery_failed } }
    {
        self.delivery_failed = Some(delivery_failed);
        self
    }

    /// Sets whether the message must not come to this receiver again.
    pub fn undeliverable_here(mut self, undeliverable_here: bool) -> Self
        ensures { result ≡ record self { undeliverable_here = Some undeliverable_here } }
    {
        self.undeliverable_here = Some(undeliverable_here);
        self
    }

    /// Sets the annotations to be put in place of those of the message.
    pub fn message_annotations(mut self, message_annotations: Fields) -> Self
        ensures { result ≡ record self { message_annotations = Some message_annotations } }
    {
        self.message_annotations = Some(message_annotations);
        self
    }
}

impl TryClone for Modified {
    fn try_clone(&self) -> Result<Self, NoMemory> {
        Ok(Modified {
            delivery_failed: self.delivery_failed,
            undeliverable_here: self.undeliverable_here,
            message_annotations: self.message_annotations.try_clone()?,
        })
    }
}

/// The state of a delivery under a transaction. Part 4 of the standard, section 4.5.6
/// (transactional state).
#[derive(Debug, Drop, PartialEq)]
pub struct TransactionalState {
    /// The transaction that the delivery is under.
    pub txn_id: TransactionId,
    /// The outcome that the delivery gets if the transaction is committed.
    pub outcome: Option<Outcome>,
}

impl TransactionalState {
    /// The state of what is under the transaction, without an outcome.
    ///
    /// Part 4 of the standard, section 4.5.6 (transactional state).
    pub fn new(txn_id: TransactionId) -> Self
        ensures { result ≡ plain_transactional_state txn_id }
    {
        TransactionalState {
            txn_id,
            outcome: None,
        }
    }

    /// Sets the outcome that the delivery gets if the transaction is committed.
    pub fn outcome(mut self, outcome: Outcome) -> Self
        ensures { result ≡ record self { outcome = Some outcome } }
    {
        drop(self.outcome.replace(outcome));
        self
    }
}

impl TryClone for TransactionalState {
    #[inline(always)]
    fn try_clone(&self) -> Result<Self, NoMemory> {
        Ok(TransactionalState {
            txn_id: self.txn_id,
            outcome: self.outcome.try_clone()?,
        })
    }
}

/// Which error it is. Part 2 of the standard, section 2.8.14 (error).
#[derive(Debug, Drop, PartialEq)]
pub enum ErrorCondition {
    /// Of any part of the protocol.
    AmqpError(AmqpError),
    /// Of a connection.
    ConnectionError(ConnectionError),
    /// Of a session.
    SessionError(SessionError),
    /// Of a link.
    LinkError(LinkError),
    /// Of a transaction.
    TransactionError(TransactionError),
    /// Any other, by its symbol.
    Custom(Symbol),
}

impl TryClone for ErrorCondition {
    fn try_clone(&self) -> Result<Self, NoMemory> {
        match self {
            ErrorCondition::AmqpError(x) => Ok(ErrorCondition::AmqpError(*x)),
            ErrorCondition::ConnectionError(x) => Ok(ErrorCondition::ConnectionError(*x)),
            ErrorCondition::SessionError(x) => Ok(ErrorCondition::SessionError(*x)),
            ErrorCondition::LinkError(x) => Ok(ErrorCondition::LinkError(*x)),
            ErrorCondition::TransactionError(x) => Ok(ErrorCondition::TransactionError(*x)),
            ErrorCondition::Custom(x) => Ok(ErrorCondition::Custom(x.try_clone()?)),
        }
    }
}

/// How a delivery ended: a delivery state that is terminal. Part 3 of the standard, section 3.4
/// (delivery state); `Declared` is of part 4, section 4.5.5.
#[derive(Debug, Drop, PartialEq)]
pub enum Outcome {
    /// The message was processed (section 3.4.2).
    Accepted,
    /// The message can't be processed (section 3.4.3).
    Rejected(Rejected),
    /// The message was not processed, and may be sent again (section 3.4.4).
    Released,
    /// The message was changed, and not processed (section 3.4.5).
    Modified(Modified),
    /// The message was a declare, and a transaction was made.
    Declared(Declared),
}

impl TryClone for Outcome {
    #[inline(always)]
    fn try_clone(&self) -> Result<Self, NoMemory> {
        match self {
            Outcome::Accepted => Ok(Outcome::Accepted),
            Outcome::Rejected(x) => Ok(Outcome::Rejected(x.try_clone()?)),
            Outcome::Released => Ok(Outcome::Released),
            Outcome::Modified(x) => Ok(Outcome::Modified(x.try_clone()?)),
            Outcome::Declared(x) => Ok(Outcome::Declared(*x)),
        }
    }
}

/// How far a delivery has come. Part 3 of the standard, section 3.4 (delivery state); `Declared`
/// and `TransactionalState` are of part 4, sections 4.5.5 and 4.5.6.
#[derive(Debug, Drop, PartialEq)]
pub enum DeliveryState {
    /// A part of the message has arrived (section 3.4.1).
    Received {
        /// The first section that is not whole at the receiver.
        section_number: u32,
        /// The first octet of that section's data that has not arrived.
        section_offset: u64,
    },
    /// The message was processed (section 3.4.2).
    Accepted,
    /// The message can't be processed (section 3.4.3).
    Rejected(Rejected),
    /// The message was not processed, and may be sent again (section 3.4.4).
    Released,
    /// The message was changed, and not processed (section 3.4.5).
    Modified(Modified),
    /// The message was a declare, and a transaction was made.
    Declared(Declared),
    /// The delivery is under a transaction.
    TransactionalState(TransactionalState),
}

impl TryClone for DeliveryState {
    #[inline(always)]
    fn try_clone(&self) -> Result<Self, NoMemory> {
        match self {
            DeliveryState::Received {
                section_number,
                section_offset,
            } => Ok(DeliveryState::Received {
                section_number: *section_number,
                section_offset: *section_offset,
            }),
            DeliveryState::Accepted => Ok(DeliveryState::Accepted),
            DeliveryState::Rejected(x) => Ok(DeliveryState::Rejected(x.try_clone()?)),
            DeliveryState::Released => Ok(DeliveryState::Released),
            DeliveryState::Modified(x) => Ok(DeliveryState::Modified(x.try_clone()?)),
            DeliveryState::Declared(x) => Ok(DeliveryState::Declared(*x)),
            DeliveryState::TransactionalState(x) => Ok(DeliveryState::TransactionalState(
                x.try_clone()?,
            )),
        }
    }
}

/// Why a connection stopped. Part 2 of the standard, section 2.4.3 (closing a connection).
#[derive(Debug, Drop, PartialEq)]
pub enum ConnectionStopReason {
    /// This side closed it.
    Closed,
    /// This side closed it with an error.
    ClosedWithError(Error),
    /// The peer closed it.
    RemoteClosed,
    /// The peer closed it with an error.
    RemoteClosedWithError(Error),
}

impl TryClone for ConnectionStopReason {
    fn try_clone(&self) -> Result<Self, NoMemory> {
        match self {
            ConnectionStopReason::Closed => Ok(ConnectionStopReason::Closed),
            ConnectionStopReason::ClosedWithError(x) => Ok(ConnectionStopReason::ClosedWithError(
                x.try_clone()?,
            )),
            ConnectionStopReason::RemoteClosed => Ok(ConnectionStopReason::RemoteClosed),
            ConnectionStopReason::RemoteClosedWithError(x) => Ok(
                ConnectionStopReason::RemoteClosedWithError(x.try_clone()?),
            ),
        }
    }
}

/// Why a session stopped. Part 2 of the standard, section 2.5.2 (ending a session).
#[derive(Debug, Drop, PartialEq)]
pub enum SessionStopReason {
    /// This side ended it.
    Ended,
    /// This side ended it with an error.
    EndedWithError(Error),
    /// The peer ended it.
    RemoteEnded,
    /// The peer ended it with an error.
    RemoteEndedWithError(Error),
    /// Its connection stopped.
    ConnectionStopped(ConnectionStopReason),
}

impl From<ConnectionStopReason> for SessionStopReason {
    ghost use Rattle.amqp_txn_types.specs.declared.delivery.SessionStopReason.TheVariants as reasons;

    ghost from_gives = { λ reason stop. stop ≡ reasons.ConnectionStopped reason };

    fn from(reason: ConnectionStopReason) -> Self {
        SessionStopReason::ConnectionStopped(reason)
    }
}

impl TryClone for SessionStopReason {
    fn try_clone(&self) -> Result<Self, NoMemory> {
        match self {
            SessionStopReason::Ended => Ok(SessionStopReason::Ended),
            SessionStopReason::EndedWithError(x) => Ok(SessionStopReason::EndedWithError(
                x.try_clone()?,
            )),
            SessionStopReason::RemoteEnded => Ok(SessionStopReason::RemoteEnded),
            SessionStopReason::RemoteEndedWithError(x) => Ok(
                SessionStopReason::RemoteEndedWithError(x.try_clone()?),
            ),
            SessionStopReason::ConnectionStopped(x) => Ok(SessionStopReason::ConnectionStopped(
                x.try_clone()?,
            )),
        }
    }
}
