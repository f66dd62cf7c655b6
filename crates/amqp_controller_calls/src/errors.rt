//! Why a call on a control link fails.

ghost use Rattle.std.specs.Prelude.{◌≡◌};
ghost use Rattle.amqp_controller_calls.specs.Errors.{is_rollback, is_rollback_condition, link_state, names_rollback, unsent};
ghost use Rattle.amqp_controller_calls.specs.declared.errors.ControllerSendError.TheVariants as errors;

use amqp_links::{
    DetachError, IllegalLinkStateError, LinkStateError, MessageSizeExceeded, SendError,
};
use amqp_txn_types::{Error, ErrorCondition, NoMemory, Rejected, TransactionError};
use thiserror::Error as ThisError;

/// Why a declare or a discharge isn't sent, or what was answered in place of its outcome.
#[derive(Debug, Drop, PartialEq, ThisError)]
pub enum ControllerSendError {
    /// Something is wrong with the link.
    #[error(transparent)]
    LinkStateError(LinkStateError),
    /// The link was detached before the answer came.
    #[error("the link was detached: {0}")]
    Detached(DetachError),
    /// No state was answered (part 3 of the standard, section 3.4).
    #[error("a delivery state that is not terminal came in place of an outcome")]
    NonTerminalDeliveryState,
    /// The answer is a state that the message can't have.
    #[error("a delivery state came that the message cannot have")]
    IllegalDeliveryState,
    /// The message is larger than the link takes.
    #[error(transparent)]
    MessageSizeExceeded(MessageSizeExceeded),
    /// The message can't be written as octets.
    #[error("the message cannot be encoded")]
    MessageEncodeError,
    /// The coordinator rejected the message. Part 4 of the standard, section 4.5.8 (transaction
    /// error), has the conditions of its error.
    #[error("the coordinator rejected the message: {0:?}")]
    Rejected(Rejected),
    /// Out of memory.
    #[error("out of memory")]
    NoMemory,
}

impl ControllerSendError {
    /// Whether the coordinator rejected the message because it rolled the transaction back: the
    /// rejection's condition is `amqp:transaction:rollback`, as
    /// [`TransactionError::Rollback`]. A custom condition with that symbol isn't read as it.
    pub fn is_rollback(&self) -> bool
        ensures { result ≡ is_rollback self.now }
    {
        match self {
            ControllerSendError::Rejected(rejected) => names_rollback(&rejected.error),
            _ => false,
        }
    }
}

/// Whether an error is there whose condition says that the transaction was rolled back.
fn names_rollback(error: &Option<Error>) -> bool
    ensures { result ≡ names_rollback error.now }
{
    match error {
        Some(error) => is_rollback_condition(&error.condition),
        None => false,
    }
}

/// Whether the condition says that the transaction was rolled back.
fn is_rollback_condition(condition: &ErrorCondition) -> bool
    ensures { result ≡ is_rollback_condition condition.now }
{
    match condition {
        ErrorCondition::TransactionError(TransactionError::Rollback) => true,
        _ => false,
    }
}

impl From<NoMemory> for ControllerSendError {
    ghost from_gives = { λ _ error. error ≡ errors.NoMemory };

    fn from(_error: NoMemory) -> Self {
        ControllerSendError::NoMemory
    }
}

impl From<LinkStateError> for ControllerSendError {
    ghost from_gives = { λ fault error. error ≡ errors.LinkStateError fault };

    fn from(error: LinkStateError) -> Self {
        ControllerSendError::LinkStateError(error)
    }
}

/// Each error is that of its name.
impl From<SendError> for ControllerSendError {
    ghost from_gives = { λ refused error. error ≡ unsent refused };

    fn from(error: SendError) -> Self {
        match error {
            SendError::LinkStateError(fault) => ControllerSendError::LinkStateError(fault),
            SendError::Detached(fault) => ControllerSendError::Detached(fault),
            SendError::NonTerminalDeliveryState => ControllerSendError::NonTerminalDeliveryState,
            SendError::IllegalDeliveryState => ControllerSendError::IllegalDeliveryState,
            SendError::MessageSizeExceeded(size) => ControllerSendError::MessageSizeExceeded(size),
            SendError::MessageEncodeError => ControllerSendError::MessageEncodeError,
            SendError::NoMemory => ControllerSendError::NoMemory,
        }
    }
}

/// Each error is the state of the link of its name.
impl From<IllegalLinkStateError> for ControllerSendError {
    ghost from_gives = { λ fault error. error ≡ errors.LinkStateError (link_state fault) };

    fn from(error: IllegalLinkStateError) -> Self {
        ControllerSendError::LinkStateError(link_state_of(error))
    }
}

/// The state of the link of that name.
pub fn link_state_of(error: IllegalLinkStateError) -> LinkStateError
    ensures { result ≡ link_state error }
{
    match error {
        IllegalLinkStateError::IllegalState => LinkStateError::IllegalState,
        IllegalLinkStateError::SessionStopped(reason) => LinkStateError::SessionStopped(reason),
        IllegalLinkStateError::NoMemory => LinkStateError::NoMemory,
    }
}
