//! Why a post fails.

ghost use Rattle.std.specs.Prelude.{◌≡◌};
ghost use Rattle.amqp_controller_posting.specs.declared.errors.PostError.TheVariants as errors;
ghost use Rattle.amqp_controller_calls.specs.Errors.{link_state};
ghost use Rattle.amqp_controller_posting.specs.Errors.{unposted};

use amqp_controller_calls::link_state_of;
use amqp_links::{
    DetachError, IllegalLinkStateError, LinkStateError, MessageSizeExceeded, SendError,
};
use amqp_txn_types::NoMemory;
use thiserror::Error as ThisError;

/// Why a message isn't posted under a transaction, or what was answered in place of its outcome.
#[derive(Debug, Drop, PartialEq, ThisError)]
pub enum PostError {
    /// Something is wrong with the link.
    #[error(transparent)]
    LinkStateError(LinkStateError),
    /// The link was detached before the answer came.
    #[error("the link was detached: {0}")]
    Detached(DetachError),
    /// The answer is a state that isn't terminal (part 3 of the standard, section 3.4).
    #[error("a delivery state that is not terminal came in place of an outcome")]
    NonTerminalDeliveryState,
    /// The answer is a state that a post can't have.
    #[error("a delivery state came that the post cannot have")]
    IllegalDeliveryState,
    /// The message is larger than the link takes.
    #[error(transparent)]
    MessageSizeExceeded(MessageSizeExceeded),
    /// The message can't be written as octets.
    #[error("the message cannot be encoded")]
    MessageEncodeError,
    /// Out of memory.
    #[error("out of memory")]
    NoMemory,
}

impl From<NoMemory> for PostError {
    ghost from_gives = { λ _ error. error ≡ errors.NoMemory };

    fn from(_error: NoMemory) -> Self {
        PostError::NoMemory
    }
}

impl From<LinkStateError> for PostError {
    ghost from_gives = { λ fault error. error ≡ errors.LinkStateError fault };

    fn from(error: LinkStateError) -> Self {
        PostError::LinkStateError(error)
    }
}

impl From<MessageSizeExceeded> for PostError {
    ghost from_gives = { λ size error. error ≡ errors.MessageSizeExceeded size };

    fn from(error: MessageSizeExceeded) -> Self {
        PostError::MessageSizeExceeded(error)
    }
}

impl From<DetachError> for PostError {
    ghost from_gives = { λ fault error. error ≡ errors.Detached fault };

    fn from(error: DetachError) -> Self {
        PostError::Detached(error)
    }
}

/// Each error is the state of the link of its name.
impl From<IllegalLinkStateError> for PostError {
    ghost from_gives = { λ fault error. error ≡ errors.LinkStateError (link_state fault) };

    fn from(error: IllegalLinkStateError) -> Self {
        PostError::LinkStateError(link_state_of(error))
    }
}

/// Each error is that of its name.
impl From<SendError> for PostError {
    ghost from_gives = { λ refused error. error ≡ unposted refused };

    fn from(error: SendError) -> Self {
        match error {
            SendError::LinkStateError(fault) => PostError::LinkStateError(fault),
            SendError::Detached(fault) => PostError::Detached(fault),
            SendError::NonTerminalDeliveryState => PostError::NonTerminalDeliveryState,
            SendError::IllegalDeliveryState => PostError::IllegalDeliveryState,
            SendError::MessageSizeExceeded(size) => PostError::MessageSizeExceeded(size),
            SendError::MessageEncodeError => PostError::MessageEncodeError,
            SendError::NoMemory => PostError::NoMemory,
        }
    }
}
