//! Why a link isn't attached.

use crate::session_errors::AllocLinkError;
use amqp_below_layer::SessionInnerError;
use amqp_txn_types::SessionStopReason;
use thiserror::Error as ThisError;

/// Why the sending end of a link isn't attached.
#[derive(Debug, Drop, PartialEq, ThisError)]
pub enum SenderAttachError {
    /// The session doesn't allocate the link.
    #[error("the link is not allocated: {0}")]
    Alloc(AllocLinkError),
    /// The session stopped before the link was attached.
    #[error("the session stopped: {0:?}")]
    SessionStopped(SessionStopReason),
    /// The session refused a frame of the link.
    #[error("the session refused: {0}")]
    Session(SessionInnerError),
    /// Out of memory.
    #[error("out of memory")]
    NoMemory,
}

impl From<AllocLinkError> for SenderAttachError {
    ghost use Rattle.std.specs.Prelude.{◌≡◌};
    ghost use Rattle.amqp_below_sessions.specs.AttachErrors.{sender_error};

    ghost from_gives = { λ refused error. error ≡ sender_error refused };

    fn from(error: AllocLinkError) -> Self {
        match error {
            AllocLinkError::NoMemory => SenderAttachError::NoMemory,
            other => SenderAttachError::Alloc(other),
        }
    }
}

/// Why the receiving end of a link isn't attached.
#[derive(Debug, Drop, PartialEq, ThisError)]
pub enum ReceiverAttachError {
    /// The session doesn't allocate the link.
    #[error("the link is not allocated: {0}")]
    Alloc(AllocLinkError),
    /// The session refused a frame of the link.
    #[error("the session refused: {0}")]
    Session(SessionInnerError),
    /// The attach has a target of another kind than the acceptor takes.
    #[error("the target is of a kind that is not taken here")]
    CoordinatorIsNotImplemented,
    /// Out of memory.
    #[error("out of memory")]
    NoMemory,
}

impl From<AllocLinkError> for ReceiverAttachError {
    ghost use Rattle.std.specs.Prelude.{◌≡◌};
    ghost use Rattle.amqp_below_sessions.specs.AttachErrors.{receiver_error};

    ghost from_gives = { λ refused error. error ≡ receiver_error refused };

    fn from(error: AllocLinkError) -> Self {
        match error {
            AllocLinkError::NoMemory => ReceiverAttachError::NoMemory,
            other => ReceiverAttachError::Alloc(other),
        }
    }
}
