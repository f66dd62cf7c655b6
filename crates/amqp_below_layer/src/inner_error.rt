//! Why a layer below refuses.

ghost use Rattle.std.specs.Prelude.{◌≡◌};
ghost use Rattle.amqp_below_layer.specs.Faults.{is_no_memory, is_unattached};

use amqp_txn_types::{ConnectionStopReason, Error, NoMemory, TryClone};
use thiserror::Error as ThisError;

/// Why a session refuses a frame or a call.
#[derive(Debug, Drop, PartialEq, ThisError)]
pub enum SessionInnerError {
    /// The handle isn't attached (`amqp:session:unattached-handle`).
    #[error("the handle is not attached")]
    UnattachedHandle,
    /// The peer's attach names no link that waits for one.
    #[error("no link of that name is known")]
    RemoteAttachingLinkNameNotFound,
    /// The handle or the name is in use (`amqp:session:handle-in-use`).
    #[error("the handle is in use")]
    HandleInUse,
    /// The session's state doesn't allow it (`amqp:illegal-state`).
    #[error("the state does not allow it")]
    IllegalState,
    /// The connection stopped.
    #[error("the connection stopped: {0:?}")]
    ConnectionStopped(ConnectionStopReason),
    /// A transfer came for a sender link.
    #[error("found a transfer frame to a sender")]
    TransferFrameToSender,
    /// The peer ended the session.
    #[error("the remote session ended")]
    RemoteEnded,
    /// The peer ended the session with an error.
    #[error("the remote session ended with an error: {0:?}")]
    RemoteEndedWithError(Error),
    /// The transaction isn't known (`amqp:transaction:unknown-id`).
    #[error("the transaction id is not known")]
    UnknownTxnId,
    /// Out of memory.
    #[error("out of memory")]
    NoMemory,
}

impl SessionInnerError {
    /// Whether it is out of memory.
    pub fn is_no_memory(&self) -> bool
        ensures { result ≡ is_no_memory self.now }
    {
        matches!(self, SessionInnerError::NoMemory)
    }

    /// Whether it is that a handle isn't attached.
    pub fn is_unattached(&self) -> bool
        ensures { result ≡ is_unattached self.now }
    {
        matches!(self, SessionInnerError::UnattachedHandle)
    }
}

impl From<NoMemory> for SessionInnerError {
    ghost use Rattle.std.specs.Prelude.{◌≡◌};
    ghost use Rattle.amqp_below_layer.specs.declared.inner_error.SessionInnerError.TheVariants as faults;

    ghost from_gives = { λ _ e. e ≡ faults.NoMemory };

    fn from(_error: NoMemory) -> Self {
        SessionInnerError::NoMemory
    }
}

impl TryClone for SessionInnerError {
    fn try_clone(&self) -> Result<Self, NoMemory> {
        match self {
            SessionInnerError::UnattachedHandle => Ok(SessionInnerError::UnattachedHandle),
            SessionInnerError::RemoteAttachingLinkNameNotFound => {
                Ok(SessionInnerError::RemoteAttachingLinkNameNotFound)
            }
            SessionInnerError::HandleInUse => Ok(SessionInnerError::HandleInUse),
            SessionInnerError::IllegalState => Ok(SessionInnerError::IllegalState),
            SessionInnerError::ConnectionStopped(reason) => {
                Ok(SessionInnerError::ConnectionStopped(reason.try_clone()?))
            }
            SessionInnerError::TransferFrameToSender => Ok(
                SessionInnerError::TransferFrameToSender,
            ),
            SessionInnerError::RemoteEnded => Ok(SessionInnerError::RemoteEnded),
            SessionInnerError::RemoteEndedWithError(error) => {
                Ok(SessionInnerError::RemoteEndedWithError(error.try_clone()?))
            }
            SessionInnerError::UnknownTxnId => Ok(SessionInnerError::UnknownTxnId),
            SessionInnerError::NoMemory => Ok(SessionInnerError::NoMemory),
        }
    }
}
