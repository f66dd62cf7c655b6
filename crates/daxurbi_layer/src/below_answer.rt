//! What a layer below is told to answer.

ghost use Rattle.std.specs.Prelude.{◌≡◌};
ghost use Rattle.daxurbi_layer.specs.Answering.{named, refusal_told, verdict_told};

use amqp_below_layer::{SessionInnerError, Verdict};
use amqp_txn_types::{ConnectionStopReason, NoMemory};

/// An error that a layer below may be told to refuse with.
#[derive(Clone, Copy, Debug, PartialEq, Eq)]
pub enum NamedError {
    /// The handle isn't attached.
    UnattachedHandle,
    /// The peer's attach names no link that waits for one.
    LinkNameNotFound,
    /// The handle or the name is in use.
    HandleInUse,
    /// The state doesn't allow it.
    IllegalState,
    /// A transfer came for a sender link.
    TransferToSender,
    /// The peer closed the connection.
    ConnectionStopped,
    /// The peer ended the session.
    RemoteEnded,
    /// Out of memory.
    NoMemory,
}

impl NamedError {
    /// The error of that name.
    pub fn error(self) -> SessionInnerError
        ensures { result ≡ named self }
    {
        match self {
            NamedError::UnattachedHandle => SessionInnerError::UnattachedHandle,
            NamedError::LinkNameNotFound => SessionInnerError::RemoteAttachingLinkNameNotFound,
            NamedError::HandleInUse => SessionInnerError::HandleInUse,
            NamedError::IllegalState => SessionInnerError::IllegalState,
            NamedError::TransferToSender => SessionInnerError::TransferFrameToSender,
            NamedError::ConnectionStopped => {
                SessionInnerError::ConnectionStopped(ConnectionStopReason::RemoteClosed)
            }
            NamedError::RemoteEnded => SessionInnerError::RemoteEnded,
            NamedError::NoMemory => SessionInnerError::NoMemory,
        }
    }
}

/// What a layer below is told to answer.
#[derive(Clone, Copy, Debug, PartialEq, Eq)]
pub enum BelowAnswer {
    /// It takes what comes.
    Take,
    /// It vetoes a commit.
    Veto,
    /// It refuses what comes with this error. A commit it vetoes, but for out of memory.
    Refuse(NamedError),
}

impl BelowAnswer {
    /// The error that a frame, an attach or a check is refused with, if it is. Where a veto was
    /// told no frame is to come, and one that comes all the same is refused.
    pub fn refusal(self) -> Option<SessionInnerError>
        ensures { result ≡ refusal_told self }
    {
        match self {
            BelowAnswer::Take => None,
            BelowAnswer::Veto => Some(SessionInnerError::IllegalState),
            BelowAnswer::Refuse(error) => Some(error.error()),
        }
    }

    /// What a review of the frames of a commit is answered, if memory allows.
    pub fn verdict(self) -> Result<Verdict, NoMemory>
        ensures { result ≡ verdict_told self }
    {
        match self {
            BelowAnswer::Take => Ok(Verdict::Accept),
            BelowAnswer::Refuse(NamedError::NoMemory) => Err(NoMemory),
            BelowAnswer::Veto | BelowAnswer::Refuse(_) => Ok(Verdict::Veto),
        }
    }
}
