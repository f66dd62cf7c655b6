//! Why a session doesn't allocate a link or begin.

ghost use Rattle.std.specs.Prelude.{◌≡◌};
ghost use Rattle.amqp_below_sessions.specs.declared.session_errors.AllocLinkError.TheVariants as alloc_link_errors;
ghost use Rattle.amqp_below_sessions.specs.declared.session_errors.BeginError.TheVariants as begin_errors;

use amqp_txn_types::{ConnectionStopReason, Error, NoMemory, SessionStopReason};
use thiserror::Error as ThisError;

/// Why a session doesn't allocate a link.
#[derive(Debug, Drop, PartialEq, ThisError)]
pub enum AllocLinkError {
    /// The session stopped.
    #[error("the session stopped: {0:?}")]
    SessionStopped(SessionStopReason),
    /// A link has the name.
    #[error("the link name is in use")]
    DuplicatedLinkName,
    /// The peer's handle is mapped to a link (`amqp:session:handle-in-use`).
    #[error("the handle is in use")]
    HandleInUse,
    /// The next output handle is above the session's greatest one.
    #[error("no handle is left")]
    HandleMaxReached,
    /// Out of memory.
    #[error("out of memory")]
    NoMemory,
}

impl From<NoMemory> for AllocLinkError {
    ghost from_gives = { λ _ e. e ≡ alloc_link_errors.NoMemory };

    fn from(_error: NoMemory) -> Self {
        AllocLinkError::NoMemory
    }
}

/// Why a session doesn't begin.
#[derive(Debug, Drop, PartialEq, ThisError)]
pub enum BeginError {
    /// The connection stopped.
    #[error("the connection stopped: {0:?}")]
    ConnectionStopped(ConnectionStopReason),
    /// All channels of this side are in use.
    #[error("no channel is left")]
    LocalChannelMaxReached,
    /// The peer ended the session.
    #[error("the remote session ended")]
    RemoteEnded,
    /// The peer ended the session with an error.
    #[error("the remote session ended with an error: {0:?}")]
    RemoteEndedWithError(Error),
    /// The session's state doesn't allow it (`amqp:illegal-state`).
    #[error("the state does not allow it")]
    IllegalState,
    /// Out of memory.
    #[error("out of memory")]
    NoMemory,
}

impl From<NoMemory> for BeginError {
    ghost from_gives = { λ _ e. e ≡ begin_errors.NoMemory };

    fn from(_error: NoMemory) -> Self {
        BeginError::NoMemory
    }
}
