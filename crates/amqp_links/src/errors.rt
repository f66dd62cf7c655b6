//! Why the calls of a link fail.

ghost use Rattle.std.specs.Prelude.{◌≡◌};
ghost use Rattle.amqp_links.specs.declared.errors.LinkStateError.TheVariants as link_state_errors;
ghost use Rattle.amqp_links.specs.declared.errors.DetachError.TheVariants as detach_errors;
ghost use Rattle.amqp_links.specs.declared.errors.IllegalLinkStateError.TheVariants as illegal_link_state_errors;
ghost use Rattle.amqp_links.specs.declared.errors.RecvError.TheVariants as recv_errors;
ghost use Rattle.amqp_links.specs.declared.errors.SendError.TheVariants as send_errors;

use amqp_txn_types::{Error, NoMemory, SessionStopReason};
use thiserror::Error as ThisError;

/// What is wrong with a link. Part 2 of the standard, section 2.6 (links).
#[derive(Debug, Drop, PartialEq, ThisError)]
pub enum LinkStateError {
    /// The link's state doesn't allow it (`amqp:illegal-state`).
    #[error("the state of the link does not allow it")]
    IllegalState,
    /// The peer refused the link, so its detach follows its attach at once (section 2.6.3).
    #[error("the remote attach is to be followed by a detach")]
    ExpectImmediateDetach,
    /// The peer detached the link.
    #[error("the remote link detached")]
    RemoteDetached,
    /// The peer detached the link with an error.
    #[error("the remote link detached with an error: {0:?}")]
    RemoteDetachedWithError(Error),
    /// The peer closed the link.
    #[error("the remote link closed")]
    RemoteClosed,
    /// The peer closed the link with an error.
    #[error("the remote link closed with an error: {0:?}")]
    RemoteClosedWithError(Error),
    /// The link's session stopped.
    #[error("the session stopped: {0:?}")]
    SessionStopped(SessionStopReason),
    /// Out of memory.
    #[error("out of memory")]
    NoMemory,
}

impl From<NoMemory> for LinkStateError {
    ghost from_gives = { λ _ error. error ≡ link_state_errors.NoMemory };

    fn from(_error: NoMemory) -> Self {
        LinkStateError::NoMemory
    }
}

/// Why a link isn't detached or closed as asked. Part 2 of the standard, section 2.6.6 (closing a
/// link).
#[derive(Debug, Drop, PartialEq, ThisError)]
pub enum DetachError {
    /// The link's state doesn't allow it (`amqp:illegal-state`).
    #[error("the state of the link does not allow it")]
    IllegalState,
    /// The link's session stopped.
    #[error("the session stopped: {0:?}")]
    SessionStopped(SessionStopReason),
    /// The peer detached the link, where this side was closing it.
    #[error("the remote link detached")]
    DetachedByRemote,
    /// The peer detached the link with an error.
    #[error("the remote link detached with an error: {0:?}")]
    RemoteDetachedWithError(Error),
    /// The peer closed the link, where this side was detaching it.
    #[error("the remote link closed")]
    ClosedByRemote,
    /// The peer closed the link with an error.
    #[error("the remote link closed with an error: {0:?}")]
    RemoteClosedWithError(Error),
    /// Out of memory.
    #[error("out of memory")]
    NoMemory,
}

impl From<NoMemory> for DetachError {
    ghost from_gives = { λ _ error. error ≡ detach_errors.NoMemory };

    fn from(_error: NoMemory) -> Self {
        DetachError::NoMemory
    }
}

/// Why a link can't put a disposition or a flow.
#[derive(Debug, Drop, PartialEq, ThisError)]
pub enum IllegalLinkStateError {
    /// The link's state doesn't allow it (`amqp:illegal-state`).
    #[error("the state of the link does not allow it")]
    IllegalState,
    /// The link's session stopped.
    #[error("the session stopped: {0:?}")]
    SessionStopped(SessionStopReason),
    /// Out of memory.
    #[error("out of memory")]
    NoMemory,
}

impl From<NoMemory> for IllegalLinkStateError {
    ghost from_gives = { λ _ error. error ≡ illegal_link_state_errors.NoMemory };

    fn from(_error: NoMemory) -> Self {
        IllegalLinkStateError::NoMemory
    }
}

/// Why a disposition isn't put.
pub type DispositionError = IllegalLinkStateError;

/// Why a flow isn't put.
pub type FlowError = IllegalLinkStateError;

/// Why no delivery comes.
#[derive(Debug, Drop, PartialEq, ThisError)]
pub enum RecvError {
    /// Something is wrong with the link.
    #[error(transparent)]
    LinkStateError(LinkStateError),
    /// The peer sent more than the link's credit allows (`amqp:link:transfer-limit-exceeded`).
    #[error("the remote sent more than the credit allows")]
    TransferLimitExceeded,
    /// Out of memory.
    #[error("out of memory")]
    NoMemory,
}

impl From<NoMemory> for RecvError {
    ghost from_gives = { λ _ error. error ≡ recv_errors.NoMemory };

    fn from(_error: NoMemory) -> Self {
        RecvError::NoMemory
    }
}

/// A message is larger than the link's max-message-size (part 2 of the standard, section 2.7.3).
#[derive(Clone, Copy, Debug, PartialEq, Eq, ThisError)]
#[error("the message has {size} octets, and the link takes at most {max_size}")]
pub struct MessageSizeExceeded {
    /// The message's size, in octets.
    pub size: u64,
    /// The link's limit, in octets.
    pub max_size: u64,
}

/// Why a message isn't sent, or what became of it isn't known.
#[derive(Debug, Drop, PartialEq, ThisError)]
pub enum SendError {
    /// Something is wrong with the link.
    #[error(transparent)]
    LinkStateError(LinkStateError),
    /// The link was detached before the answer came.
    #[error("the link was detached: {0}")]
    Detached(DetachError),
    /// The answer is a state that isn't terminal (part 3 of the standard, section 3.4).
    #[error("a delivery state that is not terminal came in place of an outcome")]
    NonTerminalDeliveryState,
    /// The answer is a state that the delivery can't have.
    #[error("a delivery state came that the delivery cannot have")]
    IllegalDeliveryState,
    /// The message is larger than the link takes.
    #[error(transparent)]
    MessageSizeExceeded(MessageSizeExceeded),
    /// The message can't be written as octets.
    #[error("the message cannot be encoded")]
    MessageEncodeError,
    /// Out of memory.
    #[error("out of memory")]
    NoMemory,
}

impl From<NoMemory> for SendError {
    ghost from_gives = { λ _ error. error ≡ send_errors.NoMemory };

    fn from(_error: NoMemory) -> Self {
        SendError::NoMemory
    }
}
