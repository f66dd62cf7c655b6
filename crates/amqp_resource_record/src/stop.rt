//! Why a step isn't answered, and why a run stopped.

ghost use Rattle.std.specs.Prelude.{◌≡◌};
ghost use Rattle.amqp_resource_record.specs.Stops.{code_of, fault_code, ended_code};

use crate::entry::Entries;
use amqp_below_layer::SessionInnerError;
use amqp_txn_types::SessionStopReason;
use std::fmt;
use thiserror::Error as ThisError;

/// The cause of a stop, without its values.
#[derive(Clone, Copy, Debug, PartialEq, Eq)]
pub enum StopCode {
    /// Every step was answered.
    Done,
    /// A frame was under an id that isn't live.
    UnknownTxnId,
    /// The layer below refused a frame: its handle isn't attached.
    UnattachedHandle,
    /// The layer below refused an attach: it knows no link of that name.
    LinkNameNotFound,
    /// The layer below refused an attach: the handle is in use.
    HandleInUse,
    /// The layer below refused a frame: its state doesn't allow it.
    IllegalState,
    /// The layer below refused a transfer to a link that sends.
    TransferToSender,
    /// The layer below refused a frame: its connection stopped.
    BelowConnectionStopped,
    /// The layer below refused a frame: the peer ended its session.
    BelowRemoteEnded,
    /// The layer below refused a frame: the peer ended its session with an error.
    BelowRemoteEndedWithError,
    /// The layer below ran out of memory.
    BelowNoMemory,
    /// The session was ended by its own side.
    Ended,
    /// The session was ended by its own side with an error.
    EndedWithError,
    /// The session was ended by the peer.
    RemoteEnded,
    /// The session was ended by the peer with an error.
    RemoteEndedWithError,
    /// The connection stopped.
    ConnectionStopped,
    /// The session itself ran out of memory.
    NoMemory,
}

/// Why a run of steps stopped.
#[derive(Debug, Drop, PartialEq)]
pub enum Stop {
    /// Every step was answered.
    Done,
    /// A frame was under an id that isn't live, or the layer below refused a frame or ran out of
    /// memory for a commit.
    Fault(SessionInnerError),
    /// The session or its connection ended.
    Ended(SessionStopReason),
    /// The session ran out of memory; nothing of the step at which it did was done.
    NoMemory,
}

impl fmt::Display for Stop {
    fn fmt<W: fmt::Write>(&self, f: &mut fmt::Formatter<W>) -> fmt::Result {
        match self {
            Stop::Done => write!(f, "every step was answered"),
            Stop::Fault(error) => write!(f, "a frame was not taken: {error}"),
            Stop::Ended(reason) => write!(f, "the session ended: {reason:?}"),
            Stop::NoMemory => write!(f, "out of memory"),
        }
    }
}

impl Stop {
    /// The cause without its values.
    pub fn code(&self) -> StopCode
        ensures { result ≡ code_of self.now }
    {
        match self {
            Stop::Done => StopCode::Done,
            Stop::Fault(error) => code_of_fault(error),
            Stop::Ended(reason) => code_of_end(reason),
            Stop::NoMemory => StopCode::NoMemory,
        }
    }
}

/// The code of a fault: of an id that isn't live, or of a refusal of the layer below.
pub fn code_of_fault(error: &SessionInnerError) -> StopCode
    ensures { result ≡ fault_code error.now }
{
    match error {
        SessionInnerError::UnattachedHandle => StopCode::UnattachedHandle,
        SessionInnerError::RemoteAttachingLinkNameNotFound => StopCode::LinkNameNotFound,
        SessionInnerError::HandleInUse => StopCode::HandleInUse,
        SessionInnerError::IllegalState => StopCode::IllegalState,
        SessionInnerError::ConnectionStopped(_) => StopCode::BelowConnectionStopped,
        SessionInnerError::TransferFrameToSender => StopCode::TransferToSender,
        SessionInnerError::RemoteEnded => StopCode::BelowRemoteEnded,
        SessionInnerError::RemoteEndedWithError(_) => StopCode::BelowRemoteEndedWithError,
        SessionInnerError::UnknownTxnId => StopCode::UnknownTxnId,
        SessionInnerError::NoMemory => StopCode::BelowNoMemory,
    }
}

/// The code of a session's end.
pub fn code_of_end(reason: &SessionStopReason) -> StopCode
    ensures { result ≡ ended_code reason.now }
{
    match reason {
        SessionStopReason::Ended => StopCode::Ended,
        SessionStopReason::EndedWithError(_) => StopCode::EndedWithError,
        SessionStopReason::RemoteEnded => StopCode::RemoteEnded,
        SessionStopReason::RemoteEndedWithError(_) => StopCode::RemoteEndedWithError,
        SessionStopReason::ConnectionStopped(_) => StopCode::ConnectionStopped,
    }
}

/// Why a step has no reply.
#[derive(Debug, Drop, PartialEq, ThisError)]
pub enum StepError {
    /// The step is a frame under an id that isn't live, or the layer below refused a frame of it,
    /// or ran out of memory for a commit.
    #[error("a frame was not taken: {error}")]
    Fault {
        /// What is wrong; `UnknownTxnId` stands for the first cause alone.
        error: SessionInnerError,
        /// How many of the step's frames the layer below took, one whose answer was refused
        /// included.
        handed: usize,
    },
    /// The step ends the session.
    #[error("the session ended: {0:?}")]
    Ended(SessionStopReason),
    /// The session had stopped before, with this code.
    #[error("the session had stopped: {0:?}")]
    Stopped(StopCode),
    /// Out of memory. The session is as it was before the step.
    #[error("out of memory")]
    NoMemory,
}

/// What a run of steps made.
#[derive(Debug, Drop)]
pub struct Driven {
    /// The steps that were answered, each with its draws and its reply.
    pub entries: Entries,
    /// Why the run stopped.
    pub stop: Stop,
    /// How many steps were answered, so the place of the step at which the run stopped.
    pub at: usize,
    /// How many frames of that step the layer below took, where it refused one; else 0.
    pub handed: usize,
}
