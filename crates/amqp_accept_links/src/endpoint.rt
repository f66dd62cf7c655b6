//! What a link acceptor answers.

ghost use Rattle.std.specs.Prelude.{◌≡◌};
ghost use Rattle.amqp_accept_links.specs.declared.endpoint.AcceptorAttachError.TheVariants as errors;

use amqp_below_sessions::{ReceiverAttachError, SenderAttachError};
use amqp_links::{WireReceiver, WireSender};
use amqp_txn_types::SessionStopReason;
use thiserror::Error as ThisError;

/// The local end of a link that was accepted.
#[derive(Drop)]
pub enum LinkEndpoint {
    /// The peer receives.
    Sender(WireSender),
    /// The peer sends.
    Receiver(WireReceiver),
}

/// Why a link isn't accepted.
#[derive(Debug, Drop, PartialEq, ThisError)]
pub enum AcceptorAttachError {
    /// The session stopped.
    #[error("the session stopped: {0:?}")]
    SessionStopped(SessionStopReason),
    /// The local sender isn't attached.
    #[error("the local sender is not attached: {0}")]
    LocalSender(SenderAttachError),
    /// The local receiver isn't attached.
    #[error("the local receiver is not attached: {0}")]
    LocalReceiver(ReceiverAttachError),
}

impl From<SenderAttachError> for AcceptorAttachError {
    ghost from_gives = { λ refused error. error ≡ errors.LocalSender refused };

    fn from(error: SenderAttachError) -> Self {
        AcceptorAttachError::LocalSender(error)
    }
}

impl From<ReceiverAttachError> for AcceptorAttachError {
    ghost from_gives = { λ refused error. error ≡ errors.LocalReceiver refused };

    fn from(error: ReceiverAttachError) -> Self {
        AcceptorAttachError::LocalReceiver(error)
    }
}
