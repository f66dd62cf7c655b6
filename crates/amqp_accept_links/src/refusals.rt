//! Why an end isn't attached whose link isn't opened.

ghost use Rattle.std.specs.Prelude.{◌≡◌};
ghost use Rattle.amqp_accept_links.specs.Acceptance.{receiver_refusal, sender_refusal};

use crate::open_link::OpenError;
use amqp_below_layer::SessionInnerError;
use amqp_below_sessions::{ReceiverAttachError, SenderAttachError};

impl From<OpenError> for ReceiverAttachError {
    ghost from_gives = { λ refused error. error ≡ receiver_refusal refused };

    fn from(error: OpenError) -> Self {
        match error {
            OpenError::Alloc(error) => ReceiverAttachError::from(error),
            OpenError::Session(SessionInnerError::NoMemory) => ReceiverAttachError::NoMemory,
            OpenError::Session(error) => ReceiverAttachError::Session(error),
        }
    }
}

impl From<OpenError> for SenderAttachError {
    ghost from_gives = { λ refused error. error ≡ sender_refusal refused };

    fn from(error: OpenError) -> Self {
        match error {
            OpenError::Alloc(error) => SenderAttachError::from(error),
            OpenError::Session(SessionInnerError::NoMemory) => SenderAttachError::NoMemory,
            OpenError::Session(error) => SenderAttachError::Session(error),
        }
    }
}
