//! Why an owned transaction isn't declared or discharged.

ghost use Rattle.std.specs.Prelude.{◌≡◌};
ghost use Rattle.amqp_controller_transactions.specs.declared.owned_errors.OwnedDeclareError.TheVariants as declare_errors;
ghost use Rattle.amqp_controller_transactions.specs.declared.owned_errors.OwnedDischargeError.TheVariants as discharge_errors;
ghost use Rattle.amqp_controller_calls.specs.Errors.{link_state};
ghost use Rattle.amqp_controller_calls.specs.declared.errors.ControllerSendError.TheVariants as sends;

use amqp_below_sessions::SenderAttachError;
use amqp_controller_calls::ControllerSendError;
use amqp_links::{DetachError, IllegalLinkStateError};
use thiserror::Error as ThisError;

/// Why an owned transaction isn't declared.
#[derive(Debug, Drop, PartialEq, ThisError)]
pub enum OwnedDeclareError {
    /// Its control link isn't attached.
    #[error("the control link is not attached: {0}")]
    AttachError(SenderAttachError),
    /// The declare isn't sent, or something else was answered than the transaction's id.
    #[error("the transaction is not declared: {0}")]
    ControllerSendError(ControllerSendError),
}

impl From<SenderAttachError> for OwnedDeclareError {
    ghost from_gives = { λ fault error. error ≡ declare_errors.AttachError fault };

    fn from(error: SenderAttachError) -> Self {
        OwnedDeclareError::AttachError(error)
    }
}

impl From<ControllerSendError> for OwnedDeclareError {
    ghost from_gives = { λ fault error. error ≡ declare_errors.ControllerSendError fault };

    fn from(error: ControllerSendError) -> Self {
        OwnedDeclareError::ControllerSendError(error)
    }
}

/// Why an owned transaction isn't discharged, or not dropped.
#[derive(Debug, Drop, PartialEq, ThisError)]
pub enum OwnedDischargeError {
    /// The discharge isn't sent, or something else was answered than that it is done.
    #[error("the transaction is not discharged: {0}")]
    ControllerSendError(ControllerSendError),
    /// The transaction was discharged, and its control link isn't closed.
    #[error("the control link is not closed: {0}")]
    DetachError(DetachError),
}

impl From<ControllerSendError> for OwnedDischargeError {
    ghost from_gives = { λ fault error. error ≡ discharge_errors.ControllerSendError fault };

    fn from(error: ControllerSendError) -> Self {
        OwnedDischargeError::ControllerSendError(error)
    }
}

impl From<DetachError> for OwnedDischargeError {
    ghost from_gives = { λ fault error. error ≡ discharge_errors.DetachError fault };

    fn from(error: DetachError) -> Self {
        OwnedDischargeError::DetachError(error)
    }
}

/// Each error is the state of the control link of its name.
impl From<IllegalLinkStateError> for OwnedDischargeError {
    ghost from_gives = { λ fault error. error ≡ discharge_errors.ControllerSendError
        (sends.LinkStateError (link_state fault)) };

    fn from(error: IllegalLinkStateError) -> Self {
        OwnedDischargeError::ControllerSendError(ControllerSendError::from(error))
    }
}
