//! Why a coordinator refuses.

ghost use Rattle.std.specs.Prelude.{◌≡◌};
ghost use Rattle.amqp_resource_coordinator.specs.Errors.{error_of_allocation, error_of_discharge};

use amqp_below_ids::Drawn;
use amqp_below_sessions::{AllocTxnIdError, CommitFault};
use amqp_txn_types::TransactionError;
use thiserror::Error as ThisError;

/// Why a coordinator refuses a control message. Section 4.5.8 (transaction error) of the standard.
#[derive(Debug, Drop, PartialEq, ThisError)]
pub enum CoordinatorError {
    /// The declare has a global id.
    #[error("global transaction ids are not implemented")]
    GlobalIdNotImplemented,
    /// The session doesn't do transactions, or has stopped.
    #[error("the session allocates no transaction ids")]
    AllocTxnIdNotImplemented,
    /// All of the 16 ids drawn, which it carries, are live.
    #[error("no unused transaction id was drawn")]
    IdsRepeat(Drawn),
    /// The transaction is unknown, or its commit was vetoed and it was rolled back.
    #[error("the transaction is not discharged: {0}")]
    TransactionError(TransactionError),
    /// The commit failed.
    #[error("the commit failed: {0}")]
    Fault(CommitFault),
    /// Out of memory. Nothing was drawn.
    #[error("out of memory")]
    NoMemory,
}

/// Why a transaction isn't discharged.
#[derive(Debug, Drop, PartialEq, ThisError)]
pub enum DischargeError {
    /// The condition that the session answered.
    #[error("the transaction is not discharged: {0}")]
    TransactionError(TransactionError),
    /// The commit failed.
    #[error("the commit failed: {0}")]
    Fault(CommitFault),
}

impl From<TransactionError> for DischargeError {
    ghost use Rattle.amqp_resource_coordinator.specs.declared.errors.DischargeError.TheVariants as discharges;

    ghost from_gives = { λ error answer. answer ≡ discharges.TransactionError error };

    fn from(error: TransactionError) -> Self {
        DischargeError::TransactionError(error)
    }
}

impl From<AllocTxnIdError> for CoordinatorError {
    ghost from_gives = { λ error answer. answer ≡ error_of_allocation error };

    fn from(error: AllocTxnIdError) -> Self {
        match error {
            AllocTxnIdError::NotImplemented => CoordinatorError::AllocTxnIdNotImplemented,
            AllocTxnIdError::IdsRepeat(drawn) => CoordinatorError::IdsRepeat(drawn),
            AllocTxnIdError::NoMemory => CoordinatorError::NoMemory,
        }
    }
}

impl From<DischargeError> for CoordinatorError {
    ghost from_gives = { λ error answer. answer ≡ error_of_discharge error };

    fn from(error: DischargeError) -> Self {
        match error {
            DischargeError::TransactionError(error) => CoordinatorError::TransactionError(error),
            DischargeError::Fault(fault) => CoordinatorError::Fault(fault),
        }
    }
}
