//! With which error a session is ended for a fault.

ghost use Rattle.std.specs.Prelude.{◌≡◌, IfOk, OnErr, false, true};
ghost use Rattle.std.specs.Bool.{OnFalse};
ghost use Rattle.amqp_txn_types.specs.Counts.{Rose};
ghost use Rattle.amqp_engine_events.specs.Ends.{EndsSession};
ghost use Rattle.amqp_engine_events.specs.Faults.{EndsFor, copies_for, error_of_fault, is_cut_off, plain_error, told_error};
ghost use Rattle.amqp_engine_events.specs.Turns.{CausedBy};

use crate::end::end_session;
use crate::turn::Turn;
use amqp_below_layer::SessionInnerError;
use amqp_below_sessions::Session;
use amqp_txn_types::{
    AmqpError, Error, ErrorCondition, NoMemory, SessionError, Text, TransactionError, TryClone,
};
use std::alloc::Global;

/// An error without a text.
fn plain_error(condition: ErrorCondition) -> Option<Error>
    ensures { result ≡ plain_error condition }
{
    Some(Error {
        condition,
        description: None,
        info: None,
    })
}

/// An error of any part of the protocol, with a text.
fn told_error(
    alloc: Global,
    condition: ErrorCondition,
    text: &str,
) -> Result<Option<Error>, NoMemory>
    ensures { IfOk result (λ error. error ≡ told_error condition text.now) }
{
    Ok(Some(Error {
        condition,
        description: Some(Text::from_str(alloc, text)?),
        info: None,
    }))
}

/// The error of the end that is sent for a fault.
fn error_of_fault(alloc: Global, fault: &SessionInnerError) -> Result<Option<Error>, NoMemory>
    ensures value { IfOk result (λ error. error ≡ error_of_fault fault.now) }
    ensures made { OnErr result (copies_for fault.now ≡ true) }
{
    match fault {
        SessionInnerError::UnattachedHandle => Ok(plain_error(ErrorCondition::SessionError(
            SessionError::UnattachedHandle,
        ))),
        SessionInnerError::HandleInUse => Ok(plain_error(ErrorCondition::SessionError(
            SessionError::HandleInUse,
        ))),
        SessionInnerError::IllegalState => Ok(plain_error(ErrorCondition::AmqpError(
            AmqpError::IllegalState,
        ))),
        SessionInnerError::UnknownTxnId => Ok(plain_error(ErrorCondition::TransactionError(
            TransactionError::UnknownId,
        ))),
        SessionInnerError::RemoteAttachingLinkNameNotFound => told_error(
            alloc,
            ErrorCondition::AmqpError(AmqpError::InternalError),
            "Link name is not found",
        ),
        SessionInnerError::TransferFrameToSender => told_error(
            alloc,
            ErrorCondition::AmqpError(AmqpError::NotAllowed),
            "Found Transfer frame sent Sender link",
        ),
        SessionInnerError::NoMemory => Ok(plain_error(ErrorCondition::AmqpError(
            AmqpError::InternalError,
        ))),
        SessionInnerError::RemoteEnded
        | SessionInnerError::RemoteEndedWithError(_)
        | SessionInnerError::ConnectionStopped(_) => Ok(None),
    }
}

/// Ends the session for a fault. The error is made before anything is changed.
pub(crate) fn end_for<S: Session>(
    alloc: Global,
    session: &mut S,
    fault: &SessionInnerError,
) -> Result<Turn, SessionInnerError>
    ensures ends { EndsFor session.old session.new
        (λ answer. EndsSession S.told S.kept S.names S.calls.end_sent session.old session.new
        (error_of_fault fault.now) answer) fault.now result }
    ensures cause { OnFalse (is_cut_off fault.now) (CausedBy false
        (Rose (S.told session.old).refusals (S.told session.new).refusals) result) }
{
    if let SessionInnerError::ConnectionStopped(reason) = fault {
        return Err(SessionInnerError::ConnectionStopped(reason.try_clone()?));
    }
    let error = error_of_fault(alloc, fault)?;
    end_session(alloc, session, error)
}
