//! The ends of a session.

ghost use Rattle.std.specs.Prelude.{◌≡◌, is_some};
ghost use Rattle.amqp_txn_types.specs.declared.delivery.SessionStopReason.TheVariants as reasons;
ghost use Rattle.amqp_resource_record.specs.declared.stop.StepError.TheVariants as errors;
ghost use Rattle.amqp_resource_session.specs.Steps.{EndGave, stop_takes_memory, local_end, remote_end};

use amqp_resource_record::StepError;
use amqp_txn_types::{ConnectionStopReason, Error, SessionStopReason, TryClone};

/// The end that the session's own side asks for.
pub fn end_locally(error: &Option<Error>) -> StepError
    ensures { EndGave (local_end error.now) (is_some error.now) result }
{
    match error {
        None => StepError::Ended(SessionStopReason::Ended),
        Some(error) => match error.try_clone() {
            Ok(copy) => StepError::Ended(SessionStopReason::EndedWithError(copy)),
            Err(_) => StepError::NoMemory,
        },
    }
}

/// The end that the peer asks for.
pub fn end_remotely(error: &Option<Error>) -> StepError
    ensures { EndGave (remote_end error.now) (is_some error.now) result }
{
    match error {
        None => StepError::Ended(SessionStopReason::RemoteEnded),
        Some(error) => match error.try_clone() {
            Ok(copy) => StepError::Ended(SessionStopReason::RemoteEndedWithError(copy)),
            Err(_) => StepError::NoMemory,
        },
    }
}

fn ended_by_connection(reason: ConnectionStopReason) -> StepError
    ensures { result ≡ errors.Ended (reasons.ConnectionStopped reason) }
{
    StepError::Ended(SessionStopReason::ConnectionStopped(reason))
}

/// The end that comes with the connection's.
pub fn end_with_connection(reason: &ConnectionStopReason) -> StepError
    ensures { EndGave (reasons.ConnectionStopped reason.now) (stop_takes_memory reason.now) result }
{
    match reason {
        ConnectionStopReason::Closed => ended_by_connection(ConnectionStopReason::Closed),
        ConnectionStopReason::RemoteClosed => {
            ended_by_connection(ConnectionStopReason::RemoteClosed)
        }
        with_error => match with_error.try_clone() {
            Ok(copy) => ended_by_connection(copy),
            Err(_) => StepError::NoMemory,
        },
    }
}
