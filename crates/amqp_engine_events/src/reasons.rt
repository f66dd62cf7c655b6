//! Why a session stops.

ghost use Rattle.std.specs.Prelude.{◌≡◌, IfOk, OnErr, is_some, true};
ghost use Rattle.amqp_engine_events.specs.Reasons.{copies_local, copies_remote, local_stop, reason_or_closed, remote_stop};

use amqp_below_sessions::Session;
use amqp_txn_types::{ConnectionStopReason, End, Error, NoMemory, SessionStopReason, TryClone};

/// A copy of the reason why the connection stopped, where it did.
pub(crate) fn connection_stop<S: Session>(
    session: &S,
) -> Result<Option<ConnectionStopReason>, NoMemory>
    ensures value { IfOk result (λ copy. copy ≡ (S.kept session.now).connection) }
    ensures copied { OnErr result (is_some (S.kept session.now).connection ≡ true) }
{
    match session.connection_stop_reason() {
        None => Ok(None),
        Some(reason) => Ok(Some(reason.try_clone()?)),
    }
}

/// A copy of the reason why the connection stopped, or that it was closed.
pub(crate) fn connection_stop_or_closed<S: Session>(
    session: &S,
) -> Result<ConnectionStopReason, NoMemory>
    ensures value { IfOk result (λ copy.
        copy ≡ reason_or_closed (S.kept session.now).connection) }
    ensures copied { OnErr result (is_some (S.kept session.now).connection ≡ true) }
{
    match session.connection_stop_reason() {
        None => Ok(ConnectionStopReason::Closed),
        Some(reason) => reason.try_clone(),
    }
}

/// Why a session stops that this side ends: a copy of its error, else why the connection stopped.
pub(crate) fn local_stop<S: Session>(
    session: &S,
    error: &Option<Error>,
) -> Result<SessionStopReason, NoMemory>
    ensures value { IfOk result (λ reason.
        reason ≡ local_stop error.now (S.kept session.now).connection) }
    ensures copied { OnErr result
        (copies_local error.now (S.kept session.now).connection ≡ true) }
{
    if let Some(error) = error {
        return Ok(SessionStopReason::EndedWithError(error.try_clone()?));
    }
    match connection_stop(session)? {
        Some(reason) => Ok(SessionStopReason::ConnectionStopped(reason)),
        None => Ok(SessionStopReason::Ended),
    }
}

/// What a session's stop by the peer's end takes from the connection's: nothing where the end has
/// an error.
pub(crate) fn connection_stop_for<S: Session>(
    session: &S,
    end: &End,
) -> Result<Option<ConnectionStopReason>, NoMemory>
    ensures value { IfOk result (λ copy. remote_stop end.now.error copy
        ≡ remote_stop end.now.error (S.kept session.now).connection) }
    ensures copied { OnErr result
        (copies_remote end.now.error (S.kept session.now).connection ≡ true) }
{
    if end.error.is_some() {
        return Ok(None);
    }
    connection_stop(session)
}

/// Why a session stops that the peer ends: its error, else why the connection stopped.
pub(crate) fn remote_stop(
    error: Option<Error>,
    connection: Option<ConnectionStopReason>,
) -> SessionStopReason
    ensures { result ≡ remote_stop error connection }
{
    match (error, connection) {
        (Some(error), _) => SessionStopReason::RemoteEndedWithError(error),
        (None, Some(reason)) => SessionStopReason::ConnectionStopped(reason),
        (None, None) => SessionStopReason::RemoteEnded,
    }
}
