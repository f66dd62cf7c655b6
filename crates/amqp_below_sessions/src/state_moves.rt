//! How the state of a session moves. Part 2 of the standard, section 2.5.5 (session states).

ghost use Rattle.std.specs.Prelude.{◌≡◌, Option, Some, MatchResult};
ghost use Rattle.amqp_below_layer.specs.declared.inner_error.SessionInnerError.{SessionInnerError};
ghost use Rattle.amqp_below_layer.specs.declared.inner_error.SessionInnerError.TheVariants as faults;
ghost use Rattle.amqp_txn_types.specs.declared.small.SessionState.TheVariants.{Mapped};
ghost use Rattle.amqp_below_sessions.specs.SessionStates as moves;
ghost use Rattle.amqp_below_sessions.specs.Plain.{mapped_fault};

use amqp_below_layer::SessionInnerError;
use amqp_txn_types::SessionState;

/// Refuses with `IllegalState` in each state but Mapped.
pub fn require_mapped(state: SessionState) -> Result<(), SessionInnerError>
    ensures { MatchResult result (λ done. state ≡ Mapped)
        (λ error. (error ≡ faults.IllegalState)
        × ((fault : Option SessionInnerError) → mapped_fault state fault ≡ Some faults.IllegalState)) }
{
    match state {
        SessionState::Mapped => Ok(()),
        SessionState::Unmapped
        | SessionState::BeginSent
        | SessionState::BeginReceived
        | SessionState::EndSent
        | SessionState::EndReceived
        | SessionState::Discarding => Err(SessionInnerError::IllegalState),
    }
}

/// The state once a begin is sent.
pub fn begin_sent(state: SessionState) -> Option<SessionState>
    ensures { result ≡ moves.begin_sent state }
{
    match state {
        SessionState::Unmapped => Some(SessionState::BeginSent),
        SessionState::BeginReceived => Some(SessionState::Mapped),
        SessionState::BeginSent
        | SessionState::Mapped
        | SessionState::EndSent
        | SessionState::EndReceived
        | SessionState::Discarding => None,
    }
}

/// The state once a begin came.
pub fn begin_received(state: SessionState) -> Option<SessionState>
    ensures { result ≡ moves.begin_received state }
{
    match state {
        SessionState::Unmapped => Some(SessionState::BeginReceived),
        SessionState::BeginSent => Some(SessionState::Mapped),
        SessionState::BeginReceived
        | SessionState::Mapped
        | SessionState::EndSent
        | SessionState::EndReceived
        | SessionState::Discarding => None,
    }
}

/// The state once an end is sent, with an error or without.
pub fn end_sent(with_error: bool, state: SessionState) -> Option<SessionState>
    ensures { result ≡ moves.end_sent with_error state }
{
    match state {
        SessionState::Mapped | SessionState::BeginSent | SessionState::BeginReceived => Some(
            if with_error {
                SessionState::Discarding
            } else {
                SessionState::EndSent
            },
        ),
        SessionState::EndReceived => Some(SessionState::Unmapped),
        SessionState::Unmapped | SessionState::EndSent | SessionState::Discarding => None,
    }
}

/// The state once an end came.
pub fn end_received(state: SessionState) -> Option<SessionState>
    ensures { result ≡ moves.end_received state }
{
    match state {
        SessionState::Mapped => Some(SessionState::EndReceived),
        SessionState::EndSent | SessionState::Discarding => Some(SessionState::Unmapped),
        SessionState::Unmapped
        | SessionState::BeginSent
        | SessionState::BeginReceived
        | SessionState::EndReceived => None,
    }
}
