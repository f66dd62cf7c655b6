//! The states of a session, as its engine sees them. Part 2 of the standard, section 2.5.5.

ghost use Rattle.std.specs.Prelude.{◌≡◌};
ghost use Rattle.amqp_engine_events.specs.States.{awaits_end, is_mapped};

use amqp_txn_types::SessionState;

/// Whether frames pass.
pub(crate) fn is_mapped(state: SessionState) -> bool
    ensures { result ≡ is_mapped state }
{
    matches!(state, SessionState::Mapped)
}

/// Whether an end was sent and the peer's is awaited.
pub(crate) fn awaits_end(state: SessionState) -> bool
    ensures { result ≡ awaits_end state }
{
    matches!(state, SessionState::EndSent | SessionState::Discarding)
}
