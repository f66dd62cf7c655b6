//! Frames that come for a session.

ghost use Rattle.std.specs.Prelude.{MatchBool, Ok, false};
ghost use Rattle.amqp_txn_types.specs.Counts.{Rose};
ghost use Rattle.amqp_engine_events.specs.declared.turn.Running.TheVariants as runnings;
ghost use Rattle.amqp_engine_events.specs.Incoming.{TakesBegin, TakesLink};
ghost use Rattle.amqp_engine_events.specs.States.{awaits_end};
ghost use Rattle.amqp_engine_events.specs.Turns.{CausedBy, Unasked, quiet};

use crate::states::awaits_end;
use crate::turn::{Running, Turn, quiet, sending};
use amqp_below_layer::{LayerBelow, SessionInnerError, take_frame};
use amqp_below_sessions::Session;
use amqp_txn_types::{Begin, Frame, IncomingChannel};
use std::alloc::Global;

/// A link's frame goes through the session, and what that gives back is to be sent. While the
/// peer's end is awaited it is dropped.
pub(crate) fn take_link<S: LayerBelow>(
    alloc: Global,
    session: &mut S,
    frame: Frame,
) -> Result<Turn, SessionInnerError>
    ensures takes { MatchBool (awaits_end (S.told session.old).fixed.state)
        (Unasked session.old session.new (Ok (quiet runnings.Waiting)) result)
        (TakesLink S.told S.incoming_gives S.check_gives S.window_gives session.old session.new
        frame result) }
    ensures cause { CausedBy false (Rose (S.told session.old).refusals
        (S.told session.new).refusals) result }
{
    if awaits_end(session.local_state()) {
        drop(frame);
        return Ok(quiet(alloc, Running::Waiting));
    }
    match take_frame(session, frame) {
        Ok(answers) => Ok(sending(answers)),
        Err(refusal) => Err(refusal.error),
    }
}

/// A begin is given to the session. While the peer's end is awaited it is dropped.
pub(crate) fn take_begin<S: Session>(
    alloc: Global,
    session: &mut S,
    channel: IncomingChannel,
    begin: Begin,
) -> Result<Turn, SessionInnerError>
    ensures takes { MatchBool (awaits_end (S.told session.old).fixed.state)
        (Unasked session.old session.new (Ok (quiet runnings.Waiting)) result)
        (TakesBegin S.told S.kept S.names S.calls.begin_received session.old session.new channel
        begin result) }
    ensures cause { CausedBy false (Rose (S.told session.old).refusals
        (S.told session.new).refusals) result }
{
    let state = session.local_state();
    if awaits_end(state) {
        drop(begin);
        return Ok(quiet(alloc, Running::Waiting));
    }
    match session.on_incoming_begin(channel, begin) {
        Ok(()) => Ok(quiet(alloc, Running::Continue)),
        Err(fault) => Err(fault),
    }
}
