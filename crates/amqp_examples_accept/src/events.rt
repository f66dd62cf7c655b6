//! The events of a session.

use amqp_below_layer::SessionInnerError;
use amqp_below_sessions::Session;
use amqp_engine_events::{SessionEngine, SessionFrame, Turn};

/// Gives a frame that came to its session: what the turn sent is to be sent, and then its end.
pub fn take<S: Session>(
    engine: &mut SessionEngine<S>,
    frame: SessionFrame,
) -> Result<Turn, SessionInnerError> {
    match engine.on_incoming(frame) {
        Ok(turn) => Ok(turn),
        Err(fault) => {
            let turn = engine.on_error(&fault); // out of memory: it may be called again
            drop(fault);
            turn
        }
    }
}
