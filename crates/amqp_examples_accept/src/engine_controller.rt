//! A controller on a session that an engine runs.

use crate::events::take;
use amqp_below_layer::SessionInnerError;
use amqp_below_sessions::{SenderAttachError, Session};
use amqp_controller_transactions::{Attaching, Controller};
use amqp_engine_events::{SessionEngine, SessionFrame, Turn};
use amqp_links::{Progress, WireSender};
use amqp_txn_types::{Attach, Text};
use std::alloc::Global;

/// What the wait for a controller finds.
pub type Attached = Progress<Attaching, Result<Controller<WireSender>, SenderAttachError>>;

/// Asks for a control link on the engine's session: the attach is to be sent.
pub fn attach_control<S: Session>(
    alloc: Global,
    engine: &mut SessionEngine<S>,
    name: Text,
) -> Result<(Attaching, Attach), SenderAttachError> {
    Controller::attach(alloc, engine.session_mut(), name)
}

/// Gives a frame that came to the session, and then looks for the peer's attach.
pub fn hear_frame<S: Session>(
    engine: &mut SessionEngine<S>,
    frame: SessionFrame,
    attaching: Attaching,
) -> (Result<Turn, SessionInnerError>, Attached) {
    let turn = take(engine, frame);
    (turn, attaching.poll(engine.session_mut()))
}
