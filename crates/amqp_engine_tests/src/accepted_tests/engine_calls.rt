//! The calls of an accepted session's engine. Each says nothing of the session, so that each call of
//! the engine is proved once.

use crate::accepted_tests::test_values::{Listening, incoming, transactional};
use amqp_below_ids::CountIds;
use amqp_below_layer::SessionInnerError;
use amqp_engine_events::{
    ControlReply, SessionControl, SessionEngine, SessionFrame, SessionFrameBody, Turn,
};
use amqp_resource_accepted::*;
use amqp_test_values::{leak, value_of};
use amqp_txn_types::{Frame, OutgoingChannel, TransactionError, TransactionId};
use std::alloc::Global;

/// The engine of a session that does transactions.
pub type Engine = SessionEngine<Listening>;

/// The engine of a session that does transactions, where it is one.
pub fn transactional_engine(session: AcceptedSession) -> Option<Engine> {
    match session {
        AcceptedSession::Transactional(engine) => Some(engine),
        AcceptedSession::Plain(engine) => {
            leak(engine);
            None
        }
    }
}

/// A session that was accepted.
pub fn accepted(alloc: Global) -> Option<Engine> {
    let acceptor = transactional();
    let answer = acceptor.accept_incoming_session(alloc, incoming(), OutgoingChannel(4));
    leak(acceptor);
    let (session, begin) = value_of(answer)?;
    leak(begin);
    transactional_engine(session)
}

/// What the engine answers to a frame.
pub fn taken(engine: &mut Engine, frame: Frame) -> Result<Turn, SessionInnerError> {
    engine.on_incoming(SessionFrame {
        channel: 3,
        body: SessionFrameBody::Link(frame),
    })
}

/// What the engine answers to a control.
pub fn asked(engine: &mut Engine, control: SessionControl) -> Result<Turn, SessionInnerError> {
    engine.on_control(control, &mut CountIds::new())
}

/// How many frames are to be sent for a frame; None where it was refused.
pub fn given_for(engine: &mut Engine, frame: Frame) -> Option<usize> {
    let turn = value_of(taken(engine, frame))?;
    let count = turn.sent.given.len();
    leak(turn);
    Some(count)
}

/// How many frames a commit handed, or how it ended otherwise; None where it was refused.
pub fn committed(
    engine: &mut Engine,
    txn_id: TransactionId,
) -> Option<Result<usize, TransactionError>> {
    let turn = value_of(asked(engine, SessionControl::CommitTransaction { txn_id }))?;
    let found = match &turn.reply {
        ControlReply::Committed(Ok(echoes)) => Some(Ok(echoes.len())),
        ControlReply::Committed(Err(error)) => Some(Err(*error)),
        _ => None,
    };
    leak(turn);
    found
}
