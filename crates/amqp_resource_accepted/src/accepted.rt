//! Sessions that were accepted.

ghost use Rattle.std.specs.Prelude.{◌≡◌, IfOk, None, Some};
ghost use Rattle.amqp_resource_accepted.specs.Accepted.{HasBegun, IsAccepted, begin_answered, parts_of};

use amqp_accept_links::ControlLinkAcceptor;
use amqp_accept_listener::ListenerSession;
use amqp_below_connections::IncomingSession;
use amqp_below_sessions::{PlainSession, Session};
use amqp_engine_builder::Builder;
use amqp_engine_events::SessionEngine;
use amqp_resource_session::TxnSession;
use amqp_txn_types::{Begin, IncomingChannel, NoMemory, OutgoingChannel, SessionState, TryClone};
use std::alloc::Global;

/// The engine of a session that was accepted, whose peer's attaches wait at a listener.
#[derive(Drop)]
pub enum AcceptedSession {
    /// A session that does no transactions.
    Plain(SessionEngine<ListenerSession<PlainSession>>),
    /// A session that does.
    Transactional(SessionEngine<TxnSession<ListenerSession<PlainSession>>>),
}

/// What a session that is accepted is made of. It is there before the peer's session is taken, so
/// that none is lost where memory runs out.
#[derive(Drop)]
pub(crate) struct Parts {
    /// The session's begin.
    pub(crate) begin: Begin,
    /// The begin that is sent.
    pub(crate) sent: Begin,
    /// How its control links are accepted, where they are.
    pub(crate) control: Option<ControlLinkAcceptor>,
}

/// The parts that a builder says, copied.
pub(crate) fn copy_parts(builder: &Builder) -> Result<Parts, NoMemory>
    ensures { IfOk result (λ parts. parts ≡ parts_of builder.now) }
{
    let mut copy = builder.try_clone()?;
    let control = copy.control_link_acceptor.take();
    let begin = copy.into_begin();
    match begin.try_clone() {
        Ok(sent) => Ok(Parts {
            begin,
            sent,
            control,
        }),
        Err(error) => {
            drop(begin);
            drop(control);
            Err(error)
        }
    }
}

/// The session of a begin that is sent, with the peer's begin.
fn with_peers_begin(
    alloc: Global,
    begin: Begin,
    begun: IncomingSession,
    channel: OutgoingChannel,
) -> PlainSession
    ensures { HasBegun result begin begun channel }
{
    let mut session = PlainSession::new(alloc, channel, SessionState::BeginSent, begin);
    let incoming = IncomingChannel(begun.channel);
    let Ok(()) = session.on_incoming_begin(incoming, begun.begin) else {
        unreachable!()
    };
    session
}

/// A session that does no transactions.
fn accept_plain(
    alloc: Global,
    begin: Begin,
    begun: IncomingSession,
    channel: OutgoingChannel,
) -> AcceptedSession
    ensures { IsAccepted None result begin begun channel }
{
    let session = with_peers_begin(alloc, begin, begun, channel);
    let listener = ListenerSession::new(alloc, session, ControlLinkAcceptor::default());
    AcceptedSession::Plain(SessionEngine::new(alloc, listener))
}

/// A session that does transactions.
fn accept_transactional(
    alloc: Global,
    begin: Begin,
    begun: IncomingSession,
    channel: OutgoingChannel,
    control: ControlLinkAcceptor,
) -> AcceptedSession
    ensures { IsAccepted (Some control) result begin begun channel }
{
    let session = with_peers_begin(alloc, begin, begun, channel);
    let listener = ListenerSession::new(alloc, session, control);
    let session = TxnSession::new(alloc, listener);
    AcceptedSession::Transactional(SessionEngine::new(alloc, session))
}

/// The session of these parts with the peer's begin, and the begin that is to be sent.
pub(crate) fn accept_parts(
    alloc: Global,
    parts: Parts,
    begun: IncomingSession,
    channel: OutgoingChannel,
) -> (AcceptedSession, Begin)
    ensures session { IsAccepted parts.control result.0 parts.begin begun channel }
    ensures begin { result.1 ≡ begin_answered parts.sent begun }
{
    let begin = parts.begin;
    let mut sent = parts.sent;
    sent.remote_channel = Some(begun.channel);
    let session = match parts.control {
        None => accept_plain(alloc, begin, begun, channel),
        Some(control) => accept_transactional(alloc, begin, begun, channel, control),
    };
    (session, sent)
}
