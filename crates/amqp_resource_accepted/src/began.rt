//! Sessions that this side begins.

ghost use Rattle.std.specs.Prelude.{◌≡◌, None, IsSome};
ghost use Rattle.amqp_resource_accepted.specs.Began.{BeginsAny};

use amqp_below_connections::ConnectionEnd;
use amqp_below_sessions::{BeginError, PlainSession};
use amqp_engine_builder::Builder;
use amqp_engine_events::{ClientBegin, SessionEngine};
use amqp_resource_session::TxnSession;
use amqp_txn_types::{Begin, SessionState};
use std::alloc::Global;

/// A session of this side that sent its begin, and awaits the peer's.
#[derive(Drop)]
pub enum BeganSession {
    /// A session that does no transactions.
    Plain(ClientBegin<PlainSession>),
    /// A session that does.
    Transactional(ClientBegin<TxnSession<PlainSession>>),
}

/// Begins a session that does no transactions.
fn begin_plain<C: ConnectionEnd>(
    alloc: Global,
    builder: Builder,
    connection: &mut C,
) -> Result<(BeganSession, Begin), BeginError>
    requires { builder.control_link_acceptor ≡ None }
    ensures { BeginsAny C.told C.allocate_gives connection.old connection.new builder result }
{
    match builder.begin(alloc, connection) {
        Ok((client, begin)) => Ok((BeganSession::Plain(client), begin)),
        Err(error) => Err(error),
    }
}

/// Begins a session that does.
fn begin_transactional<C: ConnectionEnd>(
    alloc: Global,
    builder: Builder,
    connection: &mut C,
) -> Result<(BeganSession, Begin), BeginError>
    requires { IsSome builder.control_link_acceptor }
    ensures { BeginsAny C.told C.allocate_gives connection.old connection.new builder result }
{
    let channel = connection.allocate_session()?;
    let session = builder.into_session(alloc, channel, SessionState::Unmapped);
    let session = TxnSession::new(alloc, session);
    match SessionEngine::begin_client_session(alloc, session) {
        Ok((client, begin)) => Ok((BeganSession::Transactional(client), begin)),
        Err((session, error)) => {
            drop(session);
            Err(error)
        }
    }
}

/// Begins a session of this side on a channel that the connection gives: its begin is to be sent,
/// and the peer's is awaited. It is transactional exactly where the builder has an acceptor of
/// control links.
///
/// # Errors
///
/// - `LocalChannelMaxReached` exactly where the connection answers `ChannelMaxReached`.
/// - `ConnectionStopped` exactly where the connection answers `ConnectionStopped`.
/// - Else `NoMemory` alone, after which a channel may have been given.
pub fn begin<C: ConnectionEnd>(
    alloc: Global,
    builder: Builder,
    connection: &mut C,
) -> Result<(BeganSession, Begin), BeginError>
    ensures { BeginsAny C.told C.allocate_gives connection.old connection.new builder result }
{
    if builder.control_link_acceptor.is_some() {
        begin_transactional(alloc, builder, connection)
    } else {
        begin_plain(alloc, builder, connection)
    }
}
