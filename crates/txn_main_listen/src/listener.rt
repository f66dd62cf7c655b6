//! The layer below a run over a listener.

ghost use Rattle.txn_main_listen.specs.Listeners.{IsNewListener};

use amqp_accept_at_once::AcceptingListener;
use amqp_accept_links::{ControlLinkAcceptor, LinkAcceptor};
use amqp_accept_listener::ListenerSession;
use amqp_below_sessions::PlainSession;
use amqp_engine_builder::Builder;
use amqp_txn_types::{OutgoingChannel, SessionState};
use std::alloc::Global;

/// A listener over a Mapped session of the default builder, with the default acceptor for control
/// links, that accepts each other link at once by the default acceptor. It takes no memory.
pub fn listener(alloc: Global) -> AcceptingListener<PlainSession>
    ensures { IsNewListener result }
{
    let session = Builder::new().into_session(alloc, OutgoingChannel(0), SessionState::Mapped);
    let listener = ListenerSession::new(alloc, session, ControlLinkAcceptor::default());
    AcceptingListener::new(alloc, listener, LinkAcceptor::new())
}
