//! Links that a peer attaches, on a session that an engine runs.

use amqp_accept_links::{
    AcceptorAttachError, CreditMode, LinkAcceptor, LinkEndpoint, SessionHandle,
};
use amqp_below_sessions::ListenerSessionEndpoint;
use amqp_engine_events::SessionEngine;
use amqp_links::Poll;
use amqp_txn_types::{Frames, SessionStopReason};
use std::alloc::Global;

/// Accepts the link whose attach waits longest. The frames are to be sent: an attach and, for a
/// link that receives, a flow of credit.
pub fn accept_link<S: ListenerSessionEndpoint>(
    alloc: Global,
    engine: &mut SessionEngine<S>,
) -> Poll<Result<(LinkEndpoint, Frames), AcceptorAttachError>> {
    let acceptor = LinkAcceptor::builder()
        .credit_mode(CreditMode::Auto(10))
        .build();
    let mut handle = SessionHandle::new(engine.session_mut());
    let answer = acceptor.accept(alloc, &mut handle);
    drop(handle);
    drop(acceptor);
    answer
}

/// Looks once for a link: its end with the frames to be sent, `None` where none waits or the one
/// that waited isn't accepted, or why the session stopped, after which none comes.
pub fn next_link<S: ListenerSessionEndpoint>(
    alloc: Global,
    engine: &mut SessionEngine<S>,
) -> Result<Option<(LinkEndpoint, Frames)>, SessionStopReason> {
    match accept_link(alloc, engine) {
        Poll::Pending => Ok(None), // no attach waits
        Poll::Ready(Ok(link)) => Ok(Some(link)),
        Poll::Ready(Err(AcceptorAttachError::SessionStopped(reason))) => Err(reason),
        Poll::Ready(Err(_error)) => Ok(None), // this link isn't accepted, the next may be
    }
}

/// Closes the listener, as who ends the session does: no attach waits from then on but those that
/// do, and once they are taken `next_link` answers why the session stopped.
pub fn close_listener<S: ListenerSessionEndpoint>(engine: &mut SessionEngine<S>) {
    engine.session_mut().close_listener();
}
