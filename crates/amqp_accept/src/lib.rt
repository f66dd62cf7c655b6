//! Links and sessions that a peer begins, under one name.
//!
//! | from `amqp_accept_links` | |
//! |---|---|
//! | [`LinkAcceptor`], [`ControlLinkAcceptor`], [`Builder`] | what answers a peer's attach |
//! | [`LocalSenderLinkAcceptor`] | what an acceptor gives its local senders |
//! | [`LocalReceiverLinkAcceptor`] | what it gives its local receivers |
//! | [`SharedLinkAcceptorFields`] | what it gives both |
//! | [`OnDynamic`], [`RejectDynamic`], [`Ask`] | rules for nodes that the peer wants to be made |
//! | [`LinkEndpoint`], [`AcceptorAttachError`] | a link that was accepted, and why one is not |
//! | [`SessionHandle`] | the session that is lent for it |
//!
//! | from `amqp_accept_listener`, `amqp_accept_at_once` | |
//! |---|---|
//! | [`ListenerSession`] | a session whose peer's attaches wait to be accepted |
//! | [`AcceptingListener`] | a listener that accepts each link as it comes |
//!
//! | from below | |
//! |---|---|
//! | [`ListenerSessionEndpoint`] | a session from whose queue links are accepted |
//! | [`ConnectionEnd`], [`MemoryConnection`] | the end of a connection, and one in memory |
//! | [`Poll`] | what `accept` answers; it isn't std's |
//! | [`SenderAttachError`], [`ReceiverAttachError`], [`AllocLinkError`] | why there is no link |
//! | [`BeginError`] | why a session isn't begun |
//!
//! The links of a session that an acceptor of sessions accepted, which an engine runs (both are of
//! `amqp_engine` and `amqp_resource`). An attach that came by `engine.on_incoming(frame)` waits in
//! the session's queue; nothing wakes who accepts it, so after each turn one looks (`links` of
//! `amqp_examples_accept`):
//!
//! ```rust
//! /// Accepts the link whose attach waits longest. The frames are to be sent: an attach and, for a
//! /// link that receives, a flow of credit.
//! pub fn accept_link<S: ListenerSessionEndpoint>(
//!     alloc: Global,
//!     engine: &mut SessionEngine<S>,
//! ) -> Poll<Result<(LinkEndpoint, Frames), AcceptorAttachError>> {
//!     let acceptor = LinkAcceptor::builder()
//!         .credit_mode(CreditMode::Auto(10))
//!         .build();
//!     let mut handle = SessionHandle::new(engine.session_mut());
//!     let answer = acceptor.accept(alloc, &mut handle);
//!     drop(handle);
//!     drop(acceptor);
//!     answer
//! }
//!
//! /// Looks once for a link: its end with the frames to be sent, `None` where none waits or the one
//! /// that waited isn't accepted, or why the session stopped, after which none comes.
//! pub fn next_link<S: ListenerSessionEndpoint>(
//!     alloc: Global,
//!     engine: &mut SessionEngine<S>,
//! ) -> Result<Option<(LinkEndpoint, Frames)>, SessionStopReason> {
//!     match accept_link(alloc, engine) {
//!         Poll::Pending => Ok(None), // no attach waits
//!         Poll::Ready(Ok(link)) => Ok(Some(link)),
//!         Poll::Ready(Err(AcceptorAttachError::SessionStopped(reason))) => Err(reason),
//!         Poll::Ready(Err(_error)) => Ok(None), // this link isn't accepted, the next may be
//!     }
//! }
//! ```
//!
//! Who ends a session closes its queue, however the listener is wrapped: what waits is still given
//! and then `accept` answers `SessionStopped`. With the queue open it stays `Pending`.
//!
//! ```rust
//! /// Closes the listener, as who ends the session does: no attach waits from then on but those that
//! /// do, and once they are taken `next_link` answers why the session stopped.
//! pub fn close_listener<S: ListenerSessionEndpoint>(engine: &mut SessionEngine<S>) {
//!     engine.session_mut().close_listener();
//! }
//! ```
//!
//! This crate has nothing of its own: it passes these on, and their definitions too.
#![tactic(auto)]

pub use amqp_accept_at_once::AcceptingListener;
pub use amqp_accept_links::{
    Acceptor, AcceptorAttachError, Ask, Builder, ControlLinkAcceptor, CreditMode, LinkAcceptor,
    LinkEndpoint, ListenerSessionHandle, LocalEnds, LocalReceiverLinkAcceptor,
    LocalSenderLinkAcceptor, OnDynamic, OpenError, Opening, RejectDynamic, Reply, SessionHandle,
    SharedLinkAcceptorFields, SupportedReceiverSettleModes, SupportedSenderSettleModes, TargetKind,
    Terminus,
};
pub use amqp_accept_listener::ListenerSession;
pub use amqp_below_connections::{
    AllocSessionError, ConnectionEnd, IncomingSession, MemoryConnection,
};
pub use amqp_below_sessions::{
    AllocLinkError, BeginError, ListenerSessionEndpoint, ReceiverAttachError, SenderAttachError,
};
pub use amqp_links::Poll;
