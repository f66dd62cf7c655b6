//! Sessions that are accepted or begun with what a builder says of control links.
//!
//! | item | is |
//! |---|---|
//! | [`SessionAcceptor`] | accepts the sessions that the peer began |
//! | [`AcceptedSession`] | the engine of such a session, transactional or plain |
//! | [`begin`], [`BeganSession`] | the same for a session of this side |
//!
//! ```text
//! fn accept<C: ConnectionEnd>(
//!     alloc: Global,
//!     connection: &mut C,
//! ) -> Poll<Result<(AcceptedSession, Begin), BeginError>> {
//!     let acceptor = SessionAcceptor::builder()
//!         .control_link_acceptor(ControlLinkAcceptor::default()) // else the session is plain
//!         .build();
//!     acceptor.accept(alloc, connection) // send the begin
//! }
//! ```
//!
//! The links that the peer attaches wait at the session's listener. They are accepted on the
//! session that its engine lends:
//!
//! ```text
//! fn accept_link<S: ListenerSessionEndpoint>(
//!     alloc: Global,
//!     engine: &mut SessionEngine<S>,
//! ) -> Poll<Result<(LinkEndpoint, Frames), AcceptorAttachError>> {
//!     let acceptor = LinkAcceptor::new();
//!     let mut handle = SessionHandle::new(engine.session_mut());
//!     acceptor.accept(alloc, &mut handle) // send the frames: an attach, and a flow of credit
//! }
//! ```
//!
//! Who ends a session closes its queue too, by `engine.session_mut().close_listener()`: once the
//! queue is empty, `accept` answers why the session stopped.
//!
//! Below stand the transactional session of `amqp_resource_session`, the listener of
//! `amqp_accept_listener`, and the engine and the builder of sessions. The promise that this crate
//! carries: an accepted session is a new one with the builder's fields, on the channel that the
//! connection gives, that took the peer's begin and sends its own; each other answer comes exactly
//! where its table says. 'The standard' is OASIS AMQP 1.0.
#![tactic(auto)]

mod accepted;
mod acceptor;
mod acceptor_builder;
mod began;

pub use accepted::AcceptedSession;
pub use acceptor::SessionAcceptor;
pub use acceptor_builder::SessionAcceptorBuilder;
pub use began::{BeganSession, begin};
