//! A listener that accepts the peer's links as they come.
//!
//! | type | is |
//! |---|---|
//! | [`AcceptingListener`] | a listener in which no attach waits for somebody to accept it |
//!
//! ```text
//!  attach ──► the listener takes it
//!               │
//!               ├─ its session answered ──► that answer
//!               ├─ refused ───────────────► that refusal
//!               └─ queued ──► out of the queue ──► the acceptor
//!                                                    ├─ accepts ► attach, or attach and flow
//!                                                    └─ refuses ► Err
//! ```
//!
//! All other calls are the listener's. So a transfer on a link that the peer has attached reaches
//! the session, and a commit of it passes the session's review.
//!
//! ```text
//! let listener = ListenerSession::new(alloc, session, ControlLinkAcceptor::default());
//! let mut listener = AcceptingListener::new(alloc, listener, LinkAcceptor::new());
//! let frames = listener.on_incoming_attach(attach)?; // send them
//! ```
//!
//! Below stand the acceptors of `amqp_accept_links` and the listener of `amqp_accept_listener`. The
//! promise that this crate carries: after each attach the queue is as it was; a link that the
//! acceptor refuses is the call's Err; each Err is counted. 'The standard' is OASIS AMQP 1.0.
#![tactic(auto)]

mod accepting;
mod hearing;

pub use accepting::AcceptingListener;
