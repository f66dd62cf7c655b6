//! A listener: a session whose peer's attaches wait until somebody accepts them.
//!
//! | type | is |
//! |---|---|
//! | [`ListenerSession`] | a session with a queue of attaches, and flows that wait for a link |
//!
//! An attach takes one of three ways:
//!
//! ```text
//!  attach ──► how is its name known?
//!               │
//!               ├─ Waiting ──────────────────────► the session in it answers
//!               │
//!               └─ Unknown, Taken ─► the queue
//!                                      ├─ open ──► it waits there: Ok, no frames
//!                                      └─ closed ► Unknown: UnattachedHandle
//!                                                  Taken: HandleInUse
//! ```
//!
//! A flow for a handle that isn't attached is held for it, and is passed on to the link that is
//! allocated with that handle; such a transfer is dropped. Both are answered Ok.
//!
//! ```text
//! let mut listener = ListenerSession::new(alloc, session, ControlLinkAcceptor::default());
//! listener.on_incoming_attach(attach)?; // it waits
//! listener.on_incoming_flow(flow)?; // its link isn't allocated yet: held
//! let Some(attach) = listener.next_attach() else { .. };
//! let input = InputHandle(attach.handle.0);
//! let output = listener.allocate_incoming_link(attach.name, relay, input)?; // replayed
//! ```
//!
//! Who ends the session closes the queue, and those who accept from it are then told the stop:
//!
//! ```text
//! listener.set_session_stop_reason(SessionStopReason::Ended);
//! listener.close_listener(); // what waits is still given, and nothing more is queued
//! ```
//!
//! Below stand the sessions of `amqp_below_sessions` and the acceptor of control links of
//! `amqp_accept_links`. The promise that this crate carries: the queue gives attaches in the order
//! in which they came, and its owner may take back the last; no call but an attach that comes and
//! those on the queue changes it; held flows are replayed in that order where their handle is
//! allocated, and stay held where that is refused. 'The standard' is OASIS AMQP 1.0.
#![tactic(auto)]

mod attach_queue;
mod control_links;
mod hearing;
mod held_flows;
mod listener;

pub use listener::ListenerSession;
