//! The engine of a session: each event by one call, which answers what is to be sent.
//!
//! | item | is |
//! |---|---|
//! | [`SessionEngine`] | a session that is run by its events |
//! | [`ClientBegin`] | a session of this side whose begin was sent, until the peer's comes |
//! | [`SessionFrame`] | a frame as it comes |
//! | [`SessionControl`], [`ConnectionControl`] | what is asked of a session and of a connection |
//! | [`Turn`], [`Running`], [`ControlReply`] | what an event is answered: frames and a reply |
//!
//! A session of this side begins by [`SessionEngine::begin_client_session`], and is run by its
//! engine once the peer's begin has come. For each frame that comes then (`events` of
//! `amqp_examples_accept`):
//!
//! ```rust
//! /// Gives a frame that came to its session: what the turn sent is to be sent, and then its end.
//! pub fn take<S: Session>(
//!     engine: &mut SessionEngine<S>,
//!     frame: SessionFrame,
//! ) -> Result<Turn, SessionInnerError> {
//!     match engine.on_incoming(frame) {
//!         Ok(turn) => Ok(turn),
//!         Err(fault) => {
//!             let turn = engine.on_error(&fault); // out of memory: it may be called again
//!             drop(fault);
//!             turn
//!         }
//!     }
//! }
//! ```
//!
//! After `Running::Stop` the session is taken out by [`SessionEngine::finish`]. Until then it is
//! lent by [`SessionEngine::session_mut`], so that a peer's links are accepted on it and a
//! controller is attached to it.
//!
//! The states of a session (part 2 of the standard, section 2.5.5), and the calls that move it:
//!
//! ```text
//!  begin_client_session                     begin_listener_session
//!           │                                         │
//!       Unmapped ──── on_incoming: begin ─────► BeginReceived
//!           │ a begin is sent                         │ a begin is sent
//!           ▼                                         │
//!       BeginSent ─── on_frame, or ────────► Mapped ◄─┘
//!                     on_incoming: begin     │    │
//!                                            │    │
//!      on_incoming: end. A reason is kept,   │    │  on_control: End (a reason is kept),
//!      and an end is sent                    │    │  on_error, end_session: an end is sent
//!                      ┌─────────────────────┘    ├───────────────┐
//!                      ▼                          ▼ no error      ▼ with an error
//!                 EndReceived                  EndSent        Discarding      Waiting: what comes
//!                      │                          │               │           is dropped, until
//!                      │ at once, or              └───────┬───────┘           the peer's end
//!                      │ end_session                      │ on_incoming: end
//!                      ▼                                  │
//!                  Unmapped ◄─────────────────────────────┘
//!                    Stop
//! ```
//!
//! That the peer's end is awaited is the state `EndSent` or `Discarding`, and nothing else. In
//! `BeginSent` and `BeginReceived` a session may be told to end as in `Mapped`. The first reason to
//! stop is kept, of the session and of its connection.
//!
//! Contracts say of each event which of the session's own calls was made and what it answered, by
//! the relations of its traits, over any session. Below stand the sessions of `amqp_below_sessions`
//! and `take_frame` of `amqp_below_layer`. The promise that this crate carries: a session is run by
//! the table of its events. 'The standard' is OASIS AMQP 1.0.
#![tactic(auto)]

mod begin;
mod controls;
mod end;
mod engine;
mod faults;
mod incoming;
mod outgoing;
mod reasons;
mod serve;
mod states;
mod turn;

pub use begin::ClientBegin;
pub use controls::{ConnectionControl, ControlReply, SessionControl};
pub use engine::SessionEngine;
pub use turn::{Running, SessionFrame, SessionFrameBody, Turn};
