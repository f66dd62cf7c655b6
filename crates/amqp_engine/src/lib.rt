//! Sessions that are built and run, under one name.
//!
//! | items | are |
//! |---|---|
//! | [`Builder`] | a session, built field by field, of `amqp_engine_builder` |
//! | [`SessionEngine`], [`ClientBegin`] | a session that is run by its events |
//! | [`Turn`], [`SessionControl`] | its answers and what it is asked, of `amqp_engine_events` |
//! | [`take_frame`], [`TakeError`] | one frame through a session, of `amqp_below_layer` |
//! | [`BeginError`], [`SessionInnerError`] | why a session doesn't begin, and what a call refused |
//! | [`Answers`], [`Echoes`], [`Drawn`] | frames to be sent, of a commit, and the ids drawn |
//! | [`AllocLinkError`], [`AllocTxnIdError`] | why a control isn't granted |
//! | [`SenderAttachError`], [`ReceiverAttachError`] | why a link isn't attached on its session |
//! | [`Poll`] | what a call answers that has to be made again, of `amqp_links`; it isn't std's |
//!
//! The session is the engine's, which lends it: so a controller is attached on it, and the links of
//! its peer are accepted. Each frame that comes is given to the engine by `take`, which the page of
//! `amqp_engine_events` shows (`engine_controller` of `amqp_examples_accept`):
//!
//! ```rust
//! /// What the wait for a controller finds.
//! pub type Attached = Progress<Attaching, Result<Controller<WireSender>, SenderAttachError>>;
//!
//! /// Asks for a control link on the engine's session: the attach is to be sent.
//! pub fn attach_control<S: Session>(
//!     alloc: Global,
//!     engine: &mut SessionEngine<S>,
//!     name: Text,
//! ) -> Result<(Attaching, Attach), SenderAttachError> {
//!     Controller::attach(alloc, engine.session_mut(), name)
//! }
//!
//! /// Gives a frame that came to the session, and then looks for the peer's attach.
//! pub fn hear_frame<S: Session>(
//!     engine: &mut SessionEngine<S>,
//!     frame: SessionFrame,
//!     attaching: Attaching,
//! ) -> (Result<Turn, SessionInnerError>, Attached) {
//!     let turn = take(engine, frame);
//!     (turn, attaching.poll(engine.session_mut()))
//! }
//! ```
//!
//! This crate has nothing of its own: it passes these on, and their definitions too.
#![tactic(auto)]

pub use amqp_below_ids::Drawn;
pub use amqp_below_layer::{Answers, Echoes, SessionInnerError, TakeError, take_frame};
pub use amqp_below_sessions::{
    AllocLinkError, AllocTxnIdError, BeginError, ReceiverAttachError, SenderAttachError,
};
pub use amqp_engine_builder::Builder;
pub use amqp_engine_events::{
    ClientBegin, ConnectionControl, ControlReply, Running, SessionControl, SessionEngine,
    SessionFrame, SessionFrameBody, Turn,
};
pub use amqp_links::Poll;
