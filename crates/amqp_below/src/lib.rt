//! The outsides that a transactional session works on, under one name.
//!
//! | items | are |
//! |---|---|
//! | [`LayerBelow`], [`OpenSession`], [`take_frame`] | what takes the frames that are handed on |
//! | [`Session`], [`PlainSession`] | sessions with links |
//! | [`HandleDeclare`], [`HandleDischarge`] | the transactional calls of a session |
//! | [`ListenerSessionEndpoint`], [`ConnectionEnd`] | the ends that acceptors work on |
//! | [`MemoryConnection`] | a connection in memory |
//! | [`Recorder`] | a layer or a session that keeps what the one in it took |
//! | [`IdSource`], [`Drawn`], [`ListIds`], [`CountIds`] | where the ids of declares come from |
//! | [`ByteSource`], [`SureSource`], [`MemorySource`] | where octets come from |
//! | [`ByteSink`], [`SureSink`], [`MemorySink`] | where octets go |
//!
//! They are from `amqp_below_layer`, `amqp_below_sessions`, `amqp_below_connections`,
//! `amqp_below_recorder`, `amqp_below_ids` and `amqp_below_streams`. [`Poll`] and [`Progress`] are
//! those of `amqp_links`, not std's.
//!
//! A layer of one's own refuses a commit as a whole by its `review` (`bounded_queue` of
//! `amqp_examples`, which docs/GUIDE.md explains):
//!
//! ```rust
//! fn review(&mut self, frames: &Frames) -> Result<Verdict, NoMemory> {
//!     if message_count(frames.as_slice()) <= self.room() {
//!         return Ok(Verdict::Accept);
//!     }
//!     count_one(&mut self.vetoes);
//!     Ok(Verdict::Veto)
//! }
//! ```
//!
//! This crate has nothing of its own: it passes these on, and their definitions too.
#![tactic(auto)]

pub use amqp_below_connections::{
    AllocSessionError, ConnectionEnd, IncomingSession, MemoryConnection,
};
pub use amqp_below_ids::{CountIds, Drawn, IdSource, ListIds, numbered_id};
pub use amqp_below_layer::{
    Answers, Echoes, Exchanges, LayerBelow, OpenSession, Openings, Refusal, Refusals, Reviews,
    SessionInnerError, TakeError, Tells, Verdict, check_given, take_frame,
};
pub use amqp_below_recorder::Recorder;
pub use amqp_below_sessions::{
    AllocLinkError, AllocTxnIdError, BeginError, CommitFault, HandleDeclare, HandleDischarge,
    ListenerSessionEndpoint, NameState, PlainSession, ReceiverAttachError, Relay,
    SenderAttachError, Session, StopReason,
};
pub use amqp_below_streams::{
    ByteSink, ByteSource, Failed, MemorySink, MemorySource, SureSink, SureSource,
};
pub use amqp_links::{Poll, Progress};
