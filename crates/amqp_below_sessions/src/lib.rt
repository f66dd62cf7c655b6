//! Sessions that keep links, begin and end, and their transactional calls.
//!
//! | type | is |
//! |---|---|
//! | [`Session`] | a layer with links that begins and ends |
//! | [`StopReason`] | why a session or its connection stopped |
//! | [`HandleDeclare`], [`HandleDischarge`] | the transactional calls of a session |
//! | [`ListenerSessionEndpoint`] | a session whose peer's attaches wait to be accepted |
//! | [`SenderAttachError`], [`ReceiverAttachError`] | why a link isn't attached |
//! | [`PlainSession`] | a session that keeps its links and does no transactions |
//!
//! A session says, in contracts, what each call answers and leaves (`calls`), so what stands above
//! can say which answer is the session's own; what wraps a session passes them on by one definition
//! (`passed`). What a call leaves of the names and of the stop reasons is said for every session. A
//! [`PlainSession`] keeps links by name, by input handle and by output handle; that the three agree
//! is an invariant of the type that holds them:
//!
//! ```text
//! let mut session = PlainSession::new(alloc, OutgoingChannel(0), SessionState::Mapped, begin);
//! let output = session.allocate_link(name, relay)?;
//! session.on_incoming_attach(attach)?;
//! ```
//!
//! Below stand the types of `amqp_txn_types`, the layer of `amqp_below_layer` and the ids of
//! `amqp_below_ids`. The promise that this crate carries: a plain session answers each call by its
//! table; no call of any session but an attach that comes and those on the queue changes the queue
//! of a listener. 'The standard' is OASIS AMQP 1.0.
#![tactic(auto)]

mod attach_errors;
mod link_frames;
mod links;
mod listening;
mod numbers;
mod plain_session;
mod relay;
mod session;
mod session_errors;
mod state_moves;
mod stop_reason;
mod transacting;

pub use attach_errors::{ReceiverAttachError, SenderAttachError};
pub use link_frames::{control_error, link_flow};
pub use listening::ListenerSessionEndpoint;
pub use plain_session::PlainSession;
pub use relay::{NameState, Relay};
pub use session::Session;
pub use session_errors::{AllocLinkError, BeginError};
pub use stop_reason::StopReason;
pub use transacting::{AllocTxnIdError, CommitFault, HandleDeclare, HandleDischarge};
