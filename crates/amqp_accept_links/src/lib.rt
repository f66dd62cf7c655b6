//! Acceptors: they answer the attach of a peer, and open its link on a session.
//!
//! | item | is |
//! |---|---|
//! | [`LinkAcceptor`] | accepts links of both roles, whose target takes messages |
//! | [`ControlLinkAcceptor`] | accepts control links, whose target is a coordinator |
//! | [`LocalSenderLinkAcceptor`], [`LocalReceiverLinkAcceptor`] | what they give the local end |
//! | [`SharedLinkAcceptorFields`] | what all their links have in common |
//! | [`Builder`] | builds them field by field |
//! | [`OnDynamic`] | a rule for nodes that the peer wants to be made: [`RejectDynamic`], [`Ask`] |
//! | [`Opening`] | a link that is ready to be opened by a session |
//! | [`SessionHandle`] | a session that is lent to accept its links |
//!
//! ```text
//! let acceptor = LinkAcceptor::builder().credit_mode(CreditMode::Auto(10)).build();
//! let mut handle = SessionHandle::new(&mut session);
//! match acceptor.accept(alloc, &mut handle) {
//!     Poll::Pending => {}                              // no attach waits
//!     Poll::Ready(Ok((endpoint, frames))) => { .. }    // send the frames
//!     Poll::Ready(Err(error)) => { .. }
//! }
//! ```
//!
//! An attach is accepted in three steps, over any session:
//!
//! ```text
//!  attach ──► make ready ──► allocate ──────► send the reply ──► attach, or attach and flow
//!                │              │                   │
//!             no memory     refused: Alloc     flow refused: the handle is freed, Session
//! ```
//!
//! Below stand the types of `amqp_txn_types`, the sessions of `amqp_below_sessions` and the links
//! of `amqp_links`. The promise that this crate carries: a settle mode that isn't supported becomes
//! the fallback; the local termini, the attach that answers the peer's and the flow are exactly
//! those that the acceptor's fields say, with the answer of the caller's rule; each refusal has its
//! cause; a link that is accepted from a queue leaves that queue without its first attach, whatever
//! the session. 'The standard' is OASIS AMQP 1.0.
#![tactic(auto)]

mod builder;
mod control;
mod credit;
mod dynamic;
mod endpoint;
mod fields;
mod handle;
mod link;
mod modes;
mod open_link;
mod receiver;
mod refusals;
mod reply;
mod sender;
mod termini;

pub use builder::{Acceptor, Builder};
pub use control::ControlLinkAcceptor;
pub use credit::CreditMode;
pub use dynamic::{Ask, OnDynamic, RejectDynamic};
pub use endpoint::{AcceptorAttachError, LinkEndpoint};
pub use fields::SharedLinkAcceptorFields;
pub use handle::{ListenerSessionHandle, SessionHandle};
pub use link::{LinkAcceptor, LocalEnds};
pub use modes::{SupportedReceiverSettleModes, SupportedSenderSettleModes};
pub use open_link::{OpenError, Opening};
pub use receiver::LocalReceiverLinkAcceptor;
pub use reply::Reply;
pub use sender::LocalSenderLinkAcceptor;
pub use termini::{TargetKind, Terminus};
