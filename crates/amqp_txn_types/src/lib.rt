//! The types of AMQP 1.0 that transactions need, and what a transaction does to its frames.
//!
//! Names and meanings are those of the standard, OASIS AMQP 1.0: primitive types (part 1),
//! performatives (part 2, section 2.7), delivery states (part 3, section 3.4), coordination (part
//! 4). Octets and text stand in list types that a contract sees as lists; the trait [`AsOctets`],
//! which is to be imported, says how many octets they are, and each by its place. Whatever may run
//! out of memory says so by [`NoMemory`], and copies are made by [`TryClone`].
//!
//! A resource keeps the frames of a transaction, and hands each on stripped of its transaction:
//!
//! ```
//! let txn_id = TransactionId::new(b"\x01")?;
//! let accepted = TransactionalState::new(txn_id).outcome(Outcome::Accepted);
//! let retirement = Disposition::new(Role::Receiver, 7)
//!     .state(DeliveryState::TransactionalState(accepted));
//! let work = TxnWorkFrame::Retire(retirement);
//! assert_eq!(rt; txn_of(&frame_of(work.try_clone()?)), Some(txn_id));
//! let handed = strip(work); // a disposition that is settled and Accepted
//! ```
//!
//! A performative is made of its required fields by `new`, or by `default` where it has none, and
//! each other field has the standard's default until the call of its name sets it. A source, a
//! target and a link's flow are made so too; a literal (`..LinkFlow::new(handle)`) sets the rest of
//! these and of a begin.
//!
//! It stands on `thin`, which keeps a text, a list of symbols and fields to one pointer each, so
//! that a frame has at most 248 octets; payloads are over `bytes`, and fields over `indexmap`. It
//! carries the promise on small types: strip, the frame of a work, the transaction of a frame and
//! the coordinator attach are exactly their definitions in `specs/`, an id has at most 32 octets,
//! and a copy equals its original.
#![tactic(auto)]

mod binary;
mod calls;
mod capability;
mod counts;
mod delivery;
mod fields;
mod frames;
mod id;
mod items;
mod octets;
mod payload;
mod performatives;
mod presumptive;
mod short_octets;
mod small;
mod symbols;
mod text;

pub use binary::Binary;
pub use calls::Calls;
pub use capability::TxnCapability;
pub use counts::{count_answer, count_one, refuse};
pub use delivery::{
    ConnectionStopReason, Declared, DeliveryState, Error, ErrorCondition, Modified, Outcome,
    Rejected, SessionStopReason, TransactionalState,
};
pub use fields::{Fields, Value};
pub use frames::{TxnWorkFrame, frame_of, is_coordinator, strip, strip_frame, txn_of};
pub use id::{IdTooLong, TransactionId};
pub use items::{CallNumbers, Items, NoMemory, TryClone};
pub use octets::AsOctets;
pub use payload::Payload;
pub use performatives::{
    Attach, Begin, Coordinator, Detach, Disposition, End, Flow, Frame, Frames, LinkEnd, LinkFlow,
    LinkFlows, LinkFrame, Source, Target, TargetArchetype, Transfer,
};
pub use presumptive::presumed_disposition;
pub use small::{
    Accepted, AmqpError, ConnectionError, Handle, IncomingChannel, InputHandle, LinkError,
    OutgoingChannel, OutputHandle, ReceiverSettleMode, Role, SenderSettleMode, SessionError,
    SessionState, Token, TransactionError,
};
pub use symbols::Symbols;
pub use text::{Symbol, Text};
