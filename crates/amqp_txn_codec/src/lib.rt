//! The control messages of AMQP 1.0 transactions: the bodies that declare and discharge a
//! transaction, with `decode` and `encode`.
//!
//! ```text
//! match decode(payload) {
//!     Ok(ControlMessageBody::Declare(declare)) => begin(declare.global_id),
//!     Ok(ControlMessageBody::Discharge(discharge)) => end(discharge.txn_id, discharge.fail),
//!     Err(NotControl) => close_the_link(),
//! }
//!
//! let commit = Discharge { txn_id, fail: None };
//! let payload = ControlMessageBody::Discharge(commit).encode(alloc)?;
//! ```
//!
//! Below stands `amqp_txn_types`, for ids and payloads. The promise is that control payloads are
//! read exactly by their grammar, which `specs/Messages.antt` states over whole octets, after
//! parts 1, 3 and 4 of the standard: `decode` gives a message exactly where the octets spell it.
//! `specs/Reading.antt` gives the same message as a function, for contracts above that speak of
//! the message of a payload, and `specs/Walks.antt` is how the proofs follow the code.
#![tactic(auto)]

mod decoder;
mod encoder;
mod fields;
mod laws;
mod message;
mod section;
mod value;

pub use decoder::decode;
pub use laws::{
    canonical_spelling_spells, no_value_begins_another, octets_spell_one_message,
    only_a_footer_may_follow, spelled_messages_are_read,
};
pub use message::{ControlMessageBody, Declare, Discharge, NotControl, rolls_back};
pub use value::skip_value;
