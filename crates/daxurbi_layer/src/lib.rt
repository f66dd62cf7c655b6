//! A layer below a transactional session that answers as it was told beforehand.
//!
//! | item | is |
//! |---|---|
//! | [`ToldLayer`] | the layer, with the frames that it took |
//! | [`BelowAnswer`] | what it was told: to take, to veto a commit, to refuse |
//! | [`NamedError`] | the errors that it may be told to refuse with |
//!
//! ```text
//! let mut below = ToldLayer::new(alloc, BelowAnswer::Take);
//! let given = below.on_incoming_detach(detach)?; // no frames
//! let taken = below.into_taken(); // the detach
//! ```
//!
//! Who has a layer of their own asks it first, and then tells this one what it answered. Below
//! stand the layer of `amqp_below_layer` and the types of `amqp_txn_types`. The promise that this
//! crate carries: a layer that was told to take refuses a frame only where memory runs out, and an
//! attach only after another; one that was told anything else takes nothing.
#![tactic(auto)]

mod below_answer;
mod refused;
mod told_layer;

pub use below_answer::{BelowAnswer, NamedError};
pub use told_layer::ToldLayer;
