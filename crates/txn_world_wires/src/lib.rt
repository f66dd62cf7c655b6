//! What two parties keep: the record, the two wires between them, and what the controllers know.
//!
//! [`Parties`] has all of a world but the resource's session and its id source: the record, the
//! items that wait to arrive, the answers that were put back, and of each transaction what its
//! controller knows. A declare and a discharge are sent on the controller's end of its link, a
//! `WireSender`, by the calls of `amqp_controller_calls`; an answer that returns is filled in there
//! and heard by the poll of its call. [`Parties::happen`] is every event but an arrival; what an
//! arrival adds, the crate `txn_world` adds, which has the session. `exchange_of` in `specs/` gives
//! the two parties as the definitions of `txn_parties` speak of them.
#![tactic(auto)]

mod control_call;
mod control_links;
mod controllers;
mod parties;
mod tag;
mod waiting;

pub use control_call::{ControlCall, Hearing};
pub use control_links::{ControlLinks, Request};
pub use controllers::{Controllers, Transaction};
pub use parties::Parties;
pub use tag::Tag;
pub use waiting::{ForwardWire, Waiting};
