//! Queues below a transactional session: a broker.
//!
//! | type | is |
//! |---|---|
//! | [`Broker`] | a layer below a transactional session with queues |
//! | [`Messages`] | the messages of a queue, each a [`Message`] |
//!
//! A broker stands below a session. A peer that attaches a link as its sender puts messages into
//! the queue of the link's address; one that attaches as its receiver gets copies of the first of
//! them, as many as it gives credit for, and takes them from the queue by its dispositions:
//!
//! ```text
//! let mut broker = Broker::new(alloc);
//! broker.on_incoming_attach(attach)?; // of a sender, to the address q
//! broker.on_incoming_transfer(transfer, payload)?;
//! assert_eq!(broker.queue(&name)?.map(|queue| queue.len()), Some(1));
//! ```
//!
//! It reviews the frames of a commit before the first of them is handed, vetoes what it would
//! refuse, and never fails after it has accepted: so a commit is taken whole or not at all.
//!
//! Below stand the layer of `amqp_below_layer` and the messages by number of `txn_broker_table`.
//! The promise that this crate carries: the queues of a broker are those of the frames that it
//! took, by definitions that look back over these. 'The standard' is OASIS AMQP 1.0.
#![tactic(auto)]

mod answering;
mod broker;
mod copies;
mod link;
mod message;
mod queues;
mod reviewing;

pub use broker::Broker;
pub use message::{Message, Messages};
