//! What is put on a link.

use crate::delivery::DeliveryInfo;
use crate::sendable::{Sendable, Sent};
use amqp_txn_types::{DeliveryState, Error, Fields, Items};

/// A message that a sender put. Part 2 of the standard, section 2.7.5 (transfer).
#[derive(Debug, Drop, PartialEq)]
pub struct SentMessage {
    /// The message.
    pub sendable: Sendable,
    /// The state that its transfer says, as a transactional state.
    pub state: Option<DeliveryState>,
    /// Whether the peer may put off its answer to answer several deliveries at once.
    pub batchable: bool,
    /// How it was sent: settled, or under which token.
    pub sent: Sent,
}

/// What a sender put, in order.
pub type SentMessages = Items<SentMessage>;

/// The closes of a link: each with the error that it names, in order.
pub type Closes = Items<Option<Error>>;

/// What a receiver puts.
#[derive(Debug, Drop, PartialEq)]
pub enum ReceiverMessage {
    /// Part 2 of the standard, section 2.7.6 (disposition), of one delivery.
    Disposition {
        /// Which delivery it is of.
        delivery: DeliveryInfo,
        /// Whether it settles the delivery; `None` is as the delivery's settle mode says.
        settled: Option<bool>,
        /// The delivery's state.
        state: DeliveryState,
    },
    /// Part 2 of the standard, section 2.7.4 (flow), of the link.
    Flow {
        /// How many more deliveries the sender may send, where it is named.
        credit: Option<u32>,
        /// Whether the sender is to use up its credit, where it is named.
        drain: Option<bool>,
        /// Whether the peer is to answer with a flow of its own.
        echo: bool,
        /// The link's properties, where they are included.
        properties: Option<Fields>,
    },
}

/// What a receiver put, in order.
pub type ReceiverMessages = Items<ReceiverMessage>;
