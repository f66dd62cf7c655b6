//! What a session keeps for a link, and how it knows a name.

use amqp_txn_types::{LinkFlows, ReceiverSettleMode, Role, Text};

/// What a session passes on to one of its links: the link's part of each flow that came, and how
/// many transfers. The transfers themselves, with their payloads, and dispositions aren't kept.
#[derive(Debug, Drop, PartialEq)]
pub struct Relay {
    /// The link's name, as its owner gave it.
    pub name: Text,
    /// Which end of the link is this side's.
    pub role: Role,
    /// When the link's receiver settles.
    pub rcv_settle_mode: ReceiverSettleMode,
    /// The flows of the link that came, in order.
    pub flows: LinkFlows,
    /// How many transfers of the link came; it stops at its last value, 2^64 - 1.
    pub transfers: u64,
}

/// How a session knows the name of a link.
#[derive(Clone, Copy, Debug, PartialEq, Eq)]
pub enum NameState {
    /// No link has the name.
    Unknown,
    /// A link of this side has it, and the peer hasn't attached it yet.
    Waiting,
    /// An attached link has it.
    Taken,
}
