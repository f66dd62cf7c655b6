//! What a session is told of a stop.

use amqp_txn_types::{ConnectionStopReason, SessionStopReason};

/// Why a session or its connection stopped.
#[derive(Debug, Drop, PartialEq)]
pub enum StopReason {
    /// Why the session did.
    Session(SessionStopReason),
    /// Why its connection did.
    Connection(ConnectionStopReason),
}
