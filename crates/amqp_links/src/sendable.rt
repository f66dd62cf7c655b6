//! A message to be sent, and how it was sent.

use amqp_txn_types::{NoMemory, Payload, Token, TryClone};

/// A message with what its transfer says of it. Part 2 of the standard, section 2.7.5 (transfer).
#[derive(Debug, Drop, PartialEq)]
pub struct Sendable {
    /// The octets of the message.
    pub payload: Payload,
    /// The message's format; 0 is that of part 3 of the standard.
    pub message_format: u32,
    /// Whether it is sent settled. `None` says as little as `Some(false)`: it waits for an answer.
    pub settled: Option<bool>,
}

impl TryClone for Sendable {
    fn try_clone(&self) -> Result<Self, NoMemory> {
        Ok(Sendable {
            payload: self.payload.try_clone()?,
            message_format: self.message_format,
            settled: self.settled,
        })
    }
}

/// How a message was sent.
#[derive(Clone, Copy, Debug, PartialEq, Eq)]
pub enum Sent {
    /// Settled: no answer comes.
    Settled,
    /// Unsettled: the answer comes under this token.
    Unsettled(Token),
}
