//! Messages, as a queue has them.

use amqp_txn_types::{Items, NoMemory, Payload, TryClone};

/// A message that waits in a queue.
#[derive(Debug, Drop, PartialEq)]
pub struct Message {
    /// How many messages were taken before it.
    pub number: u32,
    /// Its octets.
    pub payload: Payload,
}

impl TryClone for Message {
    fn try_clone(&self) -> Result<Self, NoMemory> {
        Ok(Message {
            number: self.number,
            payload: self.payload.try_clone()?,
        })
    }
}

/// The messages of a queue, in the order in which they came.
pub type Messages = Items<Message>;
