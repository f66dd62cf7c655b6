//! A message that was received.

use amqp_txn_types::{Binary, NoMemory, Payload, ReceiverSettleMode, TryClone};

/// By what a delivery is named when it is disposed of. Part 2 of the standard, section 2.7.5
/// (transfer).
#[derive(Debug, Drop, PartialEq)]
pub struct DeliveryInfo {
    /// The delivery's number on its session.
    pub delivery_id: u32,
    /// The sender's name for the delivery: at most 32 octets.
    pub delivery_tag: Binary,
    /// When the receiver settles this delivery; `None` is as the link says.
    pub rcv_settle_mode: Option<ReceiverSettleMode>,
}

impl TryClone for DeliveryInfo {
    fn try_clone(&self) -> Result<Self, NoMemory> {
        Ok(DeliveryInfo {
            delivery_id: self.delivery_id,
            delivery_tag: self.delivery_tag.try_clone()?,
            rcv_settle_mode: self.rcv_settle_mode,
        })
    }
}

/// A message that was received.
#[derive(Debug, Drop, PartialEq)]
pub struct Delivery {
    /// What names it.
    pub info: DeliveryInfo,
    /// The octets of the message.
    pub payload: Payload,
}

impl TryClone for Delivery {
    fn try_clone(&self) -> Result<Self, NoMemory> {
        Ok(Delivery {
            info: self.info.try_clone()?,
            payload: self.payload.try_clone()?,
        })
    }
}
