//! What a layer below refused, took and vetoed.

use crate::inner_error::SessionInnerError;
use amqp_txn_types::{Attach, Frame, Frames, Items, NoMemory, TryClone};

/// A frame that was refused, and why.
#[derive(Debug, Drop, PartialEq)]
pub struct Refusal {
    /// The frame, as it was given to the layer.
    pub frame: Frame,
    /// Why it was refused.
    pub error: SessionInnerError,
}

impl TryClone for Refusal {
    fn try_clone(&self) -> Result<Self, NoMemory> {
        Ok(Refusal {
            frame: self.frame.try_clone()?,
            error: self.error.try_clone()?,
        })
    }
}

/// What was refused, in order.
pub type Refusals = Items<Refusal>;

/// Frames that were taken, each with the frames given back for it, in order.
pub type Exchanges = Items<(Frame, Frames)>;

/// Frames that were vetoed, each list as it was reviewed, in order.
pub type Reviews = Items<Frames>;

/// Control links that were opened: each attach with the frames given back for it, in order.
pub type Openings = Items<(Attach, Frames)>;
