//! What the layer below gives back.

use amqp_txn_types::{Flow, Frames, Items, NoMemory, TryClone};

/// What one frame that was handed below gave back: frames to be sent, and the session's window.
#[derive(Debug, Drop, PartialEq)]
pub struct Answers {
    /// The frames to be sent back, in order.
    pub given: Frames,
    /// The flow that tells the session's window, which comes after a transfer alone.
    pub window: Option<Flow>,
}

impl TryClone for Answers {
    fn try_clone(&self) -> Result<Self, NoMemory> {
        Ok(Answers {
            given: self.given.try_clone()?,
            window: self.window.try_clone()?,
        })
    }
}

/// The answers of the frames of a commit, in the order in which they were handed.
pub type Echoes = Items<Answers>;
