//! What the last step of a session made.

use amqp_below_layer::Exchanges;
use amqp_resource_record::{Entry, Stop};

/// How a step ended.
#[derive(Debug, Drop)]
pub enum Ending {
    /// It was answered: the step, what it drew, and its reply.
    Answered(Entry),
    /// It stopped the session.
    Stopped {
        /// Why.
        stop: Stop,
        /// How many of the step's frames the layer below took.
        handed: usize,
    },
}

/// What a step made.
#[derive(Debug, Drop)]
pub struct LastStep {
    /// How it ended.
    pub ending: Ending,
    /// What the layer below took of it, in order.
    pub taken: Exchanges,
}
