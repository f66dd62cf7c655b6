//! The cells of the table.

use crate::mark::Mark;

/// A message with the two numbers that spare a walk over messages that are gone.
#[derive(Clone, Copy)]
pub struct Cell {
    /// The message.
    pub mark: Mark,
    /// A greater number: no message between waits.
    pub skip: usize,
    /// A later message of the same queue: no message of the queue between waits. `None` for the
    /// queue's last message alone.
    pub next: Option<usize>,
}

/// The first message of a queue that may wait, and the last one that came.
#[derive(Clone, Copy)]
pub struct Ends {
    /// No earlier message of the queue waits.
    pub first: usize,
    /// The queue's last message.
    pub last: usize,
}
