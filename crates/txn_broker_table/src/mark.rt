//! What is kept of one message.

/// A message: where its owner finds it, its queue, and whether it waits there still.
#[derive(Clone, Copy)]
pub struct Mark {
    /// Its place with the owner of the table.
    pub place: usize,
    /// The number of its queue.
    pub queue: usize,
    /// Whether it waits in its queue.
    pub waits: bool,
}
