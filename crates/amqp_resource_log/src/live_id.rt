//! What the index of the log keeps for an id.

use std::collections::VecDeque;

/// A live id: the link that it was declared on, if it was on one, and the places of its live
/// cells, rising.
#[derive(Drop)]
pub struct LiveId {
    pub home: Option<u64>,
    pub places: VecDeque<usize>,
}
