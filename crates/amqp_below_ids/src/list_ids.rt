//! Ids from a list.

ghost use Rattle.std.specs.Prelude.{◌≡◌, ◌<◌, ℕ, length, IfOk, Some};
ghost use Rattle.amqp_below_ids.specs.Listed.{listed};

use crate::ids::IdSource;
use amqp_txn_types::{NoMemory, TransactionId};
use std::alloc::Global;

/// A source that gives the ids of a list in order, and then its last one again and again.
#[derive(Drop)]
pub struct ListIds {
    ids: Vec<TransactionId>,
    at: usize,
    ghost in_list: { at < length ids.items },
}

impl ListIds {
    /// A copy of the list, at its first id. The only error is out of memory.
    ///
    /// # Requires
    ///
    /// The list has an id.
    pub fn new(alloc: Global, ids: &[TransactionId]) -> Result<ListIds, NoMemory>
        requires { 0 < length ids.now }
        ensures next { IfOk result (λ source. (n : ℕ)
            → ⟦<ListIds as IdSource>⟧.next source n ≡ listed ids.now n) }
        ensures start { IfOk result (λ source. ⟦<ListIds as IdSource>⟧.start source
            ≡ Some (listed ids.now)) }
    {
        Ok(ListIds {
            ids: Vec::from_slice(alloc, ids)?,
            at: 0,
        })
    }
}

impl IdSource for ListIds {
    ghost use Rattle.std.specs.Prelude.{◌+◌, Some};
    ghost use Rattle.amqp_below_ids.specs.Listed.{listed};

    ghost next = { λ s n. listed s.ids.items (s.at + n) };

    ghost start = { λ s. Some (listed s.ids.items) };

    fn draw(&mut self) -> TransactionId {
        let id = self.ids[self.at];
        if self.at + 1 < self.ids.len() {
            self.at += 1;
        }
        id
    }
}
