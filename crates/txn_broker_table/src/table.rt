//! The messages of some queues, by number.

ghost use Rattle.std.specs.Prelude.{◌≡◌, ◌≤◌, ◌<◌, ◌+◌, ◌++◌, ◌∷◌, [], OnOk, OnErr, IfOk, length, take, slice_get};
ghost use Rattle.txn_broker_table.specs.Marks.{Removes, came, is_waiting_in, numbers_in};
ghost use Rattle.txn_broker_table.specs.Linking.{Finds, Linked, marks_of};

use crate::cell::{Cell, Ends};
use crate::links::{extend_queue, next_in_queue, unlink_along, unlink_gone};
use crate::mark::Mark;
use crate::skips::remove_range;
use std::alloc::{AllocError, Global};
use std::marker::Model;

/// The messages of some queues, by number. A contract sees what is kept of each.
#[derive(Drop)]
pub struct MessageTable {
    cells: Vec<Cell>,
    ends: Vec<Option<Ends>>,
}

impl Model for MessageTable {
    ghost use Rattle.std.specs.Prelude.{◌-◌, length};
    ghost use Rattle.std.specs.Vec.{vec_capacity, vec_len};
    ghost use Rattle.txn_broker_table.specs.Marks.{Table};
    ghost use Rattle.txn_broker_table.specs.Linking.{Linked, marks_of};

    ghost Value = { Table };

    ghost view = { λ t. record {
      marks = marks_of t.cells.items;
      queues = length t.ends.items;
      room = vec_capacity t.cells - vec_len t.cells;
    } };

    ghost invariant = { λ t. Linked t.cells.items t.ends.items };
}

impl MessageTable {
    /// No message and no queue. It takes no memory; later growth takes it from `alloc`.
    pub fn new(alloc: Global) -> Self
        ensures marks { result.marks ≡ [] }
        ensures queues { result.queues ≡ 0 }
    {
        MessageTable {
            cells: Vec::new(alloc),
            ends: Vec::new(alloc),
        }
    }

    /// How many messages came, which is the number of the next one.
    pub fn len(&self) -> usize
        ensures { result ≡ length self.now.marks }
    {
        self.cells.len()
    }

    /// The message of a number; `None` from [`MessageTable::len`] on.
    pub fn get(&self, number: usize) -> Option<Mark>
        ensures { result ≡ slice_get self.now.marks number }
    {
        match self.cells.get(number) {
            Some(cell) => Some(cell.mark),
            None => None,
        }
    }

    /// Makes room for so many more messages. The only error is out of memory.
    pub fn reserve(&mut self, additional: usize) -> Result<(), AllocError>
        ensures marks { self.new.marks ≡ self.old.marks }
        ensures queues { self.new.queues ≡ self.old.queues }
        ensures room { OnOk result (additional ≤ self.new.room) }
        ensures stays { self.old.room ≤ self.new.room }
        ensures lacked { OnErr result (self.old.room < additional) }
    {
        self.cells.reserve(additional)
    }

    /// Makes room for one more queue. The only error is out of memory.
    pub fn add_queue(&mut self) -> Result<usize, AllocError>
        ensures marks { self.new.marks ≡ self.old.marks }
        ensures room { self.new.room ≡ self.old.room }
        ensures ok { IfOk result (λ queue. (queue ≡ self.old.queues)
            × (self.new.queues ≡ self.old.queues + 1)) }
        ensures err { OnErr result (self.new.queues ≡ self.old.queues) }
    {
        let queue = self.ends.len();
        match self.ends.push(None) {
            Ok(()) => Ok(queue),
            Err(_) => Err(AllocError),
        }
    }

    /// Adds a message to a queue, as its last one. It takes no memory.
    ///
    /// # Requires
    ///
    /// There is room, and the queue is one of the table's.
    pub fn push(&mut self, place: usize, queue: usize)
        requires room { 0 < self.old.room }
        requires queue { queue < self.old.queues }
        ensures marks { self.new.marks ≡ self.old.marks ++ came place queue ∷ [] }
        ensures queues { self.new.queues ≡ self.old.queues }
        ensures room { self.new.room + 1 ≡ self.old.room }
    {
        let number = self.cells.len();
        let ends = extend_queue(self.cells.as_mut_slice(), self.ends[queue]);
        self.ends[queue] = Some(ends);
        self.cells.push_reserved(Cell {
            mark: Mark {
                place,
                queue,
                waits: true,
            },
            skip: number + 1,
            next: None,
        });
    }

    /// Takes the messages from one number up to, but not with, another out of their queues. It
    /// takes no memory.
    pub fn remove(&mut self, from: usize, to: usize)
        ensures removes { Removes from to self.old.marks self.new.marks }
        ensures queues { self.new.queues ≡ self.old.queues }
        ensures room { self.new.room ≡ self.old.room }
    {
        remove_range(self.cells.as_mut_slice(), from, to);
    }

    /// Shortens the way along the first so many messages that wait in a queue. It takes no memory,
    /// and a contract sees no change.
    pub fn shorten(&mut self, queue: usize, count: usize)
        requires queue { queue < self.old.queues }
        ensures { self.new ≡ self.old }
    {
        let Some(ends) = self.ends[queue] else {
            return;
        };
        let cells = self.cells.as_mut_slice();
        if cells[ends.first].mark.waits {
            unlink_along(cells, ends.first, count);
            return;
        }
        let Some(first) = unlink_gone(cells, ends.first) else {
            return;
        };
        unlink_along(cells, first, count);
        self.ends[queue] = Some(Ends {
            first,
            last: ends.last,
        });
    }

    /// The first message that waits in a queue.
    fn first_of(&self, queue: usize) -> Option<usize>
        requires queue { queue < self.now.queues }
        ensures { Finds (is_waiting_in queue) self.now.marks 0 result }
    {
        let Some(ends) = self.ends[queue] else {
            return None;
        };
        if self.cells[ends.first].mark.waits {
            return Some(ends.first);
        }
        next_in_queue(self.cells.as_slice(), ends.first)
    }

    /// The numbers of the first so many messages that wait in a queue, rising. The only error is
    /// out of memory.
    pub fn numbers(
        &self,
        alloc: Global,
        queue: usize,
        count: usize,
    ) -> Result<Vec<usize>, AllocError>
        requires queue { queue < self.now.queues }
        ensures { IfOk result (λ numbers. numbers.items
            ≡ take count (numbers_in queue self.now.marks)) }
    {
        let mut numbers = Vec::new(alloc);
        let mut at = self.first_of(queue);
        while let Some(number) = at {
            if numbers.len() >= count {
                break;
            }
            numbers.push(number)?;
            at = next_in_queue(self.cells.as_slice(), number);
        }
        Ok(numbers)
    }
}
