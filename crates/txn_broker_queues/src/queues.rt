//! The queues of a broker, by number and by name.

ghost use Rattle.std.specs.Prelude.{◌≡◌, ◌≤◌, ◌<◌, ◌+◌, ◌++◌, ◌∷◌, [], OnOk, OnErr, IfOk, length, take, slice_get, position, nat_eq, option_copied};
ghost use Rattle.std.specs.Cmp.Lexicographic.{pointwise};
ghost use Rattle.indexmap.specs.IndexSet.{insert_key};
ghost use Rattle.txn_broker_table.specs.Marks.{came, numbers_in};
ghost use Rattle.amqp_txn_types.specs.declared.performatives.Frame.TheVariants as frames;
ghost use Rattle.txn_broker_queues.specs.Keeping.{Fades};

use crate::link::removed_numbers;
use amqp_txn_types::{Disposition, NoMemory, Text, TryClone};
use std::alloc::Global;
use std::collections::BTreeMap;
use std::marker::Model;
use txn_broker_table::{Mark, MessageTable};

/// The names of the queues, by first attach, and their messages. A contract sees the names and
/// what is kept of each message.
///
/// A name is kept twice: once where the names are listed, and once in the order of names, so that
/// it is found in logarithmic time whichever names a peer picks.
#[derive(Drop)]
pub struct Queues {
    names: Vec<Text>,
    numbers: BTreeMap<Text, usize>,
    table: MessageTable,
}

impl Model for Queues {
    ghost use Rattle.std.specs.Prelude.{◌≡◌, length};
    ghost use Rattle.std.specs.Ordering.{nat_cmp};
    ghost use Rattle.std.specs.Cmp.Lexicographic.{slice_cmp};
    ghost use Rattle.std.specs.BTreeMap.{get};
    ghost use Rattle.txn_broker_queues.specs.Keeping.{AreNumbered, Lines};

    ghost Value = { Lines };

    ghost view = { λ q. record {
      names = q.names.items;
      marks = q.table.marks;
      room = q.table.room;
    } };

    ghost invariant = { λ q. (q.table.queues ≡ length q.names.items)
        × AreNumbered q.names.items (λ name. get (slice_cmp nat_cmp) q.numbers name) };
}

impl Queues {
    /// No queue. It takes no memory; later growth takes it from `alloc`.
    pub fn new(alloc: Global) -> Queues
        ensures names { result.names ≡ [] }
        ensures marks { result.marks ≡ [] }
    {
        Queues {
            names: Vec::new(alloc),
            numbers: BTreeMap::new(alloc),
            table: MessageTable::new(alloc),
        }
    }

    /// How many queues there are.
    pub fn count(&self) -> usize
        ensures { result ≡ length self.now.names }
    {
        self.names.len()
    }

    /// The name of the queue of a number; `None` from [`Queues::count`] on.
    pub fn name(&self, queue: usize) -> Option<&Text>
        ensures { option_copied result ≡ slice_get self.now.names queue }
    {
        self.names.get(queue)
    }

    /// The number of the queue of a name.
    pub fn find(&self, name: &Text) -> Option<usize>
        ensures { result ≡ position (pointwise nat_eq name.now) self.now.names }
    {
        self.numbers.get(name).copied()
    }

    /// The number of the queue of a name, which is made where there is none. The only error is out
    /// of memory, and then nothing changes.
    pub fn find_or_add(&mut self, name: &Text) -> Result<usize, NoMemory>
        ensures marks { self.new.marks ≡ self.old.marks }
        ensures room { self.new.room ≡ self.old.room }
        ensures ok { IfOk result (λ queue. slice_get self.new.names queue ≡ Some name.now) }
        ensures names { OnOk result
            (self.new.names ≡ insert_key (pointwise nat_eq) self.old.names name.now) }
        ensures err { OnErr result (self.new.names ≡ self.old.names) }
    {
        if let Some(queue) = self.numbers.get(name).copied() {
            return Ok(queue);
        }
        let queue = self.names.len();
        let key = name.try_clone()?;
        let listed = name.try_clone()?;
        self.names.reserve(1)?;
        self.numbers.insert(key, queue)?;
        let Ok(_) = self.table.add_queue() else {
            let _ = self.numbers.remove(name);
            return Err(NoMemory);
        };
        self.names.push_reserved(listed);
        Ok(queue)
    }

    /// How many messages came.
    pub fn message_count(&self) -> usize
        ensures { result ≡ length self.now.marks }
    {
        self.table.len()
    }

    /// Makes room for so many more messages. The only error is out of memory.
    pub fn reserve(&mut self, additional: usize) -> Result<(), NoMemory>
        ensures names { self.new.names ≡ self.old.names }
        ensures marks { self.new.marks ≡ self.old.marks }
        ensures room { OnOk result (additional ≤ self.new.room) }
        ensures stays { self.old.room ≤ self.new.room }
        ensures lacked { OnErr result (self.old.room < additional) }
    {
        Ok(self.table.reserve(additional)?)
    }

    /// Adds a message to a queue. It takes no memory.
    pub fn push(&mut self, place: usize, queue: usize)
        requires room { 0 < self.old.room }
        requires queue { queue < length self.old.names }
        ensures names { self.new.names ≡ self.old.names }
        ensures marks { self.new.marks ≡ self.old.marks ++ came place queue ∷ [] }
        ensures room { self.new.room + 1 ≡ self.old.room }
    {
        self.table.push(place, queue);
    }

    /// Takes the messages that a disposition removes from their queues. It takes no memory.
    pub fn remove_covered(&mut self, disposition: &Disposition)
        ensures names { self.new.names ≡ self.old.names }
        ensures fades { Fades (frames.Disposition disposition.now) self.old.marks self.new.marks }
        ensures room { self.new.room ≡ self.old.room }
    {
        if let Some((from, to)) = removed_numbers(disposition) {
            self.table.remove(from, to);
        }
    }

    /// Shortens the way along the first messages of a queue.
    pub fn shorten(&mut self, queue: usize, count: usize)
        requires queue { queue < length self.old.names }
        ensures { self.new ≡ self.old }
    {
        self.table.shorten(queue, count);
    }

    /// The numbers of the first so many messages of a queue, rising. The only error is out of
    /// memory.
    pub fn first_numbers(
        &self,
        alloc: Global,
        queue: usize,
        count: usize,
    ) -> Result<Vec<usize>, NoMemory>
        requires queue { queue < length self.now.names }
        ensures { IfOk result (λ numbers. numbers.items
            ≡ take count (numbers_in queue self.now.marks)) }
    {
        Ok(self.table.numbers(alloc, queue, count)?)
    }

    /// The message of a number.
    pub fn get(&self, number: usize) -> Option<Mark>
        ensures { result ≡ slice_get self.now.marks number }
    {
        self.table.get(number)
    }
}
