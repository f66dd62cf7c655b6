//! A relay of messages, one transaction a message.

ghost use Rattle.std.specs.Prelude.{ℕ, suc, ◌≡◌, ◌≤◌, ◌<◌, Some, length, slice_get, IfOk, IfSome, OnOk, OnErr};
ghost use Rattle.amqp_resource_record.specs.declared.stop.StopCode.TheVariants as codes;
ghost use Rattle.txn_broker_queues.specs.Queues.{queue};
ghost use Rattle.txn_broker_queues.specs.declared.message.Message.{Message as M};
ghost use Rattle.txn_broker_queues.specs.Taking.{taken_of};
ghost use Rattle.txn_parties.specs.Exchange.{heard, made};
ghost use Rattle.txn_relay.specs.Going.{BeginsWith, Goes, IsFirst, PutFirst, next_after, next_for};
ghost use Rattle.txn_relay.specs.Moves.{from_name, post_of, put_since, retirement_of, to_name};
ghost use Rattle.txn_relay.specs.Once.{heard_committed};
ghost use Rattle.txn_relay.specs.Relaying.{Holds, IsReady, RelaySays};
ghost use Rattle.txn_relay.specs.declared.relay.Next.TheVariants as nexts;
ghost use Rattle.txn_world.specs.Happening.{code_of_stop};

use crate::event::RelayEvent;
use crate::moves::{FROM_NAME, TO_NAME, post_of, retirement_of};
use amqp_below_ids::{IdSource, ListIds};
use amqp_resource_record::StopCode;
use amqp_txn_types::{NoMemory, Text};
use std::alloc::Global;
use std::marker::Model;
use txn_broker_queues::{Broker, Message, Messages};
use txn_world::{Event, Happened, Heard, World};

/// A relay over two parties and a broker.
///
/// A contract sees the two parties and the messages that are moved.
#[derive(Drop)]
pub struct Relay {
    world: World<Broker, ListIds>,
    work: Messages,
    /// How many transactions were made: message number i of the work is that of transaction i.
    made: u32,
    /// How many of its three items the last transaction has put.
    put: usize,
    alloc: Global,
}

impl Model for Relay {
    ghost use Rattle.txn_relay.specs.Relaying.{Relaying};
    ghost use Rattle.txn_relay.specs.Stages.{Stands};
    ghost use Rattle.txn_broker_queues.specs.Taking.{taken_of};

    ghost Value = { Relaying };

    ghost view = { λ r. record { world = r.world; work = r.work } };

    ghost invariant = { λ r. Stands r.world.sides (taken_of r.world.below) r.work r.made r.put };
}

/// Where a relay's next move begins.
enum Next {
    /// With the declare of the next transaction.
    Declare,
    /// With the post of the last transaction's message.
    Post,
    /// With its retirement.
    Retirement,
    /// With the commit.
    Commit,
    /// None is left.
    Nothing,
}

impl Relay {
    /// A relay of these messages. It takes no memory; what it puts takes it from `alloc`.
    ///
    /// # Requires
    ///
    /// That the two parties, which have one controller, had no event yet; that the messages are
    /// those of the broker's queue `from` and its queue `to` has none; and that handle 1 is attached
    /// as a sender to `from` and handle 2 as one to `to`.
    pub fn new(alloc: Global, world: World<Broker, ListIds>, work: Messages) -> Relay
        requires { IsReady world work }
        ensures made { result ≡ record { world = world; work = work } }
        ensures holds { Holds result }
    {
        // So there are few: the broker has numbered them.
        let numbered = world.below().message_count();
        prove!(work.len() <= numbered as usize);
        Relay {
            world,
            work,
            made: 0,
            put: 0,
            alloc,
        }
    }

    /// One thing that may happen, and what it did.
    ///
    /// # Errors
    ///
    /// Out of memory. Where it comes in the midst of a move, the items that were put stay, and the
    /// next `Go` puts the rest; of all else nothing has changed.
    pub fn event(&mut self, event: RelayEvent) -> Result<Happened, NoMemory>
        ensures { RelaySays (record {
          next = ⟦<ListIds as IdSource>⟧.next;
          start = ⟦<ListIds as IdSource>⟧.start;
        }) self.old self.new event result }
    {
        match event {
            RelayEvent::Go => {
                let result = self.go();
                // What holds after every event is told where the two parties are.
                let _world = self.world();
                result
            }
            RelayEvent::Arrive => self.world.event(&Event::Arrive),
            RelayEvent::Return => self.world.event(&Event::Return),
            RelayEvent::Cut => self.world.event(&Event::Cut),
        }
    }

    /// How many transactions heard Committed.
    pub fn committed(&self) -> u32
        ensures { result ≡ heard_committed self.now.world.sides }
    {
        let Some(last) = self.made.checked_sub(1) else {
            return 0;
        };
        match self.heard(last) {
            Heard::Committed => self.made,
            _ => last,
        }
    }

    /// A copy of the queue that messages are moved from. The only error is out of memory.
    pub fn from_queue(&self) -> Result<Messages, NoMemory>
        ensures { IfOk result (λ found.
            found ≡ queue (taken_of self.now.world.below) from_name) }
    {
        let name = Text::from_str(self.alloc, FROM_NAME)?;
        let Some(found) = self.world.below().queue(&name)? else {
            unreachable!()
        };
        Ok(found)
    }

    /// A copy of the queue that they are moved to. The only error is out of memory.
    pub fn to_queue(&self) -> Result<Messages, NoMemory>
        ensures { IfOk result (λ found.
            found ≡ queue (taken_of self.now.world.below) to_name) }
    {
        let name = Text::from_str(self.alloc, TO_NAME)?;
        let Some(found) = self.world.below().queue(&name)? else {
            unreachable!()
        };
        Ok(found)
    }

    /// Why the resource's session stopped, if it did: only where its broker ran out of memory.
    pub fn stop(&self) -> Option<StopCode>
        ensures stop { result ≡ code_of_stop self.now.world.sides.stop }
        ensures cause { IfSome result (λ code. code ≡ codes.BelowNoMemory) }
    {
        self.world.stop()
    }

    /// The two parties.
    pub fn world(&self) -> &World<Broker, ListIds>
        ensures world { result.now ≡ self.now.world }
        ensures holds { Holds self.now }
    {
        &self.world
    }

    /// The messages that are moved, in order.
    pub fn work(&self) -> &[Message]
        ensures { result.now ≡ self.now.work }
    {
        self.work.as_slice()
    }

    /// The next move, whole. Out of memory is the only error.
    fn go(&mut self) -> Result<Happened, NoMemory>
        ensures { Goes self.old self.new result }
    {
        match self.next() {
            Next::Declare => self.declare(),
            Next::Post => self.post(),
            Next::Retirement => self.retire(),
            Next::Commit => self.commit(),
            Next::Nothing => Ok(Happened::Skipped),
        }
    }

    /// Where the next move begins.
    fn next(&self) -> Next
        ensures { BeginsWith self.now result }
    {
        let Some(last) = self.made.checked_sub(1) else {
            return self.first();
        };
        match self.heard(last) {
            Heard::Committed => self.first(),
            Heard::Nothing => self.after_declare(),
            _ => Next::Nothing, // no answer yet, or a rejection
        }
    }

    /// What a transaction heard.
    fn heard(&self, txn: u32) -> Heard
        requires { txn < made self.now.world.sides }
        ensures { result ≡ heard self.now.world.sides txn }
    {
        let Some(heard) = self.world.heard(txn) else {
            unreachable!()
        };
        heard
    }

    /// The declare for the next message, if there is one.
    fn first(&self) -> Next
        ensures { result ≡ next_for (slice_get self.now.work (made self.now.world.sides)) }
    {
        match self.work.get(self.made as usize) {
            Some(_) => Next::Declare,
            None => Next::Nothing,
        }
    }

    /// What is left of the last transaction's work.
    fn after_declare(&self) -> Next
        ensures { (txn : ℕ) → made self.now.world.sides ≡ suc txn
            → result ≡ next_after (put_since self.now.world.sides txn) }
    {
        match self.put {
            0 => Next::Post,
            1 => Next::Retirement,
            2 => Next::Commit,
            _ => Next::Nothing,
        }
    }

    /// The number of the last transaction.
    fn last(&self) -> u32
        requires { 1 ≤ made self.now.world.sides }
        ensures { made self.now.world.sides ≡ suc result }
    {
        self.made - 1
    }

    /// The post of a transaction's message. The only error is out of memory.
    fn post_of(&self, txn: u32) -> Result<Event, NoMemory>
        requires { txn < length self.now.work }
        ensures { IfOk result (λ event. (message : M)
            → slice_get self.now.work txn ≡ Some message → event ≡ post_of txn message) }
    {
        let Some(message) = self.work.get(txn as usize) else {
            unreachable!()
        };
        post_of(self.alloc, txn, message)
    }

    /// The retirement of a transaction's message.
    fn retirement_of(&self, txn: u32) -> Event
        requires { txn < length self.now.work }
        ensures { (message : M) → slice_get self.now.work txn ≡ Some message
            → result ≡ retirement_of txn message }
    {
        let Some(message) = self.work.get(txn as usize) else {
            unreachable!()
        };
        retirement_of(txn, message)
    }

    /// Puts the declare of the next transaction. Out of memory is the only error.
    fn declare(&mut self) -> Result<Happened, NoMemory>
        requires { BeginsWith self.old nexts.Declare }
        ensures { Goes self.old self.new result }
    {
        let happened = self.world.event(&Event::Declare(0))?;
        self.made += 1;
        self.put = 0;
        Ok(happened)
    }

    /// Puts the post of the last transaction's message, and what follows it. Out of memory is the
    /// only error.
    fn post(&mut self) -> Result<Happened, NoMemory>
        requires { BeginsWith self.old nexts.Post }
        ensures { Goes self.old self.new result }
    {
        let txn = self.last();
        let event = self.post_of(txn)?;
        let put = self.put(&event);
        drop(event);
        put?;
        self.retire()
    }

    /// Puts the retirement of the last transaction's message, and the commit. Out of memory is the
    /// only error.
    fn retire(&mut self) -> Result<Happened, NoMemory>
        requires { BeginsWith self.old nexts.Retirement }
        ensures { Goes self.old self.new result }
    {
        let txn = self.last();
        let event = self.retirement_of(txn);
        let put = self.put(&event);
        drop(event);
        put?;
        self.commit()
    }

    /// Puts the commit of the last transaction. Out of memory is the only error.
    fn commit(&mut self) -> Result<Happened, NoMemory>
        requires { BeginsWith self.old nexts.Commit }
        ensures { Goes self.old self.new result }
    {
        let event = Event::Commit(self.last());
        let put = self.put(&event);
        drop(event);
        put?;
        Ok(Happened::Put)
    }

    /// Puts an item of the last transaction, the first of the next move. Out of memory is the only
    /// error; nothing has changed then.
    fn put(&mut self, event: &Event) -> Result<(), NoMemory>
        requires { IsFirst self.old event.now }
        ensures ok { OnOk result (PutFirst self.old self.new event.now) }
        ensures err { OnErr result (self.new ≡ self.old) }
    {
        self.world.event(event)?;
        self.put += 1;
        Ok(())
    }
}
