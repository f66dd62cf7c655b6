//! The attaches that wait at a listener to be accepted.

ghost use Rattle.std.specs.Prelude.{◌≡◌, [], true, false, OnOk, OnErr};
ghost use Rattle.amqp_below_sessions.specs.Queues.{first_waiting, with_last, without_first};
ghost use Rattle.amqp_accept_listener.specs.Listening.{TakesNewest};

use amqp_txn_types::{Attach, NoMemory};
use std::alloc::Global;
use std::collections::VecDeque;
use std::marker::Model;

/// The attaches that wait, in the order in which they came, and whether no more are queued.
#[derive(Drop)]
pub struct AttachQueue {
    waiting: VecDeque<Attach>,
    closed: bool,
}

impl Model for AttachQueue {
    ghost use Rattle.amqp_below_sessions.specs.Queues.{Queue};

    ghost Value = { Queue };

    ghost view = { λ q. record { waiting = q.waiting.items; closed = q.closed } };
}

impl AttachQueue {
    /// An open queue in which no attach waits. It takes no memory.
    pub fn new(alloc: Global) -> Self
        ensures { result ≡ record { waiting = []; closed = false } }
    {
        AttachQueue {
            waiting: VecDeque::new(alloc),
            closed: false,
        }
    }

    /// Closes the queue. The attaches that wait stay.
    pub fn close(&mut self)
        ensures { self.new ≡ record self.old { closed = true } }
    {
        self.closed = true;
    }

    /// Whether the queue is closed.
    pub fn is_closed(&self) -> bool
        ensures { result ≡ self.now.closed }
    {
        self.closed
    }

    /// Has an attach wait after those that do. Where memory runs out, the only error, it is
    /// dropped, and the queue is as it was.
    pub fn push(&mut self, attach: Attach) -> Result<(), NoMemory>
        ensures ok { OnOk result (self.new ≡ with_last self.old attach) }
        ensures err { OnErr result (self.new ≡ self.old) }
    {
        match self.waiting.push_back(attach) {
            Ok(()) => Ok(()),
            Err(unkept) => {
                drop(unkept);
                Err(NoMemory)
            }
        }
    }

    /// Takes the attach that came first; `None` where none waits. It takes no memory.
    pub fn take_first(&mut self) -> Option<Attach>
        ensures first { result ≡ first_waiting self.old }
        ensures rest { self.new ≡ without_first self.old }
    {
        self.waiting.pop_front()
    }

    /// Takes the attach that came last; `None` where none waits. It takes no memory.
    pub fn take_newest(&mut self) -> Option<Attach>
        ensures { TakesNewest self.old self.new result }
    {
        self.waiting.pop_back()
    }
}
