//! A session whose peer's attaches wait to be accepted.

use crate::session::Session;
use amqp_txn_types::Attach;

/// A session that queues the attaches of links that nobody has accepted yet. Part 2 of the
/// standard, section 2.6.3 (establishing a link).
///
/// The queue gives them in the order in which they came. It may be closed: then no attach is
/// queued any more, and those that wait are still given. No call of a session but an incoming
/// attach and those here changes the queue.
pub trait ListenerSessionEndpoint: Session {
    ghost use Rattle.std.specs.Prelude.{◌≡◌, Option};
    ghost use Rattle.amqp_txn_types.specs.declared.performatives.Attach.{Attach};
    ghost use Rattle.amqp_below_sessions.specs.Names.{SameNames};
    ghost use Rattle.amqp_below_sessions.specs.Queues.{closed_queue, first_waiting, without_first};
    ghost use Rattle.amqp_below_sessions.specs.Sessions.{with_queue};

    /// What taking the next attach answers and leaves: the session before and after, the answer.
    ghost next_attach_gives: { Self → Self → Option Attach → Type 0 };

    /// What closing the queue leaves: the session before and after.
    ghost close_gives: { Self → Self → Type 0 };

    /// Takes the first attach out of the queue; `None` where none waits. It takes no memory.
    fn next_attach(&mut self) -> Option<Attach>
        ensures told { Self.told self.new ≡ Self.told self.old }
        ensures kept { Self.kept self.new ≡ with_queue (Self.kept self.old)
            (without_first (Self.kept self.old).queue) }
        ensures names { SameNames (Self.names self.old) (Self.names self.new) }
        ensures first { result ≡ first_waiting (Self.kept self.old).queue }
        ensures gives { next_attach_gives self.old self.new result };

    /// Closes the queue, as who ends the session does: from now on no attach is queued. Those that
    /// wait are still given.
    fn close_listener(&mut self)
        ensures told { Self.told self.new ≡ Self.told self.old }
        ensures kept { Self.kept self.new ≡ with_queue (Self.kept self.old)
            (closed_queue (Self.kept self.old).queue) }
        ensures names { SameNames (Self.names self.old) (Self.names self.new) }
        ensures gives { close_gives self.old self.new };

    /// Whether the queue is closed.
    fn listener_closed(&self) -> bool
        ensures { result ≡ (Self.kept self.now).queue.closed };
}
