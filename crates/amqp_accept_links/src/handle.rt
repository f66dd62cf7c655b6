//! A session that is lent to accept its links.

ghost use Rattle.std.specs.Prelude.{◌≡◌};
ghost use Rattle.amqp_below_sessions.specs.Names.{SameNames};
ghost use Rattle.amqp_below_sessions.specs.Sessions.{with_queue};
ghost use Rattle.amqp_accept_links.specs.Handles.{next_incoming};
ghost use Rattle.amqp_below_sessions.specs.Queues.{first_waiting, without_first};

use amqp_below_sessions::ListenerSessionEndpoint;
use amqp_links::Poll;
use amqp_txn_types::Attach;

/// A session that is lent to accept its links.
#[derive(Drop)]
pub struct SessionHandle<'s, E> {
    /// The session.
    pub session: &'s mut E,
}

/// The handle of a session whose peer's attaches wait to be accepted.
pub type ListenerSessionHandle<'s, E> = SessionHandle<'s, E>;

impl<'s, E> SessionHandle<'s, E> {
    /// Lends a session.
    pub fn new(session: &'s mut E) -> Self
        ensures same { result.session.ghost_name ≡ session.entry.ghost_name }
        ensures session { result.session.now ≡ session.old }
    {
        SessionHandle { session }
    }
}

impl<E: ListenerSessionEndpoint> SessionHandle<'_, E> {
    /// Takes the attach that came first out of the queue. It is `Pending` exactly where the queue
    /// is empty and not closed, and `Ready(None)` exactly where it is empty and closed. It takes no
    /// memory.
    pub fn next_incoming_attach(&mut self) -> Poll<Option<Attach>>
        ensures same { self.new.session.ghost_name ≡ self.old.session.ghost_name }
        ensures next { result ≡ next_incoming (E.kept self.old.session.now).queue }
        ensures kept { E.kept self.new.session.now ≡ with_queue (E.kept self.old.session.now)
            (without_first (E.kept self.old.session.now).queue) }
        ensures told { E.told self.new.session.now ≡ E.told self.old.session.now }
        ensures names { SameNames (E.names self.old.session.now) (E.names self.new.session.now) }
        ensures gives { E.next_attach_gives self.old.session.now self.new.session.now
            (first_waiting (E.kept self.old.session.now).queue) }
    {
        match self.session.next_attach() {
            Some(attach) => Poll::Ready(Some(attach)),
            None => {
                if self.session.listener_closed() {
                    Poll::Ready(None)
                } else {
                    Poll::Pending
                }
            }
        }
    }
}
