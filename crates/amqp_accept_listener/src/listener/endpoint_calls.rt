//! The attaches that wait at a listener.

use crate::listener::ListenerSession;
use amqp_below_sessions::{ListenerSessionEndpoint, Session};
use amqp_txn_types::Attach;

impl<S: Session> ListenerSessionEndpoint for ListenerSession<S> {
    ghost use Rattle.std.specs.Prelude.{◌≡◌};
    ghost use Rattle.amqp_below_sessions.specs.Queues.{closed_queue, first_waiting, without_first};
    ghost use Rattle.amqp_accept_listener.specs.Listening.{ChangesQueue, queue_of};

    ghost next_attach_gives = { λ old new answer. (answer ≡ first_waiting (queue_of old))
        × ChangesQueue old new (without_first (queue_of old)) };

    ghost close_gives = { λ old new. ChangesQueue old new (closed_queue (queue_of old)) };

    fn next_attach(&mut self) -> Option<Attach> {
        self.queue.take_first()
    }

    fn close_listener(&mut self) {
        self.queue.close();
    }

    fn listener_closed(&self) -> bool {
        self.queue.is_closed()
    }
}
