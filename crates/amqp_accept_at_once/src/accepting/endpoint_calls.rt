//! The attaches that wait at the listener: those that came before it accepted links.

use crate::accepting::AcceptingListener;
use amqp_accept_listener::ListenerSession;
use amqp_below_layer::Tells;
use amqp_below_sessions::{ListenerSessionEndpoint, Session};
use amqp_txn_types::Attach;

impl<S: Session> ListenerSessionEndpoint for AcceptingListener<S> {
    ghost use Rattle.amqp_accept_at_once.specs.AtOnce.{PassesSame};

    ghost next_attach_gives = { λ old new answer. PassesSame
        ⟦<ListenerSession<S> as Tells>⟧.told
        (λ a b. ⟦<ListenerSession<S> as ListenerSessionEndpoint>⟧.next_attach_gives a b answer)
        old new };

    ghost close_gives = { λ old new. PassesSame ⟦<ListenerSession<S> as Tells>⟧.told
        (λ a b. ⟦<ListenerSession<S> as ListenerSessionEndpoint>⟧.close_gives a b) old new };

    fn next_attach(&mut self) -> Option<Attach> {
        self.listener.next_attach()
    }

    fn close_listener(&mut self) {
        self.listener.close_listener();
    }

    fn listener_closed(&self) -> bool {
        self.listener.listener_closed()
    }
}
