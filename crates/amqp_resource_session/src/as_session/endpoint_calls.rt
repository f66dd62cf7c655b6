//! The attaches that wait at the listener below.

use crate::session::TxnSession;
use amqp_below_sessions::ListenerSessionEndpoint;
use amqp_txn_types::Attach;

impl<S: ListenerSessionEndpoint> ListenerSessionEndpoint for TxnSession<S> {
    ghost use Rattle.std.specs.Prelude.{◌≡◌};
    ghost use Rattle.amqp_resource_session.specs.Passing.{PassesOn};

    ghost next_attach_gives = { λ old new answer.
        PassesOn (λ a b. S.told b ≡ S.told a) (λ a b. S.next_attach_gives a b answer) old new };

    ghost close_gives = { λ old new.
        PassesOn (λ a b. S.told b ≡ S.told a) (λ a b. S.close_gives a b) old new };

    fn next_attach(&mut self) -> Option<Attach> {
        self.below.next_attach()
    }

    fn close_listener(&mut self) {
        self.below.close_listener();
    }

    fn listener_closed(&self) -> bool {
        self.below.listener_closed()
    }
}
