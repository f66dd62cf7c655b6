//! A recorder over a session whose peer's attaches wait has those waiting attaches.

use crate::recorder::Recorder;
use amqp_below_sessions::ListenerSessionEndpoint;
use amqp_txn_types::Attach;

impl<S: ListenerSessionEndpoint> ListenerSessionEndpoint for Recorder<S> {
    ghost use Rattle.std.specs.Prelude.{◌≡◌};
    ghost use Rattle.amqp_below_recorder.specs.Recording.{Passes};

    ghost next_attach_gives = { λ old new answer.
        Passes (λ a b. S.told b ≡ S.told a) (λ a b. S.next_attach_gives a b answer) old new };

    ghost close_gives = { λ old new.
        Passes (λ a b. S.told b ≡ S.told a) (λ a b. S.close_gives a b) old new };

    fn next_attach(&mut self) -> Option<Attach> {
        self.session.next_attach()
    }

    fn close_listener(&mut self) {
        self.session.close_listener();
    }

    fn listener_closed(&self) -> bool {
        self.session.listener_closed()
    }
}
