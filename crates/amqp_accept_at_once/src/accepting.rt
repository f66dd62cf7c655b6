//! A listener that accepts the peer's links as they come.

ghost use Rattle.std.specs.Prelude.{◌≡◌};
ghost use Rattle.amqp_accept_at_once.specs.AtOnce.{acceptor_of, listener_of, own_of};

mod endpoint_calls;
mod session_calls;

use crate::hearing::{Acceptor, hear_attach};
use amqp_accept_listener::ListenerSession;
use amqp_below_layer::{LayerBelow, SessionInnerError, Tells, Verdict};
use amqp_below_sessions::Session;
use amqp_txn_types::{
    Attach, Disposition, Flow, Frame, Frames, NoMemory, SessionState, count_answer,
};
use std::alloc::Global;

/// A listener that accepts each link at once: an attach that went to the queue is taken out of it
/// and accepted in the same call, which gives the acceptor's frames. The link's end is dropped.
///
/// A link that the acceptor refuses is the call's Err. It counts its own calls that are answered
/// with an Err, and tells none of the lists of a layer. All else is the listener's.
#[derive(Drop)]
pub struct AcceptingListener<S> {
    listener: ListenerSession<S>,
    acceptor: Acceptor,
    refusals: u64,
    alloc: Global,
}

impl<S: Session> AcceptingListener<S> {
    /// A listener that accepts links by this acceptor. Attaches that wait in its queue stay there.
    /// It takes no memory.
    pub fn new(alloc: Global, listener: ListenerSession<S>, acceptor: Acceptor) -> Self
        ensures listener { listener_of result ≡ listener }
        ensures acceptor { acceptor_of result ≡ acceptor }
        ensures own { own_of result ≡ 0 }
    {
        AcceptingListener {
            listener,
            acceptor,
            refusals: 0,
            alloc,
        }
    }
}

impl<S: Session> Tells for AcceptingListener<S> {
    ghost use Rattle.std.specs.Prelude.{None};

    ghost told = { λ l. record {
      taken = None;
      opened = None;
      refused = None;
      refusals = l.refusals;
      reviews = (⟦<ListenerSession<S> as Tells>⟧.told l.listener).reviews;
      fixed = (⟦<ListenerSession<S> as Tells>⟧.told l.listener).fixed;
    } };
}

impl<S: Session> LayerBelow for AcceptingListener<S> {
    ghost use Rattle.amqp_below_layer.specs.Told.{Checks, Opens, Reviews};
    ghost use Rattle.amqp_accept_at_once.specs.AtOnce.{AcceptsOver, HearsFrame, Passes, PassesSame, listener_of};
    ghost use Rattle.amqp_accept_at_once.specs.AtOnceReviews.{TakesBare, heard-goes-on, stays-bare};

    ghost incoming_gives = { λ old new frame answer. HearsFrame
        ⟦<ListenerSession<S> as Tells>⟧.told ⟦<ListenerSession<S> as Session>⟧.kept
        ⟦<ListenerSession<S> as Session>⟧.names
        ⟦<ListenerSession<S> as LayerBelow>⟧.incoming_gives
        (AcceptsOver ⟦<ListenerSession<S> as Session>⟧.kept
        ⟦<ListenerSession<S> as Session>⟧.calls.allocate_incoming_link
        ⟦<ListenerSession<S> as Session>⟧.calls.outgoing_flow
        ⟦<ListenerSession<S> as Session>⟧.calls.deallocate_link) old new frame answer };

    ghost opening_gives = { λ old new attach answer.
        Passes (λ a b. Opens (⟦<ListenerSession<S> as Tells>⟧.told a)
        (⟦<ListenerSession<S> as Tells>⟧.told b) attach answer)
        (λ a b. ⟦<ListenerSession<S> as LayerBelow>⟧.opening_gives a b attach answer)
        old new answer };

    ghost check_gives = { λ old new disposition answer.
        Passes (λ a b. Checks (⟦<ListenerSession<S> as Tells>⟧.told a)
        (⟦<ListenerSession<S> as Tells>⟧.told b) answer)
        (λ a b. ⟦<ListenerSession<S> as LayerBelow>⟧.check_gives a b disposition answer)
        old new answer };

    ghost window_gives = { λ old new flow. PassesSame ⟦<ListenerSession<S> as Tells>⟧.told
        (λ a b. ⟦<ListenerSession<S> as LayerBelow>⟧.window_gives a b flow) old new };

    ghost review_gives = { λ old new list answer.
        Passes (λ a b. Reviews (⟦<ListenerSession<S> as Tells>⟧.told a)
        (⟦<ListenerSession<S> as Tells>⟧.told b) list answer)
        (λ a b. ⟦<ListenerSession<S> as LayerBelow>⟧.review_gives a b list answer)
        old new answer };

    ghost takes = { λ l list.
        TakesBare ⟦<ListenerSession<S> as LayerBelow>⟧.takes (listener_of l) list };

    ghost sure = { ⟦<ListenerSession<S> as LayerBelow>⟧.sure };

    ghost goes_on = { λ old new frame answer gives. heard-goes-on
        ⟦<ListenerSession<S> as Tells>⟧.told ⟦<ListenerSession<S> as Session>⟧.kept
        ⟦<ListenerSession<S> as Session>⟧.names
        ⟦<ListenerSession<S> as LayerBelow>⟧.incoming_gives
        ⟦<ListenerSession<S> as LayerBelow>⟧.takes
        ⟦<ListenerSession<S> as LayerBelow>⟧.sure
        ⟦<ListenerSession<S> as LayerBelow>⟧.goes_on
        (AcceptsOver ⟦<ListenerSession<S> as Session>⟧.kept
        ⟦<ListenerSession<S> as Session>⟧.calls.allocate_incoming_link
        ⟦<ListenerSession<S> as Session>⟧.calls.outgoing_flow
        ⟦<ListenerSession<S> as Session>⟧.calls.deallocate_link) old new frame answer gives };

    ghost stays_on = { λ old new disposition answer gives list takes. stays-bare
        ⟦<ListenerSession<S> as LayerBelow>⟧.sure list
        (listener_of new) ⟦<ListenerSession<S> as LayerBelow>⟧.takes answer takes.0
        (⟦<ListenerSession<S> as LayerBelow>⟧.stays_on (listener_of old)
        (listener_of new) disposition answer gives.gave list takes.1) };

    ghost window_stays_on = { λ old new flow gives list takes. (
      takes.0,
      ⟦<ListenerSession<S> as LayerBelow>⟧.window_stays_on (listener_of old)
          (listener_of new) flow gives.gave list takes.1,
    ) };

    fn local_state(&self) -> SessionState {
        self.listener.local_state()
    }

    fn on_incoming_frame(&mut self, frame: Frame) -> Result<Frames, SessionInnerError> {
        match frame {
            Frame::Attach(attach) => {
                let answer = hear_attach(&mut self.listener, &self.acceptor, self.alloc, attach);
                count_answer(&mut self.refusals, answer)
            }
            other => {
                let answer = self.listener.on_incoming_frame(other);
                count_answer(&mut self.refusals, answer)
            }
        }
    }

    fn on_control_attach(&mut self, attach: &Attach) -> Result<Frames, SessionInnerError> {
        let answer = self.listener.on_control_attach(attach);
        count_answer(&mut self.refusals, answer)
    }

    fn on_outgoing_disposition(
        &mut self,
        disposition: &Disposition,
    ) -> Result<(), SessionInnerError> {
        let answer = self.listener.on_outgoing_disposition(disposition);
        count_answer(&mut self.refusals, answer)
    }

    fn maybe_outgoing_session_flow(&mut self) -> Option<Flow> {
        self.listener.maybe_outgoing_session_flow()
    }

    fn review(&mut self, frames: &Frames) -> Result<Verdict, NoMemory> {
        let answer = self.listener.review(frames);
        count_answer(&mut self.refusals, answer)
    }
}
