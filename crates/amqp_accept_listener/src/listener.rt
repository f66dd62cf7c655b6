//! A session whose peer's attaches wait to be accepted.

ghost use Rattle.std.specs.Prelude.{◌≡◌, [], false};
ghost use Rattle.amqp_txn_types.specs.declared.small.InputHandle.{InputHandle};
ghost use Rattle.amqp_accept_listener.specs.Listening.{ChangesQueue, TakesNewest, control_of, held_of, inner_of, own_of, queue_of};

mod endpoint_calls;
mod session_calls;
mod transactional_calls;

use crate::attach_queue::AttachQueue;
use crate::control_links::open_control;
use crate::hearing::{hear_attach, hear_flow, hear_transfer};
use crate::held_flows::HeldFlows;
use amqp_accept_links::ControlLinkAcceptor;
use amqp_below_layer::{LayerBelow, SessionInnerError, Tells, Verdict};
use amqp_below_sessions::Session;
use amqp_txn_types::{
    Attach, Disposition, Flow, Frame, Frames, NoMemory, SessionState, count_answer,
};
use std::alloc::Global;

/// A session with a queue of the peer's attaches and the flows that came before their handle was
/// allocated.
///
/// It counts its own calls that are answered with an Err, and tells none of what it took, opened
/// and refused: put it into a `Recorder`. What the session in it refuses and it answers Ok isn't
/// counted. A review is the session's: so a transfer whose handle isn't attached, which is dropped
/// where it comes by itself, is vetoed where it is to be handed in a commit.
#[derive(Drop)]
pub struct ListenerSession<S> {
    session: S,
    control: ControlLinkAcceptor,
    queue: AttachQueue,
    held: HeldFlows,
    refusals: u64,
    alloc: Global,
}

impl<S: Session> ListenerSession<S> {
    /// A listener over a session, with an acceptor for control links and an open queue in which no
    /// attach waits. It makes its lists on `alloc`, and takes no memory.
    pub fn new(alloc: Global, session: S, control: ControlLinkAcceptor) -> Self
        ensures inner { inner_of result ≡ session }
        ensures control { control_of result ≡ control }
        ensures queue { queue_of result ≡ record { waiting = []; closed = false } }
        ensures held { (input : InputHandle) → held_of result input ≡ [] }
        ensures own { own_of result ≡ 0 }
    {
        ListenerSession {
            session,
            control,
            queue: AttachQueue::new(alloc),
            held: HeldFlows::new(alloc),
            refusals: 0,
            alloc,
        }
    }

    /// The session in it.
    pub fn session(&self) -> &S
        ensures { result.now ≡ inner_of self.now }
    {
        &self.session
    }

    /// Takes the attach that came last out of the queue: what an owner that accepts each attach as
    /// it comes takes back. `None` where none waits. It takes no memory.
    pub fn take_newest_attach(&mut self) -> Option<Attach>
        ensures rest { ChangesQueue self.old self.new (queue_of self.new) }
        ensures newest { TakesNewest (queue_of self.old) (queue_of self.new) result }
    {
        self.queue.take_newest()
    }
}

impl<S: Session> Tells for ListenerSession<S> {
    ghost use Rattle.std.specs.Prelude.{None};

    ghost told = { λ l. record {
      taken = None;
      opened = None;
      refused = None;
      refusals = l.refusals;
      reviews = (S.told l.session).reviews;
      fixed = (S.told l.session).fixed;
    } };
}

impl<S: Session> LayerBelow for ListenerSession<S> {
    ghost use Rattle.std.specs.Prelude.{◌≡◌, false};
    ghost use Rattle.amqp_below_layer.specs.Told.{Checks, Reviews};
    ghost use Rattle.amqp_accept_listener.specs.Controlling.{HearsControl};
    ghost use Rattle.amqp_accept_listener.specs.Hearing.{HearsFrame};
    ghost use Rattle.amqp_accept_listener.specs.ListenerReviews.{TakesBare, heard-goes-on, passed-stays-on};
    ghost use Rattle.amqp_accept_listener.specs.Listening.{Passes, PassesOn, inner_of};

    ghost incoming_gives = { HearsFrame S.told S.incoming_gives S.names };

    ghost opening_gives = { λ old new attach answer.
        HearsControl S.told S.kept S.names S.calls.allocate_incoming_link S.calls.outgoing_flow
        S.calls.deallocate_link old new attach answer };

    ghost check_gives = { λ old new disposition answer.
        Passes (λ a b. Checks (S.told a) (S.told b) answer)
        (λ a b. S.check_gives a b disposition answer) old new answer };

    ghost window_gives = { λ old new flow.
        PassesOn (λ a b. S.told b ≡ S.told a) (λ a b. S.window_gives a b flow) old new };

    ghost review_gives = { λ old new list answer.
        Passes (λ a b. Reviews (S.told a) (S.told b) list answer)
        (λ a b. S.review_gives a b list answer) old new answer };

    ghost takes = { λ l list. TakesBare S.takes l list };

    ghost sure = { false };

    ghost goes_on = { λ old new frame answer gives.
        heard-goes-on S.told S.takes S.sure S.incoming_gives S.names S.goes_on
        old new frame answer gives };

    ghost stays_on = { λ old new disposition answer gives.
        passed-stays-on S.takes S.sure old new answer
        (S.stays_on (inner_of old) (inner_of new) disposition answer gives.gave) };

    ghost window_stays_on = { λ old new flow gives list takes. record {
      bare = takes.bare;
      inner = S.window_stays_on (inner_of old) (inner_of new) flow gives.gave list takes.inner;
    } };

    fn local_state(&self) -> SessionState {
        self.session.local_state()
    }

    fn on_incoming_frame(&mut self, frame: Frame) -> Result<Frames, SessionInnerError> {
        let session = &mut self.session;
        match frame {
            Frame::Attach(attach) => {
                let answer = hear_attach(session, &mut self.queue, self.alloc, attach);
                count_answer(&mut self.refusals, answer)
            }
            Frame::Flow(flow) => {
                let answer = hear_flow(session, &mut self.held, self.alloc, flow);
                count_answer(&mut self.refusals, answer)
            }
            Frame::Transfer { transfer, payload } => {
                let answer = hear_transfer(session, self.alloc, transfer, payload);
                count_answer(&mut self.refusals, answer)
            }
            Frame::Disposition(disposition) => {
                let answer = session.on_incoming_disposition(disposition);
                count_answer(&mut self.refusals, answer)
            }
            Frame::Detach(detach) => {
                let answer = session.on_incoming_detach(detach);
                count_answer(&mut self.refusals, answer)
            }
        }
    }

    fn on_control_attach(&mut self, attach: &Attach) -> Result<Frames, SessionInnerError> {
        let session = &mut self.session;
        let answer = open_control(session, &mut self.held, &self.control, self.alloc, attach);
        count_answer(&mut self.refusals, answer)
    }

    fn on_outgoing_disposition(
        &mut self,
        disposition: &Disposition,
    ) -> Result<(), SessionInnerError> {
        let answer = self.session.on_outgoing_disposition(disposition);
        count_answer(&mut self.refusals, answer)
    }

    fn maybe_outgoing_session_flow(&mut self) -> Option<Flow> {
        self.session.maybe_outgoing_session_flow()
    }

    fn review(&mut self, frames: &Frames) -> Result<Verdict, NoMemory> {
        let answer = self.session.review(frames);
        count_answer(&mut self.refusals, answer)
    }
}
