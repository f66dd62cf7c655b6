//! A layer below that keeps what the layer in it took.

ghost use Rattle.std.specs.Prelude.{◌≡◌, ◌↔◌, [], Some, IsTrue};
ghost use Rattle.amqp_below_layer.specs.Told.{planned, starving};
ghost use Rattle.amqp_below_recorder.specs.Recording.{IsFresh, SetsPlans, StartsOver, calls_of, inner_of, is_unused, own_of, own_vetoes_of, plan_of, starved_of};

mod listener_calls;
mod session_calls;
mod transactional_calls;

use crate::call_numbers::{any_refused, planned_for};
use crate::keeping::{after_call, before_call, keep_refusal, keep_taken, prepare, prepare_review};
use amqp_below_layer::{
    Exchanges, LayerBelow, Openings, Refusals, Reviews, SessionInnerError, Tells, Verdict,
};
use amqp_txn_types::{
    Attach, CallNumbers, Disposition, Flow, Frame, Frames, NoMemory, SessionState, count_one,
    refuse,
};
use std::alloc::Global;

/// A layer, with what it took, opened, refused and vetoed. It tells all four lists.
///
/// Its incoming frame calls are numbered from 1. A call whose number stands in its plan is refused
/// with `IllegalState`, one whose number is starved is answered `NoMemory`, and neither reaches the
/// layer in it; a number in both is starved. Room for what is kept is made before the call; where
/// there is none the answer is `NoMemory`.
///
/// A review is vetoed where the plan refuses one of the calls that its frames would make, and else
/// where the layer in it vetoes it. It counts as no call, and the starved numbers don't matter to
/// it. The frames are copied once they are vetoed: where there is no memory for that the answer is
/// `NoMemory`.
#[derive(Drop)]
pub struct Recorder<S> {
    session: S,
    plan: CallNumbers,
    starved: CallNumbers,
    calls: u64,
    unused: bool,
    exchanges: Exchanges,
    opened: Openings,
    refused: Refusals,
    refusals: u64,
    vetoed: Reviews,
    vetoes: u64,
    alloc: Global,
}

impl<S: LayerBelow> Recorder<S> {
    /// A recorder over a layer, with empty plans.
    pub fn new(alloc: Global, session: S) -> Self
        ensures inner { inner_of result ≡ session }
        ensures plan { plan_of result ≡ [] }
        ensures starved { starved_of result ≡ [] }
        ensures calls { calls_of result ≡ 0 }
        ensures own { own_of result ≡ 0 }
        ensures own_vetoes { own_vetoes_of result ≡ 0 }
        ensures unused { IsTrue (is_unused result) }
        ensures told { StartsOver (S.told session) (⟦<Recorder<S> as Tells>⟧.told result) }
    {
        Recorder {
            session,
            plan: CallNumbers::new(alloc),
            starved: CallNumbers::new(alloc),
            calls: 0,
            unused: true,
            exchanges: Exchanges::new(alloc),
            opened: Openings::new(alloc),
            refused: Refusals::new(alloc),
            refusals: 0,
            vetoed: Reviews::new(alloc),
            vetoes: 0,
            alloc,
        }
    }

    /// The numbers of the incoming frame calls that are refused.
    pub fn plan(&self) -> &CallNumbers
        ensures kept { result.now ≡ plan_of self.now }
        ensures told { result.now ≡ (⟦<Recorder<S> as Tells>⟧.told self.now).fixed.plan }
    {
        &self.plan
    }

    /// Sets the numbers of the incoming frame calls that are refused.
    ///
    /// # Requires
    ///
    /// That the recorder [`is_fresh`](Recorder::is_fresh).
    pub fn set_plan(&mut self, plan: CallNumbers)
        requires { IsFresh (is_unused self.old) (⟦<Recorder<S> as Tells>⟧.told self.old) }
        ensures sets { SetsPlans self.old self.new plan (starved_of self.old) }
        ensures told { ⟦<Recorder<S> as Tells>⟧.told self.new
            ≡ planned plan (⟦<Recorder<S> as Tells>⟧.told self.old) }
    {
        self.plan = plan;
    }

    /// The numbers of the incoming frame calls that are answered with out of memory.
    pub fn starved(&self) -> &CallNumbers
        ensures kept { result.now ≡ starved_of self.now }
        ensures told { result.now ≡ (⟦<Recorder<S> as Tells>⟧.told self.now).fixed.starved }
    {
        &self.starved
    }

    /// Sets the numbers of the incoming frame calls that are answered with out of memory.
    ///
    /// # Requires
    ///
    /// That the recorder [`is_fresh`](Recorder::is_fresh).
    pub fn set_starved(&mut self, plan: CallNumbers)
        requires { IsFresh (is_unused self.old) (⟦<Recorder<S> as Tells>⟧.told self.old) }
        ensures sets { SetsPlans self.old self.new (plan_of self.old) plan }
        ensures told { ⟦<Recorder<S> as Tells>⟧.told self.new
            ≡ starving plan (⟦<Recorder<S> as Tells>⟧.told self.old) }
    {
        self.starved = plan;
    }

    /// What was taken: each frame with the frames given back for it, in order.
    pub fn exchanges(&self) -> &Exchanges
        ensures { Some result.now ≡ (⟦<Recorder<S> as Tells>⟧.told self.now).taken }
    {
        &self.exchanges
    }

    /// The control links that were opened: each attach with the frames given back for it, in order.
    pub fn opened(&self) -> &Openings
        ensures { Some result.now ≡ (⟦<Recorder<S> as Tells>⟧.told self.now).opened }
    {
        &self.opened
    }

    /// What was refused: each frame with the error, in order. Out of memory isn't listed.
    pub fn refused(&self) -> &Refusals
        ensures { Some result.now ≡ (⟦<Recorder<S> as Tells>⟧.told self.now).refused }
    {
        &self.refused
    }

    /// The lists of frames that were vetoed, in order.
    pub fn vetoed(&self) -> &Reviews
        ensures { Some result.now ≡ (⟦<Recorder<S> as Tells>⟧.told self.now).reviews.vetoed }
    {
        &self.vetoed
    }

    /// Whether the layer is Mapped, and had no incoming frame call and no attach of a control link.
    /// It may have been asked for reviews.
    pub fn is_fresh(&self) -> bool
        ensures { IsTrue result
            ↔ IsFresh (is_unused self.now) (⟦<Recorder<S> as Tells>⟧.told self.now) }
    {
        self.unused
            && self.session.local_state() == SessionState::Mapped
            && self.exchanges.len() == 0
            && self.opened.len() == 0
            && self.refused.len() == 0
    }
}

impl<S: LayerBelow> Tells for Recorder<S> {
    ghost use Rattle.std.specs.Prelude.{Some, ◌+◌};

    ghost told = { λ r. record {
      taken = Some r.exchanges;
      opened = Some r.opened;
      refused = Some r.refused;
      refusals = (S.told r.session).refusals + r.refusals;
      reviews = record {
        vetoes = (S.told r.session).reviews.vetoes + r.vetoes;
        vetoed = Some r.vetoed;
      };
      fixed = record {
        state = (S.told r.session).fixed.state;
        plan = r.plan;
        starved = r.starved;
      };
    } };
}

impl<S: LayerBelow> LayerBelow for Recorder<S> {
    ghost use Rattle.std.specs.Prelude.{◌≡◌, false};
    ghost use Rattle.amqp_below_layer.specs.Told.{Checks};
    ghost use Rattle.amqp_below_recorder.specs.Recording.{Passes, RecordsCall, RecordsOpen, inner_of};
    ghost use Rattle.amqp_below_recorder.specs.Vetoing.{RecordsReview, TakesEach, recorded-goes-on, recorded-stays-on, recorded-window-stays-on};

    ghost incoming_gives = { λ old new frame answer.
        RecordsCall S.told S.incoming_gives old new frame answer };

    ghost opening_gives = { λ old new attach answer.
        RecordsOpen S.told S.opening_gives old new attach answer };

    ghost check_gives = { λ old new disposition answer.
        Passes (λ a b. Checks (S.told a) (S.told b) answer)
        (λ a b. S.check_gives a b disposition answer) old new };

    ghost window_gives = { λ old new flow.
        Passes (λ a b. S.told b ≡ S.told a) (λ a b. S.window_gives a b flow) old new };

    ghost review_gives = { λ old new list answer.
        RecordsReview S.told S.review_gives old new list answer };

    ghost takes = { λ r list. TakesEach S.takes r list };

    ghost sure = { false };

    ghost goes_on = { λ old new frame answer gives.
        recorded-goes-on S.told S.takes S.sure S.incoming_gives S.goes_on old new frame answer
        gives };

    ghost stays_on = { λ old new disposition answer gives.
        recorded-stays-on S.takes S.sure old new answer gives.kept
        (S.stays_on (inner_of old) (inner_of new) disposition answer gives.answered) };

    ghost window_stays_on = { λ old new flow gives.
        recorded-window-stays-on S.takes old new gives.kept
        (S.window_stays_on (inner_of old) (inner_of new) flow gives.answered) };

    fn local_state(&self) -> SessionState {
        self.session.local_state()
    }

    /// Room for what is kept is made first.
    #[inline(always)]
    fn on_incoming_frame(&mut self, frame: Frame) -> Result<Frames, SessionInnerError> {
        self.unused = false;
        self.calls = self.calls.saturating_add(1);
        let planned = planned_for(&self.plan, &self.starved, self.calls);
        let exchanges = &mut self.exchanges.items;
        let refused = &mut self.refused.items;
        let copy = match before_call(planned, &frame, exchanges, refused) {
            Ok(copy) => copy,
            Err(error) => {
                drop(frame);
                return refuse(&mut self.refusals, error);
            }
        };
        let answer = self.session.on_incoming_frame(frame);
        after_call(
            self.alloc,
            exchanges,
            refused,
            &mut self.refusals,
            copy,
            answer,
        )
    }

    fn on_control_attach(&mut self, attach: &Attach) -> Result<Frames, SessionInnerError> {
        self.unused = false;
        let Ok(copy) = prepare(attach, &mut self.opened.items, &mut self.refused.items) else {
            count_one(&mut self.refusals);
            return Err(SessionInnerError::NoMemory);
        };
        match self.session.on_control_attach(attach) {
            Ok(given) => match keep_taken(self.alloc, &mut self.opened.items, copy, given) {
                Ok(given) => Ok(given),
                Err(_) => {
                    count_one(&mut self.refusals);
                    Err(SessionInnerError::NoMemory)
                }
            },
            Err(error) => {
                let frame = Frame::Attach(copy);
                Err(keep_refusal(&mut self.refused.items, frame, error))
            }
        }
    }

    fn on_outgoing_disposition(
        &mut self,
        disposition: &Disposition,
    ) -> Result<(), SessionInnerError> {
        self.session.on_outgoing_disposition(disposition)
    }

    fn maybe_outgoing_session_flow(&mut self) -> Option<Flow> {
        self.session.maybe_outgoing_session_flow()
    }

    fn review(&mut self, frames: &Frames) -> Result<Verdict, NoMemory> {
        if any_refused(&self.plan, self.calls, frames.as_slice()) {
            let Ok(copy) = prepare_review(frames, &mut self.vetoed.items) else {
                return refuse(&mut self.refusals, NoMemory);
            };
            count_one(&mut self.vetoes);
            self.vetoed.items.push_reserved(copy);
            return Ok(Verdict::Veto);
        }
        match self.session.review(frames) {
            Ok(Verdict::Veto) => {
                let Ok(copy) = prepare_review(frames, &mut self.vetoed.items) else {
                    return refuse(&mut self.refusals, NoMemory);
                };
                self.vetoed.items.push_reserved(copy);
                Ok(Verdict::Veto)
            }
            Ok(Verdict::Accept) => Ok(Verdict::Accept),
            Err(error) => Err(error),
        }
    }
}
