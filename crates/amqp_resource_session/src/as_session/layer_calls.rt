//! The calls of a layer below.

use crate::session::TxnSession;
use amqp_below_layer::{LayerBelow, SessionInnerError, Verdict};
use amqp_txn_types::{
    Attach, Disposition, Flow, Frame, Frames, NoMemory, SessionState, count_answer, count_one,
    refuse,
};

impl<S: LayerBelow> LayerBelow for TxnSession<S> {
    ghost use Rattle.std.specs.Prelude.{◌≡◌, false};
    ghost use Rattle.amqp_below_layer.specs.Told.{Checks, Opens};
    ghost use Rattle.amqp_resource_session.specs.Hearing.{HearsFrame};
    ghost use Rattle.amqp_resource_session.specs.Passing.{Passes, PassesOn};
    ghost use Rattle.amqp_resource_session.specs.Reviewing.{TxnReviews, TxnTakes, check-stays-on, heard-goes-on, window-stays-on};

    ghost incoming_gives = { HearsFrame S.told S.incoming_gives S.opening_gives };

    ghost opening_gives = { λ old new attach answer.
        Passes (λ a b. Opens (S.told a) (S.told b) attach answer)
        (λ a b. S.opening_gives a b attach answer) old new answer };

    ghost check_gives = { λ old new disposition answer.
        Passes (λ a b. Checks (S.told a) (S.told b) answer)
        (λ a b. S.check_gives a b disposition answer) old new answer };

    ghost window_gives = { λ old new flow.
        PassesOn (λ a b. S.told b ≡ S.told a) (λ a b. S.window_gives a b flow) old new };

    ghost review_gives = { TxnReviews S.told S.review_gives };

    ghost takes = { TxnTakes S.takes };

    ghost sure = { false };

    ghost goes_on = { heard-goes-on S.told S.takes S.sure S.incoming_gives S.opening_gives
        S.goes_on };

    ghost stays_on = { λ old new disposition answer gives.
        check-stays-on S.told S.takes S.sure (λ a b. Checks (S.told a) (S.told b) answer)
        S.check_gives S.stays_on old new disposition answer gives };

    ghost window_stays_on = { λ old new flow gives.
        window-stays-on S.told S.takes S.sure (λ a b. S.told b ≡ S.told a)
        (λ a b. S.window_gives a b flow)
        (λ a b. S.window_stays_on a b flow) old new gives };

    fn local_state(&self) -> SessionState {
        self.below.local_state()
    }

    fn on_incoming_frame(&mut self, frame: Frame) -> Result<Frames, SessionInnerError> {
        self.hear(frame)
    }

    fn on_control_attach(&mut self, attach: &Attach) -> Result<Frames, SessionInnerError> {
        let answer = self.below.on_control_attach(attach);
        count_answer(&mut self.refusals, answer)
    }

    fn on_outgoing_disposition(
        &mut self,
        disposition: &Disposition,
    ) -> Result<(), SessionInnerError> {
        let answer = self.below.on_outgoing_disposition(disposition);
        count_answer(&mut self.refusals, answer)
    }

    fn maybe_outgoing_session_flow(&mut self) -> Option<Flow> {
        self.below.maybe_outgoing_session_flow()
    }

    fn review(&mut self, frames: &Frames) -> Result<Verdict, NoMemory> {
        if self.stop.is_some() {
            count_one(&mut self.vetoes);
            return Ok(Verdict::Veto);
        }
        match self.below.review(frames) {
            Ok(Verdict::Accept) => Ok(Verdict::Accept),
            Ok(Verdict::Veto) => {
                count_one(&mut self.vetoes);
                Ok(Verdict::Veto)
            }
            Err(error) => refuse(&mut self.refusals, error),
        }
    }
}
