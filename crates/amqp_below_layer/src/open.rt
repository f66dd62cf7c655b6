//! A layer below that takes everything.

use crate::inner_error::SessionInnerError;
use crate::layer::LayerBelow;
use crate::tells::Tells;
use crate::verdict::Verdict;
use amqp_txn_types::{Attach, Disposition, Flow, Frame, Frames, NoMemory, SessionState};
use std::alloc::Global;

/// A layer that is Mapped, takes every frame, gives none back, and refuses and vetoes nothing.
///
/// It keeps nothing, so it tells none of its lists: a `Recorder` over it does.
#[derive(Drop)]
pub struct OpenSession {
    alloc: Global,
}

impl OpenSession {
    /// A layer that makes its empty lists on `alloc`.
    pub fn new(alloc: Global) -> OpenSession {
        OpenSession { alloc }
    }
}

impl Tells for OpenSession {
    ghost use Rattle.amqp_below_layer.specs.Told.{open_told};

    ghost told = { λ _. open_told };
}

impl LayerBelow for OpenSession {
    ghost use Rattle.std.specs.Prelude.{◌≡◌, true, None, Ok, []};
    ghost use Rattle.amqp_below_layer.specs.Reviewing.{always-goes-on, always-stays-on};
    ghost use Rattle.amqp_below_layer.specs.declared.verdict.Verdict.TheVariants as verdicts;

    ghost incoming_gives = { λ old new _ answer. (answer ≡ Ok []) × (new ≡ old) };

    ghost opening_gives = { λ old new _ answer. (answer ≡ Ok []) × (new ≡ old) };

    ghost check_gives = { λ old new _ answer. (answer ≡ Ok tt) × (new ≡ old) };

    ghost window_gives = { λ old new flow. (flow ≡ None) × (new ≡ old) };

    ghost review_gives = { λ old new _ answer. (answer ≡ Ok verdicts.Accept) × (new ≡ old) };

    ghost takes = { λ _ _. Unit {0} };

    ghost sure = { true };

    ghost goes_on = { λ old new frame answer gives. always-goes-on old new frame answer gives.0 };

    ghost stays_on = { λ old new _ answer gives. always-stays-on old new answer gives.0 };

    ghost window_stays_on = { λ _ _ _ _ _ takes. takes };

    fn local_state(&self) -> SessionState {
        SessionState::Mapped
    }

    fn on_incoming_frame(&mut self, frame: Frame) -> Result<Frames, SessionInnerError> {
        Ok(Frames::new(self.alloc))
    }

    fn on_control_attach(&mut self, attach: &Attach) -> Result<Frames, SessionInnerError> {
        Ok(Frames::new(self.alloc))
    }

    fn on_outgoing_disposition(
        &mut self,
        disposition: &Disposition,
    ) -> Result<(), SessionInnerError> {
        Ok(())
    }

    fn maybe_outgoing_session_flow(&mut self) -> Option<Flow> {
        None
    }

    fn review(&mut self, frames: &Frames) -> Result<Verdict, NoMemory> {
        Ok(Verdict::Accept)
    }
}
