//! The layer below a transactional session.

use crate::inner_error::SessionInnerError;
use crate::tells::Tells;
use crate::verdict::Verdict;
use amqp_txn_types::{
    Attach, Detach, Disposition, Flow, Frame, Frames, NoMemory, Payload, SessionState, Transfer,
};

/// The calls that a transactional session makes on the session below it.
///
/// A layer has one incoming frame call, [`on_incoming_frame`]; the five that are named by a frame
/// are calls of it. No call changes the state of the session. An incoming frame call that is Ok
/// took its frame and gives the frames to be sent back. Every Err counts as a refusal: it comes
/// only where the count of refusals rose in the call, or stands at its last value, 2^64 - 1.
///
/// Frames that belong together are reviewed before the first of them is handed. After an Accept
/// each is taken in its turn, or refused where memory runs out; a layer that is `sure` takes them
/// all.
///
/// [`on_incoming_frame`]: LayerBelow::on_incoming_frame
pub trait LayerBelow: Tells {
    ghost use Rattle.std.specs.Prelude.{◌≡◌, Bool, true, List, Option, Result};
    ghost use Rattle.std.specs.List.{list_all};
    ghost use Rattle.amqp_below_layer.specs.Told.{Takes, Opens, Checks, Reviews};
    ghost use Rattle.amqp_below_layer.specs.Reviewing.{GoesOn, OnAccept, StaysOn, is_bare};
    ghost use Rattle.amqp_below_layer.specs.declared.verdict.Verdict.{Verdict};
    ghost use Rattle.amqp_txn_types.specs.declared.items.NoMemory.{NoMemory};
    ghost use Rattle.amqp_below_layer.specs.declared.inner_error.SessionInnerError.{SessionInnerError};
    ghost use Rattle.amqp_txn_types.specs.declared.performatives.Attach.{Attach};
    ghost use Rattle.amqp_txn_types.specs.declared.performatives.Disposition.{Disposition};
    ghost use Rattle.amqp_txn_types.specs.declared.performatives.Flow.{Flow};
    ghost use Rattle.amqp_txn_types.specs.declared.performatives.Frame.{Frame};
    ghost use Rattle.amqp_txn_types.specs.declared.performatives.Frame.TheVariants as frames;

    /// What an incoming frame call answers and leaves: the layer before and after, the frame, the
    /// answer.
    ghost incoming_gives: { Self → Self → Frame → Result (List Frame) SessionInnerError → Type 0 };

    /// What the attach of a control link answers and leaves: the layer before and after, the
    /// attach, the answer.
    ghost opening_gives: { Self → Self → Attach → Result (List Frame) SessionInnerError → Type 0 };

    /// What the check of a disposition answers and leaves: the layer before and after, the
    /// disposition, the answer.
    ghost check_gives: { Self → Self → Disposition → Result Unit SessionInnerError → Type 0 };

    /// The flow that tells the session's window, and what asking for it leaves: the layer before
    /// and after, the flow.
    ghost window_gives: { Self → Self → Option Flow → Type 0 };

    /// What a review answers and leaves: the layer before and after, the frames, the answer.
    ghost review_gives: { Self → Self → List Frame → Result Verdict NoMemory → Type 0 };

    /// The layer takes these frames one after another, if memory allows.
    ghost takes: { Self → List Frame → Type 0 };

    /// It has the memory for the frames that it takes.
    ghost sure: { Bool };

    /// The incoming call of the first of some frames that it takes is Ok, and then it takes the
    /// rest; or it runs out of memory.
    ghost goes_on: { (old new : Self) (frame : Frame) (answer : Result (List Frame) SessionInnerError)
        → Self.incoming_gives old new frame answer
        → GoesOn Self.takes Self.sure old new frame answer };

    /// The check of a disposition among frames that it takes is Ok, and then it takes them still;
    /// or it runs out of memory.
    ghost stays_on: { (old new : Self) (disposition : Disposition) (answer : Result Unit SessionInnerError)
        → Self.check_gives old new disposition answer
        → StaysOn Self.takes Self.sure old new answer };

    /// Asking for the window leaves what it takes.
    ghost window_stays_on: { (old new : Self) (flow : Option Flow)
        → Self.window_gives old new flow
        → (list : List Frame) → Self.takes old list → Self.takes new list };

    /// The state of the session (part 2 of the standard, section 2.5.5).
    fn local_state(&self) -> SessionState
        ensures { result ≡ (Self.told self.now).fixed.state };

    /// A frame that isn't the attach of a control link (sections 2.7.3 to 2.7.7).
    fn on_incoming_frame(&mut self, frame: Frame) -> Result<Frames, SessionInnerError>
        ensures told { Takes (Self.told self.old) (Self.told self.new) frame result }
        ensures gives { incoming_gives self.old self.new frame result };

    /// An attach to a coordinator (part 4, section 4.2): Ok opens the control link.
    fn on_control_attach(&mut self, attach: &Attach) -> Result<Frames, SessionInnerError>
        ensures told { Opens (Self.told self.old) (Self.told self.new) attach.now result }
        ensures gives { opening_gives self.old self.new attach.now result };

    /// Whether a disposition that is about to be sent may be sent.
    fn on_outgoing_disposition(
        &mut self,
        disposition: &Disposition,
    ) -> Result<(), SessionInnerError>
        ensures told { Checks (Self.told self.old) (Self.told self.new) result }
        ensures gives { check_gives self.old self.new disposition.now result };

    /// A flow that tells the peer the session's window, where one is due. It takes no memory.
    fn maybe_outgoing_session_flow(&mut self) -> Option<Flow>
        ensures told { Self.told self.new ≡ Self.told self.old }
        ensures gives { window_gives self.old self.new result };

    /// Whether these frames, which are about to be handed one after another, would all be taken.
    /// None of them is handed by that. A Veto comes only where the count of vetoes rose in the
    /// call, or stands at its last value, 2^64 - 1; out of memory counts as a refusal.
    ///
    /// # Requires
    ///
    /// Each frame is a transfer or a disposition without a transactional state.
    fn review(&mut self, frames: &Frames) -> Result<Verdict, NoMemory>
        requires { list_all is_bare frames.now ≡ true }
        ensures told { Reviews (Self.told self.old) (Self.told self.new) frames.now result }
        ensures takes { OnAccept result (takes self.new frames.now) }
        ensures gives { review_gives self.old self.new frames.now result };

    /// An attach of a link that isn't a control link (section 2.7.3).
    final fn on_incoming_attach(&mut self, attach: Attach) -> Result<Frames, SessionInnerError>
        ensures told { Takes (Self.told self.old) (Self.told self.new)
            (frames.Attach attach) result }
        ensures gives { incoming_gives self.old self.new (frames.Attach attach) result }
    {
        self.on_incoming_frame(Frame::Attach(attach))
    }

    /// A flow (section 2.7.4).
    final fn on_incoming_flow(&mut self, flow: Flow) -> Result<Frames, SessionInnerError>
        ensures told { Takes (Self.told self.old) (Self.told self.new)
            (frames.Flow flow) result }
        ensures gives { incoming_gives self.old self.new (frames.Flow flow) result }
    {
        self.on_incoming_frame(Frame::Flow(flow))
    }

    /// A transfer with its payload (section 2.7.5).
    final fn on_incoming_transfer(
        &mut self,
        transfer: Transfer,
        payload: Payload,
    ) -> Result<Frames, SessionInnerError>
        ensures told { Takes (Self.told self.old) (Self.told self.new)
            (frames.Transfer transfer payload) result }
        ensures gives { incoming_gives self.old self.new
            (frames.Transfer transfer payload) result }
    {
        self.on_incoming_frame(Frame::Transfer { transfer, payload })
    }

    /// A disposition (section 2.7.6).
    final fn on_incoming_disposition(
        &mut self,
        disposition: Disposition,
    ) -> Result<Frames, SessionInnerError>
        ensures told { Takes (Self.told self.old) (Self.told self.new)
            (frames.Disposition disposition) result }
        ensures gives { incoming_gives self.old self.new (frames.Disposition disposition) result }
    {
        self.on_incoming_frame(Frame::Disposition(disposition))
    }

    /// A detach (section 2.7.7).
    final fn on_incoming_detach(&mut self, detach: Detach) -> Result<Frames, SessionInnerError>
        ensures told { Takes (Self.told self.old) (Self.told self.new)
            (frames.Detach detach) result }
        ensures gives { incoming_gives self.old self.new (frames.Detach detach) result }
    {
        self.on_incoming_frame(Frame::Detach(detach))
    }
}
