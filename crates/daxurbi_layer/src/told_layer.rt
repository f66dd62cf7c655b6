//! A layer below that answers as it was told.

ghost use Rattle.std.specs.Prelude.{◌≡◌, ◌≤◌, [], None, length, is_some, vec_capacity};
ghost use Rattle.daxurbi_layer.specs.Answering.{given_count, unless_take, unlisted};
ghost use Rattle.daxurbi_layer.specs.Refusing.{opened_list};
ghost use Rattle.daxurbi_layer.specs.Hindering.{HindersFrame, no_room};

use crate::below_answer::BelowAnswer;
use crate::refused::{Refused, list_refusal};
use amqp_below_layer::{Exchanges, LayerBelow, SessionInnerError, Tells, Verdict};
use amqp_txn_types::{
    Attach, Disposition, Flow, Frame, Frames, NoMemory, SessionState, count_one, refuse,
};
use std::alloc::Global;
use std::snapshot::Snapshot;

/// A layer that is Mapped, answers as it was told, gives no frame back, and keeps what it took.
///
/// It stands below a session for one step, which hands one frame, or frames that were reviewed
/// before. It refuses with what it was told and else only where memory runs out: what it has no
/// room for is refused with out of memory, or, where it took a frame before, with an illegal
/// state. It lists its first refusal, after which it answers with out of memory. One that was told
/// anything but to take has taken and opened nothing.
#[derive(Drop)]
pub struct ToldLayer {
    answer: BelowAnswer,
    taken: Vec<(Frame, Frames)>,
    opened: Option<Snapshot<Attach>>,
    refused: Option<Refused>,
    refusals: u64,
    vetoes: u64,
    alloc: Global,
    pub ghost untaken: { unless_take answer (length taken.items) ≡ 0 },
    pub ghost ungiven: { given_count taken.items ≡ 0 },
    pub ghost unopened: { unless_take answer (length (opened_list opened)) ≡ 0 },
    pub ghost listed: { unlisted answer taken.items (is_some refused) refusals ≡ 0 },
}

/// What a call is refused with that a layer has no room for.
fn no_room(taken: &Vec<(Frame, Frames)>) -> SessionInnerError
    ensures { result ≡ no_room taken.now.items }
{
    if taken.is_empty() {
        SessionInnerError::NoMemory
    } else {
        SessionInnerError::IllegalState
    }
}

/// Makes room for a frame, or says what it is refused with.
fn hindrance(
    told: Option<SessionInnerError>,
    refusals: u64,
    taken: &mut Vec<(Frame, Frames)>,
) -> Option<SessionInnerError>
    ensures items { taken.new.items ≡ taken.old.items }
    ensures capacity { vec_capacity taken.old ≤ vec_capacity taken.new }
    ensures answer { HindersFrame told refusals taken.old taken.new result }
{
    if told.is_some() {
        return told;
    }
    if refusals > 0 {
        return Some(SessionInnerError::NoMemory);
    }
    match taken.reserve(1) {
        Ok(()) => None,
        Err(_) => Some(no_room(taken)),
    }
}

impl ToldLayer {
    /// A layer that was told this, and has taken nothing.
    pub fn new(alloc: Global, answer: BelowAnswer) -> ToldLayer
        ensures answer { result.answer ≡ answer }
        ensures taken { result.taken.items ≡ [] }
        ensures opened { result.opened ≡ None }
        ensures refused { result.refused ≡ None }
        ensures refusals { result.refusals ≡ 0 }
        ensures vetoes { result.vetoes ≡ 0 }
    {
        ToldLayer {
            answer,
            taken: Vec::new(alloc),
            opened: None,
            refused: None,
            refusals: 0,
            vetoes: 0,
            alloc,
        }
    }

    /// What it took: each frame, with no frames given back for it, in order.
    pub fn into_taken(self) -> Exchanges
        ensures { result ≡ self.taken.items }
    {
        Exchanges::from_vec(self.taken)
    }
}

impl Tells for ToldLayer {
    ghost use Rattle.daxurbi_layer.specs.Handing.{told_of};

    ghost told = { told_of };
}

impl LayerBelow for ToldLayer {
    ghost use Rattle.std.specs.Prelude.{◌≡◌, true, None, []};
    ghost use Rattle.daxurbi_layer.specs.Handing.{Answers, Hands, OpensTold, ReviewsTold, TakesAll};
    ghost use Rattle.daxurbi_layer.specs.Lasting.{told-goes-on, told-stays-on, told-window};

    ghost incoming_gives = { Hands };

    ghost opening_gives = { OpensTold };

    ghost check_gives = { λ old new _ answer. Answers old new answer };

    ghost window_gives = { λ old new flow. (flow ≡ None) × (new ≡ old) };

    ghost review_gives = { ReviewsTold };

    ghost takes = { TakesAll };

    ghost sure = { true };

    ghost goes_on = { told-goes-on };

    ghost stays_on = { λ old new _ answer gives. told-stays-on old new answer gives };

    ghost window_stays_on = { told-window };

    fn local_state(&self) -> SessionState {
        SessionState::Mapped
    }

    fn on_incoming_frame(&mut self, frame: Frame) -> Result<Frames, SessionInnerError> {
        let told = self.answer.refusal();
        let Some(error) = hindrance(told, self.refusals, &mut self.taken) else {
            self.taken.push_reserved((frame, Frames::new(self.alloc)));
            return Ok(Frames::new(self.alloc));
        };
        let refused = Refused::Frame(Snapshot::of(&frame));
        drop(frame);
        let error = list_refusal(&mut self.refused, refused, error);
        refuse(&mut self.refusals, error)
    }

    fn on_control_attach(&mut self, attach: &Attach) -> Result<Frames, SessionInnerError> {
        let error = match self.answer.refusal() {
            Some(error) => error,
            None if self.opened.is_some() => no_room(&self.taken),
            None => {
                self.opened = Some(Snapshot::of(attach));
                return Ok(Frames::new(self.alloc));
            }
        };
        let refused = Refused::Attach(Snapshot::of(attach));
        let error = list_refusal(&mut self.refused, refused, error);
        refuse(&mut self.refusals, error)
    }

    fn on_outgoing_disposition(
        &mut self,
        disposition: &Disposition,
    ) -> Result<(), SessionInnerError> {
        match self.answer.refusal() {
            Some(error) => refuse(&mut self.refusals, error),
            None => Ok(()),
        }
    }

    fn maybe_outgoing_session_flow(&mut self) -> Option<Flow> {
        None
    }

    /// Room for the frames of an accepted commit is made here, so that each of them is taken.
    fn review(&mut self, frames: &Frames) -> Result<Verdict, NoMemory> {
        match self.answer.verdict() {
            Ok(Verdict::Accept) if self.taken.is_empty() => {
                if self.refusals == 0 && self.taken.reserve(frames.len()).is_ok() {
                    return Ok(Verdict::Accept);
                }
                refuse(&mut self.refusals, NoMemory)
            }
            Ok(_) => {
                count_one(&mut self.vetoes);
                Ok(Verdict::Veto)
            }
            Err(error) => refuse(&mut self.refusals, error),
        }
    }
}
