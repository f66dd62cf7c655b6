//! What no clause says: what goes out is checked by the layer below. And the life of an id of no
//! link, step by step.

mod listener_tests;
mod log_tests;
mod review_tests;
mod window_tests;

use amqp_below_layer::{LayerBelow, OpenSession, SessionInnerError, Tells, Verdict};
use amqp_below_recorder::Recorder;
use amqp_below_sessions::{HandleDeclare, HandleDischarge};
use amqp_resource_session::*;
use amqp_test_values::{control_attach, disposition, leak, transfer as transfer_on, under};
use amqp_txn_codec::{ControlMessageBody, Declare, Discharge};
use amqp_txn_types::{
    Attach, CallNumbers, DeliveryState, Disposition, Flow, Frame, Frames, NoMemory, Payload,
    SessionState, Text, TransactionError, TransactionId, Transfer,
};
use std::alloc::Global;
use std::mem::replace;
use std::process::Abort;

/// An open session that runs out of memory for each disposition that goes out. It gives these back
/// for its first transfer and its second one, and no frame for any other.
#[derive(Drop)]
struct Unsettling {
    alloc: Global,
    open: OpenSession,
    refusals: u64,
    first: Frames,
    second: Frames,
}

/// Such a layer, which gives these back.
fn echoing(alloc: Global, first: Frames, second: Frames) -> Unsettling {
    Unsettling {
        alloc,
        open: OpenSession::new(alloc),
        refusals: 0,
        first,
        second,
    }
}

/// Such a layer, which gives no frame back.
fn echoing_none(alloc: Global) -> Unsettling {
    echoing(alloc, Frames::new(alloc), Frames::new(alloc))
}

/// The disposition that it gives back.
fn echo(rt: &impl Abort, alloc: Global) -> Frames {
    let mut given = Frames::new(alloc);
    let echoed = Frame::Disposition(disposition(7));
    given.append(echoed).expect(rt, "an Ok");
    given
}

/// Such a layer, which gives a disposition back for its first transfer.
fn echoing_first(rt: &impl Abort, alloc: Global) -> Unsettling {
    echoing(alloc, echo(rt, alloc), Frames::new(alloc))
}

/// Such a layer, which gives a disposition back for its second transfer.
fn echoing_second(rt: &impl Abort, alloc: Global) -> Unsettling {
    echoing(alloc, Frames::new(alloc), echo(rt, alloc))
}

impl Tells for Unsettling {
    ghost use Rattle.amqp_below_layer.specs.Told.{open_told};

    ghost told = { λ layer. record open_told { refusals = layer.refusals } };
}

impl LayerBelow for Unsettling {
    ghost use Rattle.std.specs.Prelude.{false};
    ghost use Rattle.amqp_below_layer.specs.Reviewing.{GoesOn, StaysOn};

    ghost incoming_gives = { GoesOn (λ _ _. Unit {0}) false };

    ghost opening_gives = { λ old new attach result. Unit {0} };

    ghost check_gives = { λ old new _ result. StaysOn (λ _ _. Unit {0}) false old new result };

    ghost window_gives = { λ old new flow. Unit {0} };

    ghost review_gives = { λ old new frames result. Unit {0} };

    ghost takes = { λ _ _. Unit {0} };

    ghost sure = { false };

    ghost goes_on = { λ _ _ _ _ gives. gives };

    ghost stays_on = { λ _ _ _ _ gives. gives };

    ghost window_stays_on = { λ _ _ _ _ _ takes. takes };

    fn on_incoming_frame(&mut self, frame: Frame) -> Result<Frames, SessionInnerError> {
        match frame {
            Frame::Transfer { transfer, payload } => {
                leak(transfer);
                leak(payload);
                let next = replace(&mut self.second, Frames::new(self.alloc));
                Ok(replace(&mut self.first, next))
            }
            other => self.open.on_incoming_frame(other),
        }
    }

    fn on_outgoing_disposition(
        &mut self,
        disposition: &Disposition,
    ) -> Result<(), SessionInnerError> {
        self.refusals = self.refusals.saturating_add(1);
        Err(SessionInnerError::NoMemory)
    }

    fn local_state(&self) -> SessionState {
        self.open.local_state()
    }

    fn on_control_attach(&mut self, attach: &Attach) -> Result<Frames, SessionInnerError> {
        self.open.on_control_attach(attach)
    }

    fn maybe_outgoing_session_flow(&mut self) -> Option<Flow> {
        self.open.maybe_outgoing_session_flow()
    }

    fn review(&mut self, frames: &Frames) -> Result<Verdict, NoMemory> {
        self.open.review(frames)
    }
}

/// The attach of a control link.
fn control_link(rt: &impl Abort, alloc: Global) -> Step {
    let name = Text::from_str(alloc, "c").expect(rt, "an Ok");
    Step::Frame(Frame::Attach(control_attach(name, 0)))
}

/// A declare on link 0.
fn declare(rt: &impl Abort, alloc: Global) -> Step {
    let message = ControlMessageBody::Declare(Declare { global_id: None });
    let payload = message.encode(alloc).expect(rt, "an Ok");
    Step::Control { link: 0, payload }
}

/// A control message on link 0 that commits the id.
pub(crate) fn discharge(rt: &impl Abort, alloc: Global, txn_id: TransactionId) -> Step {
    let message = ControlMessageBody::Discharge(Discharge { txn_id, fail: None });
    let payload = message.encode(alloc).expect(rt, "an Ok");
    Step::Control { link: 0, payload }
}

/// The transfer of a delivery with an id.
pub(crate) fn transfer(settled: bool, state: Option<DeliveryState>) -> Frame {
    let mut transfer = transfer_on(1);
    transfer.delivery_id = Some(7);
    transfer.settled = Some(settled);
    leak(replace(&mut transfer.state, state));
    Frame::Transfer {
        transfer,
        payload: Payload::new(),
    }
}

/// A post under the id.
pub(crate) fn post(settled: bool, txn_id: TransactionId) -> Step {
    Step::Frame(transfer(settled, under(txn_id)))
}

/// What a step was answered, in a word.
fn word(answer: &Result<(Drawn, Reply), StepError>) -> &'static str {
    match answer {
        Ok((_, reply)) => word_of(reply),
        Err(
            StepError::Fault {
                error: SessionInnerError::NoMemory,
                handed: 0,
            },
        ) => "no memory below, none handed",
        Err(_) => "another error",
    }
}

/// What a reply is, in a word.
fn word_of(reply: &Reply) -> &'static str {
    match reply {
        Reply::Frames(answers) => {
            if answers.given.is_empty() && answers.window.is_none() {
                "no frames"
            } else {
                "frames"
            }
        }
        Reply::Attached { link: 0, frames: _ } => "attached 0",
        Reply::Rejected {
            error: TransactionError::UnknownId,
            text: RejectText::Absent,
        } => "rejected, unknown id",
        Reply::Rejected {
            error: TransactionError::Rollback,
            text: RejectText::Absent,
        } => "rejected, rolled back",
        Reply::Accepted(_) => "accepted",
        Reply::LinkEnded => "link ended",
        _ => "another reply",
    }
}

/// Makes a step: what it was answered, in a word.
pub(crate) fn answer_of<S: LayerBelow>(
    session: &mut TxnSession<S>,
    step: Step,
    ids: &mut CountIds,
) -> &'static str {
    if session.links_opened() == u64::MAX {
        leak(step);
        return "too many links";
    }
    let answer = session.step(&step, ids);
    leak(step);
    let found = word(&answer);
    leak(answer);
    found
}

/// Allocates an id of no link: whether it is the first.
fn allocates_first<S: LayerBelow>(session: &mut TxnSession<S>, ids: &mut CountIds) -> bool {
    let allocated = session.allocate_transaction_id(ids);
    let is_first = match &allocated {
        Ok(drawn) => drawn.get(0) == Some(&numbered_id(1)),
        Err(_) => false,
    };
    leak(allocated);
    is_first
}

#[test]
fn a_refused_presumptive_disposition_stops_the_session(rt: HostRuntime) {
    let alloc = rt.alloc();
    let id = numbered_id(1);
    let mut ids = CountIds::new();
    let mut session = TxnSession::new(alloc, echoing_none(alloc));
    let allocated = allocates_first(&mut session, &mut ids);
    let settled = answer_of(&mut session, post(true, id), &mut ids);
    let unsettled = answer_of(&mut session, post(false, id), &mut ids);
    let code = session.stop_code();
    let refusals = session.below().refusals;
    leak(session);
    assert!(rt; allocated);
    assert!(rt; settled == "no frames");
    assert!(rt; unsettled == "no memory below, none handed");
    assert!(rt; code == Some(StopCode::BelowNoMemory));
    assert!(rt; refusals == 1);
}

/// A session over a layer that tells what it took.
pub(crate) type Recorded = TxnSession<Recorder<OpenSession>>;

/// Attaches control link 0: what that was answered.
fn attaches<S: LayerBelow>(
    rt: &impl Abort,
    alloc: Global,
    session: &mut TxnSession<S>,
    ids: &mut CountIds,
) -> &'static str {
    answer_of(session, control_link(rt, alloc), ids)
}

/// Discharges the id on link 0: what that was answered.
fn discharges<S: LayerBelow>(
    rt: &impl Abort,
    alloc: Global,
    session: &mut TxnSession<S>,
    id: TransactionId,
    ids: &mut CountIds,
) -> &'static str {
    answer_of(session, discharge(rt, alloc, id), ids)
}

/// How many frames a commit of the id was answered for; 100 for an error.
fn commits<S: LayerBelow>(session: &mut TxnSession<S>, id: TransactionId) -> usize {
    let committed = session.commit_transaction(&id);
    let count = match &committed {
        Ok(Ok(echoes)) => echoes.len(),
        _ => 100,
    };
    leak(committed);
    count
}

/// Whether the layer below took the settled transfer under no id, and nothing else.
fn took_stripped(session: &Recorded) -> bool {
    let taken = session.below().exchanges().as_slice();
    if taken.len() != 1 {
        return false;
    }
    let wanted = transfer(true, None);
    let same = taken[0].0 == wanted;
    leak(wanted);
    same
}

#[test]
fn an_id_of_no_link_is_left_to_its_own_calls(rt: HostRuntime) {
    let alloc = rt.alloc();
    let id = numbered_id(1);
    let mut ids = CountIds::new();
    let mut session = TxnSession::new(alloc, Recorder::new(alloc, OpenSession::new(alloc)));
    let attached = attaches(&rt, alloc, &mut session, &mut ids);
    let allocated = allocates_first(&mut session, &mut ids);
    let posted = answer_of(&mut session, post(true, id), &mut ids);
    let discharged = discharges(&rt, alloc, &mut session, id, &mut ids);
    let ended = answer_of(&mut session, Step::LinkEnd { link: 0 }, &mut ids);
    let live = session.is_live(&id);
    let committed = commits(&mut session, id);
    let still_live = session.is_live(&id);
    let stripped = took_stripped(&session);
    leak(session);
    assert!(rt; attached == "attached 0");
    assert!(rt; allocated);
    assert!(rt; posted == "no frames");
    assert!(rt; discharged == "rejected, unknown id");
    assert!(rt; ended == "link ended");
    assert!(rt; live);
    assert!(rt; committed == 1);
    assert!(rt; !still_live);
    assert!(rt; stripped);
}

/// Makes a step: whether the layer below refused it when so many of its frames had been taken.
fn is_refused<S: LayerBelow>(
    session: &mut TxnSession<S>,
    step: Step,
    ids: &mut CountIds,
    count: usize,
) -> bool {
    if session.links_opened() == u64::MAX {
        leak(step);
        return false;
    }
    let answer = session.step(&step, ids);
    leak(step);
    let refused = match &answer {
        Err(
            StepError::Fault {
                error: SessionInnerError::NoMemory,
                handed,
            },
        ) => *handed == count,
        _ => false,
    };
    leak(answer);
    refused
}

/// Whether a plain transfer is refused when it has been taken.
fn plain_is_refused<S: LayerBelow>(mut session: TxnSession<S>) -> bool {
    let mut ids = CountIds::new();
    let refused = is_refused(&mut session, Step::Frame(transfer(true, None)), &mut ids, 1);
    leak(session);
    refused
}

/// Attaches control link 0 and declares the first id on it.
pub(crate) fn begin_transaction<S: LayerBelow>(
    rt: &impl Abort,
    alloc: Global,
    session: &mut TxnSession<S>,
    ids: &mut CountIds,
) {
    let _word = answer_of(session, control_link(rt, alloc), ids);
    let _word = answer_of(session, declare(rt, alloc), ids);
}

/// Whether a commit of two posts is refused when both have been taken.
fn commit_is_refused<S: LayerBelow>(
    rt: &impl Abort,
    alloc: Global,
    mut session: TxnSession<S>,
) -> bool {
    let mut ids = CountIds::new();
    let id = numbered_id(1);
    begin_transaction(rt, alloc, &mut session, &mut ids);
    let _word = answer_of(&mut session, post(true, id), &mut ids);
    let _word = answer_of(&mut session, post(true, id), &mut ids);
    let commit = discharge(rt, alloc, id);
    let refused = is_refused(&mut session, commit, &mut ids, 2);
    leak(session);
    refused
}

#[test]
fn a_frame_whose_answer_is_refused_was_taken(rt: HostRuntime) {
    let alloc = rt.alloc();
    let below = echoing_first(&rt, alloc);
    let refused = plain_is_refused(TxnSession::new(alloc, below));
    assert!(rt; refused);
}

#[test]
fn a_frame_whose_answer_is_refused_was_taken_by_a_recorder(rt: HostRuntime) {
    let alloc = rt.alloc();
    let below = Recorder::new(alloc, echoing_first(&rt, alloc));
    let refused = plain_is_refused(TxnSession::new(alloc, below));
    assert!(rt; refused);
}

#[test]
fn a_refused_answer_within_a_commit_counts_its_frame(rt: HostRuntime) {
    let alloc = rt.alloc();
    let below = echoing_second(&rt, alloc);
    let refused = commit_is_refused(&rt, alloc, TxnSession::new(alloc, below));
    assert!(rt; refused);
}

#[test]
fn a_recorder_passes_on_a_refused_answer_within_a_commit(rt: HostRuntime) {
    let alloc = rt.alloc();
    let below = Recorder::new(alloc, echoing_second(&rt, alloc));
    let refused = commit_is_refused(&rt, alloc, TxnSession::new(alloc, below));
    assert!(rt; refused);
}

/// A session over a recorder that is planned to refuse the call with that number.
pub(crate) fn planned(alloc: Global, number: u64) -> Result<Recorded, NoMemory> {
    let mut plan = CallNumbers::new(alloc);
    plan.append(number)?;
    let mut below = Recorder::new(alloc, OpenSession::new(alloc));
    if below.is_fresh() {
        below.set_plan(plan);
    }
    Ok(TxnSession::new(alloc, below))
}

/// How many frames and how many lists the layer below took and vetoed.
pub(crate) fn counts_of(session: &Recorded) -> [usize; 2] {
    let below = session.below();
    [below.exchanges().len(), below.vetoed().len()]
}

#[test]
fn a_vetoed_commit_hands_nothing_and_ends_its_id(rt: HostRuntime) {
    let alloc = rt.alloc();
    let id = numbered_id(1);
    let mut ids = CountIds::new();
    let mut session = planned(alloc, 2).expect(&rt, "an Ok");
    begin_transaction(&rt, alloc, &mut session, &mut ids);
    let _word = answer_of(&mut session, post(true, id), &mut ids);
    let _word = answer_of(&mut session, post(true, id), &mut ids);
    let vetoed = discharges(&rt, alloc, &mut session, id, &mut ids);
    let again = discharges(&rt, alloc, &mut session, id, &mut ids);
    let plain = answer_of(&mut session, Step::Frame(transfer(true, None)), &mut ids);
    let counts = counts_of(&session);
    let live = session.is_live(&id);
    leak(session);
    assert!(rt; vetoed == "rejected, rolled back");
    assert!(rt; again == "rejected, unknown id");
    assert!(rt; plain == "no frames");
    assert!(rt; counts == [1, 1]);
    assert!(rt; !live);
}

#[test]
fn a_commit_without_frames_is_accepted_unasked(rt: HostRuntime) {
    let alloc = rt.alloc();
    let id = numbered_id(1);
    let mut ids = CountIds::new();
    let mut session = planned(alloc, 1).expect(&rt, "an Ok");
    begin_transaction(&rt, alloc, &mut session, &mut ids);
    let committed = discharges(&rt, alloc, &mut session, id, &mut ids);
    let counts = counts_of(&session);
    leak(session);
    assert!(rt; committed == "accepted");
    assert!(rt; counts == [0, 0]);
}

/// Whether a commit of the id by a call was rolled back instead.
fn is_rolled_back<S: LayerBelow>(session: &mut TxnSession<S>, id: TransactionId) -> bool {
    let committed = session.commit_transaction(&id);
    let rolled_back = matches!(committed, Ok(Err(TransactionError::Rollback)));
    leak(committed);
    rolled_back
}

#[test]
fn a_vetoed_call_ends_its_id(rt: HostRuntime) {
    let alloc = rt.alloc();
    let id = numbered_id(1);
    let mut ids = CountIds::new();
    let mut session = planned(alloc, 1).expect(&rt, "an Ok");
    let allocated = allocates_first(&mut session, &mut ids);
    let _word = answer_of(&mut session, post(true, id), &mut ids);
    let rolled_back = is_rolled_back(&mut session, id);
    let counts = counts_of(&session);
    let live = session.is_live(&id);
    let code = session.stop_code();
    leak(session);
    assert!(rt; allocated);
    assert!(rt; rolled_back);
    assert!(rt; counts == [0, 1]);
    assert!(rt; !live);
    assert!(rt; code == None);
}
