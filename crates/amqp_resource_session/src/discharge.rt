//! Discharges: a rollback lets its frames go, a commit hands them where they are accepted below.

ghost use Rattle.std.specs.Prelude.{◌≡◌, ◌≤◌, ◌<◌, [], true, map, Some, IfOk, length, vec_capacity};
ghost use Rattle.std.specs.Option.{option_map};
ghost use Rattle.amqp_txn_codec.specs.Reading.{message_of};
ghost use Rattle.amqp_txn_codec.specs.declared.message.ControlMessageBody.TheVariants as messages;
ghost use Rattle.amqp_txn_types.specs.Frames.{stripped};
ghost use Rattle.amqp_resource_record.specs.declared.step.Step.TheVariants as steps;
ghost use Rattle.amqp_resource_record.specs.declared.reply.Reply.TheVariants as replies;
ghost use Rattle.amqp_resource_record.specs.declared.reply.RejectText.TheVariants as texts;
ghost use Rattle.amqp_resource_held.specs.Held.{is_in};
ghost use Rattle.amqp_resource_log.specs.Live.{frame_count, frames_kept, home_of, kept, owed};
ghost use Rattle.amqp_resource_session.specs.Calls.{CommitCalls};
ghost use Rattle.amqp_resource_session.specs.Committing.{HandsAll, HandsSurely};
ghost use Rattle.amqp_resource_session.specs.Transacting.{unless_starved, CommittedIn, CommittedWith, RolledBackIn, step_error_of};
ghost use Rattle.amqp_resource_held.specs.Changes.{Ended, Fits};
ghost use Rattle.amqp_resource_session.specs.Leaving.{StepLeaves};
ghost use Rattle.amqp_resource_held.specs.Looks.{Pays, frames_ended, unless_no_memory};
ghost use Rattle.amqp_resource_session.specs.Steps.{nothing_drawn};

use crate::outcomes::{faulted, no_draws};
use crate::review::hand_reviewed;
use amqp_below_ids::Drawn;
use amqp_below_layer::{Answers, Echoes, LayerBelow};
use amqp_below_sessions::CommitFault;
use amqp_resource_held::{Held, drop_work, is_declared_on, take_work};
use amqp_resource_log::Looks;
use amqp_resource_record::{RejectText, Reply, StepError};
use amqp_txn_codec::{Discharge, rolls_back};
use amqp_txn_types::{Accepted, Frame, Payload, TransactionError, TransactionId};
use std::alloc::Global;
use std::sync::ledger::{Blank, Ledger};

/// The reply to a discharge that is rejected, without a text.
fn rejected(error: TransactionError) -> Reply
    ensures { result ≡ replies.Rejected error texts.Absent }
{
    Reply::Rejected {
        error,
        text: RejectText::Absent,
    }
}

/// Ends a live id that has frames, for which and for whose answers there is room, and hands them
/// below where they are accepted there.
fn commit_frames<S: LayerBelow, L: Ledger>(
    held: &mut Held,
    below: &mut S,
    id: TransactionId,
    home: Option<u64>,
    frames: Vec<Frame>,
    echoes: Vec<Answers>,
    looks: &mut Looks<L>,
) -> Result<Result<Echoes, TransactionError>, CommitFault>
    requires home { option_map home_of (kept held.old.work id) ≡ Some home }
    requires some { 1 ≤ length (frames_kept (kept held.old.work id)) }
    requires no_frames { frames.items ≡ [] }
    requires frames { length (frames_kept (kept held.old.work id)) ≤ vec_capacity frames }
    requires no_echoes { echoes.items ≡ [] }
    requires echoes { length (frames_kept (kept held.old.work id)) ≤ vec_capacity echoes }
    ensures ended { Ended held.old held.new id }
    ensures hands { HandsAll (S.told below.old) (S.told below.new)
        (map stripped (frames_kept (kept held.old.work id))) result }
    ensures surely { HandsSurely S.sure result }
    ensures calls { CommitCalls S.review_gives below.old below.new
        (frames_kept (kept held.old.work id)) result }
    ensures pays { Pays held.old.work held.new.work looks.old looks.new
        (length (frames_kept (kept held.old.work id))) 0 }
{
    let frames = take_work(held, id, home, frames, looks);
    hand_reviewed(below, frames, echoes)
}

/// Commits a live id: one without frames just ends; else room for the frames and their answers is
/// made first.
fn commit_live<S: LayerBelow, L: Ledger>(
    held: &mut Held,
    below: &mut S,
    alloc: Global,
    id: TransactionId,
    home: Option<u64>,
    looks: &mut Looks<L>,
) -> Result<Result<Echoes, TransactionError>, CommitFault>
    requires { option_map home_of (kept held.old.work id) ≡ Some home }
    ensures answer { CommittedWith held.old held.new (S.told below.old) (S.told below.new) id
        (frames_kept (kept held.old.work id)) (below.new ≡ below.old) result }
    ensures surely { HandsSurely S.sure result }
    ensures calls { CommitCalls S.review_gives below.old below.new
        (frames_kept (kept held.old.work id)) result }
    ensures fixed { (S.told below.new).fixed ≡ (S.told below.old).fixed }
    ensures later { (S.told below.old).refusals ≤ (S.told below.new).refusals }
    ensures counted { (S.told below.old).reviews.vetoes ≤ (S.told below.new).reviews.vetoes }
    ensures pays { Pays held.old.work held.new.work looks.old looks.new
        (unless_starved result (length (frames_kept (kept held.old.work id)))) 0 }
{
    let count = held.work.count(&id);
    if count == 0 {
        drop_work(held, id, home, looks);
        return Ok(Ok(Echoes::new(alloc)));
    }
    let Ok(frames) = Vec::with_capacity(alloc, count) else {
        return Err(CommitFault::NoMemory);
    };
    let Ok(echoes) = Vec::with_capacity(alloc, count) else {
        return Err(CommitFault::NoMemory);
    };
    commit_frames(held, below, id, home, frames, echoes, looks)
}

/// The fault of a commit as that of a step.
fn step_error_of(fault: CommitFault) -> StepError
    ensures { result ≡ step_error_of fault }
{
    match fault {
        CommitFault::NoMemory => StepError::NoMemory,
        CommitFault::Refused { error, handed } => faulted(error, handed),
    }
}

/// A discharge on an open link.
pub fn discharge_step<S: LayerBelow, L: Ledger>(
    held: &mut Held,
    below: &mut S,
    alloc: Global,
    link: u64,
    payload: &Payload,
    discharge: Discharge,
    looks: &mut Looks<L>,
) -> Result<(Drawn, Reply), StepError>
    requires message { message_of payload.now ≡ Some (messages.Discharge discharge) }
    requires opened { is_in held.old.links.entries link ≡ true }
    ensures leaves { StepLeaves S.told S.sure S.review_gives S.check_gives held.old held.new
        below.old below.new (steps.Control link payload.now) result }
    ensures draws { IfOk result (λ out. out.0 ≡ nothing_drawn) }
    ensures pays { Pays held.old.work held.new.work looks.old looks.new
        (unless_no_memory result (frames_ended held.old (steps.Control link payload.now))) 0 }
{
    if !is_declared_on(&held.work, discharge.txn_id, link) {
        return Ok((no_draws(alloc), rejected(TransactionError::UnknownId)));
    }
    if rolls_back(discharge.fail) {
        drop_work(held, discharge.txn_id, Some(link), looks);
        return Ok((no_draws(alloc), Reply::Accepted(Echoes::new(alloc))));
    }
    match commit_live(held, below, alloc, discharge.txn_id, Some(link), looks) {
        Ok(Ok(echoes)) => Ok((no_draws(alloc), Reply::Accepted(echoes))),
        Ok(Err(error)) => Ok((no_draws(alloc), rejected(error))),
        Err(fault) => Err(step_error_of(fault)),
    }
}

/// Commits an id, whichever link declared it.
fn commit_id<S: LayerBelow, L: Ledger>(
    held: &mut Held,
    below: &mut S,
    alloc: Global,
    id: TransactionId,
    looks: &mut Looks<L>,
) -> Result<Result<Echoes, TransactionError>, CommitFault>
    ensures answer { CommittedIn held.old held.new (S.told below.old) (S.told below.new) id
        (below.new ≡ below.old) result }
    ensures surely { HandsSurely S.sure result }
    ensures calls { CommitCalls S.review_gives below.old below.new
        (frames_kept (kept held.old.work id)) result }
    ensures fixed { (S.told below.new).fixed ≡ (S.told below.old).fixed }
{
    let Some(home) = held.work.home(&id) else {
        return Ok(Err(TransactionError::UnknownId));
    };
    commit_live(held, below, alloc, id, home, looks)
}

/// Commits an id, whichever link declared it, and compacts the log. Its looks are counted in a
/// blank ledger.
pub fn commit_kept<S: LayerBelow, L: Ledger>(
    held: &mut Held,
    below: &mut S,
    alloc: Global,
    id: TransactionId,
    blank: Blank,
) -> Result<Result<Echoes, TransactionError>, CommitFault>
    requires name { blank.name ≡ L.name }
    requires parts { blank.parts ≡ L.parts }
    requires some { 0 < blank.parts }
    ensures answer { CommittedIn held.old held.new (S.told below.old) (S.told below.new) id
        (below.new ≡ below.old) result }
    ensures surely { HandsSurely S.sure result }
    ensures calls { CommitCalls S.review_gives below.old below.new
        (frames_kept (kept held.old.work id)) result }
    ensures fits { Fits held.old → Fits held.new }
    ensures fixed { (S.told below.new).fixed ≡ (S.told below.old).fixed }
    ensures few { owed held.new.work ≤ frame_count held.new.work }
{
    let mut looks = Looks::<L>::new(blank);
    let committed = commit_id(held, below, alloc, id, &mut looks);
    held.work.compact(&mut looks);
    committed
}

/// Rolls an id back, whichever link declared it: it ends and its frames are let go.
fn roll_back_id<L: Ledger>(
    held: &mut Held,
    id: TransactionId,
    looks: &mut Looks<L>,
) -> Result<Accepted, TransactionError>
    ensures { RolledBackIn held.old held.new id result }
{
    let Some(home) = held.work.home(&id) else {
        return Err(TransactionError::UnknownId);
    };
    drop_work(held, id, home, looks);
    Ok(Accepted)
}

/// Rolls an id back, whichever link declared it, and compacts the log. Its looks are counted in a
/// blank ledger.
pub fn roll_back_kept<L: Ledger>(
    held: &mut Held,
    id: TransactionId,
    blank: Blank,
) -> Result<Accepted, TransactionError>
    requires name { blank.name ≡ L.name }
    requires parts { blank.parts ≡ L.parts }
    requires some { 0 < blank.parts }
    ensures answer { RolledBackIn held.old held.new id result }
    ensures fits { Fits held.old → Fits held.new }
    ensures few { owed held.new.work ≤ frame_count held.new.work }
{
    let mut looks = Looks::<L>::new(blank);
    let rolled_back = roll_back_id(held, id, &mut looks);
    held.work.compact(&mut looks);
    rolled_back
}
