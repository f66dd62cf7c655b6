//! A commit asks the layer below about its frames, and then hands them one after another.

ghost use Rattle.std.specs.Prelude.{◌≡◌, ◌≤◌, [], true, Ok, length, vec_capacity};
ghost use Rattle.std.specs.List.{list_all};
ghost use Rattle.amqp_below_layer.specs.Reviewing.{is_bare};
ghost use Rattle.amqp_below_layer.specs.declared.verdict.Verdict.TheVariants as verdicts;
ghost use Rattle.amqp_resource_session.specs.Committing.{HandsAll, HandsSurely, OnVetoed};

use crate::outcomes::refused_after;
use amqp_below_layer::{Answers, Echoes, LayerBelow, SessionInnerError, Verdict, take_frame};
use amqp_below_sessions::CommitFault;
use amqp_txn_types::{Frames, TransactionError};

/// Hands frames that the layer below accepted, in order, to the first for which it runs out of
/// memory. Room for their answers is there.
fn hand_all<S: LayerBelow>(
    below: &mut S,
    frames: Frames,
    mut echoes: Vec<Answers>,
) -> Result<Result<Echoes, TransactionError>, CommitFault>
    requires accepted { S.takes below.old frames }
    requires some { 1 ≤ length frames }
    requires none { echoes.items ≡ [] }
    requires room { length frames ≤ vec_capacity echoes }
    ensures hands { HandsAll (S.told below.old) (S.told below.new) frames result }
    ensures sure { HandsSurely S.sure result }
    ensures unvetoed { OnVetoed result ⊥ }
{
    let mut left = frames.into_vec().into_iter();
    while let Some(frame) = left.next() {
        match take_frame(below, frame) {
            Ok(answers) => echoes.push_reserved(answers),
            Err(refusal) => return Err(refused_after(refusal, echoes.len())),
        }
    }
    Ok(Ok(Echoes::from_vec(echoes)))
}

/// Asks the layer below about some frames, and hands them in order where it accepts them. Room for
/// their answers is there.
pub fn hand_reviewed<S: LayerBelow>(
    below: &mut S,
    frames: Frames,
    echoes: Vec<Answers>,
) -> Result<Result<Echoes, TransactionError>, CommitFault>
    requires bare { list_all is_bare frames ≡ true }
    requires some { 1 ≤ length frames }
    requires none { echoes.items ≡ [] }
    requires room { length frames ≤ vec_capacity echoes }
    ensures hands { HandsAll (S.told below.old) (S.told below.new) frames result }
    ensures sure { HandsSurely S.sure result }
    ensures vetoed { OnVetoed result
        (S.review_gives below.old below.new frames (Ok verdicts.Veto)) }
{
    match below.review(&frames) {
        Ok(Verdict::Accept) => hand_all(below, frames, echoes),
        Ok(Verdict::Veto) => Ok(Err(TransactionError::Rollback)),
        Err(_) => Err(CommitFault::Refused {
            error: SessionInnerError::NoMemory,
            handed: 0,
        }),
    }
}
