//! Whether a reply is an answer of a record, by looking at every entry.

ghost use Rattle.std.specs.Prelude.{◌≡◌, ◌≤◌, ◌↔◌, List, ◌++◌, ◌∷◌, [], true, false, None, Some, IsTrue, MatchOption, length};
ghost use Rattle.std.specs.List.{list_all};
ghost use Rattle.amqp_txn_types.specs.Frames.{txn};
ghost use Rattle.amqp_txn_types.specs.declared.performatives.Frame.{Frame};
ghost use Rattle.amqp_txn_types.specs.declared.performatives.Frame.TheVariants as frames;
ghost use Rattle.amqp_txn_types.specs.declared.small.AmqpError.TheVariants as amqp_errors;
ghost use Rattle.amqp_txn_types.specs.declared.small.TransactionError.TheVariants as transaction_errors;
ghost use Rattle.amqp_txn_types.specs.declared.delivery.DeliveryState.TheVariants as states;
ghost use Rattle.amqp_txn_types.specs.declared.delivery.Outcome.TheVariants as outcomes;
ghost use Rattle.amqp_txn_codec.specs.Reading.{message_of};
ghost use Rattle.amqp_resource_record.specs.declared.reply.Reply.TheVariants as replies;
ghost use Rattle.amqp_resource_record.specs.Live.{is_live};
ghost use Rattle.amqp_resource_record.specs.Links.{is_open};
ghost use Rattle.amqp_resource_record.specs.Hands.{frames_under, own_frame};
ghost use Rattle.amqp_txn_codec.specs.Discharges.{is_rollback};
ghost use Rattle.amqp_resource_record.specs.Answers.{Answer, AnswerControl, AnswerDeclare, AnswerDischarge, AnswerFrame, AnswerLinkEnd, AnswerMessage, Draws, Echoed, MayBeVetoed};
ghost use Rattle.amqp_below_layer.specs.Windows.{WindowFits, AllWindowsFit};
ghost use Rattle.amqp_txn_types.specs.Presumptive.{answered_under, presumptive};

use crate::entry::Entry;
use crate::handed::{is_coordinator_attach, is_under};
use crate::live_ids::{entries_since, is_held_on, is_live};
use crate::open_links::{is_open, links_attached};
use crate::reply::{RejectText, Reply};
use crate::step::Step;
use amqp_below_layer::{Answers, Echoes};
use amqp_txn_codec::{ControlMessageBody, Discharge, decode, rolls_back};
use amqp_txn_types::{
    AmqpError, DeliveryState, Disposition, Frame, Outcome, Role, TransactionError, TransactionId,
    TransactionalState, txn_of,
};

/// Whether the step may be given this reply after these entries, having drawn these ids.
///
/// Part 4 of the standard, sections 4.2 (declaring), 4.3 (discharging) and 4.4 (transactional
/// work). It looks at every entry a few times, so it serves small records.
pub fn is_answer(entries: &[Entry], step: &Step, drawn: &[TransactionId], reply: &Reply) -> bool
    ensures { IsTrue result ↔ Answer entries.now step.now drawn.now reply.now }
{
    match step {
        Step::Frame(frame) => is_none_drawn(drawn) && answers_frame(entries, frame, reply),
        Step::LinkEnd { link } => {
            is_none_drawn(drawn) && answers_link_end(is_open(entries, *link), reply)
        }
        Step::Control { link, payload } => {
            answers_control(entries, *link, payload.as_slice(), drawn, reply)
        }
        _ => false,
    }
}

fn answers_frame(entries: &[Entry], frame: &Frame, reply: &Reply) -> bool
    ensures { IsTrue result ↔ AnswerFrame entries.now frame.now (txn frame.now) reply.now }
{
    match txn_of(frame) {
        Some(txn_id) => answers_under(entries, frame, &txn_id, reply),
        None => answers_under_none(entries, frame, reply),
    }
}

fn answers_under(entries: &[Entry], frame: &Frame, txn_id: &TransactionId, reply: &Reply) -> bool
    ensures { IsTrue result ↔ AnswerFrame entries.now frame.now (Some txn_id.now) reply.now }
{
    match reply {
        Reply::Frames(answers) => {
            is_live(entries, txn_id) && is_told_at_once(frame, txn_id, answers)
        }
        _ => false,
    }
}

fn answers_under_none(entries: &[Entry], frame: &Frame, reply: &Reply) -> bool
    ensures { IsTrue result ↔ AnswerFrame entries.now frame.now None reply.now }
{
    match reply {
        Reply::Frames(answers) => !is_coordinator_attach(frame) && fits_window(frame, answers),
        Reply::Attached { link, .. } => {
            is_coordinator_attach(frame) && *link == links_attached(entries) as u64
        }
        Reply::AttachRefused(_) => is_coordinator_attach(frame),
        _ => false,
    }
}

fn answers_link_end(open: bool, reply: &Reply) -> bool
    ensures { IsTrue result ↔ AnswerLinkEnd «open» reply.now }
{
    match reply {
        Reply::LinkEnded => open,
        Reply::NoLink => !open,
        _ => false,
    }
}

fn answers_control(
    entries: &[Entry],
    link: u64,
    payload: &[u8],
    drawn: &[TransactionId],
    reply: &Reply,
) -> bool
    ensures { IsTrue result ↔ AnswerControl entries.now link (is_open entries.now link)
        (message_of payload.now) drawn.now reply.now }
{
    if is_open(entries, link) {
        answers_message(entries, link, payload, drawn, reply)
    } else {
        is_no_link(reply) && is_none_drawn(drawn)
    }
}

fn is_no_link(reply: &Reply) -> bool
    ensures { IsTrue result ↔ (reply.now ≡ replies.NoLink) }
{
    matches!(reply, Reply::NoLink)
}

fn is_closed_as_outside(reply: &Reply) -> bool
    ensures { IsTrue result ↔ (reply.now ≡ replies.LinkClosed amqp_errors.NotAllowed) }
{
    matches!(reply, Reply::LinkClosed(AmqpError::NotAllowed))
}

fn answers_message(
    entries: &[Entry],
    link: u64,
    payload: &[u8],
    drawn: &[TransactionId],
    reply: &Reply,
) -> bool
    ensures { IsTrue result ↔ AnswerMessage entries.now link (message_of payload.now) drawn.now
        reply.now }
{
    match decode(payload) {
        Ok(ControlMessageBody::Declare(declare)) => {
            answers_declare(entries, declare.global_id, drawn, reply)
        }
        Ok(ControlMessageBody::Discharge(discharge)) => {
            answers_discharge(entries, link, discharge, drawn, reply)
        }
        Err(_) => is_closed_as_outside(reply) && is_none_drawn(drawn),
    }
}

fn answers_declare(
    entries: &[Entry],
    global_id: Option<TransactionId>,
    drawn: &[TransactionId],
    reply: &Reply,
) -> bool
    ensures { IsTrue result ↔ AnswerDeclare entries.now global_id drawn.now reply.now }
{
    match global_id {
        Some(_) => is_rejected(reply, RejectText::GlobalId) && is_none_drawn(drawn),
        None => answers_local_declare(entries, drawn, reply),
    }
}

fn answers_local_declare(entries: &[Entry], drawn: &[TransactionId], reply: &Reply) -> bool
    ensures { IsTrue result ↔ AnswerDeclare entries.now None drawn.now reply.now }
{
    match reply {
        Reply::Declared(txn_id) => is_drawn_last(entries, drawn, txn_id),
        _ => {
            is_rejected(reply, RejectText::IdsRepeat)
                && drawn.len() == 16
                && are_live(entries, drawn)
        }
    }
}

fn is_rejected(reply: &Reply, why: RejectText) -> bool
    ensures { IsTrue result ↔ (reply.now ≡ replies.Rejected transaction_errors.UnknownId why) }
{
    match reply {
        Reply::Rejected {
            error: TransactionError::UnknownId,
            text,
        } => *text == why,
        _ => false,
    }
}

fn is_none_drawn(drawn: &[TransactionId]) -> bool
    ensures { IsTrue result ↔ (drawn.now ≡ []) }
{
    drawn.is_empty()
}

fn is_drawn_last(entries: &[Entry], drawn: &[TransactionId], txn_id: &TransactionId) -> bool
    ensures { IsTrue result ↔ Draws entries.now drawn.now txn_id.now }
{
    match drawn.split_last() {
        Some((last, before)) => {
            if drawn.len() > 16 {
                return false;
            }
            if last == txn_id {
                is_new_after(entries, before, txn_id)
            } else {
                false
            }
        }
        None => false,
    }
}

fn is_new_after(entries: &[Entry], before: &[TransactionId], txn_id: &TransactionId) -> bool
    ensures { IsTrue result ↔ ((list_all (is_live entries.now) before.now ≡ true)
        × (is_live entries.now txn_id.now ≡ false)) }
{
    are_live(entries, before) && !is_live(entries, txn_id)
}

fn are_live(entries: &[Entry], txn_ids: &[TransactionId]) -> bool
    ensures { result ≡ list_all (is_live entries.now) txn_ids.now }
{
    for txn_id in txn_ids {
        if !is_live(entries, txn_id) {
            return false;
        }
    }
    true
}

fn answers_discharge(
    entries: &[Entry],
    link: u64,
    discharge: Discharge,
    drawn: &[TransactionId],
    reply: &Reply,
) -> bool
    ensures { IsTrue result ↔ AnswerDischarge entries.now link discharge.txn_id discharge.fail
        drawn.now reply.now }
{
    let held = is_held_on(entries, link, &discharge.txn_id);
    match reply {
        Reply::Accepted(echoes) => {
            held && is_none_drawn(drawn) && has_its_echoes(entries, discharge, echoes)
        }
        Reply::Rejected {
            error: TransactionError::Rollback,
            text: RejectText::Absent,
        } => held && is_none_drawn(drawn) && may_be_vetoed(entries, discharge),
        _ => !held && is_none_drawn(drawn) && is_rejected(reply, RejectText::Absent),
    }
}

fn may_be_vetoed(entries: &[Entry], discharge: Discharge) -> bool
    ensures { IsTrue result ↔ MayBeVetoed entries.now discharge.txn_id
        (is_rollback discharge.fail) }
{
    let txn_id = discharge.txn_id;
    !rolls_back(discharge.fail) && has_frame_under(entries_since(entries, &txn_id), &txn_id)
}

fn has_frame_under(entries: &[Entry], txn_id: &TransactionId) -> bool
    ensures { IsTrue result ↔ (1 ≤ length (frames_under txn_id.now entries.now)) }
{
    for entry in entries {
        if frame_under(entry, txn_id).is_some() {
            return true;
        }
    }
    false
}

fn has_its_echoes(entries: &[Entry], discharge: Discharge, echoes: &Echoes) -> bool
    ensures { IsTrue result ↔ Echoed entries.now discharge.txn_id (is_rollback discharge.fail)
        echoes.now }
{
    if rolls_back(discharge.fail) {
        are_no_echoes(echoes.as_slice())
    } else {
        let txn_id = discharge.txn_id;
        are_echoes(entries_since(entries, &txn_id), &txn_id, echoes.as_slice())
    }
}

fn are_echoes(entries: &[Entry], txn_id: &TransactionId, echoes: &[Answers]) -> bool
    ensures { IsTrue result ↔ AllWindowsFit (frames_under txn_id.now entries.now) echoes.now }
{
    let mut rest = echoes;
    for entry in entries {
        match after_echo(entry, txn_id, rest) {
            Some(left) => rest = left,
            None => return false,
        }
    }
    are_no_echoes(rest)
}

/// The echoes that are left after that of this entry, which has one where it is a frame under the
/// id;
/// `None` where there is none, or it doesn't fit.
fn after_echo<'a>(
    entry: &Entry,
    txn_id: &TransactionId,
    echoes: &'a [Answers],
) -> Option<&'a [Answers]>
    ensures { MatchOption result ((later : List Frame)
        → ¬ AllWindowsFit (own_frame txn_id.now entry.now ++ later) echoes.now) (λ left.
        (later : List Frame) → (AllWindowsFit (own_frame txn_id.now entry.now ++ later) echoes.now
        ↔ AllWindowsFit later left.now)) }
{
    match frame_under(entry, txn_id) {
        Some(frame) => after_echo_of(frame, echoes),
        None => Some(echoes),
    }
}

fn after_echo_of<'a>(frame: &Frame, echoes: &'a [Answers]) -> Option<&'a [Answers]>
    ensures { MatchOption result ((later : List Frame)
        → ¬ AllWindowsFit (frame.now ∷ later) echoes.now) (λ left. (later : List Frame)
        → (AllWindowsFit (frame.now ∷ later) echoes.now ↔ AllWindowsFit later left.now)) }
{
    match echoes.split_first() {
        Some((echo, left)) => {
            if fits_window(frame, echo) {
                Some(left)
            } else {
                None
            }
        }
        None => None,
    }
}

fn frame_under<'a>(entry: &'a Entry, txn_id: &TransactionId) -> Option<&'a Frame>
    ensures { MatchOption result (own_frame txn_id.now entry.now ≡ [])
        (λ frame. own_frame txn_id.now entry.now ≡ frame.now ∷ []) }
{
    match &entry.step {
        Step::Frame(frame) => {
            if is_under(frame, txn_id) {
                Some(frame)
            } else {
                None
            }
        }
        _ => None,
    }
}

fn are_no_echoes(echoes: &[Answers]) -> bool
    ensures { IsTrue result ↔ (echoes.now ≡ []) }
{
    echoes.is_empty()
}

fn fits_window(frame: &Frame, answers: &Answers) -> bool
    ensures { IsTrue result ↔ WindowFits frame.now answers.now }
{
    match frame {
        Frame::Transfer { .. } => true,
        _ => answers.window.is_none(),
    }
}

fn is_told_at_once(frame: &Frame, txn_id: &TransactionId, answers: &Answers) -> bool
    ensures { IsTrue result ↔ (answers.now ≡ record {
      given = answered_under txn_id.now frame.now;
      window = None;
    }) }
{
    answers.window.is_none() && gives_presumed(frame, txn_id, answers.given.as_slice())
}

fn gives_presumed(frame: &Frame, txn_id: &TransactionId, given: &[Frame]) -> bool
    ensures { IsTrue result ↔ (given.now ≡ answered_under txn_id.now frame.now) }
{
    match frame {
        Frame::Transfer { transfer, .. } => {
            match transfer.delivery_id {
                Some(number) => {
                    if transfer.settled == Some(true) {
                        is_nothing(given)
                    } else {
                        is_presumed_alone(given, number, txn_id)
                    }
                }
                None => is_nothing(given),
            }
        }
        _ => is_nothing(given),
    }
}

fn is_nothing(given: &[Frame]) -> bool
    ensures { IsTrue result ↔ (given.now ≡ []) }
{
    given.is_empty()
}

fn is_presumed_alone(given: &[Frame], number: u32, txn_id: &TransactionId) -> bool
    ensures { IsTrue result ↔ (given.now
        ≡ frames.Disposition (presumptive number txn_id.now) ∷ []) }
{
    match given.split_first() {
        Some((first, others)) => { is_presumed_frame(first, number, txn_id) && is_nothing(others) }
        None => false,
    }
}

fn is_presumed_frame(frame: &Frame, number: u32, txn_id: &TransactionId) -> bool
    ensures { IsTrue result ↔ (frame.now ≡ frames.Disposition (presumptive number txn_id.now)) }
{
    match frame {
        Frame::Disposition(disposition) => is_presumed_disposition(disposition, number, txn_id),
        _ => false,
    }
}

fn is_presumed_disposition(disposition: &Disposition, number: u32, txn_id: &TransactionId) -> bool
    ensures { IsTrue result ↔ (disposition.now ≡ presumptive number txn_id.now) }
{
    disposition.role == Role::Receiver
        && disposition.first == number
        && disposition.last.is_none()
        && disposition.settled
        && !disposition.batchable
        && is_accepted_under(&disposition.state, txn_id)
}

fn is_accepted_under(state: &Option<DeliveryState>, txn_id: &TransactionId) -> bool
    ensures { IsTrue result ↔ (state.now ≡ Some (states.TransactionalState
        (record { txn_id = txn_id.now; outcome = Some outcomes.Accepted }))) }
{
    match state {
        Some(
            DeliveryState::TransactionalState(
                TransactionalState {
                    txn_id: under,
                    outcome: Some(Outcome::Accepted),
                },
            ),
        ) => under == txn_id,
        _ => false,
    }
}
