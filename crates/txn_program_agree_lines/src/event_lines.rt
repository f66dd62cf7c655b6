//! The lines of events, each by its table.

ghost use Rattle.txn_parties.specs.declared.event.Event.TheVariants as events;
ghost use Rattle.txn_program_lines.specs.Lines.{alone};
ghost use Rattle.txn_program_lines.specs.Reads.{Reads, words_left};
ghost use Rattle.txn_program_agree_lines.specs.EventLines.{event_of_line, event_of_words, numbered_line, plain_frame_of, plain_line, post_line, retire_line};

use amqp_txn_types::Frame;
use std::alloc::Global;
use txn_parties::Event;
use txn_program_lines::{
    Unread, deliveries_at, delivery_at, detach_line, disposition_line, disposition_of, end_at,
    flow_line, is_text, optional_outcome_of, payload_of, transfer_line, transfer_of, u32_at,
    word_at,
};

/// The event that a line spells.
///
/// # Errors
///
/// `OutsideTable` exactly where it spells none; `NoMemory` where memory runs out.
#[tactic(auto, unfolding(crate::specs::EventLines::event_of_line))]
pub fn event_of_line(alloc: Global, line: &[u8]) -> Result<Event, Unread>
    ensures { Reads (λ event. event) result (event_of_line line.now) }
{
    let (kind, words) = word_at(Some(line))?;
    event_of_words(alloc, kind, words)
}

/// The event of a line, by its first word and the words after it.
///
/// # Errors
///
/// Those of [`event_of_line`].
#[tactic(auto, unfolding(crate::specs::EventLines::event_of_words))]
pub fn event_of_words(alloc: Global, kind: &[u8], words: Option<&[u8]>) -> Result<Event, Unread>
    ensures { Reads (λ event. event) result (event_of_words kind.now (words_left words.entry)) }
{
    if is_text(kind, "declare") {
        declare_line(words)
    } else if is_text(kind, "post") {
        post_line(alloc, words)
    } else if is_text(kind, "retire") {
        retire_line(words)
    } else if is_text(kind, "commit") {
        commit_line(words)
    } else if is_text(kind, "rollback") {
        rollback_line(words)
    } else if is_text(kind, "link-end") {
        link_end_line(words)
    } else if is_text(kind, "plain") {
        plain_line(alloc, words)
    } else if is_text(kind, "arrive") {
        arrive_line(words)
    } else if is_text(kind, "return") {
        return_line(words)
    } else if is_text(kind, "cut") {
        cut_line(words)
    } else {
        Err(Unread::OutsideTable)
    }
}

/// `declare C`
#[tactic(auto, unfolding(crate::specs::EventLines::numbered_line))]
fn declare_line(words: Option<&[u8]>) -> Result<Event, Unread>
    ensures { Reads (λ event. event) result
        (numbered_line (λ n. events.Declare n) (words_left words.entry)) }
{
    let (controller, words) = u32_at(words)?;
    end_at(words)?;
    Ok(Event::Declare(controller))
}

/// `commit X`
#[tactic(auto, unfolding(crate::specs::EventLines::numbered_line))]
fn commit_line(words: Option<&[u8]>) -> Result<Event, Unread>
    ensures { Reads (λ event. event) result
        (numbered_line (λ n. events.Commit n) (words_left words.entry)) }
{
    let (txn, words) = u32_at(words)?;
    end_at(words)?;
    Ok(Event::Commit(txn))
}

/// `rollback X`
#[tactic(auto, unfolding(crate::specs::EventLines::numbered_line))]
fn rollback_line(words: Option<&[u8]>) -> Result<Event, Unread>
    ensures { Reads (λ event. event) result
        (numbered_line (λ n. events.Rollback n) (words_left words.entry)) }
{
    let (txn, words) = u32_at(words)?;
    end_at(words)?;
    Ok(Event::Rollback(txn))
}

/// `link-end C`
#[tactic(auto, unfolding(crate::specs::EventLines::numbered_line))]
fn link_end_line(words: Option<&[u8]>) -> Result<Event, Unread>
    ensures { Reads (λ event. event) result
        (numbered_line (λ n. events.LinkEnd n) (words_left words.entry)) }
{
    let (controller, words) = u32_at(words)?;
    end_at(words)?;
    Ok(Event::LinkEnd(controller))
}

/// `post X H ID SET OUT PAYLOAD`
#[tactic(auto, unfolding(crate::specs::EventLines::post_line))]
pub fn post_line(alloc: Global, words: Option<&[u8]>) -> Result<Event, Unread>
    ensures { Reads (λ event. event) result (post_line (words_left words.entry)) }
{
    let (txn, words) = u32_at(words)?;
    let (delivery, words) = delivery_at(words)?;
    let (outcome, words) = word_at(words)?;
    let outcome = optional_outcome_of(outcome)?;
    let (payload, words) = word_at(words)?;
    let payload = payload_of(alloc, payload)?;
    end_at(words)?;
    let transfer = transfer_of(alloc, delivery, None)?;
    Ok(Event::Post {
        txn,
        transfer,
        outcome,
        payload,
    })
}

/// `retire X ROLE FIRST LAST BOOL OUT`
#[tactic(auto, unfolding(crate::specs::EventLines::retire_line))]
pub fn retire_line(words: Option<&[u8]>) -> Result<Event, Unread>
    ensures { Reads (λ event. event) result (retire_line (words_left words.entry)) }
{
    let (txn, words) = u32_at(words)?;
    let (deliveries, words) = deliveries_at(words)?;
    let (outcome, words) = word_at(words)?;
    let outcome = optional_outcome_of(outcome)?;
    end_at(words)?;
    let disposition = disposition_of(deliveries, None);
    Ok(Event::Retire {
        txn,
        disposition,
        outcome,
    })
}

/// `plain LINE`
#[tactic(auto, unfolding(crate::specs::EventLines::plain_line))]
pub fn plain_line(alloc: Global, words: Option<&[u8]>) -> Result<Event, Unread>
    ensures { Reads (λ event. event) result (plain_line (words_left words.entry)) }
{
    let (kind, words) = word_at(words)?;
    let frame = plain_frame_of(alloc, kind, words)?;
    Ok(Event::Plain(frame))
}

/// The frame of a plain line, by its first word and the words after it.
#[tactic(auto, unfolding(crate::specs::EventLines::plain_frame_of))]
fn plain_frame_of(alloc: Global, kind: &[u8], words: Option<&[u8]>) -> Result<Frame, Unread>
    ensures { Reads (λ frame. frame) result (plain_frame_of kind.now (words_left words.entry)) }
{
    if is_text(kind, "transfer") {
        transfer_line(alloc, words)
    } else if is_text(kind, "flow") {
        flow_line(words)
    } else if is_text(kind, "disposition") {
        disposition_line(words)
    } else if is_text(kind, "detach") {
        detach_line(words)
    } else {
        Err(Unread::OutsideTable)
    }
}

/// `arrive`
fn arrive_line(words: Option<&[u8]>) -> Result<Event, Unread>
    ensures { Reads (λ event. event) result (alone (words_left words.entry) events.Arrive) }
{
    end_at(words)?;
    Ok(Event::Arrive)
}

/// `return`
fn return_line(words: Option<&[u8]>) -> Result<Event, Unread>
    ensures { Reads (λ event. event) result (alone (words_left words.entry) events.Return) }
{
    end_at(words)?;
    Ok(Event::Return)
}

/// `cut`
fn cut_line(words: Option<&[u8]>) -> Result<Event, Unread>
    ensures { Reads (λ event. event) result (alone (words_left words.entry) events.Cut) }
{
    end_at(words)?;
    Ok(Event::Cut)
}
