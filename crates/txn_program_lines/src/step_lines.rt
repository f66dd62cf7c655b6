//! The lines of steps, each by its table.

ghost use Rattle.amqp_txn_types.specs.declared.delivery.ConnectionStopReason.TheVariants as reasons;
ghost use Rattle.amqp_resource_record.specs.declared.step.Step.TheVariants as steps;
ghost use Rattle.txn_program_lines.specs.Lines.{alone, control_line, link_end_line, step_of_line, step_of_words};
ghost use Rattle.txn_program_lines.specs.Reads.{Reads, words_left};

use crate::frame_lines::frame_of_words;
use crate::line_words::{end_at, is_text, payload_of, u64_at, word_at};
use crate::unread::Unread;
use amqp_resource_record::Step;
use amqp_txn_types::ConnectionStopReason;
use std::alloc::Global;

/// The step that a line spells.
#[tactic(auto, unfolding(crate::specs::Lines::step_of_line))]
#[inline(always)]
pub fn step_of_line(alloc: Global, line: &[u8]) -> Result<Step, Unread>
    ensures { Reads (λ step. step) result (step_of_line line.now) }
{
    let (kind, words) = word_at(Some(line))?;
    step_of_words(alloc, kind, words)
}

/// The step of a line, by its first word and the words after it.
#[tactic(auto, unfolding(crate::specs::Lines::step_of_words))]
#[inline(always)]
pub fn step_of_words(alloc: Global, kind: &[u8], words: Option<&[u8]>) -> Result<Step, Unread>
    ensures { Reads (λ step. step) result (step_of_words kind.now (words_left words.entry)) }
{
    if is_text(kind, "control") {
        control_line(alloc, words)
    } else if is_text(kind, "link-end") {
        link_end_line(words)
    } else if is_text(kind, "end") {
        end_line(words)
    } else if is_text(kind, "remote-end") {
        remote_end_line(words)
    } else if is_text(kind, "connection-stop") {
        connection_stop_line(words)
    } else {
        Ok(Step::Frame(frame_of_words(alloc, kind, words)?))
    }
}

/// `control K PAYLOAD`
#[tactic(auto, unfolding(crate::specs::Lines::control_line))]
#[inline(always)]
pub fn control_line(alloc: Global, words: Option<&[u8]>) -> Result<Step, Unread>
    ensures { Reads (λ step. step) result (control_line (words_left words.entry)) }
{
    let (link, words) = u64_at(words)?;
    let (payload, words) = word_at(words)?;
    let payload = payload_of(alloc, payload)?;
    end_at(words)?;
    Ok(Step::Control { link, payload })
}

/// `link-end K`
#[tactic(auto, unfolding(crate::specs::Lines::link_end_line))]
#[inline(always)]
pub fn link_end_line(words: Option<&[u8]>) -> Result<Step, Unread>
    ensures { Reads (λ step. step) result (link_end_line (words_left words.entry)) }
{
    let (link, words) = u64_at(words)?;
    end_at(words)?;
    Ok(Step::LinkEnd { link })
}

/// `end`
#[inline(always)]
fn end_line(words: Option<&[u8]>) -> Result<Step, Unread>
    ensures { Reads (λ step. step) result (alone (words_left words.entry) (steps.LocalEnd None)) }
{
    end_at(words)?;
    Ok(Step::LocalEnd(None))
}

/// `remote-end`
#[inline(always)]
fn remote_end_line(words: Option<&[u8]>) -> Result<Step, Unread>
    ensures { Reads (λ step. step) result (alone (words_left words.entry) (steps.RemoteEnd None)) }
{
    end_at(words)?;
    Ok(Step::RemoteEnd(None))
}

/// `connection-stop`
#[inline(always)]
fn connection_stop_line(words: Option<&[u8]>) -> Result<Step, Unread>
    ensures { Reads (λ step. step) result
        (alone (words_left words.entry) (steps.ConnectionStop reasons.RemoteClosed)) }
{
    end_at(words)?;
    Ok(Step::ConnectionStop(ConnectionStopReason::RemoteClosed))
}
