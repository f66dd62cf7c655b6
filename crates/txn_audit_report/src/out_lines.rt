//! Lines that show a frame: `out FRAME`, each kind of frame by its table.

ghost use Rattle.std.specs.Prelude.{◌≡◌, IfOk};
ghost use Rattle.std.specs.List.{list_all};
ghost use Rattle.txn_program_lines.specs.Lines.{next};
ghost use Rattle.txn_program_lines.specs.Reads.{Reads, words_left};
ghost use Rattle.txn_audit_report.specs.OutLines.{are_digits, attach_words, detach_words, disposition_words, flow_words, frame_words, is_bare_outcome, is_id, is_lower_digit, is_out_line, is_outcome, is_payload, is_state, is_stop_line, out_line, out_words, passing, transfer_words};

use amqp_txn_types::NoMemory;
use txn_program_lines::{
    Unread, bool_at, cut_at, deliveries_at, delivery_at, end_at, is_text, name_at, optional_u32_at,
    role_at, u32_at, word_at,
};

/// Whether the line is `out FRAME`. The only error is out of memory.
pub fn is_out_line(line: &[u8]) -> Result<bool, NoMemory>
    ensures { IfOk result (λ shows. shows ≡ is_out_line line.now) }
{
    match out_line(line) {
        Ok(()) => Ok(true),
        Err(Unread::OutsideTable) => Ok(false),
        Err(Unread::NoMemory) => Err(NoMemory),
    }
}

/// `out FRAME`
#[tactic(auto, unfolding(crate::specs::OutLines::out_line))]
fn out_line(line: &[u8]) -> Result<(), Unread>
    ensures { Reads (λ x. x) result (out_line line.now) }
{
    let (first, words) = word_at(Some(line))?;
    out_words(first, words)
}

/// Whether the first word of the line is `stop`.
#[tactic(auto, unfolding(crate::specs::OutLines::is_stop_line))]
pub fn is_stop_line(line: &[u8]) -> bool
    ensures { result ≡ is_stop_line line.now }
{
    let (first, _others) = cut_at(line, b' ');
    is_text(first, "stop")
}

/// `out FRAME`, by its first word and the words after it.
#[tactic(auto, unfolding(crate::specs::OutLines::out_words))]
fn out_words(first: &[u8], words: Option<&[u8]>) -> Result<(), Unread>
    ensures { Reads (λ x. x) result (out_words first.now (words_left words.entry)) }
{
    if !is_text(first, "out") {
        return Err(Unread::OutsideTable);
    }
    let (kind, words) = word_at(words)?;
    frame_words(kind, words)
}

/// A frame, by its first word and the words after it.
#[tactic(auto, unfolding(crate::specs::OutLines::frame_words))]
fn frame_words(kind: &[u8], words: Option<&[u8]>) -> Result<(), Unread>
    ensures { Reads (λ x. x) result (frame_words kind.now (words_left words.entry)) }
{
    if is_text(kind, "attach") {
        attach_words(words)
    } else if is_text(kind, "flow") {
        flow_words(words)
    } else if is_text(kind, "transfer") {
        transfer_words(words)
    } else if is_text(kind, "disposition") {
        disposition_words(words)
    } else if is_text(kind, "detach") {
        detach_words(words)
    } else {
        Err(Unread::OutsideTable)
    }
}

/// `NAME H ROLE`
#[tactic(auto, unfolding(crate::specs::OutLines::attach_words))]
fn attach_words(words: Option<&[u8]>) -> Result<(), Unread>
    ensures { Reads (λ x. x) result (attach_words (words_left words.entry)) }
{
    let (_name, words) = name_at(words)?;
    let (_handle, words) = u32_at(words)?;
    let (_role, words) = role_at(words)?;
    end_at(words)
}

/// `H N`
#[tactic(auto, unfolding(crate::specs::OutLines::flow_words))]
fn flow_words(words: Option<&[u8]>) -> Result<(), Unread>
    ensures { Reads (λ x. x) result (flow_words (words_left words.entry)) }
{
    let (_handle, words) = optional_u32_at(words)?;
    let (_credit, words) = optional_u32_at(words)?;
    end_at(words)
}

/// `H ID SET STATE PAYLOAD`
#[tactic(auto, unfolding(crate::specs::OutLines::transfer_words))]
fn transfer_words(words: Option<&[u8]>) -> Result<(), Unread>
    ensures { Reads (λ x. x) result (transfer_words (words_left words.entry)) }
{
    let (_delivery, words) = delivery_at(words)?;
    let words = state_at(words)?;
    let words = payload_at(words)?;
    end_at(words)
}

/// `ROLE FIRST LAST BOOL STATE`
#[tactic(auto, unfolding(crate::specs::OutLines::disposition_words))]
fn disposition_words(words: Option<&[u8]>) -> Result<(), Unread>
    ensures { Reads (λ x. x) result (disposition_words (words_left words.entry)) }
{
    let (_deliveries, words) = deliveries_at(words)?;
    let words = state_at(words)?;
    end_at(words)
}

/// `H BOOL`
#[tactic(auto, unfolding(crate::specs::OutLines::detach_words))]
fn detach_words(words: Option<&[u8]>) -> Result<(), Unread>
    ensures { Reads (λ x. x) result (detach_words (words_left words.entry)) }
{
    let (_handle, words) = u32_at(words)?;
    let (_closed, words) = bool_at(words)?;
    end_at(words)
}

/// The words after a state.
fn state_at(words: Option<&[u8]>) -> Result<Option<&[u8]>, Unread>
    ensures { Reads (λ x. (tt, words_left x)) result
        (next (passing is_state) (words_left words.entry)) }
{
    let (word, words) = word_at(words)?;
    if !is_state(word) {
        return Err(Unread::OutsideTable);
    }
    Ok(words)
}

/// The words after a payload.
fn payload_at(words: Option<&[u8]>) -> Result<Option<&[u8]>, Unread>
    ensures { Reads (λ x. (tt, words_left x)) result
        (next (passing is_payload) (words_left words.entry)) }
{
    let (word, words) = word_at(words)?;
    if !is_payload(word) {
        return Err(Unread::OutsideTable);
    }
    Ok(words)
}

/// Whether the word is that of a delivery's state.
fn is_state(word: &[u8]) -> bool
    ensures { result ≡ is_state word.now }
{
    let (kind, others) = cut_at(word, b':');
    let Some(others) = others else {
        return is_bare_outcome(kind) || is_text(kind, "received");
    };
    let (id, others) = cut_at(others, b':');
    let Some(others) = others else {
        return is_text(kind, "declared") && is_id(id);
    };
    let (outcome, others) = cut_at(others, b':');
    let Some(_) = others else {
        return is_text(kind, "txn") && is_id(id) && is_outcome(outcome);
    };
    false
}

fn is_outcome(word: &[u8]) -> bool
    ensures { result ≡ is_outcome word.now }
{
    is_bare_outcome(word) || is_text(word, "declared")
}

fn is_bare_outcome(word: &[u8]) -> bool
    ensures { result ≡ is_bare_outcome word.now }
{
    is_text(word, "-")
        || is_text(word, "accepted")
        || is_text(word, "rejected")
        || is_text(word, "released")
        || is_text(word, "modified")
}

fn is_payload(word: &[u8]) -> bool
    ensures { result ≡ is_payload word.now }
{
    let some = 1 <= word.len();
    is_text(word, "-") || (some && are_digits(word))
}

fn is_id(word: &[u8]) -> bool
    ensures { result ≡ is_id word.now }
{
    let few = word.len() <= 64;
    few && are_digits(word)
}

fn are_digits(word: &[u8]) -> bool
    ensures { result ≡ are_digits word.now }
{
    let even = word.len() % 2 == 0;
    even && are_lower_digits(word)
}

fn are_lower_digits(word: &[u8]) -> bool
    ensures { result ≡ list_all is_lower_digit word.now }
{
    word.iter().all(|octet| is_lower_digit(*octet))
}

fn is_lower_digit(octet: u8) -> bool
    ensures { result ≡ is_lower_digit octet }
{
    octet.is_ascii_digit() || (b'a' <= octet && octet <= b'f')
}
