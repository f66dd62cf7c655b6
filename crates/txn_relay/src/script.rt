//! The messages and the events that the lines of an input spell.

ghost use Rattle.txn_program_lines.specs.Lines.{alone};
ghost use Rattle.txn_program_lines.specs.Reads.{Reads, words_left};
ghost use Rattle.txn_relay.specs.Scripts.{SpellsScript, line_of, line_of_words, message_line, script_of};
ghost use Rattle.txn_relay.specs.declared.script.Line.TheVariants as kinds;

use crate::event::RelayEvent;
use amqp_txn_types::{Items, Payload};
use std::alloc::Global;
use txn_program_lines::{
    LineReader, SpellError, Unread, end_at, is_text, payload_of, read_lines, word_at,
};

/// The payloads of the messages, in order, and then the events.
#[derive(Drop)]
pub struct Script {
    /// The octets of each message.
    pub messages: Items<Payload>,
    /// The events.
    pub events: Items<RelayEvent>,
}

/// What a line is.
enum Line {
    /// A message with these octets.
    Message(Payload),
    /// An event.
    Event(RelayEvent),
}

/// The meaning of a line.
#[tactic(auto, unfolding(crate::specs::Scripts::line_of))]
fn line_of(alloc: Global, line: &[u8]) -> Result<Line, Unread>
    ensures { Reads (λ line. line) result (line_of line.now) }
{
    let (kind, words) = word_at(Some(line))?;
    line_of_words(alloc, kind, words)
}

/// The meaning of a line, by its first word and the words after it.
#[tactic(auto, unfolding(crate::specs::Scripts::line_of_words))]
fn line_of_words(alloc: Global, kind: &[u8], words: Option<&[u8]>) -> Result<Line, Unread>
    ensures { Reads (λ line. line) result (line_of_words kind.now (words_left words.entry)) }
{
    if is_text(kind, "message") {
        message_line(alloc, words)
    } else if is_text(kind, "go") {
        event_line(words, RelayEvent::Go)
    } else if is_text(kind, "arrive") {
        event_line(words, RelayEvent::Arrive)
    } else if is_text(kind, "return") {
        event_line(words, RelayEvent::Return)
    } else if is_text(kind, "cut") {
        event_line(words, RelayEvent::Cut)
    } else {
        Err(Unread::OutsideTable)
    }
}

/// `message PAYLOAD`
#[tactic(auto, unfolding(crate::specs::Scripts::message_line))]
fn message_line(alloc: Global, words: Option<&[u8]>) -> Result<Line, Unread>
    ensures { Reads (λ line. line) result (message_line (words_left words.entry)) }
{
    let (payload, words) = word_at(words)?;
    let payload = payload_of(alloc, payload)?;
    end_at(words)?;
    Ok(Line::Message(payload))
}

/// A line that is one word.
fn event_line(words: Option<&[u8]>, event: RelayEvent) -> Result<Line, Unread>
    ensures { Reads (λ line. line) result (alone (words_left words.entry) (kinds.Event event)) }
{
    end_at(words)?;
    Ok(Line::Event(event))
}

impl LineReader for Script {
    ghost use Rattle.txn_relay.specs.Scripts.{script_after};

    ghost after_line = { script_after };

    fn read_line(&mut self, alloc: Global, line: &[u8]) -> Result<(), Unread> {
        match line_of(alloc, line)? {
            Line::Message(payload) => {
                if !self.events.is_empty() {
                    drop(payload);
                    return Err(Unread::OutsideTable);
                }
                self.messages.append(payload)?;
            }
            Line::Event(event) => self.events.append(event)?,
        }
        Ok(())
    }
}

/// The messages and the events that the lines spell: messages first.
///
/// A line ends at a line feed, and its words are parted by exactly one space.
///
/// # Errors
///
/// - `Line` exactly where a line is outside the table, or a message after an event: the number of
///   the first such line.
/// - `NoMemory` where memory runs out.
pub fn spelled_script(alloc: Global, octets: &[u8]) -> Result<Script, SpellError>
    ensures { SpellsScript result (script_of octets.now) }
{
    let mut script = Script {
        messages: Items::new(alloc),
        events: Items::new(alloc),
    };
    match read_lines(alloc, octets, &mut script) {
        Ok(()) => Ok(script),
        Err(error) => {
            drop(script);
            Err(error)
        }
    }
}
