//! The events of an input.

ghost use Rattle.std.specs.Prelude.{◌≡◌, ◌++◌, ◌∷◌, [], OnOk};
ghost use Rattle.txn_program_agree_lines.specs.EventLines.{SpellsEvents, input_events};

use crate::event_lines::event_of_line;
use amqp_txn_types::{Items, NoMemory};
use std::alloc::Global;
use std::marker::Model;
use txn_parties::Event;
use txn_program_lines::{LineReader, SpellError, Unread, read_lines};

/// Events, in order. A contract sees them as a list.
#[derive(Debug, Drop)]
pub struct Events {
    items: Items<Event>,
}

impl Model for Events {
    ghost use Rattle.std.specs.Prelude.{List};
    ghost use Rattle.txn_parties.specs.declared.event.Event.{Event};

    ghost Value = { List Event };

    ghost view = { λ e. e.items };
}

impl Events {
    /// No events. It takes no memory; later growth takes it from `alloc`.
    pub fn new(alloc: Global) -> Self
        ensures { result ≡ [] }
    {
        Events {
            items: Items::new(alloc),
        }
    }

    /// The events, in order.
    pub fn as_slice(&self) -> &[Event]
        ensures { result.now ≡ self.now }
    {
        self.items.as_slice()
    }

    /// Appends an event at the end. Out of memory is the only error.
    fn append(&mut self, event: Event) -> Result<(), NoMemory>
        ensures { OnOk result (self.new ≡ self.old ++ event ∷ []) }
    {
        self.items.append(event)
    }
}

impl LineReader for Events {
    ghost use Rattle.txn_program_lines.specs.Numbered.{with_item};
    ghost use Rattle.txn_program_agree_lines.specs.EventLines.{event_of_line};

    ghost after_line = { with_item event_of_line };

    fn read_line(&mut self, alloc: Global, line: &[u8]) -> Result<(), Unread> {
        let event = event_of_line(alloc, line)?;
        self.append(event)?;
        Ok(())
    }
}

/// The events that the lines spell, one for each line.
///
/// A line ends at a line feed, and its words are parted by exactly one space.
///
/// # Errors
///
/// - `Line` exactly where a line is outside the table: the number of the first such line.
/// - `NoMemory` where memory runs out.
pub fn spelled_events(alloc: Global, octets: &[u8]) -> Result<Events, SpellError>
    ensures { SpellsEvents result (input_events octets.now) }
{
    let mut events = Events::new(alloc);
    match read_lines(alloc, octets, &mut events) {
        Ok(()) => Ok(events),
        Err(error) => {
            drop(events);
            Err(error)
        }
    }
}
