//! A relay for words and an input.

ghost use Rattle.std.specs.Prelude.{◌≡◌, ◌<◌, ◌≤◌, Some, length, IfOk, IfSome};
ghost use Rattle.txn_program_edges.specs.Reading.{source_of};
ghost use Rattle.txn_program_edges.specs.Unserved.{unserved_status, unserved_text};
ghost use Rattle.txn_program_edges.specs.Writing.{EndsWith, Wrote, sink_of};
ghost use Rattle.txn_program_runs.specs.declared.step_runs.TheConstants.{INPUT_LIMIT};
ghost use Rattle.txn_relay.specs.RelayText.{relay_text};
ghost use Rattle.txn_relay.specs.Scripts.{script_of};
ghost use Rattle.txn_relay.specs.Serving.{IsStart, IsWithinLimit, Plays, RelaysNothing, RelaysReading, RelaysScript, RelaysSpelled, ServesRelay, relay_words, stop_status};
ghost use Rattle.txn_world.specs.Happening.{code_of_stop};

use crate::event::RelayEvent;
use crate::filling::filled_broker;
use crate::playing::play;
use crate::relay::Relay;
use crate::relay_text::relay_string;
use crate::script::{Script, spelled_script};
use amqp_below_ids::{IdSource, ListIds};
use amqp_below_streams::{ByteSink, ByteSource};
use amqp_resource_record::StopCode;
use amqp_txn_types::{Binary, NoMemory, Payload, Text};
use std::alloc::Global;
use txn_program_edges::{
    Reading, TransactionIds, Unserved, end_unserved, id_list_of, read_up_to, status,
};
use txn_program_lines::{SpellError, is_text};
use txn_program_parties::write_text;
use txn_program_runs::INPUT_LIMIT;
use txn_world::World;

/// What a call of the program left.
#[derive(Drop)]
pub struct RelayRan {
    /// The status that the program ends with.
    pub status: u8,
    /// The relay; none where none was made.
    pub relay: Option<Relay>,
}

/// Does what the words ask for, `relay ID ..`: fills the messages of the input into a new broker,
/// lets a relay of them have the events of the input, writes what came of it, and answers with a
/// status.
pub fn run_relay<I: ByteSource, O: ByteSink>(
    alloc: Global,
    words: &[Text],
    input: &mut I,
    output: &mut O,
) -> RelayRan
    ensures { ServesRelay (record {
      next = ⟦<ListIds as IdSource>⟧.next;
      start = ⟦<ListIds as IdSource>⟧.start;
    }) (relay_words words.now)
        (source_of I.rest I.faults input.old) (source_of I.rest I.faults input.new)
        (sink_of O.written O.faults O.spare output.old)
        (sink_of O.written O.faults O.spare output.new) result }
{
    match relay_words(alloc, words) {
        Ok(Some(ids)) => relay_input(alloc, ids, input, output),
        Ok(None) => end_unmade(alloc, Unserved::Usage, output),
        Err(_) => end_without_memory(None),
    }
}

/// The ids of the words, `None` where they are outside the table.
fn relay_words(alloc: Global, words: &[Text]) -> Result<Option<TransactionIds>, NoMemory>
    ensures ids { IfOk result (λ ids. ids ≡ relay_words words.now) }
    ensures some { IfOk result (λ ids. IfSome ids (λ ids. 0 < length ids)) }
{
    match words {
        [word, others @ ..] if is_text(word.as_str().as_bytes(), "relay") => {
            id_list_of(alloc, others)
        }
        _ => Ok(None),
    }
}

/// Ends a call where memory runs out.
fn end_without_memory(relay: Option<Relay>) -> RelayRan
    ensures { result ≡ record { status = 6; relay = relay } }
{
    RelayRan {
        status: status::NO_MEMORY,
        relay,
    }
}

/// Ends a call that makes no relay: writes the text of why.
fn end_unmade<O: ByteSink>(alloc: Global, why: Unserved, output: &mut O) -> RelayRan
    ensures { RelaysNothing (record {
      next = ⟦<ListIds as IdSource>⟧.next;
      start = ⟦<ListIds as IdSource>⟧.start;
    })
        (sink_of O.written O.faults O.spare output.old)
        (sink_of O.written O.faults O.spare output.new) (unserved_status why) (unserved_text why)
        result }
{
    RelayRan {
        status: end_unserved(alloc, why, output),
        relay: None,
    }
}

/// A relay of the input.
fn relay_input<I: ByteSource, O: ByteSink>(
    alloc: Global,
    ids: TransactionIds,
    input: &mut I,
    output: &mut O,
) -> RelayRan
    requires { 0 < length ids }
    ensures { ServesRelay (record {
      next = ⟦<ListIds as IdSource>⟧.next;
      start = ⟦<ListIds as IdSource>⟧.start;
    }) (Some ids)
        (source_of I.rest I.faults input.old) (source_of I.rest I.faults input.new)
        (sink_of O.written O.faults O.spare output.old)
        (sink_of O.written O.faults O.spare output.new) result }
{
    match read_up_to(alloc, input, INPUT_LIMIT) {
        Ok(reading) => relay_reading(alloc, ids, reading, output),
        Err(_) => end_without_memory(None),
    }
}

/// A relay of what the reading of the input found.
fn relay_reading<O: ByteSink>(
    alloc: Global,
    ids: TransactionIds,
    reading: Reading,
    output: &mut O,
) -> RelayRan
    requires ids { 0 < length ids }
    requires limit { IsWithinLimit reading }
    ensures { RelaysReading (record {
      next = ⟦<ListIds as IdSource>⟧.next;
      start = ⟦<ListIds as IdSource>⟧.start;
    })
        (sink_of O.written O.faults O.spare output.old)
        (sink_of O.written O.faults O.spare output.new) ids reading result }
{
    match reading {
        Reading::Fault => end_unmade(alloc, Unserved::ReadFault, output),
        Reading::TooLong => end_unmade(alloc, Unserved::TooLong, output),
        Reading::Whole(octets) => relay_octets(alloc, ids, octets, output),
    }
}

/// A relay of what the octets spell.
fn relay_octets<O: ByteSink>(
    alloc: Global,
    ids: TransactionIds,
    octets: Binary,
    output: &mut O,
) -> RelayRan
    requires ids { 0 < length ids }
    requires limit { length octets ≤ INPUT_LIMIT }
    ensures { RelaysSpelled (record {
      next = ⟦<ListIds as IdSource>⟧.next;
      start = ⟦<ListIds as IdSource>⟧.start;
    })
        (sink_of O.written O.faults O.spare output.old)
        (sink_of O.written O.faults O.spare output.new) ids (script_of octets) result }
{
    match spelled_script(alloc, octets.as_slice()) {
        Ok(script) => {
            drop(octets);
            relay_script(alloc, ids, script, output)
        }
        Err(SpellError::Line(number)) => end_unmade(alloc, Unserved::Line(number), output),
        Err(SpellError::NoMemory) => end_without_memory(None),
    }
}

/// A relay of these messages, which has these events.
fn relay_script<O: ByteSink>(
    alloc: Global,
    ids: TransactionIds,
    script: Script,
    output: &mut O,
) -> RelayRan
    requires ids { 0 < length ids }
    requires few { length script.messages < 4294967295 }
    ensures { RelaysScript (record {
      next = ⟦<ListIds as IdSource>⟧.next;
      start = ⟦<ListIds as IdSource>⟧.start;
    })
        (sink_of O.written O.faults O.spare output.old)
        (sink_of O.written O.faults O.spare output.new) ids script result }
{
    match new_relay(alloc, ids, script.messages.as_slice()) {
        Ok(relay) => relay_events(alloc, relay, script.events.as_slice(), output),
        Err(NoMemory) => end_without_memory(None),
    }
}

/// Lets the relay have these events, and writes what came of it.
fn relay_events<O: ByteSink>(
    alloc: Global,
    relay: Relay,
    events: &[RelayEvent],
    output: &mut O,
) -> RelayRan
    ensures { Plays (record {
      next = ⟦<ListIds as IdSource>⟧.next;
      start = ⟦<ListIds as IdSource>⟧.start;
    })
        (sink_of O.written O.faults O.spare output.old)
        (sink_of O.written O.faults O.spare output.new) relay events.now result }
{
    let mut relay = relay;
    let played = play(&mut relay, events);
    // What holds after every event is told where the two parties are.
    let _world = relay.world();
    match played {
        Ok(skipped) => end_made(alloc, relay, skipped, output),
        Err(NoMemory) => end_without_memory(Some(relay)),
    }
}

/// A relay of these messages, before its first event. The only error is out of memory, that of the
/// attach of a control link too.
fn new_relay(alloc: Global, ids: TransactionIds, payloads: &[Payload]) -> Result<Relay, NoMemory>
    requires ids { 0 < length ids }
    requires few { length payloads.now < 4294967295 }
    ensures { IfOk result (λ relay. IsStart (record {
      next = ⟦<ListIds as IdSource>⟧.next;
      start = ⟦<ListIds as IdSource>⟧.start;
    }) ids payloads.now relay) }
{
    let source = ListIds::new(alloc, ids.as_slice())?;
    let (broker, work) = filled_broker(alloc, payloads)?;
    match World::new(alloc, broker, 1, source) {
        Ok(world) => Ok(Relay::new(alloc, world, work)),
        Err(refused) => {
            drop(refused);
            Err(NoMemory)
        }
    }
}

/// The status of a stop: 8 where there is one, which is out of memory below.
fn stop_status(stop: Option<StopCode>) -> u8
    ensures { result ≡ stop_status stop }
{
    match stop {
        None => status::EVERY_STEP,
        Some(_) => status::NO_MEMORY_BELOW,
    }
}

/// Ends a call in which the relay had all events: writes the text, where there was memory for it.
fn end_made<O: ByteSink>(alloc: Global, relay: Relay, skipped: usize, output: &mut O) -> RelayRan
    ensures status { EndsWith (O.faults output.old) (O.faults output.new)
        (stop_status (code_of_stop relay.world.sides.stop)) result.status }
    ensures relay { result.relay ≡ Some relay }
    ensures written { Wrote (O.written output.old) (O.written output.new) result.status
        (relay_text relay skipped) }
{
    let text = relay_string(alloc, &relay, skipped);
    let status = write_text(stop_status(relay.stop()), text, output);
    RelayRan {
        status,
        relay: Some(relay),
    }
}
