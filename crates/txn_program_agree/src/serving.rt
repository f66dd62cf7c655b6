//! The command `agree`.

ghost use Rattle.std.specs.Prelude.{◌≡◌, ◌≤◌, ◌<◌, ◌+◌, false, None, Some, List, ℕ, length, IfOk, string_bytes};
ghost use Rattle.amqp_below_recorder.specs.Recording.{IsFresh, is_unused};
ghost use Rattle.amqp_resource_record.specs.Stops.{fault_code};
ghost use Rattle.amqp_txn_types.specs.declared.small.SessionState.TheVariants as session_states;
ghost use Rattle.txn_parties.specs.Exchange.{record_of};
ghost use Rattle.txn_program_agree.specs.AgreeText.{refused_text};
ghost use Rattle.txn_program_agree.specs.AgreeWords.{IsWithin};
ghost use Rattle.txn_program_agree.specs.Playing.{IsBegun};
ghost use Rattle.txn_program_agree.specs.Serving.{AgreesOver, AgreesReading, AgreesSpelled, IsWithinLimit, PlaysOut, ServesAgree, stop_status};
ghost use Rattle.txn_program_agree_lines.specs.EventLines.{input_events};
ghost use Rattle.txn_program_edges.specs.Reading.{source_of};
ghost use Rattle.txn_program_edges.specs.Unserved.{unserved_status, unserved_text};
ghost use Rattle.txn_program_edges.specs.Writing.{EndsWith, Wrote, sink_of};
ghost use Rattle.txn_program_runs.specs.Running.{told_under};
ghost use Rattle.txn_program_runs.specs.declared.step_runs.TheConstants.{INPUT_LIMIT};

use crate::agree_text::{agree_string, refused_string};
use crate::agree_words::AgreeCommand;
use crate::playing::play;
use amqp_below_ids::{IdSource, ListIds};
use amqp_below_layer::{LayerBelow, SessionInnerError, Tells};
use amqp_below_recorder::Recorder;
use amqp_below_streams::{ByteSink, ByteSource};
use amqp_resource_record::{StopCode, code_of_fault};
use amqp_txn_types::{Binary, NoMemory};
use std::alloc::Global;
use txn_program_agree_lines::{Events, spelled_events};
use txn_program_edges::{Reading, TransactionIds, Unserved, end_unserved, read_up_to, status};
use txn_program_lines::SpellError;
use txn_program_parties::write_text;
use txn_program_runs::{INPUT_LIMIT, Plans, Ran, end_without_memory};
use txn_world::{World, WorldError};

/// Does what a command asks for, and answers with a status; none stands for arguments outside the
/// table. The entries of the run are the record of the resource.
///
/// # Requires
///
/// The recorder is fresh, as [`Recorder::is_fresh`] tests, and the command is within the limits of
/// the table, as each that [`agree_command_of`](crate::agree_command_of) gives.
pub fn serve_agree<S: LayerBelow + Send, I: ByteSource, O: ByteSink>(
    alloc: Global,
    command: Option<AgreeCommand>,
    below: Recorder<S>,
    input: &mut I,
    output: &mut O,
) -> Ran<S>
    requires fresh { IsFresh (is_unused below) (⟦<Recorder<S> as Tells>⟧.told below) }
    requires within { IsWithin command }
    ensures { ServesAgree ⟦<Recorder<S> as Tells>⟧.told command below
        (source_of I.rest I.faults input.old) (source_of I.rest I.faults input.new)
        (sink_of O.written O.faults O.spare output.old)
        (sink_of O.written O.faults O.spare output.new) result }
{
    let Some(command) = command else {
        return end_unmade(alloc, Unserved::Usage, below, output);
    };
    let AgreeCommand {
        controllers,
        plans,
        ids,
    } = command;
    let below = under_plans(below, plans);
    match read_up_to(alloc, input, INPUT_LIMIT) {
        Ok(reading) => agree_on_reading(alloc, controllers, ids, reading, below, output),
        Err(_) => end_without_memory(None, below),
    }
}

/// The recorder with the plans of the words, where they have one, in place of its own.
fn under_plans<S: LayerBelow>(below: Recorder<S>, plans: Plans) -> Recorder<S>
    requires { IsFresh (is_unused below) (⟦<Recorder<S> as Tells>⟧.told below) }
    ensures { ⟦<Recorder<S> as Tells>⟧.told result
        ≡ told_under plans (⟦<Recorder<S> as Tells>⟧.told below) }
{
    let Plans { refused, starved } = plans;
    let mut below = below;
    if let Some(plan) = refused {
        below.set_plan(plan);
    }
    if let Some(plan) = starved {
        below.set_starved(plan);
    }
    below
}

/// Ends a call in which no two parties were made: writes the text of why.
fn end_unmade<S: LayerBelow, O: ByteSink>(
    alloc: Global,
    why: Unserved,
    below: Recorder<S>,
    output: &mut O,
) -> Ran<S>
    ensures status { EndsWith (O.faults output.old) (O.faults output.new) (unserved_status why)
        result.status }
    ensures written { Wrote (O.written output.old) (O.written output.new) result.status
        (unserved_text why) }
    ensures driven { result.driven ≡ None }
    ensures entries { result.entries ≡ None }
    ensures below { result.below ≡ below }
{
    Ran {
        status: end_unserved(alloc, why, output),
        driven: None,
        entries: None,
        below,
    }
}

/// Two parties with so many controllers, and the events of what the reading of the input found.
fn agree_on_reading<S: LayerBelow, O: ByteSink>(
    alloc: Global,
    controllers: u32,
    ids: TransactionIds,
    reading: Reading,
    below: Recorder<S>,
    output: &mut O,
) -> Ran<S>
    requires some { 1 ≤ controllers }
    requires few { controllers ≤ 8 }
    requires ids { 0 < length ids }
    requires mapped { (⟦<Recorder<S> as Tells>⟧.told below).fixed.state
        ≡ session_states.Mapped }
    requires limit { IsWithinLimit reading }
    ensures { AgreesReading (sink_of O.written O.faults O.spare output.old)
        (sink_of O.written O.faults O.spare output.new) ⟦<Recorder<S> as Tells>⟧.told
        below ids controllers reading result }
{
    match reading {
        Reading::Fault => end_unmade(alloc, Unserved::ReadFault, below, output),
        Reading::TooLong => end_unmade(alloc, Unserved::TooLong, below, output),
        Reading::Whole(octets) => {
            agree_on_octets(alloc, controllers, ids, octets, below, output)
        }
    }
}

/// Two parties, and the events that the octets spell.
fn agree_on_octets<S: LayerBelow, O: ByteSink>(
    alloc: Global,
    controllers: u32,
    ids: TransactionIds,
    octets: Binary,
    below: Recorder<S>,
    output: &mut O,
) -> Ran<S>
    requires some { 1 ≤ controllers }
    requires few { controllers ≤ 8 }
    requires ids { 0 < length ids }
    requires mapped { (⟦<Recorder<S> as Tells>⟧.told below).fixed.state
        ≡ session_states.Mapped }
    requires limit { length octets ≤ INPUT_LIMIT }
    ensures { AgreesSpelled (sink_of O.written O.faults O.spare output.old)
        (sink_of O.written O.faults O.spare output.new) ⟦<Recorder<S> as Tells>⟧.told
        below ids controllers (input_events octets) result }
{
    match spelled_events(alloc, octets.as_slice()) {
        Ok(events) => {
            drop(octets);
            agree_on_events(alloc, controllers, ids, events, below, output)
        }
        Err(SpellError::Line(number)) => {
            end_unmade(alloc, Unserved::Line(number), below, output)
        }
        Err(SpellError::NoMemory) => end_without_memory(None, below),
    }
}

/// Two parties, and these events.
fn agree_on_events<S: LayerBelow, O: ByteSink>(
    alloc: Global,
    controllers: u32,
    ids: TransactionIds,
    events: Events,
    below: Recorder<S>,
    output: &mut O,
) -> Ran<S>
    requires some { 1 ≤ controllers }
    requires few { controllers ≤ 8 }
    requires ids { 0 < length ids }
    requires mapped { (⟦<Recorder<S> as Tells>⟧.told below).fixed.state
        ≡ session_states.Mapped }
    requires count { length events ≤ INPUT_LIMIT + 1 }
    ensures { AgreesOver (sink_of O.written O.faults O.spare output.old)
        (sink_of O.written O.faults O.spare output.new) ⟦<Recorder<S> as Tells>⟧.told
        below ids controllers events result }
{
    let Ok(source) = ListIds::new(alloc, ids.as_slice()) else {
        return end_without_memory(None, below);
    };
    match World::new(alloc, below, controllers, source) {
        Ok(world) => play_out(alloc, world, events, output),
        Err((below, error)) => match error {
            WorldError::NoMemory => end_without_memory(None, below),
            WorldError::AttachRefused(error) => end_refused(alloc, error, below, output),
        },
    }
}

/// Plays the events, and writes what came of them.
fn play_out<S: LayerBelow, O: ByteSink>(
    alloc: Global,
    world: World<Recorder<S>, ListIds>,
    events: Events,
    output: &mut O,
) -> Ran<S>
    requires begun { IsBegun false world.sides }
    requires few { length events < 4294967295 }
    ensures { PlaysOut (sink_of O.written O.faults O.spare output.old)
        (sink_of O.written O.faults O.spare output.new) ⟦<Recorder<S> as Tells>⟧.told
        ⟦<ListIds as IdSource>⟧.next world events result }
{
    let mut world = world;
    match play(&mut world, events.as_slice()) {
        Ok(skipped) => {
            let text = agree_string(alloc, &world, skipped);
            let status = status_of_stop(world.stop());
            end_made(status, text, world, output)
        }
        Err(NoMemory) => end_midway(world),
    }
}

/// The status of a stop.
fn status_of_stop(stop: Option<StopCode>) -> u8
    ensures { result ≡ stop_status stop }
{
    match stop {
        None => status::EVERY_STEP,
        Some(StopCode::BelowNoMemory) => status::NO_MEMORY_BELOW,
        Some(_) => status::STOPPED,
    }
}

/// Ends a call in which memory ran out before all events were played.
fn end_midway<S: LayerBelow>(world: World<Recorder<S>, ListIds>) -> Ran<S>
    ensures status { result.status ≡ 6 }
    ensures driven { result.driven ≡ None }
    ensures entries { result.entries ≡ Some (record_of world.sides) }
    ensures below { result.below ≡ world.below }
{
    let (entries, below) = world.into_parts();
    Ran {
        status: status::NO_MEMORY,
        driven: None,
        entries: Some(entries),
        below,
    }
}

/// Ends a call in which two parties played all events: writes the text, where there was memory for
/// it.
fn end_made<S: LayerBelow, O: ByteSink>(
    status: u8,
    text: Result<String, NoMemory>,
    world: World<Recorder<S>, ListIds>,
    output: &mut O,
) -> Ran<S>
    ensures status { EndsWith (O.faults output.old) (O.faults output.new) status result.status }
    ensures written { (these : List ℕ) → IfOk text (λ text. string_bytes text ≡ these) →
        Wrote (O.written output.old) (O.written output.new) result.status these }
    ensures driven { result.driven ≡ None }
    ensures entries { result.entries ≡ Some (record_of world.sides) }
    ensures below { result.below ≡ world.below }
{
    let (entries, below) = world.into_parts();
    Ran {
        status: write_text(status, text, output),
        driven: None,
        entries: Some(entries),
        below,
    }
}

/// Ends a call in which an attach was refused: writes its line.
fn end_refused<S: LayerBelow, O: ByteSink>(
    alloc: Global,
    error: SessionInnerError,
    below: Recorder<S>,
    output: &mut O,
) -> Ran<S>
    ensures status { EndsWith (O.faults output.old) (O.faults output.new)
        (stop_status (Some (fault_code error))) result.status }
    ensures written { Wrote (O.written output.old) (O.written output.new) result.status
        (refused_text error) }
    ensures driven { result.driven ≡ None }
    ensures entries { result.entries ≡ None }
    ensures below { result.below ≡ below }
{
    let status = status_of_stop(Some(code_of_fault(&error)));
    let text = refused_string(alloc, &error);
    drop(error);
    Ran {
        status: write_text(status, text, output),
        driven: None,
        entries: None,
        below,
    }
}
