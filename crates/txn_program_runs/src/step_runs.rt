//! A run: steps through a session, and what is written of them.

ghost use Rattle.std.specs.Prelude.{◌≡◌, ◌≤◌, Some, None, List, ℕ, IfOk, string_bytes};
ghost use Rattle.amqp_below_recorder.specs.Recording.{IsFresh, is_unused};
ghost use Rattle.amqp_resource_session.specs.Drive.{RunRose, RunVetoed};
ghost use Rattle.txn_program_lines.specs.Lines.{input_steps};
ghost use Rattle.txn_program_edges.specs.Reading.{source_of};
ghost use Rattle.txn_program_runs.specs.Running.{IsRun, run_text, stop_status};
ghost use Rattle.txn_program_runs.specs.Serving.{DrivesNothing, RunsInput, RunsMade, RunsReading, RunsSpelled, RunsSteps};
ghost use Rattle.txn_program_edges.specs.Words.{AreSome, stream_of_ids};
ghost use Rattle.txn_program_edges.specs.Unserved.{unserved_status, unserved_text};
ghost use Rattle.txn_program_edges.specs.Writing.{EndsWith, Wrote, sink_of};

use crate::made_steps::made;
use crate::summary::summary_string;
use amqp_below_ids::{CountIds, IdSource, ListIds};
use amqp_below_layer::{LayerBelow, SessionInnerError, Tells};
use amqp_below_recorder::Recorder;
use amqp_below_streams::{ByteSink, ByteSource};
use amqp_below_uuid_ids::seeded_ids;
use amqp_resource_record::{Driven, Entries, Steps, Stop};
use amqp_resource_session::{TxnSession, drive};
use amqp_txn_types::{Binary, NoMemory};
use std::alloc::Global;
use txn_program_edges::{Ids, Reading, Unserved, end_unserved, read_up_to, status, write_and_end};
use txn_program_lines::{SpellError, spells};
use txn_program_report::report_string;

/// The most octets that an input may have: 1 MiB.
pub const INPUT_LIMIT: usize = 1_048_576;

/// What a call of the program left.
#[derive(Drop)]
pub struct Ran<S> {
    /// The status that the program ends with.
    pub status: u8,
    /// What was driven; none where no step was.
    pub driven: Option<Driven>,
    /// The entries of a run that isn't one list of steps; none so far.
    pub entries: Option<Entries>,
    /// The recorder that was handed in, with what it took.
    pub below: Recorder<S>,
}

/// What is written of a run.
#[derive(Clone, Copy)]
pub enum Written {
    /// Its entries, its stop and what was taken.
    Report,
    /// How many there were.
    Summary,
}

/// Ends a call with that status.
pub(crate) fn end<S: LayerBelow>(status: u8, driven: Option<Driven>, below: Recorder<S>) -> Ran<S>
    ensures { result
        ≡ record { status = status; driven = driven; entries = None; below = below } }
{
    Ran {
        status,
        driven,
        entries: None,
        below,
    }
}

/// Ends a call where memory runs out.
pub fn end_without_memory<S: LayerBelow>(driven: Option<Driven>, below: Recorder<S>) -> Ran<S>
    ensures { result ≡ record { status = 6; driven = driven; entries = None; below = below } }
{
    end(status::NO_MEMORY, driven, below)
}

/// Ends a call that drives nothing: writes the text of why.
pub(crate) fn end_undriven<S: LayerBelow, O: ByteSink>(
    alloc: Global,
    why: Unserved,
    below: Recorder<S>,
    output: &mut O,
) -> Ran<S>
    ensures { DrivesNothing (sink_of O.written O.faults O.spare output.old)
        (sink_of O.written O.faults O.spare output.new)
        ⟦<Recorder<S> as Tells>⟧.told below (unserved_status why) (unserved_text why) result }
{
    let status = end_unserved(alloc, why, output);
    end(status, None, below)
}

/// The status that the program ends with after a run that stopped so.
pub fn status_of_stop(stop: &Stop) -> u8
    ensures { result ≡ stop_status stop.now }
{
    match stop {
        Stop::Done => status::EVERY_STEP,
        Stop::Fault(SessionInnerError::NoMemory) => status::NO_MEMORY_BELOW,
        Stop::Fault(_) | Stop::Ended(_) => status::STOPPED,
        Stop::NoMemory => status::NO_MEMORY,
    }
}

/// A run of the input, with the ids that the words name.
pub(crate) fn run_drawing<S: LayerBelow, I: ByteSource, O: ByteSink>(
    alloc: Global,
    ids: Ids,
    below: Recorder<S>,
    input: &mut I,
    output: &mut O,
) -> Ran<S>
    requires some { AreSome ids }
    requires fresh { IsFresh (is_unused below) (⟦<Recorder<S> as Tells>⟧.told below) }
    ensures { RunsInput (source_of I.rest I.faults input.old)
        (source_of I.rest I.faults input.new) (sink_of O.written O.faults O.spare output.old)
        (sink_of O.written O.faults O.spare output.new)
        ⟦<Recorder<S> as Tells>⟧.told below (stream_of_ids ids) result }
{
    match ids {
        Ids::Listed(ids) => match ListIds::new(alloc, ids.as_slice()) {
            Ok(mut source) => run_input(alloc, &mut source, below, input, output),
            Err(_) => end_without_memory(None, below),
        },
        Ids::Seeded(seed) => run_input(alloc, &mut seeded_ids(seed), below, input, output),
    }
}

/// A run of the steps of the input, of which declares draw these ids.
fn run_input<S: LayerBelow, G: IdSource, I: ByteSource, O: ByteSink>(
    alloc: Global,
    ids: &mut G,
    below: Recorder<S>,
    input: &mut I,
    output: &mut O,
) -> Ran<S>
    requires { IsFresh (is_unused below) (⟦<Recorder<S> as Tells>⟧.told below) }
    ensures { RunsInput (source_of I.rest I.faults input.old)
        (source_of I.rest I.faults input.new) (sink_of O.written O.faults O.spare output.old)
        (sink_of O.written O.faults O.spare output.new)
        ⟦<Recorder<S> as Tells>⟧.told below (G.next ids.old) result }
{
    match read_up_to(alloc, input, INPUT_LIMIT) {
        Ok(reading) => run_reading(alloc, ids, reading, below, output),
        Err(_) => end_without_memory(None, below),
    }
}

/// A run of what was read of the input, of which declares draw these ids.
fn run_reading<S: LayerBelow, G: IdSource, O: ByteSink>(
    alloc: Global,
    ids: &mut G,
    reading: Reading,
    below: Recorder<S>,
    output: &mut O,
) -> Ran<S>
    requires { IsFresh (is_unused below) (⟦<Recorder<S> as Tells>⟧.told below) }
    ensures { RunsReading (sink_of O.written O.faults O.spare output.old)
        (sink_of O.written O.faults O.spare output.new)
        ⟦<Recorder<S> as Tells>⟧.told below (G.next ids.old) reading result }
{
    match reading {
        Reading::Fault => end_undriven(alloc, Unserved::ReadFault, below, output),
        Reading::TooLong => end_undriven(alloc, Unserved::TooLong, below, output),
        Reading::Whole(octets) => run_octets(alloc, ids, octets, below, output),
    }
}

/// A run of the steps that the octets spell, of which declares draw these ids.
fn run_octets<S: LayerBelow, G: IdSource, O: ByteSink>(
    alloc: Global,
    ids: &mut G,
    octets: Binary,
    below: Recorder<S>,
    output: &mut O,
) -> Ran<S>
    requires { IsFresh (is_unused below) (⟦<Recorder<S> as Tells>⟧.told below) }
    ensures { RunsSpelled (sink_of O.written O.faults O.spare output.old)
        (sink_of O.written O.faults O.spare output.new)
        ⟦<Recorder<S> as Tells>⟧.told below (G.next ids.old) (input_steps octets) result }
{
    match spells(alloc, octets.as_slice()) {
        Ok(steps) => {
            drop(octets);
            run_steps(alloc, steps, ids, Written::Report, below, output)
        }
        Err(SpellError::Line(number)) => {
            end_undriven(alloc, Unserved::Line(number), below, output)
        }
        Err(SpellError::NoMemory) => end_without_memory(None, below),
    }
}

/// A run of that many made transactions, and its summary.
pub(crate) fn run_made<S: LayerBelow, O: ByteSink>(
    alloc: Global,
    count: u32,
    below: Recorder<S>,
    output: &mut O,
) -> Ran<S>
    requires few { count ≤ 20000 }
    requires fresh { IsFresh (is_unused below) (⟦<Recorder<S> as Tells>⟧.told below) }
    ensures { RunsMade (sink_of O.written O.faults O.spare output.old)
        (sink_of O.written O.faults O.spare output.new)
        ⟦<Recorder<S> as Tells>⟧.told below count result }
{
    let Ok(steps) = made(alloc, count) else {
        return end_without_memory(None, below);
    };
    let mut source = CountIds::new();
    run_steps(alloc, steps, &mut source, Written::Summary, below, output)
}

/// A run of these steps, of which declares draw these ids, and what is written of it.
fn run_steps<S: LayerBelow, G: IdSource, O: ByteSink>(
    alloc: Global,
    steps: Steps,
    ids: &mut G,
    what: Written,
    below: Recorder<S>,
    output: &mut O,
) -> Ran<S>
    requires { IsFresh (is_unused below) (⟦<Recorder<S> as Tells>⟧.told below) }
    ensures { RunsSteps (sink_of O.written O.faults O.spare output.old)
        (sink_of O.written O.faults O.spare output.new)
        ⟦<Recorder<S> as Tells>⟧.told below (G.next ids.old) steps what result }
{
    let Run { driven, below } = drive_steps(alloc, steps, ids, below);
    let text = run_text(alloc, what, &driven, &below);
    end_run(driven, text, below, output)
}

/// What is written of a run.
fn run_text<S: LayerBelow>(
    alloc: Global,
    what: Written,
    driven: &Driven,
    below: &Recorder<S>,
) -> Result<String, NoMemory>
    ensures { IfOk result (λ text. string_bytes text
        ≡ run_text what (⟦<Recorder<S> as Tells>⟧.told below.now) (Some driven.now)) }
{
    let taken = below.exchanges();
    match what {
        Written::Report => report_string(alloc, driven, taken),
        Written::Summary => summary_string(alloc, driven.entries.as_slice(), taken.len()),
    }
}

/// Steps that were driven, and the recorder that they were driven over.
struct Run<S> {
    driven: Driven,
    below: Recorder<S>,
}

/// Drives the steps through a session over the recorder.
fn drive_steps<S: LayerBelow, G: IdSource>(
    alloc: Global,
    steps: Steps,
    ids: &mut G,
    below: Recorder<S>,
) -> Run<S>
    requires fresh { IsFresh (is_unused below) (⟦<Recorder<S> as Tells>⟧.told below) }
    ensures record { IsRun (G.next ids.old) steps
        (⟦<Recorder<S> as Tells>⟧.told below).reviews.vetoed
        (⟦<Recorder<S> as Tells>⟧.told result.below) result.driven }
    ensures rose { RunRose (⟦<Recorder<S> as Tells>⟧.told below).refusals
        (⟦<Recorder<S> as Tells>⟧.told result.below).refusals
        result.driven.entries result.driven.stop }
    ensures vetoes_rose { RunVetoed (⟦<Recorder<S> as Tells>⟧.told below).reviews.vetoes
        (⟦<Recorder<S> as Tells>⟧.told result.below).reviews.vetoes result.driven.entries }
    ensures fixed { (⟦<Recorder<S> as Tells>⟧.told result.below).fixed
        ≡ (⟦<Recorder<S> as Tells>⟧.told below).fixed }
{
    let mut session = TxnSession::new(alloc, below);
    let driven = drive(&mut session, steps, ids);
    Run {
        driven,
        below: session.into_below(),
    }
}

/// Ends a run: writes its text, where there was memory for it, with the status of its stop.
fn end_run<S: LayerBelow, O: ByteSink>(
    driven: Driven,
    text: Result<String, NoMemory>,
    below: Recorder<S>,
    output: &mut O,
) -> Ran<S>
    ensures status { EndsWith (O.faults output.old) (O.faults output.new)
        (stop_status driven.stop) result.status }
    ensures driven { result.driven ≡ Some driven }
    ensures below { result.below ≡ below }
    ensures written { (these : List ℕ) → IfOk text (λ text. string_bytes text ≡ these) →
        Wrote (O.written output.old) (O.written output.new) result.status these }
    ensures entries { result.entries ≡ None }
{
    let status = status_of_stop(&driven.stop);
    let Ok(text) = text else {
        return end_without_memory(Some(driven), below);
    };
    let status = write_and_end(status, text.as_str().as_bytes(), output);
    end(status, Some(driven), below)
}
