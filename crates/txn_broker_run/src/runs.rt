//! A run for words and an input.

ghost use Rattle.std.specs.Prelude.{◌≡◌, Some, List, ℕ, IfOk, IfSome, string_bytes};
ghost use Rattle.txn_broker_run.specs.Serving.{DrivesNothing, RunsInput, RunsReading, RunsSpelled, RunsSteps, ServesBroker, broker_words};
ghost use Rattle.txn_program_edges.specs.Reading.{source_of};
ghost use Rattle.txn_program_edges.specs.Unserved.{unserved_status, unserved_text};
ghost use Rattle.txn_program_edges.specs.Words.{AreSome, stream_of_ids};
ghost use Rattle.txn_program_edges.specs.Writing.{EndsWith, Wrote, sink_of};
ghost use Rattle.txn_program_lines.specs.Lines.{input_steps};
ghost use Rattle.txn_program_runs.specs.Running.{stop_status};

use crate::driving::{BrokerRun, drive_broker};
use crate::queue_report::broker_report;
use amqp_below_ids::{IdSource, ListIds};
use amqp_below_streams::{ByteSink, ByteSource};
use amqp_below_uuid_ids::seeded_ids;
use amqp_resource_record::{Driven, Steps};
use amqp_txn_types::{Binary, NoMemory, Text};
use std::alloc::Global;
use txn_broker_queues::Broker;
use txn_program_edges::{
    Ids, Reading, Unserved, end_unserved, id_words, read_up_to, status, write_and_end,
};
use txn_program_lines::{SpellError, is_text, spells};
use txn_program_runs::{INPUT_LIMIT, status_of_stop};

/// What a call of the program left.
#[derive(Drop)]
pub struct BrokerRan {
    /// The status that the program ends with.
    pub status: u8,
    /// What was driven; none where no step was.
    pub driven: Option<Driven>,
    /// The broker, with its queues.
    pub broker: Broker,
}

/// Does what the words ask for, `broker ID ..` or `broker --seed N`, over a new broker: drives the
/// steps of the input, writes the report with the queues, and answers with a status.
pub fn run_broker<I: ByteSource, O: ByteSink>(
    alloc: Global,
    words: &[Text],
    input: &mut I,
    output: &mut O,
) -> BrokerRan
    ensures { ServesBroker (broker_words words.now)
        (source_of I.rest I.faults input.old) (source_of I.rest I.faults input.new)
        (sink_of O.written O.faults O.spare output.old)
        (sink_of O.written O.faults O.spare output.new) result }
{
    match broker_words(alloc, words) {
        Ok(Some(ids)) => run_drawing(alloc, ids, input, output),
        Ok(None) => end_undriven(alloc, Unserved::Usage, output),
        Err(_) => end_without_memory(None, Broker::new(alloc)),
    }
}

/// The ids of the words, `None` where they are outside the table.
fn broker_words(alloc: Global, words: &[Text]) -> Result<Option<Ids>, NoMemory>
    ensures ids { IfOk result (λ ids. ids ≡ broker_words words.now) }
    ensures some { IfOk result (λ ids. IfSome ids AreSome) }
{
    match words {
        [word, others @ ..] if is_text(word.as_str().as_bytes(), "broker") => {
            id_words(alloc, others)
        }
        _ => Ok(None),
    }
}

/// Ends a call with that status.
pub(crate) fn end(status: u8, driven: Option<Driven>, broker: Broker) -> BrokerRan
    ensures { result ≡ record { status = status; driven = driven; broker = broker } }
{
    BrokerRan {
        status,
        driven,
        broker,
    }
}

/// Ends a call where memory runs out.
fn end_without_memory(driven: Option<Driven>, broker: Broker) -> BrokerRan
    ensures { result ≡ record { status = 6; driven = driven; broker = broker } }
{
    end(status::NO_MEMORY, driven, broker)
}

/// Ends a call that drives nothing: writes the text of why.
fn end_undriven<O: ByteSink>(alloc: Global, why: Unserved, output: &mut O) -> BrokerRan
    ensures { DrivesNothing (sink_of O.written O.faults O.spare output.old)
        (sink_of O.written O.faults O.spare output.new) (unserved_status why) (unserved_text why)
        result }
{
    let status = end_unserved(alloc, why, output);
    end(status, None, Broker::new(alloc))
}

/// A run of the input, with the ids that the words name.
fn run_drawing<I: ByteSource, O: ByteSink>(
    alloc: Global,
    ids: Ids,
    input: &mut I,
    output: &mut O,
) -> BrokerRan
    requires { AreSome ids }
    ensures { RunsInput (source_of I.rest I.faults input.old)
        (source_of I.rest I.faults input.new) (sink_of O.written O.faults O.spare output.old)
        (sink_of O.written O.faults O.spare output.new) (stream_of_ids ids) result }
{
    match ids {
        Ids::Listed(ids) => match ListIds::new(alloc, ids.as_slice()) {
            Ok(mut source) => run_input(alloc, &mut source, input, output),
            Err(_) => end_without_memory(None, Broker::new(alloc)),
        },
        Ids::Seeded(seed) => run_input(alloc, &mut seeded_ids(seed), input, output),
    }
}

/// A run of the steps of the input, of which declares draw these ids.
fn run_input<G: IdSource, I: ByteSource, O: ByteSink>(
    alloc: Global,
    ids: &mut G,
    input: &mut I,
    output: &mut O,
) -> BrokerRan
    ensures { RunsInput (source_of I.rest I.faults input.old)
        (source_of I.rest I.faults input.new) (sink_of O.written O.faults O.spare output.old)
        (sink_of O.written O.faults O.spare output.new) (G.next ids.old) result }
{
    match read_up_to(alloc, input, INPUT_LIMIT) {
        Ok(reading) => run_reading(alloc, ids, reading, output),
        Err(_) => end_without_memory(None, Broker::new(alloc)),
    }
}

/// A run of what was read of the input, of which declares draw these ids.
fn run_reading<G: IdSource, O: ByteSink>(
    alloc: Global,
    ids: &mut G,
    reading: Reading,
    output: &mut O,
) -> BrokerRan
    ensures { RunsReading (sink_of O.written O.faults O.spare output.old)
        (sink_of O.written O.faults O.spare output.new) (G.next ids.old) reading result }
{
    match reading {
        Reading::Fault => end_undriven(alloc, Unserved::ReadFault, output),
        Reading::TooLong => end_undriven(alloc, Unserved::TooLong, output),
        Reading::Whole(octets) => run_octets(alloc, ids, octets, output),
    }
}

/// A run of the steps that the octets spell, of which declares draw these ids.
fn run_octets<G: IdSource, O: ByteSink>(
    alloc: Global,
    ids: &mut G,
    octets: Binary,
    output: &mut O,
) -> BrokerRan
    ensures { RunsSpelled (sink_of O.written O.faults O.spare output.old)
        (sink_of O.written O.faults O.spare output.new) (G.next ids.old) (input_steps octets)
        result }
{
    match spells(alloc, octets.as_slice()) {
        Ok(steps) => {
            drop(octets);
            run_steps(alloc, steps, ids, output)
        }
        Err(SpellError::Line(number)) => end_undriven(alloc, Unserved::Line(number), output),
        Err(SpellError::NoMemory) => end_without_memory(None, Broker::new(alloc)),
    }
}

/// A run of these steps, of which declares draw these ids, and its report.
fn run_steps<G: IdSource, O: ByteSink>(
    alloc: Global,
    steps: Steps,
    ids: &mut G,
    output: &mut O,
) -> BrokerRan
    ensures { RunsSteps (sink_of O.written O.faults O.spare output.old)
        (sink_of O.written O.faults O.spare output.new) (G.next ids.old) steps result }
{
    let BrokerRun { driven, broker } = drive_broker(alloc, steps, ids);
    let text = broker_report(alloc, &driven, &broker);
    end_run(driven, text, broker, output)
}

/// Ends a run: writes its text, where there was memory for it, with the status of its stop.
fn end_run<O: ByteSink>(
    driven: Driven,
    text: Result<String, NoMemory>,
    broker: Broker,
    output: &mut O,
) -> BrokerRan
    ensures status { EndsWith (O.faults output.old) (O.faults output.new)
        (stop_status driven.stop) result.status }
    ensures driven { result.driven ≡ Some driven }
    ensures broker { result.broker ≡ broker }
    ensures written { (these : List ℕ) → IfOk text (λ text. string_bytes text ≡ these) →
        Wrote (O.written output.old) (O.written output.new) result.status these }
{
    let status = status_of_stop(&driven.stop);
    let Ok(text) = text else {
        return end_without_memory(Some(driven), broker);
    };
    let status = write_and_end(status, text.as_str().as_bytes(), output);
    end(status, Some(driven), broker)
}
