//! The run of a process.

ghost use Rattle.amqp_below_recorder.specs.Recording.{IsFresh, is_unused};
ghost use Rattle.txn_program_edges.specs.Reading.{source_of};
ghost use Rattle.txn_program_edges.specs.Writing.{sink_of};
ghost use Rattle.txn_program_runs.specs.Ends.{EndsOver};

use crate::run_command::serve_over;
use crate::run_words::Layer;
use crate::step_runs::{Ran, end};
use amqp_below_layer::{LayerBelow, Tells};
use amqp_below_recorder::Recorder;
use amqp_below_streams::{ByteSink, ByteSource};
use amqp_txn_types::{Items, Text};
use std::alloc::Global;
use txn_program_edges::{Fault, end_at_fault};

/// Does what the arguments of a process ask of that layer, and returns the run: the process ends
/// with its status. Where there are no arguments, the text of why is written.
///
/// # Requires
///
/// The recorder is fresh, as [`Recorder::is_fresh`] tests.
pub fn end_over<S: LayerBelow + Send, I: ByteSource, O: ByteSink>(
    alloc: Global,
    arguments: Result<Items<Text>, Fault>,
    layer: Layer,
    below: Recorder<S>,
    input: &mut I,
    output: &mut O,
) -> Ran<S>
    requires { IsFresh (is_unused below) (⟦<Recorder<S> as Tells>⟧.told below) }
    ensures { EndsOver ⟦<Recorder<S> as Tells>⟧.told layer arguments below
        (source_of I.rest I.faults input.old) (source_of I.rest I.faults input.new)
        (sink_of O.written O.faults O.spare output.old)
        (sink_of O.written O.faults O.spare output.new) result }
{
    match arguments {
        Ok(arguments) => {
            let ran = serve_over(alloc, arguments.as_slice(), layer, below, input, output);
            drop(arguments);
            ran
        }
        Err(fault) => end(end_at_fault(fault, output), None, below),
    }
}
