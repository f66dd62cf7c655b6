//! The run of a process.

ghost use Rattle.amqp_below_recorder.specs.Recording.{IsFresh, is_unused};
ghost use Rattle.txn_program_agree.specs.Ends.{EndsAgree};
ghost use Rattle.txn_program_edges.specs.Reading.{source_of};
ghost use Rattle.txn_program_edges.specs.Writing.{sink_of};

use crate::agree_words::agree_command_of;
use crate::serving::serve_agree;
use amqp_below_layer::{LayerBelow, Tells};
use amqp_below_recorder::Recorder;
use amqp_below_streams::{ByteSink, ByteSource};
use amqp_txn_types::{Items, Text};
use std::alloc::Global;
use txn_program_edges::{Fault, end_at_fault};
use txn_program_runs::{Ran, end_without_memory};

/// Does what the arguments of a process ask, and returns the run: the process ends with its status.
/// Where there are no arguments, the text of why is written.
///
/// # Requires
///
/// The recorder is fresh, as [`Recorder::is_fresh`] tests.
pub fn end_agree<S: LayerBelow + Send, I: ByteSource, O: ByteSink>(
    alloc: Global,
    arguments: Result<Items<Text>, Fault>,
    below: Recorder<S>,
    input: &mut I,
    output: &mut O,
) -> Ran<S>
    requires { IsFresh (is_unused below) (⟦<Recorder<S> as Tells>⟧.told below) }
    ensures { EndsAgree ⟦<Recorder<S> as Tells>⟧.told arguments
        below (source_of I.rest I.faults input.old) (source_of I.rest I.faults input.new)
        (sink_of O.written O.faults O.spare output.old)
        (sink_of O.written O.faults O.spare output.new) result }
{
    match arguments {
        Ok(arguments) => match agree_command_of(alloc, arguments.as_slice()) {
            Ok(command) => serve_agree(alloc, command, below, input, output),
            Err(_) => end_without_memory(None, below),
        },
        Err(fault) => Ran {
            status: end_at_fault(fault, output),
            driven: None,
            entries: None,
            below,
        },
    }
}
