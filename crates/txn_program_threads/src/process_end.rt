//! The run of a process.

ghost use Rattle.std.specs.Prelude.{◌≡◌};
ghost use Rattle.amqp_below_recorder.specs.Recording.{IsFresh, is_unused};
ghost use Rattle.txn_program_edges.specs.Writing.{sink_of};
ghost use Rattle.txn_program_threads.specs.Ends.{EndsProcess};

use crate::threads_command::serve_threads_words;
use amqp_below_layer::{LayerBelow, Tells};
use amqp_below_recorder::Recorder;
use amqp_below_streams::ByteSink;
use amqp_txn_types::{Items, Text};
use std::alloc::Global;
use std::sync::Wait;
use std::thread::Threads;
use txn_program_edges::{Fault, end_at_fault};
use txn_program_runs::Ran;

/// Does what the arguments of a process ask for, and returns the run: the process ends with its
/// status. Where there are no arguments, the text of why is written.
///
/// # Requires
///
/// The recorder is fresh, as [`Recorder::is_fresh`] tests, and has counted no refusal.
pub fn end_threads_over<R: Threads + Wait + Sync, S: LayerBelow + Send, O: ByteSink>(
    rt: &R,
    alloc: Global,
    arguments: Result<Items<Text>, Fault>,
    below: Recorder<S>,
    output: &mut O,
) -> Ran<S>
    requires fresh { IsFresh (is_unused below) (⟦<Recorder<S> as Tells>⟧.told below) }
    requires refusals { (⟦<Recorder<S> as Tells>⟧.told below).refusals ≡ 0 }
    ensures { EndsProcess ⟦<Recorder<S> as Tells>⟧.told arguments below
        (sink_of O.written O.faults O.spare output.old)
        (sink_of O.written O.faults O.spare output.new) result }
{
    match arguments {
        Ok(arguments) => {
            let ran = serve_threads_words(rt, alloc, arguments.as_slice(), below, output);
            drop(arguments);
            ran
        }
        Err(fault) => {
            let status = end_at_fault(fault, output);
            Ran {
                status,
                driven: None,
                entries: None,
                below,
            }
        }
    }
}
