//! The commands of runs.

ghost use Rattle.std.specs.Prelude.{◌≡◌};
ghost use Rattle.amqp_below_recorder.specs.Recording.{IsFresh, is_unused};
ghost use Rattle.txn_program_edges.specs.Reading.{source_of};
ghost use Rattle.txn_program_edges.specs.Writing.{sink_of};
ghost use Rattle.txn_program_runs.specs.RunWords.{IsWithin, command_over, run_command_of};
ghost use Rattle.txn_program_runs.specs.Running.{told_under};
ghost use Rattle.txn_program_runs.specs.Serving.{ServesRun};

use crate::run_words::{Layer, Plans, RunCommand, command_over, run_command_of};
use crate::step_runs::{Ran, end_undriven, end_without_memory, run_drawing, run_made};
use amqp_below_layer::{LayerBelow, Tells};
use amqp_below_recorder::Recorder;
use amqp_below_streams::{ByteSink, ByteSource};
use amqp_txn_types::Text;
use std::alloc::Global;
use txn_program_edges::Unserved;

/// Does what arguments ask for of that layer, and answers with a status. What asks for another
/// layer is outside the table.
///
/// # Requires
///
/// The recorder is fresh, as [`Recorder::is_fresh`] tests.
pub fn serve_over<S: LayerBelow + Send, I: ByteSource, O: ByteSink>(
    alloc: Global,
    arguments: &[Text],
    layer: Layer,
    below: Recorder<S>,
    input: &mut I,
    output: &mut O,
) -> Ran<S>
    requires { IsFresh (is_unused below) (⟦<Recorder<S> as Tells>⟧.told below) }
    ensures { ServesRun ⟦<Recorder<S> as Tells>⟧.told
        (command_over layer (run_command_of arguments.now)) below
        (source_of I.rest I.faults input.old) (source_of I.rest I.faults input.new)
        (sink_of O.written O.faults O.spare output.old)
        (sink_of O.written O.faults O.spare output.new) result }
{
    match run_command_of(alloc, arguments) {
        Ok(command) => serve_run(alloc, command_over(layer, command), below, input, output),
        Err(_) => end_without_memory(None, below),
    }
}

/// Does what a command asks for, and answers with a status; none stands for arguments outside the
/// table.
///
/// # Requires
///
/// The recorder is fresh, as [`Recorder::is_fresh`] tests, and the command is within the limits of
/// the table, as each that [`run_command_of`] gives: a run has an id to draw, and 1 to 20,000
/// transactions are made.
pub fn serve_run<S: LayerBelow + Send, I: ByteSource, O: ByteSink>(
    alloc: Global,
    command: Option<RunCommand>,
    below: Recorder<S>,
    input: &mut I,
    output: &mut O,
) -> Ran<S>
    requires fresh { IsFresh (is_unused below) (⟦<Recorder<S> as Tells>⟧.told below) }
    requires within { IsWithin command }
    ensures { ServesRun ⟦<Recorder<S> as Tells>⟧.told command below
        (source_of I.rest I.faults input.old) (source_of I.rest I.faults input.new)
        (sink_of O.written O.faults O.spare output.old)
        (sink_of O.written O.faults O.spare output.new) result }
{
    match command {
        Some(RunCommand::Run { plans, ids, .. }) => {
            let below = under_plans(below, plans);
            run_drawing(alloc, ids, below, input, output)
        }
        Some(RunCommand::Make(count)) => run_made(alloc, count, below, output),
        None => end_undriven(alloc, Unserved::Usage, below, output),
    }
}

/// The recorder with the plans of the words, where they have one, in place of its own.
fn under_plans<S: LayerBelow>(below: Recorder<S>, plans: Plans) -> Recorder<S>
    requires { IsFresh (is_unused below) (⟦<Recorder<S> as Tells>⟧.told below) }
    ensures fresh { IsFresh (is_unused result) (⟦<Recorder<S> as Tells>⟧.told result) }
    ensures told { ⟦<Recorder<S> as Tells>⟧.told result
        ≡ told_under plans (⟦<Recorder<S> as Tells>⟧.told below) }
{
    let Plans { refused, starved } = plans;
    let mut below = below;
    if let Some(plan) = refused {
        below.set_plan(plan);
    }
    if let Some(plan) = starved {
        below.set_starved(plan);
    }
    below
}
