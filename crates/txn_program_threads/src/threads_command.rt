//! The command `threads`.

ghost use Rattle.std.specs.Prelude.{◌≡◌};
ghost use Rattle.amqp_below_recorder.specs.Recording.{IsFresh, is_unused};
ghost use Rattle.txn_program_edges.specs.Writing.{sink_of};
ghost use Rattle.txn_program_threads.specs.Ends.{EndsThreads, EndsUnserved, ServesThreads, ServesWords};
ghost use Rattle.txn_program_threads.specs.ThreadsWords.{IsWithin, threads_command_of};
ghost use Rattle.txn_program_edges.specs.Unserved.{unserved_status, unserved_text};

use crate::serving::serve_threads;
use crate::threads_ran::ThreadsRan;
use crate::threads_text::threads_string;
use crate::threads_words::{ThreadsCommand, threads_command_of};
use amqp_below_layer::{LayerBelow, Tells};
use amqp_below_recorder::Recorder;
use amqp_below_streams::ByteSink;
use amqp_txn_types::Text;
use std::alloc::Global;
use std::sync::Wait;
use std::thread::Threads;
use txn_gate::OpenGate;
use txn_program_edges::{Unserved, end_unserved, status, write_and_end};
use txn_program_runs::Ran;

/// Ends a run of workers: writes its numbers with its status.
fn end_threads<S: LayerBelow, O: ByteSink>(
    alloc: Global,
    workers: u32,
    threads: ThreadsRan<S>,
    output: &mut O,
) -> Ran<S>
    ensures { EndsThreads workers threads (sink_of O.written O.faults O.spare output.old)
        (sink_of O.written O.faults O.spare output.new) result }
{
    let status = match threads_string(alloc, workers, &threads) {
        Ok(text) => write_and_end(threads.status, text.as_str().as_bytes(), output),
        Err(_) => status::NO_MEMORY,
    };
    let ThreadsRan {
        status: _,
        history,
        stopped,
        entries: _,
        commits: _,
        rollbacks: _,
        taken: _,
        stop: _,
        why,
        refused: _,
        below,
    } = threads;
    drop(stopped);
    drop(why);
    Ran {
        status,
        driven: None,
        entries: Some(history),
        below,
    }
}

/// Ends a call that runs nothing: writes the text of why.
pub(crate) fn end_unserved_over<S: LayerBelow, O: ByteSink>(
    alloc: Global,
    why: Unserved,
    below: Recorder<S>,
    output: &mut O,
) -> Ran<S>
    ensures { EndsUnserved (unserved_status why) (unserved_text why) below
        (sink_of O.written O.faults O.spare output.old)
        (sink_of O.written O.faults O.spare output.new) result }
{
    let status = end_unserved(alloc, why, output);
    Ran {
        status,
        driven: None,
        entries: None,
        below,
    }
}

/// Runs the workers of the command beside each other, writes their numbers and answers with a
/// status.
///
/// # Requires
///
/// The recorder is fresh, as [`Recorder::is_fresh`] tests, and has counted no refusal. The command
/// is within the limits of the table, as each that [`threads_command_of`] gives.
pub fn serve_threads_command<R: Threads + Wait + Sync, S: LayerBelow + Send, O: ByteSink>(
    rt: &R,
    alloc: Global,
    command: ThreadsCommand,
    below: Recorder<S>,
    output: &mut O,
) -> Ran<S>
    requires fresh { IsFresh (is_unused below) (⟦<Recorder<S> as Tells>⟧.told below) }
    requires refusals { (⟦<Recorder<S> as Tells>⟧.told below).refusals ≡ 0 }
    requires within { IsWithin command }
    ensures { ServesThreads ⟦<Recorder<S> as Tells>⟧.told command
        (sink_of O.written O.faults O.spare output.old)
        (sink_of O.written O.faults O.spare output.new) result }
{
    let ThreadsCommand { workers, rounds } = command;
    let threads = serve_threads(rt, alloc, below, workers, rounds, &OpenGate);
    end_threads(alloc, workers, threads, output)
}

/// Does what the words ask for, and answers with a status. Words other than `threads W R` are
/// outside the table.
///
/// # Requires
///
/// The recorder is fresh, as [`Recorder::is_fresh`] tests, and has counted no refusal.
pub fn serve_threads_words<R: Threads + Wait + Sync, S: LayerBelow + Send, O: ByteSink>(
    rt: &R,
    alloc: Global,
    words: &[Text],
    below: Recorder<S>,
    output: &mut O,
) -> Ran<S>
    requires fresh { IsFresh (is_unused below) (⟦<Recorder<S> as Tells>⟧.told below) }
    requires refusals { (⟦<Recorder<S> as Tells>⟧.told below).refusals ≡ 0 }
    ensures { ServesWords ⟦<Recorder<S> as Tells>⟧.told (threads_command_of words.now) below
        (sink_of O.written O.faults O.spare output.old)
        (sink_of O.written O.faults O.spare output.new) result }
{
    match threads_command_of(words) {
        Some(command) => serve_threads_command(rt, alloc, command, below, output),
        None => end_unserved_over(alloc, Unserved::Usage, below, output),
    }
}
