//! The commands of the program, each of a crate of its own.

ghost use Rattle.std.specs.Prelude.{◌≡◌, true, IfOk};
ghost use Rattle.amqp_below_recorder.specs.Recording.{IsFresh, is_unused};
ghost use Rattle.txn_program_edges.specs.Reading.{source_of};
ghost use Rattle.txn_program_edges.specs.Writing.{sink_of};
ghost use Rattle.txn_program.specs.Commands.{IsWithin, Serves, command_of, is_threads, of_agree, of_run, or_else, without_threads};
ghost use Rattle.txn_program_agree.specs.AgreeWords.{agree_command_of};
ghost use Rattle.txn_program_runs.specs.RunWords.{run_command_of};

use amqp_below_layer::{LayerBelow, Tells};
use amqp_below_recorder::Recorder;
use amqp_below_streams::{ByteSink, ByteSource};
use amqp_txn_types::{NoMemory, Text};
use std::alloc::Global;
use std::sync::Wait;
use std::thread::Threads;
use txn_program_agree::{AgreeCommand, agree_command_of, serve_agree};
use txn_program_runs::{Ran, RunCommand, end_without_memory, run_command_of, serve_run};
use txn_program_threads::{ThreadsCommand, serve_threads_command, threads_command_of};

/// What the arguments ask for.
#[derive(Debug, Drop, PartialEq)]
pub enum Command {
    /// `run`, `listen` or `make`: a run of steps.
    Run(RunCommand),
    /// `agree`: a run of two parties.
    Agree(AgreeCommand),
    /// `threads`: a run of workers in threads.
    Threads(ThreadsCommand),
}

/// The command that the arguments give, `None` where they are outside the table of words. The only
/// error is out of memory.
pub fn command_of(alloc: Global, arguments: &[Text]) -> Result<Option<Command>, NoMemory>
    ensures command { IfOk result (λ command. command ≡ command_of arguments.now) }
    ensures within { IfOk result IsWithin }
{
    match threads_command_of(arguments) {
        Some(command) => Ok(Some(Command::Threads(command))),
        None => run_or_agree(alloc, arguments),
    }
}

/// The command of a run of steps or of two parties.
fn run_or_agree(alloc: Global, arguments: &[Text]) -> Result<Option<Command>, NoMemory>
    ensures command { IfOk result (λ command. command
        ≡ or_else (of_run (run_command_of arguments.now))
        (of_agree (agree_command_of arguments.now))) }
    ensures within { IfOk result IsWithin }
{
    match run_command_of(alloc, arguments)? {
        Some(command) => Ok(Some(Command::Run(command))),
        None => agree_or_none(alloc, arguments),
    }
}

/// The command of a run of two parties.
fn agree_or_none(alloc: Global, arguments: &[Text]) -> Result<Option<Command>, NoMemory>
    ensures command { IfOk result (λ command. command ≡ of_agree (agree_command_of arguments.now)) }
    ensures within { IfOk result IsWithin }
{
    match agree_command_of(alloc, arguments)? {
        Some(command) => Ok(Some(Command::Agree(command))),
        None => Ok(None),
    }
}

/// The top call: does what the arguments ask for, and answers with a status.
///
/// `arguments` are the words after the program's name. The runtime is for `threads`, whose workers
/// it starts. What the layer below took is told by the recorder that is handed back.
///
/// # Requires
///
/// The recorder is fresh, as [`Recorder::is_fresh`] tests, and for `threads` it has counted no
/// refusal.
pub fn run<R: Threads + Wait + Sync, S: LayerBelow + Send, I: ByteSource, O: ByteSink>(
    rt: &R,
    alloc: Global,
    arguments: &[Text],
    below: Recorder<S>,
    input: &mut I,
    output: &mut O,
) -> Ran<S>
    requires fresh { IsFresh (is_unused below) (⟦<Recorder<S> as Tells>⟧.told below) }
    requires refusals { is_threads (command_of arguments.now) ≡ true
        → (⟦<Recorder<S> as Tells>⟧.told below).refusals ≡ 0 }
    ensures { Serves ⟦<Recorder<S> as Tells>⟧.told (command_of arguments.now) below
        (source_of I.rest I.faults input.old) (source_of I.rest I.faults input.new)
        (sink_of O.written O.faults O.spare output.old)
        (sink_of O.written O.faults O.spare output.new) result }
{
    match threads_command_of(arguments) {
        Some(command) => serve_threads_command(rt, alloc, command, below, output),
        None => run_commands(alloc, arguments, below, input, output),
    }
}

/// As [`run`], for all commands that start no thread. `threads` is outside its table.
///
/// # Requires
///
/// The recorder is fresh, as [`Recorder::is_fresh`] tests.
pub fn run_commands<S: LayerBelow + Send, I: ByteSource, O: ByteSink>(
    alloc: Global,
    arguments: &[Text],
    below: Recorder<S>,
    input: &mut I,
    output: &mut O,
) -> Ran<S>
    requires { IsFresh (is_unused below) (⟦<Recorder<S> as Tells>⟧.told below) }
    ensures { Serves ⟦<Recorder<S> as Tells>⟧.told (without_threads (command_of arguments.now)) below
        (source_of I.rest I.faults input.old) (source_of I.rest I.faults input.new)
        (sink_of O.written O.faults O.spare output.old)
        (sink_of O.written O.faults O.spare output.new) result }
{
    match command_of(alloc, arguments) {
        Ok(command) => run_command(alloc, command, below, input, output),
        Err(_) => end_without_memory(None, below),
    }
}

/// As [`run_commands`], once the arguments are read: the command that they give, none where they
/// are outside the table. `threads` is outside it.
///
/// # Requires
///
/// The recorder is fresh, as [`Recorder::is_fresh`] tests, and the command is within the limits of
/// the table, as each that [`command_of`] gives.
pub fn run_command<S: LayerBelow + Send, I: ByteSource, O: ByteSink>(
    alloc: Global,
    command: Option<Command>,
    below: Recorder<S>,
    input: &mut I,
    output: &mut O,
) -> Ran<S>
    requires fresh { IsFresh (is_unused below) (⟦<Recorder<S> as Tells>⟧.told below) }
    requires within { IsWithin command }
    ensures { Serves ⟦<Recorder<S> as Tells>⟧.told (without_threads command) below
        (source_of I.rest I.faults input.old) (source_of I.rest I.faults input.new)
        (sink_of O.written O.faults O.spare output.old)
        (sink_of O.written O.faults O.spare output.new) result }
{
    match command {
        Some(Command::Run(command)) => serve_run(alloc, Some(command), below, input, output),
        Some(Command::Agree(command)) => serve_agree(alloc, Some(command), below, input, output),
        Some(Command::Threads(_)) | None => serve_run(alloc, None, below, input, output),
    }
}
