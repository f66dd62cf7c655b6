//! The program for `threads`: workers on one session over a layer that takes everything.
//!
//! It reads its arguments, lends standard output to the run that they ask for, over a new recorder,
//! and ends with the status of that run. It reads no input.
#![tactic(auto)]

ghost use Rattle.txn_program_edges.specs.Writing.{sink_of};
ghost use Rattle.txn_program_threads.specs.Ends.{EndsProcessNew};

use amqp_below_layer::{OpenSession, Tells};
use amqp_below_recorder::Recorder;
use amqp_below_streams::ByteSink;
use amqp_txn_types::{Items, Text};
use std::alloc::{Alloc, Global};
use std::io;
use std::mem::ManuallyDrop;
use std::process::ExitCode;
use std::sync::Wait;
use std::thread::Threads;
use txn_program_edges::{Fault, StdSink, arguments};
use txn_program_runs::Ran;
use txn_program_threads::end_threads_over;

/// Serves the arguments over a layer that takes everything, and returns the run: the process ends
/// with its status.
fn end_of<R: Threads + Wait + Sync, O: ByteSink>(
    rt: &R,
    alloc: Global,
    arguments: Result<Items<Text>, Fault>,
    output: &mut O,
) -> Ran<OpenSession>
    ensures { EndsProcessNew ⟦<Recorder<OpenSession> as Tells>⟧.told (λ _. Unit {0}) arguments
        (sink_of O.written O.faults O.spare output.old)
        (sink_of O.written O.faults O.spare output.new) result }
{
    let below = Recorder::new(alloc, OpenSession::new(alloc));
    end_threads_over(rt, alloc, arguments, below, output)
}

fn main(rt: HostRuntime) -> ExitCode {
    let mut output = StdSink::new(io::writer(&rt));
    let ran = end_of(&rt, rt.alloc(), arguments(&rt), &mut output);
    // The run isn't taken apart: the process gives all its memory back at once.
    let ran = ManuallyDrop::new(ran);
    ExitCode::from(ran.status)
}
