//! The program for `listen`: a run over a session that is listened on.
//!
//! It reads its arguments, lends standard input and standard output to the run that they ask for,
//! over a new recorder of a new listener, and ends with the status of that run.
#![tactic(auto)]

ghost use Rattle.txn_main_listen.specs.Listeners.{IsNewListener};
ghost use Rattle.txn_program_edges.specs.Reading.{source_of};
ghost use Rattle.txn_program_edges.specs.Writing.{sink_of};
ghost use Rattle.txn_program_runs.specs.Ends.{EndsOverNew};
ghost use Rattle.txn_program_runs.specs.declared.run_words.Layer.TheVariants as layers;

mod listener;

use crate::listener::listener;
use amqp_accept_at_once::AcceptingListener;
use amqp_below_layer::Tells;
use amqp_below_recorder::Recorder;
use amqp_below_sessions::PlainSession;
use amqp_below_streams::{ByteSink, ByteSource};
use amqp_txn_types::{Items, Text};
use std::alloc::{Alloc, Global};
use std::io;
use std::mem::ManuallyDrop;
use std::process::ExitCode;
use txn_program_edges::{Fault, StdSink, StdSource, arguments};
use txn_program_runs::{Layer, Ran, end_over};

/// Serves the arguments over a new listener, and returns the run: the process ends with its status.
fn end_of<I: ByteSource, O: ByteSink>(
    alloc: Global,
    arguments: Result<Items<Text>, Fault>,
    input: &mut I,
    output: &mut O,
) -> Ran<AcceptingListener<PlainSession>>
    ensures { EndsOverNew ⟦<Recorder<AcceptingListener<PlainSession>> as Tells>⟧.told IsNewListener
        layers.Listener arguments
        (source_of I.rest I.faults input.old) (source_of I.rest I.faults input.new)
        (sink_of O.written O.faults O.spare output.old)
        (sink_of O.written O.faults O.spare output.new) result }
{
    let below = Recorder::new(alloc, listener(alloc));
    end_over(alloc, arguments, Layer::Listener, below, input, output)
}

fn main(rt: HostRuntime) -> ExitCode {
    let mut input = StdSource::new(rt.reader());
    let mut output = StdSink::new(io::writer(&rt));
    let ran = end_of(rt.alloc(), arguments(&rt), &mut input, &mut output);
    // The run isn't taken apart: the process gives all its memory back at once.
    let ran = ManuallyDrop::new(ran);
    ExitCode::from(ran.status)
}
