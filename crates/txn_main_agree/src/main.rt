//! The program for `agree`: two parties over a layer that takes everything.
//!
//! It reads its arguments, lends standard input and standard output to the run of two parties that
//! they ask for, over a new recorder, and ends with the status of that run.
#![tactic(auto)]

ghost use Rattle.txn_program_agree.specs.Ends.{EndsAgreeNew};
ghost use Rattle.txn_program_edges.specs.Reading.{source_of};
ghost use Rattle.txn_program_edges.specs.Writing.{sink_of};

use amqp_below_layer::{OpenSession, Tells};
use amqp_below_recorder::Recorder;
use amqp_below_streams::{ByteSink, ByteSource};
use amqp_txn_types::{Items, Text};
use std::alloc::{Alloc, Global};
use std::io;
use std::mem::ManuallyDrop;
use std::process::ExitCode;
use txn_program_agree::end_agree;
use txn_program_edges::{Fault, StdSink, StdSource, arguments};
use txn_program_runs::Ran;

/// Serves the arguments over a layer that takes everything, and returns the run: the process ends
/// with its status.
fn end_of<I: ByteSource, O: ByteSink>(
    alloc: Global,
    arguments: Result<Items<Text>, Fault>,
    input: &mut I,
    output: &mut O,
) -> Ran<OpenSession>
    ensures { EndsAgreeNew ⟦<Recorder<OpenSession> as Tells>⟧.told arguments
        (source_of I.rest I.faults input.old) (source_of I.rest I.faults input.new)
        (sink_of O.written O.faults O.spare output.old)
        (sink_of O.written O.faults O.spare output.new) result }
{
    let below = Recorder::new(alloc, OpenSession::new(alloc));
    end_agree(alloc, arguments, below, input, output)
}

fn main(rt: HostRuntime) -> ExitCode {
    let mut input = StdSource::new(rt.reader());
    let mut output = StdSink::new(io::writer(&rt));
    let ran = end_of(rt.alloc(), arguments(&rt), &mut input, &mut output);
    // The run isn't taken apart: the process gives all its memory back at once.
    let ran = ManuallyDrop::new(ran);
    ExitCode::from(ran.status)
}
