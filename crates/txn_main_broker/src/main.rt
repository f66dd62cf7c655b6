//! The program for `broker`: a run over queues.
//!
//! It reads its arguments, lends standard input and standard output to the run that they ask for,
//! over a new broker, and ends with the status of that run.
#![tactic(auto)]

use std::alloc::Alloc;
use std::io;
use std::mem::ManuallyDrop;
use std::process::ExitCode;
use txn_broker_run::end_broker;
use txn_program_edges::{StdSink, StdSource, arguments};

fn main(rt: HostRuntime) -> ExitCode {
    let mut input = StdSource::new(rt.reader());
    let mut output = StdSink::new(io::writer(&rt));
    let ran = end_broker(rt.alloc(), arguments(&rt), &mut input, &mut output);
    // The run isn't taken apart: the process gives all its memory back at once.
    let ran = ManuallyDrop::new(ran);
    ExitCode::from(ran.status)
}
