//! The program for `relay`: messages moved from one queue to another, one transaction a message.
//!
//! It reads its arguments, lends standard input and standard output to the relay that they ask for,
//! over a new broker, and ends with the status of that run.
#![tactic(auto)]

use std::alloc::Alloc;
use std::io;
use std::mem::ManuallyDrop;
use std::process::ExitCode;
use txn_program_edges::{StdSink, StdSource, arguments};
use txn_relay::end_relay;

fn main(rt: HostRuntime) -> ExitCode {
    let mut input = StdSource::new(rt.reader());
    let mut output = StdSink::new(io::writer(&rt));
    let ran = end_relay(rt.alloc(), arguments(&rt), &mut input, &mut output);
    // The run isn't taken apart: the process gives all its memory back at once.
    let ran = ManuallyDrop::new(ran);
    ExitCode::from(ran.status)
}
