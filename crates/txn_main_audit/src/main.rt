//! The program for `audit`: whether a report is that of a legal run.
//!
//! It reads its arguments, lends standard input and standard output to the audit, and ends with its
//! status. Where the answer is `no`, it tells on standard error which line isn't explained.
#![tactic(auto)]

use std::alloc::Alloc;
use std::io::{self, Eprint};
use std::process::ExitCode;
use txn_audit::{AuditRan, end_audit};
use txn_program_edges::{StdSink, StdSource, arguments};

fn main(rt: HostRuntime) -> ExitCode {
    let mut input = StdSource::new(rt.reader());
    let mut output = StdSink::new(io::writer(&rt));
    let AuditRan { status, why } = end_audit(rt.alloc(), arguments(&rt), &mut input, &mut output);
    tell(&rt, why);
    ExitCode::from(status)
}

/// Writes the line to standard error. The status tells the answer also where that is closed.
fn tell(rt: &impl Eprint, why: Option<String>) {
    match why {
        Some(line) => {
            let _ = rt.eprintln(line);
        }
        None => {}
    }
}
