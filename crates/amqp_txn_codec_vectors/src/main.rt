//! Reads control payloads that real AMQP clients make, each with the answer that it must get, and
//! prints whether `decode` of `amqp_txn_codec` gives that answer.
//!
//! The stored standard input has a line for each payload: its octets in hexadecimal digits, the
//! answer, the client that made it, and where it leaves the grammar, with a tab between them. The
//! octets were recorded from qpid-proton 0.37.0, uamqp 1.5.3, the AMQP part of the Azure SDK for
//! Python (`_pyamqp`, 20230112) and RabbitMQ 3.10.8, some on the wire and some from the client's
//! own encoder; the answers were read off part 4 of the standard, by hand. A line that begins with
//! `#` is a comment.
#![tactic(auto)]

mod answer;
mod row;
#[cfg(test)]
mod tests;

use crate::row::{RowError, is_line_right};
use std::alloc::{Alloc, Global};
use std::io::{self, Input, Print};
use std::process::ExitCode;

/// Prints how this row fares, and gives whether it is right.
fn print_row(rt: &(impl Print + Alloc<A = Global>), number: u32, line: &str) -> io::Result<bool> {
    let right = is_line_right(rt.alloc(), line);
    match right {
        Ok(true) => println!(rt; "{number} right")?,
        Ok(false) => println!(rt; "{number} wrong")?,
        Err(RowError::NoMemory) => return Err(io::Error::from(io::ErrorKind::OutOfMemory)),
        Err(error) => println!(rt; "{number} unread: {error}")?,
    }
    Ok(matches!(right, Ok(true)))
}

/// Prints how each row fares and how many are wrong, and gives whether none is.
fn print_rows(rt: &(impl Input + Print + Alloc<A = Global>)) -> io::Result<bool> {
    let mut number = 0u32;
    let mut wrong = 0u32;
    for line in rt.lines(rt.alloc()) {
        let line = line?;
        if line.as_str().starts_with("#") {
            continue;
        }
        number = number.saturating_add(1);
        if !print_row(rt, number, line.as_str())? {
            wrong = wrong.saturating_add(1);
        }
    }
    println!(rt; "{number} rows, {wrong} of them wrong")?;
    Ok(wrong == 0)
}

fn main(rt: HostRuntime) -> io::Result<ExitCode> {
    if print_rows(&rt)? {
        Ok(ExitCode::SUCCESS)
    } else {
        Ok(ExitCode::FAILURE)
    }
}
