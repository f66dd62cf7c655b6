//! Ends of a program that does nothing: its arguments or its input are outside their tables.

ghost use Rattle.std.specs.Prelude.{◌≡◌, IfOk, string_bytes};
ghost use Rattle.txn_program_edges.specs.Unserved.{line_text, unserved_status, unserved_text};
ghost use Rattle.txn_program_edges.specs.Writing.{EndsWith, Wrote};

use crate::output::write_and_end;
use crate::status;
use amqp_below_streams::ByteSink;
use amqp_txn_types::NoMemory;
use std::alloc::Global;

/// Why a program does nothing.
#[derive(Clone, Copy, Debug, PartialEq, Eq)]
pub enum Unserved {
    /// The arguments are outside the table of words.
    Usage,
    /// The line of that number, counted from 1, is the first outside the line table.
    Line(usize),
    /// The input failed.
    ReadFault,
    /// The input has more octets than the limit.
    TooLong,
}

/// Ends such a program: writes the text of its status, and returns the status, or the one that
/// [`write_and_end`] gives in its place.
pub fn end_unserved<O: ByteSink>(alloc: Global, why: Unserved, output: &mut O) -> u8
    ensures status { EndsWith (O.faults output.old) (O.faults output.new) (unserved_status why)
        result }
    ensures written { Wrote (O.written output.old) (O.written output.new) result
        (unserved_text why) }
{
    match why {
        Unserved::Usage => write_and_end(status::USAGE, b"usage\n", output),
        Unserved::Line(number) => end_at_line(alloc, number, output),
        Unserved::ReadFault => write_and_end(status::READ_FAULT, b"read fault\n", output),
        Unserved::TooLong => write_and_end(status::TOO_LONG, b"input too long\n", output),
    }
}

/// Ends a program of whose input that line is the first outside the table.
fn end_at_line<O: ByteSink>(alloc: Global, number: usize, output: &mut O) -> u8
    ensures status { EndsWith (O.faults output.old) (O.faults output.new) 3 result }
    ensures written { Wrote (O.written output.old) (O.written output.new) result
        (line_text number) }
{
    match line_text(alloc, number) {
        Ok(text) => write_and_end(status::NOT_A_STEP, text.as_str().as_bytes(), output),
        Err(_) => status::NO_MEMORY,
    }
}

/// The line of the input that isn't a step, as a text.
fn line_text(alloc: Global, number: usize) -> Result<String, NoMemory>
    ensures { IfOk result (λ text. string_bytes text ≡ line_text number) }
{
    Ok(format!(in alloc; "not a step: line {number}\n")?)
}
