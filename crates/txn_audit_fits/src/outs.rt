//! The lines that may stand after that of a reply.

ghost use Rattle.std.specs.Prelude.{IfOk};
ghost use Rattle.txn_program_lines.specs.Cutting.{lines_of};
ghost use Rattle.txn_audit_fits.specs.declared.outs.Outs.TheVariants as outs;
ghost use Rattle.txn_audit_fits.specs.Passing.{Passes};

use crate::difference::Wanted;
use crate::judged_lines::Judged;
use crate::texts::lines_after_frame;
use amqp_txn_types::{Frame, NoMemory};
use std::alloc::Global;
use txn_audit_report::is_out_line;
use txn_program_lines::first_line;

/// The lines that may stand after that of a reply.
#[derive(Drop)]
pub enum Outs {
    /// Any that show a frame.
    Any,
    /// None.
    Nothing,
    /// The line of this frame.
    One(Frame),
}

/// Judges the lines that may stand after a reply. The only error is out of memory.
pub fn lines_after<'a>(
    alloc: Global,
    outs: &Outs,
    lines: &'a [u8],
    told: &mut Wanted,
) -> Result<Judged<'a>, NoMemory>
    ensures { IfOk result (Passes outs.now (lines_of lines.now)) }
{
    match outs {
        Outs::Any => lines_after_any(lines),
        Outs::Nothing => Ok(Judged::Explained(lines)),
        Outs::One(frame) => lines_after_one(alloc, frame, lines, told),
    }
}

/// The lines after those that show a frame.
fn lines_after_any(lines: &[u8]) -> Result<Judged<'_>, NoMemory>
    ensures { IfOk result (Passes outs.Any (lines_of lines.now)) }
{
    let mut rest = lines;
    while !rest.is_empty() {
        let (line, after) = first_line(rest);
        if !is_out_line(line)? {
            return Ok(Judged::Explained(rest));
        }
        rest = after;
    }
    Ok(Judged::Explained(rest))
}

/// The lines after that of this frame.
fn lines_after_one<'a>(
    alloc: Global,
    frame: &Frame,
    lines: &'a [u8],
    told: &mut Wanted,
) -> Result<Judged<'a>, NoMemory>
    ensures { IfOk result (Passes (outs.One frame.now) (lines_of lines.now)) }
{
    match lines_after_frame(alloc, "out ", frame, lines, told)? {
        Some(after) => Ok(Judged::Explained(after)),
        None => Ok(Judged::Departs(lines)),
    }
}
