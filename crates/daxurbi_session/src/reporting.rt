//! The text of what a step made, and of frames.

ghost use Rattle.std.specs.Prelude.{◌≡◌, ◌++◌, IfOk, OnOk, string_bytes};
ghost use Rattle.daxurbi_session.specs.Reporting.{ending_text, frame_line, frames_text, report_of};

use crate::last_step::{Ending, LastStep};
use amqp_txn_types::{Frame, NoMemory};
use std::alloc::Global;
use txn_program_report::{put, put_entry, put_frame, put_handed, put_stop, put_taken};

/// Puts the lines of how a step ended at the end.
fn put_ending(alloc: Global, out: &mut String, ending: &Ending) -> Result<(), NoMemory>
    ensures { OnOk result (string_bytes out.new ≡ string_bytes out.old ++ ending_text ending.now) }
{
    match ending {
        Ending::Answered(entry) => put_entry(alloc, out, entry),
        Ending::Stopped { stop, handed } => {
            put_stop(out, stop)?;
            put_handed(out, *handed)
        }
    }
}

/// The lines of what the last step made; none before the first.
pub fn report_text(alloc: Global, last: &Option<LastStep>) -> Result<String, NoMemory>
    ensures { IfOk result (λ text. string_bytes text ≡ report_of last.now) }
{
    let mut out = String::new(alloc);
    let Some(last) = last else {
        return Ok(out);
    };
    put_ending(alloc, &mut out, &last.ending)?;
    put_taken(alloc, &mut out, last.taken.as_slice())?;
    Ok(out)
}

/// Puts the line of a frame at the end.
fn put_frame_line(alloc: Global, out: &mut String, frame: &Frame) -> Result<(), NoMemory>
    ensures { OnOk result (string_bytes out.new ≡ string_bytes out.old ++ frame_line frame.now) }
{
    put_frame(alloc, out, frame)?;
    put(out, "\n")
}

/// Puts the lines of frames at the end.
fn put_frames(alloc: Global, out: &mut String, frames: &[Frame]) -> Result<(), NoMemory>
    ensures { OnOk result (string_bytes out.new ≡ string_bytes out.old ++ frames_text frames.now) }
{
    for frame in frames {
        put_frame_line(alloc, out, frame)?;
    }
    Ok(())
}

/// The lines of frames.
pub fn text_of_frames(alloc: Global, frames: &[Frame]) -> Result<String, NoMemory>
    ensures { IfOk result (λ text. string_bytes text ≡ frames_text frames.now) }
{
    let mut out = String::new(alloc);
    put_frames(alloc, &mut out, frames)?;
    Ok(out)
}
