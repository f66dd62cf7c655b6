//! The report of a run.

ghost use Rattle.std.specs.Prelude.{◌≡◌, ◌++◌, codes, decimal, string_bytes, IfOk, OnOk};
ghost use Rattle.std.specs.List.{flat_map};
ghost use Rattle.amqp_resource_record.specs.Stops.{code_of};
ghost use Rattle.txn_program_report.specs.Report.{answer_frames, entry_lines, frame_text, line, out_line, reply_frames, reply_text, stop_word, taken_line, report_text, window_frames};

use crate::frame_text::{put_flow, put_frame};
use crate::report_words::{error_word, put, put_number, put_txn_id, reject_words, stop_word};
use amqp_below_layer::{Answers, Exchanges};
use amqp_resource_record::{Driven, Entry, Reply, Stop, code_of_fault};
use amqp_txn_types::{Flow, Frame, Frames, NoMemory, Text};
use std::alloc::Global;

/// The text of a report: the lines of each entry, the stop, how many frames of the stopping step
/// were taken, and a line for each frame that was taken.
pub fn report(alloc: Global, driven: &Driven, taken: &Exchanges) -> Result<Text, NoMemory>
    ensures { IfOk result (λ text. text ≡ report_text driven.now taken.now) }
{
    let text = report_string(alloc, driven, taken)?;
    Text::from_str(alloc, text.as_str())
}

/// The text of a report, in the string that it was put into.
#[tactic(auto, unfolding(crate::specs::Report::report_text))]
pub fn report_string(alloc: Global, driven: &Driven, taken: &Exchanges) -> Result<String, NoMemory>
    ensures { IfOk result (λ text. string_bytes text ≡ report_text driven.now taken.now) }
{
    let mut out = String::new(alloc);
    put_entries(alloc, &mut out, driven.entries.as_slice())?;
    put_stop(&mut out, &driven.stop)?;
    put_handed(&mut out, driven.handed)?;
    put_taken(alloc, &mut out, taken.as_slice())?;
    Ok(out)
}

/// Puts the line of a stop at the end: `stop WORD`.
pub fn put_stop(out: &mut String, stop: &Stop) -> Result<(), NoMemory>
    ensures { OnOk result (string_bytes out.new
        ≡ string_bytes out.old ++ line (codes "stop " ++ stop_word (code_of stop.now))) }
{
    put(out, "stop ")?;
    put(out, stop_word(stop.code()))?;
    put(out, "\n")
}

/// Puts the line `handed N` at the end.
pub fn put_handed(out: &mut String, handed: usize) -> Result<(), NoMemory>
    ensures { OnOk result (string_bytes out.new
        ≡ string_bytes out.old ++ line (codes "handed " ++ decimal handed)) }
{
    put(out, "handed ")?;
    put_number(out, handed as u64)?;
    put(out, "\n")
}

/// Puts the lines of entries at the end, one entry after another.
pub fn put_entries(alloc: Global, out: &mut String, entries: &[Entry]) -> Result<(), NoMemory>
    ensures { OnOk result (string_bytes out.new
        ≡ string_bytes out.old ++ flat_map entry_lines entries.now) }
{
    for entry in entries {
        put_entry(alloc, out, entry)?;
    }
    Ok(())
}

/// Puts the lines of an entry at the end: its reply, then a line for each frame of it.
#[inline(always)]
pub fn put_entry(alloc: Global, out: &mut String, entry: &Entry) -> Result<(), NoMemory>
    ensures { OnOk result (string_bytes out.new ≡ string_bytes out.old ++ entry_lines entry.now) }
{
    put_reply(alloc, out, &entry.reply)?;
    put(out, "\n")?;
    put_reply_frames(alloc, out, &entry.reply)
}

/// Puts the text of a reply at the end, without its line feed.
#[tactic(auto, unfolding(crate::specs::Report::reply_text))]
#[inline(always)]
pub fn put_reply(alloc: Global, out: &mut String, reply: &Reply) -> Result<(), NoMemory>
    ensures { OnOk result (string_bytes out.new ≡ string_bytes out.old ++ reply_text reply.now) }
{
    match reply {
        Reply::Frames(_) => put(out, "ok"),
        Reply::Attached { link, frames: _ } => {
            put(out, "attached ")?;
            put_number(out, *link)
        }
        Reply::AttachRefused(error) => {
            put(out, "attach-refused ")?;
            put(out, stop_word(code_of_fault(error)))
        }
        Reply::LinkEnded => put(out, "link-ended"),
        Reply::NoLink => put(out, "no-link"),
        Reply::LinkClosed(_) => put(out, "link-closed not-allowed"),
        Reply::Declared(txn_id) => {
            put(out, "declared ")?;
            put_txn_id(alloc, out, *txn_id)
        }
        Reply::Accepted(_) => put(out, "accepted"),
        Reply::Rejected { error, text } => {
            put(out, "rejected ")?;
            put(out, error_word(*error))?;
            put(out, reject_words(*text))
        }
    }
}

/// Puts a line `out FRAME` for each frame of a reply at the end.
#[inline(always)]
pub fn put_reply_frames(alloc: Global, out: &mut String, reply: &Reply) -> Result<(), NoMemory>
    ensures { OnOk result (string_bytes out.new
        ≡ string_bytes out.old ++ flat_map out_line (reply_frames reply.now)) }
{
    match reply {
        Reply::Frames(answers) => put_answers(alloc, out, answers),
        Reply::Attached { link: _, frames } => put_frames(alloc, out, frames.as_slice()),
        Reply::Accepted(echoes) => put_echoes(alloc, out, echoes.as_slice()),
        _ => Ok(()),
    }
}

fn put_echoes(alloc: Global, out: &mut String, echoes: &[Answers]) -> Result<(), NoMemory>
    ensures { OnOk result (string_bytes out.new
        ≡ string_bytes out.old ++ flat_map out_line (flat_map answer_frames echoes.now)) }
{
    for answers in echoes {
        put_answers(alloc, out, answers)?;
    }
    Ok(())
}

#[inline(always)]
fn put_answers(alloc: Global, out: &mut String, answers: &Answers) -> Result<(), NoMemory>
    ensures { OnOk result (string_bytes out.new
        ≡ string_bytes out.old ++ flat_map out_line (answer_frames answers.now)) }
{
    put_frames(alloc, out, answers.given.as_slice())?;
    put_window(out, &answers.window)
}

#[inline(always)]
fn put_window(out: &mut String, window: &Option<Flow>) -> Result<(), NoMemory>
    ensures { OnOk result (string_bytes out.new
        ≡ string_bytes out.old ++ flat_map out_line (window_frames window.now)) }
{
    let Some(flow) = window else {
        return Ok(());
    };
    put(out, "out ")?;
    put_flow(out, flow)?;
    put(out, "\n")
}

#[inline(always)]
fn put_frames(alloc: Global, out: &mut String, frames: &[Frame]) -> Result<(), NoMemory>
    ensures { OnOk result (string_bytes out.new
        ≡ string_bytes out.old ++ flat_map out_line frames.now) }
{
    for frame in frames {
        put_out_line(alloc, out, frame)?;
    }
    Ok(())
}

#[inline(always)]
fn put_out_line(alloc: Global, out: &mut String, frame: &Frame) -> Result<(), NoMemory>
    ensures { OnOk result (string_bytes out.new ≡ string_bytes out.old ++ out_line frame.now) }
{
    put(out, "out ")?;
    put_frame(alloc, out, frame)?;
    put(out, "\n")
}

/// Puts a line `taken FRAME` for each frame that was taken at the end.
pub fn put_taken(alloc: Global, out: &mut String, taken: &[(Frame, Frames)]) -> Result<(), NoMemory>
    ensures { OnOk result (string_bytes out.new
        ≡ string_bytes out.old ++ flat_map taken_line taken.now) }
{
    for exchange in taken {
        put_taken_line(alloc, out, &exchange.0)?;
    }
    Ok(())
}

#[inline(always)]
fn put_taken_line(alloc: Global, out: &mut String, frame: &Frame) -> Result<(), NoMemory>
    ensures { OnOk result (string_bytes out.new
        ≡ string_bytes out.old ++ line (codes "taken " ++ frame_text frame.now)) }
{
    put(out, "taken ")?;
    put_frame(alloc, out, frame)?;
    put(out, "\n")
}
