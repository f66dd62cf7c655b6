//! Frames as a report shows them.

ghost use Rattle.std.specs.Prelude.{◌≡◌, ◌++◌, string_bytes, OnOk};
ghost use Rattle.amqp_txn_types.specs.declared.performatives.Frame.TheVariants as frames;
ghost use Rattle.txn_program_report.specs.Report.{disposition_words, frame_text};

use crate::report_words::{
    bool_word, put, put_number_word, put_optional_handle, put_optional_number, put_optional_state,
    put_payload, put_word, role_word, settled_word,
};
use amqp_txn_types::{Attach, Detach, Disposition, Flow, Frame, NoMemory, Payload, Transfer};
use std::alloc::Global;

/// Puts the text of a frame at the end: its name, and a word for each field that is shown.
#[inline(always)]
pub fn put_frame(alloc: Global, out: &mut String, frame: &Frame) -> Result<(), NoMemory>
    ensures { OnOk result (string_bytes out.new ≡ string_bytes out.old ++ frame_text frame.now) }
{
    match frame {
        Frame::Attach(attach) => put_attach(out, attach),
        Frame::Flow(flow) => put_flow(out, flow),
        Frame::Transfer { transfer, payload } => put_transfer(alloc, out, transfer, payload),
        Frame::Disposition(disposition) => put_disposition(alloc, out, disposition),
        Frame::Detach(detach) => put_detach(out, detach),
    }
}

/// `attach NAME H ROLE`
#[tactic(auto, unfolding(crate::specs::Report::frame_text))]
fn put_attach(out: &mut String, attach: &Attach) -> Result<(), NoMemory>
    ensures { OnOk result (string_bytes out.new
        ≡ string_bytes out.old ++ frame_text (frames.Attach attach.now)) }
{
    put(out, "attach")?;
    put_word(out, attach.name.as_str())?;
    put_number_word(out, attach.handle.0)?;
    put_word(out, role_word(attach.role))
}

/// `flow H N`
#[tactic(auto, unfolding(crate::specs::Report::frame_text))]
#[inline(always)]
pub fn put_flow(out: &mut String, flow: &Flow) -> Result<(), NoMemory>
    ensures { OnOk result (string_bytes out.new
        ≡ string_bytes out.old ++ frame_text (frames.Flow flow.now)) }
{
    put(out, "flow")?;
    put_optional_handle(out, flow.handle)?;
    put_optional_number(out, flow.link_credit)
}

/// `transfer H ID SET STATE PAYLOAD`
#[tactic(auto, unfolding(crate::specs::Report::frame_text))]
#[inline(always)]
fn put_transfer(
    alloc: Global,
    out: &mut String,
    transfer: &Transfer,
    payload: &Payload,
) -> Result<(), NoMemory>
    ensures { OnOk result (string_bytes out.new
        ≡ string_bytes out.old ++ frame_text (frames.Transfer transfer.now payload.now)) }
{
    put(out, "transfer")?;
    put_number_word(out, transfer.handle.0)?;
    put_optional_number(out, transfer.delivery_id)?;
    put_word(out, settled_word(transfer.settled))?;
    put_optional_state(alloc, out, &transfer.state)?;
    put_payload(alloc, out, payload)
}

/// `disposition ROLE FIRST LAST BOOL STATE`
#[tactic(auto, unfolding(crate::specs::Report::frame_text))]
fn put_disposition(
    alloc: Global,
    out: &mut String,
    disposition: &Disposition,
) -> Result<(), NoMemory>
    ensures { OnOk result (string_bytes out.new
        ≡ string_bytes out.old ++ frame_text (frames.Disposition disposition.now)) }
{
    put(out, "disposition")?;
    put_disposition_words(alloc, out, disposition)
}

fn put_disposition_words(
    alloc: Global,
    out: &mut String,
    disposition: &Disposition,
) -> Result<(), NoMemory>
    ensures { OnOk result (string_bytes out.new
        ≡ string_bytes out.old ++ disposition_words disposition.now) }
{
    put_word(out, role_word(disposition.role))?;
    put_number_word(out, disposition.first)?;
    put_optional_number(out, disposition.last)?;
    put_word(out, bool_word(disposition.settled))?;
    put_optional_state(alloc, out, &disposition.state)
}

/// `detach H BOOL`
#[tactic(auto, unfolding(crate::specs::Report::frame_text))]
fn put_detach(out: &mut String, detach: &Detach) -> Result<(), NoMemory>
    ensures { OnOk result (string_bytes out.new
        ≡ string_bytes out.old ++ frame_text (frames.Detach detach.now)) }
{
    put(out, "detach")?;
    put_number_word(out, detach.handle.0)?;
    put_word(out, bool_word(detach.closed))
}
