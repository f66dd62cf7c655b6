//! Lines of replies to ends of links, and to messages that don't discharge.

ghost use Rattle.std.specs.Prelude.{◌≡◌, true, false, None, Some, List, IfOk, if◌then◌else◌};
ghost use Rattle.amqp_txn_codec.specs.Reading.{message_of};
ghost use Rattle.amqp_txn_codec.specs.declared.message.ControlMessageBody.TheVariants as messages;
ghost use Rattle.amqp_txn_types.specs.declared.performatives.Frame.{Frame};
ghost use Rattle.amqp_resource_record.specs.declared.step.Step.TheVariants as steps;
ghost use Rattle.amqp_resource_held.specs.Held.{is_in};
ghost use Rattle.txn_audit_fits.specs.declared.outs.Outs.TheVariants as outs;
ghost use Rattle.txn_audit_fits.specs.Judging.{Judges, JudgesHere, nothing_after};

use crate::difference::Wanted;
use crate::outs::Outs;
use crate::texts::is_declared_line;
use amqp_below_ids::{Drawn, IdSource};
use amqp_resource_held::{Held, declare_on, draw_unused, end_link, has_link, make_room};
use amqp_resource_log::Looks;
use amqp_txn_types::{NoMemory, Payload, TransactionId};
use std::alloc::Global;
use std::sync::ledger::Ledger;
use txn_program_lines::is_text;

/// No lines, where the line is this one.
pub fn nothing_after(line: &[u8], wanted: &'static str, told: &mut Wanted) -> Option<Outs>
    ensures { result ≡ nothing_after line.now wanted.now }
{
    if is_text(line, wanted) {
        Some(Outs::Nothing)
    } else {
        *told = Wanted::Words(wanted);
        None
    }
}

/// No lines, where the line was the one that is wanted.
fn nothing_where(wanted: bool) -> Option<Outs>
    ensures { result ≡ (if wanted then Some outs.Nothing else None) }
{
    if wanted { Some(Outs::Nothing) } else { None }
}

/// The line of a reply to the end of a link.
pub fn judge_link_end<L: Ledger>(
    held: &mut Held,
    link: u64,
    line: &[u8],
    looks: &mut Looks<L>,
    told: &mut Wanted,
) -> Option<Outs>
    ensures { JudgesHere held.old held.new (steps.LinkEnd link) line.now result }
{
    if !has_link(&held.links, link) {
        return nothing_after(line, "no-link", told);
    }
    let outs = nothing_after(line, "link-ended", told);
    end_link(held, link, looks);
    outs
}

/// The line of a reply to a message on a link that isn't open.
pub fn judge_no_link(
    held: &Held,
    link: u64,
    payload: &Payload,
    line: &[u8],
    told: &mut Wanted,
) -> Option<Outs>
    requires { is_in held.now.links.entries link ≡ false }
    ensures { JudgesHere held.now held.now (steps.Control link payload.now) line.now result }
{
    nothing_after(line, "no-link", told)
}

/// The line of a reply to a payload that is no control message: the link is closed.
pub fn judge_close<L: Ledger>(
    held: &mut Held,
    link: u64,
    payload: &Payload,
    line: &[u8],
    looks: &mut Looks<L>,
    told: &mut Wanted,
) -> Option<Outs>
    requires message { message_of payload.now ≡ None }
    requires opened { is_in held.old.links.entries link ≡ true }
    ensures { JudgesHere held.old held.new (steps.Control link payload.now) line.now result }
{
    let outs = nothing_after(line, "link-closed not-allowed", told);
    end_link(held, link, looks);
    outs
}

/// The line of a reply to a declare with a global id: it is rejected.
pub fn judge_global(
    held: &Held,
    link: u64,
    payload: &Payload,
    global: TransactionId,
    line: &[u8],
    told: &mut Wanted,
) -> Option<Outs>
    requires message { message_of payload.now ≡ Some (messages.Declare
        (record { global_id = Some global })) }
    requires opened { is_in held.now.links.entries link ≡ true }
    ensures { JudgesHere held.now held.now (steps.Control link payload.now) line.now result }
{
    nothing_after(line, "rejected unknown-id global-id", told)
}

/// The line of a reply to a declare without a global id: the first id drawn that isn't live is
/// declared; where 16 are live it is rejected.
pub fn judge_declare<G: IdSource>(
    held: &mut Held,
    alloc: Global,
    link: u64,
    payload: &Payload,
    ids: &mut G,
    line: &[u8],
    told: &mut Wanted,
) -> Result<Option<Outs>, NoMemory>
    requires message { message_of payload.now ≡ Some (messages.Declare
        (record { global_id = None })) }
    requires opened { is_in held.old.links.entries link ≡ true }
    ensures judged { (work : List Frame) → IfOk result (Judges held.old held.new work work
        (G.next ids.old) (G.next ids.new) (steps.Control link payload.now) line.now) }
    ensures start { G.start ids.new ≡ G.start ids.old }
{
    let mut drawn = Drawn::new(alloc);
    drawn.make_room()?;
    make_room(held, link)?;
    match draw_unused(&held.work, ids, &mut drawn) {
        None => Ok(nothing_after(line, "rejected unknown-id ids-repeat", told)),
        Some(id) => {
            declare_on(held, link, id);
            let declared = is_declared_line(alloc, id, line, told)?;
            Ok(nothing_where(declared))
        }
    }
}
