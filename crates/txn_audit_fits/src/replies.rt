//! Lines of replies to steps.

ghost use Rattle.std.specs.Prelude.{◌≡◌, None, IfOk};
ghost use Rattle.amqp_resource_record.specs.declared.step.Step.TheVariants as steps;
ghost use Rattle.txn_audit_fits.specs.Judging.{Judges};

use crate::difference::Wanted;
use crate::discharges::judge_discharge;
use crate::frames::judge_frame;
use crate::links::{judge_close, judge_declare, judge_global, judge_link_end, judge_no_link};
use crate::outs::Outs;
use amqp_below_ids::IdSource;
use amqp_resource_held::{Held, has_link};
use amqp_resource_log::Looks;
use amqp_resource_record::Step;
use amqp_txn_codec::{ControlMessageBody, Declare, decode};
use amqp_txn_types::{Frames, NoMemory, Payload};
use std::alloc::Global;
use std::sync::ledger::Ledger;

/// Judges a line as that of a reply to the step: the lines that may stand after it, or `None` where
/// no reply that the step may be given has this line.
pub fn judge_reply<G: IdSource, L: Ledger>(
    held: &mut Held,
    work: &mut Frames,
    alloc: Global,
    step: &Step,
    ids: &mut G,
    line: &[u8],
    looks: &mut Looks<L>,
    told: &mut Wanted,
) -> Result<Option<Outs>, NoMemory>
    ensures judged { IfOk result (Judges held.old held.new work.old work.new (G.next ids.old)
        (G.next ids.new) step.now line.now) }
    ensures start { G.start ids.new ≡ G.start ids.old }
{
    match step {
        Step::Frame(frame) => judge_frame(held, work, alloc, frame, line, told),
        Step::Control { link, payload } => {
            judge_control(held, work, alloc, *link, payload, ids, line, looks, told)
        }
        Step::LinkEnd { link } => Ok(judge_link_end(held, *link, line, looks, told)),
        Step::LocalEnd(_) => Ok(only_a_stop(told)),
        Step::RemoteEnd(_) => Ok(only_a_stop(told)),
        Step::ConnectionStop(_) => Ok(only_a_stop(told)),
    }
}

/// No reply has the line: the session ends here, and so does the run.
fn only_a_stop(told: &mut Wanted) -> Option<Outs>
    ensures { result ≡ None }
{
    *told = Wanted::Words("a stop");
    None
}

/// The line of a reply to a control message.
fn judge_control<G: IdSource, L: Ledger>(
    held: &mut Held,
    work: &mut Frames,
    alloc: Global,
    link: u64,
    payload: &Payload,
    ids: &mut G,
    line: &[u8],
    looks: &mut Looks<L>,
    told: &mut Wanted,
) -> Result<Option<Outs>, NoMemory>
    ensures judged { IfOk result (Judges held.old held.new work.old work.new (G.next ids.old)
        (G.next ids.new) (steps.Control link payload.now) line.now) }
    ensures start { G.start ids.new ≡ G.start ids.old }
{
    if !has_link(&held.links, link) {
        return Ok(judge_no_link(held, link, payload, line, told));
    }
    match decode(payload.as_slice()) {
        Err(_) => Ok(judge_close(held, link, payload, line, looks, told)),
        Ok(
            ControlMessageBody::Declare(
                Declare {
                    global_id: Some(global),
                },
            ),
        ) => Ok(judge_global(held, link, payload, global, line, told)),
        Ok(ControlMessageBody::Declare(Declare { global_id: None })) => {
            judge_declare(held, alloc, link, payload, ids, line, told)
        }
        Ok(ControlMessageBody::Discharge(discharge)) => {
            judge_discharge(
                held, work, alloc, link, payload, discharge, line, looks, told,
            )
        }
    }
}
