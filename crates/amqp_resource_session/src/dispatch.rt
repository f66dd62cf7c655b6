//! One step of a session that hasn't stopped.

ghost use Rattle.std.specs.Prelude.{◌<◌, ◌-◌, ◌^◌};
ghost use Rattle.amqp_resource_record.specs.declared.step.Step.TheVariants as steps;
ghost use Rattle.amqp_resource_session.specs.Leaving.{StepDraws, StepLeaves};
ghost use Rattle.amqp_resource_held.specs.Looks.{Pays, frames_added, frames_ended, unless_no_memory};

use crate::declare::{declare_step, global_step};
use crate::discharge::discharge_step;
use crate::ends::{end_locally, end_remotely, end_with_connection};
use crate::frame_steps::frame_step;
use crate::link_steps::{close_step, link_end_step, no_link_step};
use amqp_below_ids::{Drawn, IdSource};
use amqp_below_layer::LayerBelow;
use amqp_resource_held::{Held, has_link};
use amqp_resource_log::Looks;
use amqp_resource_record::{Reply, Step, StepError};
use amqp_txn_codec::{ControlMessageBody, Declare, decode};
use amqp_txn_types::Payload;
use std::alloc::Global;
use std::sync::ledger::Ledger;

/// A control message.
fn control_step<S: LayerBelow, G: IdSource, L: Ledger>(
    held: &mut Held,
    below: &mut S,
    alloc: Global,
    link: u64,
    payload: &Payload,
    ids: &mut G,
    looks: &mut Looks<L>,
) -> Result<(Drawn, Reply), StepError>
    ensures leaves { StepLeaves S.told S.sure S.review_gives S.check_gives held.old held.new
        below.old below.new (steps.Control link payload.now) result }
    ensures draws { StepDraws G.next G.start ids.old ids.new result }
    ensures pays { Pays held.old.work held.new.work looks.old looks.new
        (unless_no_memory result (frames_ended held.old (steps.Control link payload.now))) 0 }
{
    if !has_link(&held.links, link) {
        return no_link_step(held, alloc, link, payload);
    }
    match decode(payload.as_slice()) {
        Err(_) => close_step(held, alloc, link, payload, looks),
        Ok(
            ControlMessageBody::Declare(
                Declare {
                    global_id: Some(global),
                },
            ),
        ) => global_step(held, alloc, link, payload, global),
        Ok(ControlMessageBody::Declare(Declare { global_id: None })) => {
            declare_step(held, alloc, link, payload, ids)
        }
        Ok(ControlMessageBody::Discharge(discharge)) => {
            discharge_step(held, below, alloc, link, payload, discharge, looks)
        }
    }
}

/// One step of a session that hasn't stopped, before the log is compacted.
pub fn take_step<S: LayerBelow, G: IdSource, L: Ledger>(
    held: &mut Held,
    below: &mut S,
    alloc: Global,
    step: &Step,
    ids: &mut G,
    looks: &mut Looks<L>,
) -> Result<(Drawn, Reply), StepError>
    requires room { held.old.opened < 2 ^ 64 - 1 }
    ensures leaves { StepLeaves S.told S.sure S.review_gives S.check_gives held.old held.new
        below.old below.new step.now result }
    ensures draws { StepDraws G.next G.start ids.old ids.new result }
    ensures pays { Pays held.old.work held.new.work looks.old looks.new
        (unless_no_memory result (frames_ended held.old step.now)) (frames_added step.now) }
{
    match step {
        Step::Frame(frame) => frame_step(held, below, alloc, frame),
        Step::Control { link, payload } => {
            control_step(held, below, alloc, *link, payload, ids, looks)
        }
        Step::LinkEnd { link } => link_end_step(held, alloc, *link, looks),
        Step::LocalEnd(error) => Err(end_locally(error)),
        Step::RemoteEnd(error) => Err(end_remotely(error)),
        Step::ConnectionStop(reason) => Err(end_with_connection(reason)),
    }
}
