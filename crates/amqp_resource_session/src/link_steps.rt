//! Steps that end or close a control link, or name one that isn't open.

ghost use Rattle.std.specs.Prelude.{◌≡◌, true, false, None, IfOk};
ghost use Rattle.amqp_txn_codec.specs.Reading.{message_of};
ghost use Rattle.amqp_resource_record.specs.declared.step.Step.TheVariants as steps;
ghost use Rattle.amqp_resource_held.specs.Held.{is_in};
ghost use Rattle.amqp_resource_session.specs.Leaving.{LeavesHere};
ghost use Rattle.amqp_resource_held.specs.Looks.{Pays, frames_ended, unless_no_memory};
ghost use Rattle.amqp_resource_session.specs.Steps.{nothing_drawn};

use crate::outcomes::no_draws;
use amqp_below_ids::Drawn;
use amqp_resource_held::{Held, end_link, has_link};
use amqp_resource_log::Looks;
use amqp_resource_record::{Reply, StepError};
use amqp_txn_types::{AmqpError, Payload};
use std::alloc::Global;
use std::sync::ledger::Ledger;

/// The end of a link aborts what it declared.
pub fn link_end_step<L: Ledger>(
    held: &mut Held,
    alloc: Global,
    link: u64,
    looks: &mut Looks<L>,
) -> Result<(Drawn, Reply), StepError>
    ensures leaves { LeavesHere held.old held.new (steps.LinkEnd link) result }
    ensures draws { IfOk result (λ out. out.0 ≡ nothing_drawn) }
    ensures pays { Pays held.old.work held.new.work looks.old looks.new
        (unless_no_memory result (frames_ended held.old (steps.LinkEnd link))) 0 }
{
    if !has_link(&held.links, link) {
        return Ok((no_draws(alloc), Reply::NoLink));
    }
    end_link(held, link, looks);
    Ok((no_draws(alloc), Reply::LinkEnded))
}

/// A payload that is no control message closes its link.
pub fn close_step<L: Ledger>(
    held: &mut Held,
    alloc: Global,
    link: u64,
    payload: &Payload,
    looks: &mut Looks<L>,
) -> Result<(Drawn, Reply), StepError>
    requires message { message_of payload.now ≡ None }
    requires opened { is_in held.old.links.entries link ≡ true }
    ensures leaves { LeavesHere held.old held.new (steps.Control link payload.now) result }
    ensures draws { IfOk result (λ out. out.0 ≡ nothing_drawn) }
    ensures pays { Pays held.old.work held.new.work looks.old looks.new
        (unless_no_memory result (frames_ended held.old (steps.Control link payload.now))) 0 }
{
    end_link(held, link, looks);
    Ok((no_draws(alloc), Reply::LinkClosed(AmqpError::NotAllowed)))
}

/// A control message on a link that isn't open.
pub fn no_link_step(
    held: &Held,
    alloc: Global,
    link: u64,
    payload: &Payload,
) -> Result<(Drawn, Reply), StepError>
    requires { is_in held.now.links.entries link ≡ false }
    ensures leaves { LeavesHere held.now held.now (steps.Control link payload.now) result }
    ensures draws { IfOk result (λ out. out.0 ≡ nothing_drawn) }
{
    Ok((no_draws(alloc), Reply::NoLink))
}
