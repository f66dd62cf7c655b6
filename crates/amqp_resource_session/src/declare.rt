//! Declares: ids are drawn until one isn't live.

ghost use Rattle.std.specs.Prelude.{◌≡◌, true, Some, None, IfOk};
ghost use Rattle.amqp_txn_codec.specs.Reading.{message_of};
ghost use Rattle.amqp_txn_codec.specs.declared.message.ControlMessageBody.TheVariants as messages;
ghost use Rattle.amqp_below_sessions.specs.Transacting.{Allocates};
ghost use Rattle.amqp_resource_record.specs.declared.step.Step.TheVariants as steps;
ghost use Rattle.amqp_resource_held.specs.Held.{is_in};
ghost use Rattle.amqp_resource_session.specs.Transacting.{AllocatedIn};
ghost use Rattle.amqp_resource_held.specs.Changes.{Fits};
ghost use Rattle.amqp_resource_session.specs.Leaving.{LeavesHere, StepDraws};
ghost use Rattle.amqp_resource_held.specs.Looks.{Adds};
ghost use Rattle.amqp_resource_session.specs.Steps.{nothing_drawn};

use crate::outcomes::no_draws;
use amqp_below_ids::{Drawn, IdSource};
use amqp_below_sessions::AllocTxnIdError;
use amqp_resource_held::{Held, declare_on, draw_unused, make_room};
use amqp_resource_record::{RejectText, Reply, StepError};
use amqp_txn_types::{Payload, TransactionError, TransactionId};
use std::alloc::Global;

/// A declare with a global id is rejected.
pub fn global_step(
    held: &Held,
    alloc: Global,
    link: u64,
    payload: &Payload,
    global: TransactionId,
) -> Result<(Drawn, Reply), StepError>
    requires message { message_of payload.now ≡ Some (messages.Declare
        (record { global_id = Some global })) }
    requires opened { is_in held.now.links.entries link ≡ true }
    ensures leaves { LeavesHere held.now held.now (steps.Control link payload.now) result }
    ensures draws { IfOk result (λ out. out.0 ≡ nothing_drawn) }
{
    Ok((
        no_draws(alloc),
        Reply::Rejected {
            error: TransactionError::UnknownId,
            text: RejectText::GlobalId,
        },
    ))
}

/// A declare without a global id.
pub fn declare_step<G: IdSource>(
    held: &mut Held,
    alloc: Global,
    link: u64,
    payload: &Payload,
    ids: &mut G,
) -> Result<(Drawn, Reply), StepError>
    requires message { message_of payload.now ≡ Some (messages.Declare
        (record { global_id = None })) }
    requires opened { is_in held.old.links.entries link ≡ true }
    ensures leaves { LeavesHere held.old held.new (steps.Control link payload.now) result }
    ensures draws { StepDraws G.next G.start ids.old ids.new result }
    ensures counts { Adds held.old.work held.new.work 0 }
{
    let mut drawn = Drawn::new(alloc);
    let Ok(()) = drawn.make_room() else {
        return Err(StepError::NoMemory);
    };
    let Ok(()) = make_room(held, link) else {
        return Err(StepError::NoMemory);
    };
    match draw_unused(&held.work, ids, &mut drawn) {
        Some(id) => {
            declare_on(held, link, id);
            Ok((drawn, Reply::Declared(id)))
        }
        None => Ok((
            drawn,
            Reply::Rejected {
                error: TransactionError::UnknownId,
                text: RejectText::IdsRepeat,
            },
        )),
    }
}

/// Allocates an id: the first drawn that isn't live becomes live, declared on no link.
pub fn allocate<G: IdSource>(
    held: &mut Held,
    alloc: Global,
    ids: &mut G,
) -> Result<Drawn, AllocTxnIdError>
    ensures answer { AllocatedIn held.old held.new result }
    ensures fits { Fits held.old → Fits held.new }
    ensures counts { Adds held.old.work held.new.work 0 }
    ensures drew { Allocates (G.next ids.old) (G.next ids.new) result }
    ensures start { G.start ids.new ≡ G.start ids.old }
{
    let mut drawn = Drawn::new(alloc);
    let Ok(()) = drawn.make_room() else {
        return Err(AllocTxnIdError::NoMemory);
    };
    let Ok(()) = held.work.make_room() else {
        return Err(AllocTxnIdError::NoMemory);
    };
    match draw_unused(&held.work, ids, &mut drawn) {
        Some(id) => {
            held.work.add(id, None);
            Ok(drawn)
        }
        None => Err(AllocTxnIdError::IdsRepeat(drawn)),
    }
}
