//! The broker of a relay: its two links, and the messages in `from`.

ghost use Rattle.std.specs.Prelude.{◌≡◌, ◌<◌, ◌++◌, ◌∷◌, [], length, IfOk, OnOk};
ghost use Rattle.amqp_txn_types.specs.declared.performatives.Frame.TheVariants as frames;
ghost use Rattle.txn_broker_queues.specs.Taking.{taken_of};
ghost use Rattle.txn_relay.specs.Moves.{from_handle, transfer_on};
ghost use Rattle.txn_relay.specs.Filling.{Filled, IsFilled, attach_to, numbered};

use crate::moves::{FROM_HANDLE, FROM_NAME, TO_HANDLE, TO_NAME, transfer_on};
use amqp_below_layer::LayerBelow;
use amqp_txn_types::{
    Attach, Handle, NoMemory, Payload, Role, Target, TargetArchetype, Text, TryClone,
};
use std::alloc::Global;
use txn_broker_queues::{Broker, Message, Messages};

/// A broker with a link to each of the two queues, and these messages in `from`; and the messages.
/// The only error is out of memory.
pub(crate) fn filled_broker(
    alloc: Global,
    payloads: &[Payload],
) -> Result<(Broker, Messages), NoMemory>
    requires { length payloads.now < 4294967295 }
    ensures broker { IfOk result (λ filled. IsFilled filled.0 filled.1) }
    ensures messages { IfOk result (λ filled. filled.1 ≡ numbered 0 payloads.now) }
{
    let mut broker = linked_broker(alloc)?;
    let mut messages = Messages::new(alloc);
    for (number, payload) in payloads.iter().enumerate() {
        let number = number as u32;
        send(alloc, &mut broker, number, payload)?;
        messages.append(Message {
            number,
            payload: payload.try_clone()?,
        })?;
    }
    Ok((broker, messages))
}

/// A broker with a link to each of the two queues. The only error is out of memory.
fn linked_broker(alloc: Global) -> Result<Broker, NoMemory>
    ensures { IfOk result (λ broker. Filled broker [] 0) }
{
    let mut broker = Broker::new(alloc);
    attach(alloc, &mut broker, FROM_NAME, FROM_HANDLE)?;
    attach(alloc, &mut broker, TO_NAME, TO_HANDLE)?;
    Ok(broker)
}

/// Attaches a link, as its sender, to the queue of that name. The only error is out of memory.
fn attach(alloc: Global, broker: &mut Broker, name: &str, handle: Handle) -> Result<(), NoMemory>
    ensures { OnOk result (taken_of broker.new
        ≡ taken_of broker.old ++ frames.Attach (attach_to name.now handle) ∷ []) }
{
    let target = Target::default().address(Text::from_str(alloc, name)?);
    let attach = Attach::new(Text::from_str(alloc, name)?, handle, Role::Sender)
        .target(TargetArchetype::Target(target))
        .initial_delivery_count(0);
    match broker.on_incoming_attach(attach) {
        Ok(given) => {
            drop(given);
            Ok(())
        }
        // Of an attach that isn't refused this is the one error.
        Err(error) => {
            drop(error);
            Err(NoMemory)
        }
    }
}

/// Sends a message to `from`. The only error is out of memory.
fn send(alloc: Global, broker: &mut Broker, number: u32, payload: &Payload) -> Result<(), NoMemory>
    ensures { OnOk result (taken_of broker.new ≡ taken_of broker.old
        ++ frames.Transfer (transfer_on from_handle number) payload.now ∷ []) }
{
    let payload = payload.try_clone()?;
    let transfer = transfer_on(alloc, FROM_HANDLE, number)?;
    match broker.on_incoming_transfer(transfer, payload) {
        Ok(given) => {
            drop(given);
            Ok(())
        }
        // Of a transfer that isn't refused this is the one error.
        Err(error) => {
            drop(error);
            Err(NoMemory)
        }
    }
}
