//! What a listener does with the frames that come, over its session, its queue and what it holds.

ghost use Rattle.std.specs.Prelude.{◌≡◌, IfErr};
ghost use Rattle.amqp_txn_types.specs.declared.performatives.Frame.TheVariants as frames;
ghost use Rattle.amqp_below_layer.specs.Inner.{Took};
ghost use Rattle.amqp_below_layer.specs.Told.{Steady};
ghost use Rattle.amqp_below_sessions.specs.Plain.{control_error};
ghost use Rattle.amqp_accept_listener.specs.Controlling.{CausedBelow};
ghost use Rattle.amqp_below_sessions.specs.Names.{PlacesLink};
ghost use Rattle.amqp_below_sessions.specs.Sessions.{StoppedBy};
ghost use Rattle.amqp_below_sessions.specs.declared.relay.NameState.TheVariants.{Taken};
ghost use Rattle.amqp_accept_listener.specs.Held.{flows_for};
ghost use Rattle.amqp_accept_listener.specs.Hearing.{HearsAttach, HearsFlow, HearsTransfer, Queues, lacks_handle, unqueued_fault};
ghost use Rattle.amqp_accept_listener.specs.Listening.{AllocatesHeld};

use crate::attach_queue::AttachQueue;
use crate::held_flows::HeldFlows;
use amqp_below_layer::{LayerBelow, SessionInnerError};
use amqp_below_sessions::{AllocLinkError, NameState, Relay, Session};
use amqp_txn_types::{Attach, Flow, Frames, InputHandle, OutputHandle, Payload, Text, Transfer};
use std::alloc::Global;

/// Why an attach isn't queued at a closed queue.
fn unqueued_fault(state: NameState) -> SessionInnerError
    ensures { result ≡ unqueued_fault state }
{
    match state {
        NameState::Taken => SessionInnerError::HandleInUse,
        NameState::Unknown | NameState::Waiting => SessionInnerError::UnattachedHandle,
    }
}

/// An attach whose name doesn't wait: it is queued, where the queue is open.
fn queue_attach(
    queue: &mut AttachQueue,
    alloc: Global,
    state: NameState,
    attach: Attach,
) -> Result<Frames, SessionInnerError>
    ensures { Queues state queue.old queue.new attach result }
{
    if queue.is_closed() {
        drop(attach);
        return Err(unqueued_fault(state));
    }
    match queue.push(attach) {
        Ok(()) => Ok(Frames::new(alloc)),
        Err(_) => Err(SessionInnerError::NoMemory),
    }
}

/// An attach: it goes to the session where its name waits for it, else to the queue.
pub fn hear_attach<S: Session>(
    session: &mut S,
    queue: &mut AttachQueue,
    alloc: Global,
    attach: Attach,
) -> Result<Frames, SessionInnerError>
    ensures fixed { (S.told session.new).fixed ≡ (S.told session.old).fixed }
    ensures reviews { (S.told session.new).reviews ≡ (S.told session.old).reviews }
    ensures hears { HearsAttach
        (Took S.told S.incoming_gives session.old session.new (frames.Attach attach))
        ((S.names session.old).known attach.name) session.old session.new queue.old queue.new attach
        result }
{
    match session.name_state(&attach.name) {
        NameState::Waiting => session.on_incoming_attach(attach),
        state => queue_attach(queue, alloc, state, attach),
    }
}

/// Whether the answer is that a handle isn't attached.
fn lacks_handle(answer: &Result<Frames, SessionInnerError>) -> bool
    ensures { result ≡ lacks_handle answer.now }
{
    match answer {
        Ok(_) => false,
        Err(error) => error.is_unattached(),
    }
}

/// A flow: it goes to the session, and is held where its handle isn't attached. Room for it is made
/// first.
pub fn hear_flow<S: LayerBelow>(
    session: &mut S,
    held: &mut HeldFlows,
    alloc: Global,
    flow: Flow,
) -> Result<Frames, SessionInnerError>
    ensures fixed { (S.told session.new).fixed ≡ (S.told session.old).fixed }
    ensures reviews { (S.told session.new).reviews ≡ (S.told session.old).reviews }
    ensures hears { HearsFlow
        (Took S.told S.incoming_gives session.old session.new (frames.Flow flow))
        session.old session.new (flows_for held.old) (flows_for held.new) flow result }
{
    let Ok(copy) = held.prepare(&flow) else {
        drop(flow);
        return Err(SessionInnerError::NoMemory);
    };
    let answer = session.on_incoming_flow(flow);
    if lacks_handle(&answer) {
        drop(answer);
        held.hold(copy);
        return Ok(Frames::new(alloc));
    }
    held.release(copy);
    answer
}

/// A transfer: it goes to the session, and is dropped where its handle isn't attached.
pub fn hear_transfer<S: LayerBelow>(
    session: &mut S,
    alloc: Global,
    transfer: Transfer,
    payload: Payload,
) -> Result<Frames, SessionInnerError>
    ensures fixed { (S.told session.new).fixed ≡ (S.told session.old).fixed }
    ensures reviews { (S.told session.new).reviews ≡ (S.told session.old).reviews }
    ensures hears { HearsTransfer
        (Took S.told S.incoming_gives session.old session.new (frames.Transfer transfer payload))
        result }
{
    let answer = session.on_incoming_transfer(transfer, payload);
    if lacks_handle(&answer) {
        drop(answer);
        return Ok(Frames::new(alloc));
    }
    answer
}

/// Allocates a link that the peer attached. What is held for its handle is replayed to it: on Ok it
/// is held no more. A name that is known is refused by every session, so nothing is copied for it.
pub fn allocate_held<S: Session>(
    session: &mut S,
    held: &mut HeldFlows,
    name: Text,
    relay: Relay,
    input: InputHandle,
) -> Result<OutputHandle, AllocLinkError>
    ensures kept { S.kept session.new ≡ S.kept session.old }
    ensures stopped { StoppedBy (S.kept session.old).stop result }
    ensures names { PlacesLink (S.names session.old) (S.names session.new) name Taken result }
    ensures steady { Steady (S.told session.old) (S.told session.new) }
    ensures cause { IfErr result (λ error. CausedBelow (control_error error) (S.told session.old)
        (S.told session.new)) }
    ensures allocates { AllocatesHeld S.told S.calls.allocate_incoming_link session.old session.new
        ((S.names session.old).known name) (flows_for held.old) (flows_for held.new)
        name relay input result }
{
    if let NameState::Waiting | NameState::Taken = session.name_state(&name) {
        return match session.allocate_incoming_link(name, relay, input) {
            Ok(_output) => unreachable!(),
            Err(error) => Err(error),
        };
    }
    let Ok(relay) = held.replay(input, relay) else {
        drop(name);
        return Err(AllocLinkError::NoMemory);
    };
    let output = session.allocate_incoming_link(name, relay, input)?;
    held.forget(input);
    Ok(output)
}
