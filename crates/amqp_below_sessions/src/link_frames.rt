//! What frames and allocations do to the links of a plain session.

ghost use Rattle.std.specs.Prelude.{◌≡◌, ◌≤◌, true, Some, None, MatchResult, OnOk, OnErr, IfOk};
ghost use Rattle.std.specs.Bool.{OnTrue};
ghost use Rattle.std.specs.List.{list_all};
ghost use Rattle.amqp_txn_types.specs.declared.small.SessionState.TheVariants.{Mapped};
ghost use Rattle.amqp_below_sessions.specs.LinkMoves.{AttachesLink, Changes, DetachesLink, FlowsTo, PlacedNext, Places, control_link, link_flow};
ghost use Rattle.amqp_below_sessions.specs.Links.{link_mapped, mapped_link, name_state_of, output_mapped, output_named, waiting_link, with_transfer};
ghost use Rattle.amqp_below_sessions.specs.TakenWork.{TakesAlike, takes_all, takes_work};
ghost use Rattle.amqp_below_sessions.specs.Plain.{PlacedBy, RefusedBy, RefusedOnlyBy, attach_fault, control_error, flow_fault, handle_fault, input_of, mapped_fault, place_fault, place_mapped_fault, transfer_fault};

use crate::links::Links;
use crate::relay::{NameState, Relay};
use crate::session_errors::AllocLinkError;
use crate::state_moves::require_mapped;
use amqp_below_layer::SessionInnerError;
use amqp_txn_types::{
    Attach, Detach, Flow, Frame, Frames, Handle, InputHandle, LinkFlow, LinkFlows, NoMemory,
    OutputHandle, Role, SessionState, Text, TryClone,
};
use std::alloc::Global;

/// How the name of a link is known.
pub fn name_state(links: &Links, name: &Text) -> NameState
    ensures { result ≡ name_state_of links.now.slots name.now }
{
    match links.find_named(name) {
        None => NameState::Unknown,
        Some((_, link)) => match link.input {
            None => NameState::Waiting,
            Some(_) => NameState::Taken,
        },
    }
}

/// The attach of a link that waits for it.
fn attach_waiting(
    state: SessionState,
    links: &mut Links,
    attach: &Attach,
) -> Result<(), SessionInnerError>
    ensures fault { RefusedBy (mapped_fault state (attach_fault links.old.slots attach.now))
        result }
    ensures ok { OnOk result (AttachesLink links.old links.new attach.now) }
    ensures err { OnErr result (links.new ≡ links.old) }
{
    let Ok(()) = require_mapped(state) else {
        return Err(SessionInnerError::IllegalState);
    };
    let Some((output, link)) = links.find_named(&attach.name) else {
        return Err(SessionInnerError::RemoteAttachingLinkNameNotFound);
    };
    if let Some(_) = link.input {
        return Err(SessionInnerError::RemoteAttachingLinkNameNotFound);
    }
    let input = InputHandle(attach.handle.0);
    if let Some(_) = links.find_mapped(input) {
        return Err(SessionInnerError::HandleInUse);
    }
    links.attach(output, input, attach.rcv_settle_mode)?;
    Ok(())
}

/// The attach of a link that waits for it, which is let go.
pub fn attach_link(
    state: SessionState,
    links: &mut Links,
    attach: Attach,
) -> Result<(), SessionInnerError>
    ensures fault { RefusedBy (mapped_fault state (attach_fault links.old.slots attach)) result }
    ensures ok { OnOk result (AttachesLink links.old links.new attach) }
    ensures err { OnErr result (links.new ≡ links.old) }
{
    let answer = attach_waiting(state, links, &attach);
    drop(attach);
    answer
}

/// The part of a flow that is about one link.
pub fn link_flow(handle: Handle, flow: Flow) -> LinkFlow
    ensures { result ≡ link_flow handle flow }
{
    LinkFlow {
        handle,
        delivery_count: flow.delivery_count,
        link_credit: flow.link_credit,
        available: flow.available,
        drain: flow.drain,
        echo: flow.echo,
        properties: flow.properties,
    }
}

/// A flow, which is added to what is passed on to the link that it names.
pub fn pass_flow(
    state: SessionState,
    links: &mut Links,
    flow: Flow,
) -> Result<(), SessionInnerError>
    ensures fault { RefusedBy (mapped_fault state (flow_fault links.old.slots flow.handle)) result }
    ensures ok { OnOk result (FlowsTo flow.handle links.old links.new flow) }
    ensures err { OnErr result (links.new ≡ links.old) }
{
    let Ok(()) = require_mapped(state) else {
        return Err(SessionInnerError::IllegalState);
    };
    let Some(handle) = flow.handle else {
        return Ok(());
    };
    let Some((output, _)) = links.find_mapped(InputHandle(handle.0)) else {
        return Err(SessionInnerError::UnattachedHandle);
    };
    links.append_flow(output, link_flow(handle, flow))?;
    Ok(())
}

/// A transfer on a handle, which is counted at its link.
pub fn count_transfer(
    state: SessionState,
    links: &mut Links,
    handle: Handle,
) -> Result<(), SessionInnerError>
    ensures fault { RefusedOnlyBy
        (mapped_fault state (transfer_fault (link_mapped links.old.slots (input_of handle))))
        result }
    ensures ok { OnOk result
        (Changes (output_mapped links.old.slots (input_of handle)) links.old links.new
        with_transfer) }
    ensures ends { OnOk result (TakesAlike links.old.slots links.new.slots) }
    ensures err { OnErr result (links.new ≡ links.old) }
{
    let Ok(()) = require_mapped(state) else {
        return Err(SessionInnerError::IllegalState);
    };
    let Some((output, link)) = links.find_mapped(InputHandle(handle.0)) else {
        return Err(SessionInnerError::UnattachedHandle);
    };
    match link.relay.role {
        Role::Sender => Err(SessionInnerError::TransferFrameToSender),
        Role::Receiver => {
            links.count_transfer(output);
            Ok(())
        }
    }
}

/// Whether a mapped session takes this work: a disposition, or a transfer by its handle.
fn takes_work(links: &Links, frame: &Frame) -> bool
    ensures { result ≡ takes_work links.now.slots frame.now }
{
    match frame {
        Frame::Transfer { transfer, .. } => {
            match links.find_mapped(InputHandle(transfer.handle.0)) {
                None => false,
                Some((_, link)) => matches!(link.relay.role, Role::Receiver),
            }
        }
        Frame::Disposition(_) => true,
        Frame::Attach(_) | Frame::Flow(_) | Frame::Detach(_) => false,
    }
}

fn takes_each(links: &Links, frames: &[Frame]) -> bool
    ensures { result ≡ list_all (takes_work links.now.slots) frames.now }
{
    frames.iter().all(|frame| takes_work(links, frame))
}

/// Whether a session in this state takes each of these frames.
pub fn takes_all(state: SessionState, links: &Links, frames: &[Frame]) -> bool
    ensures all { result ≡ takes_all state links.now.slots frames.now }
    ensures taken { OnTrue result ((state ≡ Mapped)
        × (list_all (takes_work links.now.slots) frames.now ≡ true)) }
{
    matches!(state, SessionState::Mapped) && takes_each(links, frames)
}

/// A detach, which frees its link and is answered by one.
fn detach_mapped(
    alloc: Global,
    state: SessionState,
    links: &mut Links,
    detach: &Detach,
) -> Result<Frames, SessionInnerError>
    ensures fault { RefusedBy
        (mapped_fault state
        (handle_fault (link_mapped links.old.slots (input_of detach.now.handle))))
        result }
    ensures ok { IfOk result (λ given.
        DetachesLink (output_mapped links.old.slots (input_of detach.now.handle)) links.old
        links.new detach.now given) }
    ensures err { OnErr result (links.new ≡ links.old) }
{
    let Ok(()) = require_mapped(state) else {
        return Err(SessionInnerError::IllegalState);
    };
    let Some((output, _)) = links.find_mapped(InputHandle(detach.handle.0)) else {
        return Err(SessionInnerError::UnattachedHandle);
    };
    let Ok(mut given) = Vec::with_capacity(alloc, 1) else {
        return Err(SessionInnerError::NoMemory);
    };
    given.push_reserved(Frame::Detach(Detach {
        handle: Handle(output.0),
        closed: detach.closed,
        error: None,
    }));
    links.free(output);
    Ok(Frames::from_vec(given))
}

/// A detach, which frees its link, is answered by one and let go.
pub fn detach_link(
    alloc: Global,
    state: SessionState,
    links: &mut Links,
    detach: Detach,
) -> Result<Frames, SessionInnerError>
    ensures fault { RefusedBy
        (mapped_fault state
        (handle_fault (link_mapped links.old.slots (input_of detach.handle))))
        result }
    ensures ok { IfOk result (λ given.
        DetachesLink (output_mapped links.old.slots (input_of detach.handle)) links.old
        links.new detach given) }
    ensures err { OnErr result (links.new ≡ links.old) }
{
    let answer = detach_mapped(alloc, state, links, &detach);
    drop(detach);
    answer
}

/// Whether a link of the name may be placed: the name is unknown, and a handle is left.
fn check_place(links: &Links, handle_max: Handle, name: &Text) -> Result<(), AllocLinkError>
    ensures fault { MatchResult result (λ done. place_fault links.now handle_max name.now ≡ None)
        (λ error. place_fault links.now handle_max name.now ≡ Some error) }
    ensures unknown { OnOk result (output_named links.now.slots name.now ≡ None) }
    ensures room { OnOk result (links.now.next ≤ handle_max.0) }
{
    if let Some(_) = links.find_named(name) {
        return Err(AllocLinkError::DuplicatedLinkName);
    }
    if links.next() > handle_max.0 as usize {
        return Err(AllocLinkError::HandleMaxReached);
    }
    Ok(())
}

/// And then whether the input handle is free.
fn check_place_mapped(
    links: &Links,
    handle_max: Handle,
    name: &Text,
    input: InputHandle,
) -> Result<(), AllocLinkError>
    ensures fault { MatchResult result
        (λ done. place_mapped_fault links.now handle_max name.now input ≡ None)
        (λ error. place_mapped_fault links.now handle_max name.now input ≡ Some error) }
    ensures unknown { OnOk result (output_named links.now.slots name.now ≡ None) }
    ensures room { OnOk result (links.now.next ≤ handle_max.0) }
    ensures unmapped { OnOk result (output_mapped links.now.slots input ≡ None) }
{
    match check_place(links, handle_max, name) {
        Ok(()) => match links.find_mapped(input) {
            Some(_) => Err(AllocLinkError::HandleInUse),
            None => Ok(()),
        },
        Err(error) => Err(error),
    }
}

/// Places a link that waits for the peer's attach.
pub fn place_link(
    links: &mut Links,
    handle_max: Handle,
    name: Text,
    relay: Relay,
) -> Result<OutputHandle, AllocLinkError>
    ensures fault { PlacedBy (place_fault links.old handle_max name) result }
    ensures ok { IfOk result (λ output.
        Places links.old links.new output (waiting_link name relay)) }
    ensures err { OnErr result (links.new ≡ links.old) }
{
    match check_place(links, handle_max, &name) {
        Ok(()) => match links.place(name, relay) {
            Ok(output) => Ok(output),
            Err(_) => Err(AllocLinkError::NoMemory),
        },
        Err(error) => Err(error),
    }
}

/// Places a link that is attached.
pub fn place_mapped_link(
    links: &mut Links,
    handle_max: Handle,
    name: Text,
    relay: Relay,
    input: InputHandle,
) -> Result<OutputHandle, AllocLinkError>
    ensures fault { PlacedBy (place_mapped_fault links.old handle_max name input) result }
    ensures ok { IfOk result (λ output.
        Places links.old links.new output (mapped_link name relay input)) }
    ensures err { OnErr result (links.new ≡ links.old) }
{
    match check_place_mapped(links, handle_max, &name, input) {
        Ok(()) => match links.place_mapped(name, relay, input) {
            Ok(output) => Ok(output),
            Err(_) => Err(AllocLinkError::NoMemory),
        },
        Err(error) => Err(error),
    }
}

/// The relay of a control link, whose receiver is this side.
fn control_relay(alloc: Global, attach: &Attach) -> Result<Relay, NoMemory>
    ensures { IfOk result (λ relay. relay ≡ (control_link attach.now).relay) }
{
    Ok(Relay {
        name: attach.name.try_clone()?,
        role: Role::Receiver,
        rcv_settle_mode: attach.rcv_settle_mode,
        flows: LinkFlows::new(alloc),
        transfers: 0,
    })
}

/// Places a control link that the peer attached.
pub fn place_control_link(
    alloc: Global,
    links: &mut Links,
    handle_max: Handle,
    attach: &Attach,
) -> Result<(), AllocLinkError>
    ensures fault { PlacedBy
        (place_mapped_fault links.old handle_max attach.now.name (input_of attach.now.handle))
        result }
    ensures ok { OnOk result (PlacedNext links.old links.new (control_link attach.now)) }
    ensures err { OnErr result (links.new ≡ links.old) }
{
    let input = InputHandle(attach.handle.0);
    match check_place_mapped(links, handle_max, &attach.name, input) {
        Ok(()) => {
            let Ok(name) = attach.name.try_clone() else {
                return Err(AllocLinkError::NoMemory);
            };
            let Ok(relay) = control_relay(alloc, attach) else {
                return Err(AllocLinkError::NoMemory);
            };
            match links.place_mapped(name, relay, input) {
                Ok(_) => Ok(()),
                Err(_) => Err(AllocLinkError::NoMemory),
            }
        }
        Err(error) => Err(error),
    }
}

/// A fault of an allocation as that of the attach of a control link.
pub fn control_error(fault: AllocLinkError) -> SessionInnerError
    ensures { result ≡ control_error fault }
{
    match fault {
        AllocLinkError::NoMemory => SessionInnerError::NoMemory,
        AllocLinkError::SessionStopped(reason) => {
            drop(reason);
            SessionInnerError::IllegalState
        }
        AllocLinkError::DuplicatedLinkName => SessionInnerError::HandleInUse,
        AllocLinkError::HandleInUse => SessionInnerError::HandleInUse,
        AllocLinkError::HandleMaxReached => SessionInnerError::HandleInUse,
    }
}
