//! Control links that are opened through a listener.

ghost use Rattle.std.specs.Bool.{OnFalse, OnTrue};
ghost use Rattle.std.specs.Prelude.{◌≡◌, IfErr};
ghost use Rattle.amqp_txn_types.specs.Frames.{attaches_coordinator};
ghost use Rattle.amqp_below_layer.specs.declared.inner_error.SessionInnerError.TheVariants as faults;
ghost use Rattle.amqp_below_layer.specs.Told.{Steady};
ghost use Rattle.amqp_below_sessions.specs.Sessions.{LeavesOpening};
ghost use Rattle.amqp_accept_links.specs.OpenLinks.{OpenLeaves};
ghost use Rattle.amqp_accept_links.specs.Receivers.{control_opening};
ghost use Rattle.amqp_accept_listener.specs.Controlling.{CausedBelow, OpensControl, OpensHeld, control_refusal};
ghost use Rattle.amqp_accept_listener.specs.Held.{flows_for};
ghost use Rattle.amqp_accept_listener.specs.Listening.{Unasked};

use crate::hearing::allocate_held;
use crate::held_flows::HeldFlows;
use amqp_accept_links::{ControlLinkAcceptor, OpenError, Opening};
use amqp_below_layer::SessionInnerError;
use amqp_below_sessions::{Session, control_error};
use amqp_txn_types::{Attach, Frames, OutputHandle, is_coordinator};
use std::alloc::Global;

/// Why a control link isn't opened.
fn control_refusal(error: OpenError) -> SessionInnerError
    ensures { result ≡ control_refusal error }
{
    match error {
        OpenError::Alloc(error) => control_error(error),
        OpenError::Session(error) => error,
    }
}

/// Opens a link: the session allocates it, with what is held for its handle, and then sends its
/// reply. Where it refuses the reply's flow, the output handle is freed.
fn open_held<S: Session>(
    session: &mut S,
    held: &mut HeldFlows,
    opening: Opening,
) -> Result<(OutputHandle, Frames), OpenError>
    ensures kept { S.kept session.new ≡ S.kept session.old }
    ensures names { OpenLeaves (S.names session.old) (S.names session.new) opening.name result }
    ensures steady { Steady (S.told session.old) (S.told session.new) }
    ensures cause { IfErr result (λ error. CausedBelow (control_refusal error)
        (S.told session.old) (S.told session.new)) }
    ensures opens { OpensHeld S.told S.names S.calls.allocate_incoming_link S.calls.outgoing_flow
        S.calls.deallocate_link session.old session.new (flows_for held.old) (flows_for held.new)
        opening result }
{
    let Opening {
        name,
        relay,
        input,
        reply,
    } = opening;
    let output = allocate_held(session, held, name, relay, input)?;
    let frames = reply.send(session, output)?;
    Ok((output, frames))
}

/// Opens a control link: its frames are those of the acceptor's reply. An attach whose target is no
/// coordinator is refused by `IllegalState`, and nothing is asked of the session.
pub fn open_control<S: Session>(
    session: &mut S,
    held: &mut HeldFlows,
    control: &ControlLinkAcceptor,
    alloc: Global,
    attach: &Attach,
) -> Result<Frames, SessionInnerError>
    ensures steady { Steady (S.told session.old) (S.told session.new) }
    ensures cause { OnTrue (attaches_coordinator attach.now) (IfErr result (λ error.
        CausedBelow error (S.told session.old) (S.told session.new))) }
    ensures leaves { LeavesOpening (S.kept session.old) (S.kept session.new) (S.names session.old)
        (S.names session.new) attach.now result }
    ensures opens { OnTrue (attaches_coordinator attach.now) (OpensControl S.told S.names
        S.calls.allocate_incoming_link S.calls.outgoing_flow S.calls.deallocate_link session.old
        session.new (flows_for held.old) (flows_for held.new)
        (control_opening control.now attach.now) result) }
    ensures refuses { OnFalse (attaches_coordinator attach.now) (Unasked session.old session.new
        (flows_for held.old) (flows_for held.new) faults.IllegalState result) }
{
    if !is_coordinator(attach) {
        return Err(SessionInnerError::IllegalState);
    }
    open_coordinator(session, held, control, alloc, attach)
}

/// Opens a control link: the acceptor makes it ready, and gives the frames of its reply. Room for
/// these is made first.
fn open_coordinator<S: Session>(
    session: &mut S,
    held: &mut HeldFlows,
    control: &ControlLinkAcceptor,
    alloc: Global,
    attach: &Attach,
) -> Result<Frames, SessionInnerError>
    ensures steady { Steady (S.told session.old) (S.told session.new) }
    ensures cause { IfErr result (λ error. CausedBelow error (S.told session.old)
        (S.told session.new)) }
    ensures leaves { LeavesOpening (S.kept session.old) (S.kept session.new) (S.names session.old)
        (S.names session.new) attach.now result }
    ensures opens { OpensControl S.told S.names S.calls.allocate_incoming_link
        S.calls.outgoing_flow S.calls.deallocate_link session.old session.new
        (flows_for held.old) (flows_for held.new) (control_opening control.now attach.now)
        result }
{
    let opening = control.prepare(alloc, attach)?;
    match open_held(session, held, opening) {
        Ok((_output, frames)) => Ok(frames),
        Err(error) => Err(control_refusal(error)),
    }
}
