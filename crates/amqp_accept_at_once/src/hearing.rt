//! What an accepting listener does with an attach, over its listener and its acceptor.

ghost use Rattle.std.specs.Prelude.{◌≡◌, ◌≢◌, IfErr, IfOk, OnErr};
ghost use Rattle.amqp_txn_types.specs.Counts.{Rose};
ghost use Rattle.amqp_txn_types.specs.declared.performatives.Frame.TheVariants as frames;
ghost use Rattle.amqp_accept_links.specs.LinkAcceptors.{AcceptsLink};
ghost use Rattle.amqp_accept_links.specs.OpenLinks.{OpensThrough};
ghost use Rattle.amqp_below_layer.specs.Inner.{Took};
ghost use Rattle.amqp_below_layer.specs.Told.{Steady};
ghost use Rattle.amqp_below_sessions.specs.declared.relay.NameState.TheVariants.{Waiting};
ghost use Rattle.amqp_accept_listener.specs.Listening.{inner_of, queue_of};
ghost use Rattle.amqp_accept_at_once.specs.AtOnce.{AcceptsAttach, AcceptsLeaves, AcceptsOver, AttachCause, OpensAtOnce, TakesQueued, attach_refusal, makes_none, receiver_refusal, sender_refusal};

use amqp_accept_links::{AcceptorAttachError, LinkAcceptor, RejectDynamic};
use amqp_accept_listener::ListenerSession;
use amqp_below_layer::{LayerBelow, SessionInnerError, Tells};
use amqp_below_sessions::{
    NameState, ReceiverAttachError, SenderAttachError, Session, control_error,
};
use amqp_txn_types::{Attach, Frames};
use std::alloc::Global;

/// The acceptor of all its links: it makes no nodes.
pub type Acceptor = LinkAcceptor<RejectDynamic, RejectDynamic>;

/// Why the session refuses an attach for which no local receiver was made.
fn receiver_refusal(error: ReceiverAttachError) -> SessionInnerError
    ensures { result ≡ receiver_refusal error }
{
    match error {
        ReceiverAttachError::Alloc(error) => control_error(error),
        ReceiverAttachError::Session(error) => error,
        ReceiverAttachError::CoordinatorIsNotImplemented => SessionInnerError::IllegalState,
        ReceiverAttachError::NoMemory => SessionInnerError::NoMemory,
    }
}

/// Why it refuses one for which no local sender was made.
fn sender_refusal(error: SenderAttachError) -> SessionInnerError
    ensures { result ≡ sender_refusal error }
{
    match error {
        SenderAttachError::Alloc(error) => control_error(error),
        SenderAttachError::SessionStopped(reason) => {
            drop(reason);
            SessionInnerError::IllegalState
        }
        SenderAttachError::Session(error) => error,
        SenderAttachError::NoMemory => SessionInnerError::NoMemory,
    }
}

/// Why it refuses an attach that its acceptor doesn't accept.
fn attach_refusal(error: AcceptorAttachError) -> SessionInnerError
    ensures { result ≡ attach_refusal error }
{
    match error {
        AcceptorAttachError::SessionStopped(reason) => {
            drop(reason);
            SessionInnerError::IllegalState
        }
        AcceptorAttachError::LocalSender(error) => sender_refusal(error),
        AcceptorAttachError::LocalReceiver(error) => receiver_refusal(error),
    }
}

/// Accepts a link: the acceptor's frames, without the link's end.
fn accept<L: Session>(
    listener: &mut L,
    acceptor: &Acceptor,
    alloc: Global,
    attach: Attach,
) -> Result<Frames, SessionInnerError>
    ensures steady { Steady (L.told listener.old) (L.told listener.new) }
    ensures cause { IfErr result (AttachCause (L.kept listener.old).stop attach
        (L.told listener.old) (L.told listener.new)) }
    ensures kept { L.kept listener.new ≡ L.kept listener.old }
    ensures names { AcceptsLeaves (L.names listener.old) (L.names listener.new) attach.name result }
    ensures accepts { AcceptsAttach (AcceptsLink makes_none makes_none acceptor.now
        (L.kept listener.old).stop attach (OpensThrough L.calls.allocate_incoming_link
        L.calls.outgoing_flow L.calls.deallocate_link) listener.old listener.new) result }
{
    match acceptor.accept_incoming_attach(alloc, attach, listener) {
        Ok((end, frames)) => {
            drop(end);
            Ok(frames)
        }
        Err(error) => Err(attach_refusal(error)),
    }
}

/// An attach whose name doesn't wait: the listener queues it, and it is taken out of the queue.
///
/// # Requires
///
/// Its name doesn't wait.
fn take_queued<S: Session>(
    listener: &mut ListenerSession<S>,
    attach: Attach,
) -> Result<Attach, SessionInnerError>
    requires { (⟦<ListenerSession<S> as Session>⟧.names listener.old).known attach.name ≢ Waiting }
    ensures steady { Steady (⟦<ListenerSession<S> as Tells>⟧.told listener.old)
        (⟦<ListenerSession<S> as Tells>⟧.told listener.new) }
    ensures cause { OnErr result (Rose (⟦<ListenerSession<S> as Tells>⟧.told listener.old).refusals
        (⟦<ListenerSession<S> as Tells>⟧.told listener.new).refusals) }
    ensures same { inner_of listener.new ≡ inner_of listener.old }
    ensures attach { IfOk result (λ taken. taken ≡ attach) }
    ensures queue { queue_of listener.new ≡ queue_of listener.old }
    ensures takes { TakesQueued (λ a b answer. Took ⟦<ListenerSession<S> as Tells>⟧.told
        ⟦<ListenerSession<S> as LayerBelow>⟧.incoming_gives a b (frames.Attach attach) answer)
        listener.old listener.new attach result }
{
    let given = listener.on_incoming_attach(attach)?;
    drop(given);
    let Some(attach) = listener.take_newest_attach() else {
        unreachable!()
    };
    Ok(attach)
}

/// An attach whose name doesn't wait: it is accepted at once, where the listener queues it.
///
/// # Requires
///
/// Its name doesn't wait.
fn accept_queued<S: Session>(
    listener: &mut ListenerSession<S>,
    acceptor: &Acceptor,
    alloc: Global,
    attach: Attach,
) -> Result<Frames, SessionInnerError>
    requires { (⟦<ListenerSession<S> as Session>⟧.names listener.old).known attach.name ≢ Waiting }
    ensures steady { Steady (⟦<ListenerSession<S> as Tells>⟧.told listener.old)
        (⟦<ListenerSession<S> as Tells>⟧.told listener.new) }
    ensures opens { OpensAtOnce ⟦<ListenerSession<S> as Tells>⟧.told
        ⟦<ListenerSession<S> as Session>⟧.kept ⟦<ListenerSession<S> as Session>⟧.names
        ⟦<ListenerSession<S> as LayerBelow>⟧.incoming_gives
        (AcceptsOver ⟦<ListenerSession<S> as Session>⟧.kept
        ⟦<ListenerSession<S> as Session>⟧.calls.allocate_incoming_link
        ⟦<ListenerSession<S> as Session>⟧.calls.outgoing_flow
        ⟦<ListenerSession<S> as Session>⟧.calls.deallocate_link acceptor.now)
        listener.old listener.new attach result }
{
    let attach = take_queued(listener, attach)?;
    accept(listener, acceptor, alloc, attach)
}

/// An attach: the listener takes it, and where it is queued it is accepted at once.
pub fn hear_attach<S: Session>(
    listener: &mut ListenerSession<S>,
    acceptor: &Acceptor,
    alloc: Global,
    attach: Attach,
) -> Result<Frames, SessionInnerError>
    ensures steady { Steady (⟦<ListenerSession<S> as Tells>⟧.told listener.old)
        (⟦<ListenerSession<S> as Tells>⟧.told listener.new) }
    ensures opens { OpensAtOnce ⟦<ListenerSession<S> as Tells>⟧.told
        ⟦<ListenerSession<S> as Session>⟧.kept ⟦<ListenerSession<S> as Session>⟧.names
        ⟦<ListenerSession<S> as LayerBelow>⟧.incoming_gives
        (AcceptsOver ⟦<ListenerSession<S> as Session>⟧.kept
        ⟦<ListenerSession<S> as Session>⟧.calls.allocate_incoming_link
        ⟦<ListenerSession<S> as Session>⟧.calls.outgoing_flow
        ⟦<ListenerSession<S> as Session>⟧.calls.deallocate_link acceptor.now)
        listener.old listener.new attach result }
{
    match listener.name_state(&attach.name) {
        NameState::Waiting => listener.on_incoming_attach(attach),
        NameState::Unknown | NameState::Taken => {
            accept_queued(listener, acceptor, alloc, attach)
        }
    }
}
