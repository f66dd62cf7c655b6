//! The acceptor for links of both roles.

ghost use Rattle.std.specs.Prelude.{◌≡◌, Some, codes, option_copied};
ghost use Rattle.amqp_accept_links.specs.Handles.{TellsStopOrEnd};
ghost use Rattle.amqp_accept_links.specs.LinkAcceptors.{TellsStop};

use crate::builder::{Acceptor, Builder};
use crate::dynamic::{OnDynamic, RejectDynamic};
use crate::endpoint::{AcceptorAttachError, LinkEndpoint};
use crate::fields::SharedLinkAcceptorFields;
use crate::handle::ListenerSessionHandle;
use crate::receiver::LocalReceiverLinkAcceptor;
use crate::sender::LocalSenderLinkAcceptor;
use amqp_below_sessions::{
    ListenerSessionEndpoint, ReceiverAttachError, SenderAttachError, Session,
};
use amqp_links::Poll;
use amqp_txn_types::{
    Attach, Frames, NoMemory, Role, SessionStopReason, Source, Target, TryClone, is_coordinator,
};
use std::alloc::Global;
use std::fmt;

/// The acceptor for links whose target takes messages: a peer's sender gives a local receiver, and
/// the reverse. Part 2 of the standard, section 2.6.3 (establishing a link).
#[derive(Debug, Drop, PartialEq)]
pub struct LinkAcceptor<FS, FT> {
    /// What all its links have in common.
    pub shared: SharedLinkAcceptorFields,
    /// What it gives a local sender.
    pub local_sender_acceptor: LocalSenderLinkAcceptor<FS>,
    /// What it gives a local receiver.
    pub local_receiver_acceptor: LocalReceiverLinkAcceptor<Target, FT>,
}

/// What a link acceptor gives the local ends.
#[derive(Debug, Drop, PartialEq)]
pub struct LocalEnds<FS, FT> {
    /// What it gives a local sender.
    pub sender: LocalSenderLinkAcceptor<FS>,
    /// What it gives a local receiver.
    pub receiver: LocalReceiverLinkAcceptor<Target, FT>,
}

impl<FS, FT> Acceptor for LinkAcceptor<FS, FT> {
    type Ends = LocalEnds<FS, FT>;

    ghost of_parts = { λ shared ends. record {
      shared = shared;
      local_sender_acceptor = ends.sender;
      local_receiver_acceptor = ends.receiver;
    } };

    fn of_parts(shared: SharedLinkAcceptorFields, ends: Self::Ends) -> Self {
        LinkAcceptor {
            shared,
            local_sender_acceptor: ends.sender,
            local_receiver_acceptor: ends.receiver,
        }
    }
}

impl<FS, FT> fmt::Display for LinkAcceptor<FS, FT> {
    ghost output = { λ _. Some (codes "LinkAcceptor") };

    fn fmt<W: fmt::Write>(&self, f: &mut fmt::Formatter<W>) -> fmt::Result {
        f.write_str("LinkAcceptor")
    }
}

impl Default for LinkAcceptor<RejectDynamic, RejectDynamic> {
    ghost use Rattle.amqp_accept_links.specs.Fields.{default_shared};
    ghost use Rattle.amqp_accept_links.specs.Receivers.{IsDefaultReceiver};
    ghost use Rattle.amqp_accept_links.specs.Senders.{IsDefaultSender};

    ghost is_default = { λ acceptor. (acceptor.shared ≡ default_shared)
        × IsDefaultSender acceptor.local_sender_acceptor
        × IsDefaultReceiver acceptor.local_receiver_acceptor };

    fn default() -> Self {
        LinkAcceptor {
            shared: SharedLinkAcceptorFields::default(),
            local_sender_acceptor: LocalSenderLinkAcceptor::default(),
            local_receiver_acceptor: LocalReceiverLinkAcceptor::default(),
        }
    }
}

impl TryClone for LinkAcceptor<RejectDynamic, RejectDynamic> {
    fn try_clone(&self) -> Result<Self, NoMemory> {
        Ok(LinkAcceptor {
            shared: self.shared.try_clone()?,
            local_sender_acceptor: self.local_sender_acceptor.try_clone()?,
            local_receiver_acceptor: self.local_receiver_acceptor.try_clone()?,
        })
    }
}

impl LinkAcceptor<RejectDynamic, RejectDynamic> {
    ghost use Rattle.amqp_accept_links.specs.Fields.{default_shared};
    ghost use Rattle.amqp_accept_links.specs.Receivers.{IsDefaultReceiver};
    ghost use Rattle.amqp_accept_links.specs.Senders.{IsDefaultSender};

    /// The default acceptor, which makes no nodes.
    pub fn new() -> Self
        ensures shared { result.shared ≡ default_shared }
        ensures sender { IsDefaultSender result.local_sender_acceptor }
        ensures receiver { IsDefaultReceiver result.local_receiver_acceptor }
    {
        Self::default()
    }

    /// A builder of the default acceptor.
    pub fn builder() -> Builder<Self>
        ensures shared { result.shared ≡ default_shared }
        ensures sender { IsDefaultSender result.ends.sender }
        ensures receiver { IsDefaultReceiver result.ends.receiver }
    {
        Self::new().into_builder()
    }
}

impl<FS, FT> LinkAcceptor<FS, FT> {
    /// A builder that begins with this acceptor's fields.
    pub fn into_builder(self) -> Builder<Self>
        ensures shared { result.shared ≡ self.shared }
        ensures sender { result.ends.sender ≡ self.local_sender_acceptor }
        ensures receiver { result.ends.receiver ≡ self.local_receiver_acceptor }
    {
        Builder {
            shared: self.shared,
            ends: LocalEnds {
                sender: self.local_sender_acceptor,
                receiver: self.local_receiver_acceptor,
            },
        }
    }
}

impl<FS: OnDynamic<Source>, FT: OnDynamic<Target>> LinkAcceptor<FS, FT> {
    ghost use Rattle.amqp_accept_links.specs.Acceptance.{AcceptLeaves, AcceptStoppedBy};
    ghost use Rattle.amqp_accept_links.specs.Handles.{AcceptsNext, NextLeaves, NextStoppedBy, NextTold, next_incoming};
    ghost use Rattle.amqp_accept_links.specs.LinkAcceptors.{AcceptsLink, LinkTold, LinkToldStop, link_output};
    ghost use Rattle.amqp_accept_links.specs.OpenLinks.{OpensThrough};
    ghost use Rattle.amqp_below_sessions.specs.Queues.{without_first};
    ghost use Rattle.amqp_below_sessions.specs.Sessions.{with_queue};

    /// Accepts a link: its frames are the attach that answers the peer's and, for a local receiver
    /// that grants credit, the flow that grants it.
    ///
    /// # Errors
    ///
    /// - `SessionStopped` where the session keeps a reason why it stopped.
    /// - Else `LocalReceiver` with `CoordinatorIsNotImplemented` where the target is a coordinator,
    ///   whatever the peer's role.
    /// - Else that of the local end, by the peer's role. Out of memory is that of the local end.
    ///
    /// # Requires
    ///
    /// The rules for dynamic sources and targets may be asked.
    pub fn accept_incoming_attach<S: Session>(
        &self,
        alloc: Global,
        remote: Attach,
        session: &mut S,
    ) -> Result<(LinkEndpoint, Frames), AcceptorAttachError>
        requires source { FS.can_decide self.now.local_sender_acceptor.on_dynamic_source }
        requires target { FT.can_decide self.now.local_receiver_acceptor.on_dynamic_target }
        ensures told { LinkTold (S.told session.old) (S.told session.new) result }
        ensures kept { S.kept session.new ≡ S.kept session.old }
        ensures stopped { AcceptStoppedBy LinkToldStop (S.kept session.old).stop result }
        ensures names { AcceptLeaves link_output (S.names session.old) (S.names session.new)
            remote.name result }
        ensures accepts { AcceptsLink
            (FS.decides self.now.local_sender_acceptor.on_dynamic_source)
            (FT.decides self.now.local_receiver_acceptor.on_dynamic_target)
            self.now (S.kept session.old).stop remote (OpensThrough
            S.calls.allocate_incoming_link S.calls.outgoing_flow S.calls.deallocate_link)
            session.old session.new result }
    {
        if let Some(reason) = session.session_stop_reason() {
            let error = stopped(reason, remote.role);
            drop(remote);
            return Err(error);
        }
        if is_coordinator(&remote) {
            drop(remote);
            return Err(AcceptorAttachError::LocalReceiver(
                ReceiverAttachError::CoordinatorIsNotImplemented,
            ));
        }
        match remote.role {
            Role::Sender => {
                let (receiver, frames) = self
                    .local_receiver_acceptor
                    .accept_incoming_attach(alloc, &self.shared, remote, session)?;
                Ok((LinkEndpoint::Receiver(receiver), frames))
            }
            Role::Receiver => {
                let (sender, frames) = self
                    .local_sender_acceptor
                    .accept_incoming_attach(alloc, &self.shared, remote, session)?;
                Ok((LinkEndpoint::Sender(sender), frames))
            }
        }
    }

    /// Takes the attach that came first out of the session's queue, and accepts it. It is `Pending`
    /// exactly where the queue is empty and not closed. The queue is then the old one without its
    /// first attach, whatever is answered.
    ///
    /// # Errors
    ///
    /// - `SessionStopped` where the queue is closed and empty, with the reason that the session
    ///   keeps, or `Ended` where it keeps none; out of memory to copy that reason is that of a
    ///   local receiver.
    /// - Else those of [`LinkAcceptor::accept_incoming_attach`]; the attach is then out of the
    ///   queue.
    ///
    /// # Requires
    ///
    /// The rules for dynamic sources and targets may be asked.
    pub fn accept<E: ListenerSessionEndpoint>(
        &self,
        alloc: Global,
        handle: &mut ListenerSessionHandle<'_, E>,
    ) -> Poll<Result<(LinkEndpoint, Frames), AcceptorAttachError>>
        requires source { FS.can_decide self.now.local_sender_acceptor.on_dynamic_source }
        requires target { FT.can_decide self.now.local_receiver_acceptor.on_dynamic_target }
        ensures same { handle.new.session.ghost_name ≡ handle.old.session.ghost_name }
        ensures told { NextTold (E.told handle.old.session.now) (E.told handle.new.session.now)
            result }
        ensures kept { E.kept handle.new.session.now ≡ with_queue (E.kept handle.old.session.now)
            (without_first (E.kept handle.old.session.now).queue) }
        ensures stopped { NextStoppedBy (next_incoming (E.kept handle.old.session.now).queue)
            (E.kept handle.old.session.now).stop result }
        ensures names { NextLeaves (next_incoming (E.kept handle.old.session.now).queue)
            (E.names handle.old.session.now) (E.names handle.new.session.now) result }
        ensures accepts { AcceptsNext E.next_attach_gives (E.kept handle.old.session.now).queue
            (E.kept handle.old.session.now).stop (λ remote. AcceptsLink
            (FS.decides self.now.local_sender_acceptor.on_dynamic_source)
            (FT.decides self.now.local_receiver_acceptor.on_dynamic_target)
            self.now (E.kept handle.old.session.now).stop remote (OpensThrough
            E.calls.allocate_incoming_link E.calls.outgoing_flow E.calls.deallocate_link))
            handle.old.session.now handle.new.session.now result }
    {
        match handle.next_incoming_attach() {
            Poll::Pending => Poll::Pending,
            Poll::Ready(None) => {
                let reason = handle.session.session_stop_reason();
                Poll::Ready(Err(stopped_or_ended(reason)))
            }
            Poll::Ready(Some(remote)) => {
                let answer = self.accept_incoming_attach(alloc, remote, &mut *handle.session);
                Poll::Ready(answer)
            }
        }
    }
}

/// That the session had stopped: for the reason that is kept, or out of memory at a local receiver
/// to tell it; or because it ended, where none is kept.
fn stopped_or_ended(reason: Option<&SessionStopReason>) -> AcceptorAttachError
    ensures { TellsStopOrEnd (option_copied reason.entry) result }
{
    match reason {
        Some(reason) => stopped(reason, Role::Sender),
        None => AcceptorAttachError::SessionStopped(SessionStopReason::Ended),
    }
}

/// That the session had stopped; or out of memory at the local end, by the peer's role.
fn stopped(reason: &SessionStopReason, role: Role) -> AcceptorAttachError
    ensures { TellsStop reason.now role result }
{
    match (reason.try_clone(), role) {
        (Ok(reason), _) => AcceptorAttachError::SessionStopped(reason),
        (Err(_), Role::Sender) => AcceptorAttachError::LocalReceiver(ReceiverAttachError::NoMemory),
        (Err(_), Role::Receiver) => AcceptorAttachError::LocalSender(SenderAttachError::NoMemory),
    }
}
