//! The acceptor for local receivers.

ghost use Rattle.std.specs.Prelude.{◌≡◌};
ghost use Rattle.amqp_accept_links.specs.Acceptance.{AcceptLeaves, AcceptStoppedBy, ReceiverTold, ReceiverToldStop};
ghost use Rattle.amqp_accept_links.specs.OpenLinks.{OpensThrough};
ghost use Rattle.amqp_accept_links.specs.Receivers.{receiver_output, receiver_wire};

use crate::credit::CreditMode;
use crate::dynamic::{OnDynamic, RejectDynamic};
use crate::fields::SharedLinkAcceptorFields;
use crate::open_link::Opening;
use crate::reply::credit_flow;
use crate::termini::{TargetKind, kind_of_target, local_terminus};
use amqp_below_sessions::{ReceiverAttachError, Session};
use amqp_links::WireReceiver;
use amqp_txn_types::{
    Attach, Frames, LinkEnd, NoMemory, OutputHandle, Role, Symbols, Target, TryClone,
};
use std::alloc::Global;
use std::marker::PhantomData;

/// What an acceptor gives a local receiver, whose target is a `T`. Part 2 of the standard, section
/// 2.7.3 (attach).
#[derive(Debug, Drop, PartialEq)]
pub struct LocalReceiverLinkAcceptor<T, F> {
    /// How it grants credit; 200 once the link is accepted, by default.
    pub credit_mode: CreditMode,
    /// What its target can do; none by default.
    pub target_capabilities: Option<Symbols>,
    /// Whether it accepts all deliveries by itself; false by default. It is kept for link bodies.
    pub auto_accept: bool,
    /// The rule for a target that the peer wants to be made.
    pub on_dynamic_target: F,
    /// Whether the link's body is to verify the peer's source; true by default.
    pub verify_incoming_source: bool,
    /// Whether the link's body is to verify the peer's target; true by default.
    pub verify_incoming_target: bool,
    /// The kind of target.
    pub target: PhantomData<T>,
}

impl<T> Default for LocalReceiverLinkAcceptor<T, RejectDynamic> {
    ghost use Rattle.amqp_accept_links.specs.Receivers.{IsDefaultReceiver};

    ghost is_default = { IsDefaultReceiver };

    fn default() -> Self {
        LocalReceiverLinkAcceptor {
            credit_mode: CreditMode::default(),
            target_capabilities: None,
            auto_accept: false,
            on_dynamic_target: RejectDynamic,
            verify_incoming_source: true,
            verify_incoming_target: true,
            target: PhantomData,
        }
    }
}

impl<T> TryClone for LocalReceiverLinkAcceptor<T, RejectDynamic> {
    fn try_clone(&self) -> Result<Self, NoMemory> {
        Ok(LocalReceiverLinkAcceptor {
            credit_mode: self.credit_mode,
            target_capabilities: self.target_capabilities.try_clone()?,
            auto_accept: self.auto_accept,
            on_dynamic_target: self.on_dynamic_target,
            verify_incoming_source: self.verify_incoming_source,
            verify_incoming_target: self.verify_incoming_target,
            target: self.target,
        })
    }
}

impl<F: OnDynamic<Target>> LocalReceiverLinkAcceptor<Target, F> {
    ghost use Rattle.amqp_accept_links.specs.Receivers.{AcceptsTarget};

    /// Accepts the link of a peer's sender whose target takes messages.
    ///
    /// It is [`LocalReceiverLinkAcceptor::accept_incoming_attach_inner`] for such a target.
    ///
    /// # Requires
    ///
    /// The rule for dynamic targets may be asked.
    pub fn accept_incoming_attach<S: Session>(
        &self,
        alloc: Global,
        shared: &SharedLinkAcceptorFields,
        remote: Attach,
        session: &mut S,
    ) -> Result<(WireReceiver, Frames), ReceiverAttachError>
        requires { F.can_decide self.now.on_dynamic_target }
        ensures told { ReceiverTold (S.told session.old) (S.told session.new) result }
        ensures kept { S.kept session.new ≡ S.kept session.old }
        ensures stopped { AcceptStoppedBy ReceiverToldStop (S.kept session.old).stop result }
        ensures names { AcceptLeaves receiver_output (S.names session.old) (S.names session.new)
            remote.name result }
        ensures accepts { AcceptsTarget (F.decides self.now.on_dynamic_target)
            self.now.target_capabilities shared.now self.now.credit_mode remote
            (OpensThrough S.calls.allocate_incoming_link S.calls.outgoing_flow
            S.calls.deallocate_link) session.old session.new result }
    {
        self.accept_incoming_attach_inner(alloc, shared, remote, session)
    }
}

impl<T: TargetKind, F: OnDynamic<T>> LocalReceiverLinkAcceptor<T, F> {
    ghost use Rattle.std.specs.Prelude.{IfOk};
    ghost use Rattle.amqp_below_sessions.specs.declared.attach_errors.ReceiverAttachError.TheVariants as refusals;
    ghost use Rattle.amqp_accept_links.specs.Acceptance.{AcceptsBy};
    ghost use Rattle.amqp_accept_links.specs.Receivers.{AcceptsReceiver, ReceiverReady, receiver_answer};
    ghost use Rattle.amqp_accept_links.specs.Termini.{LocalTerminus};

    /// The link, ready to be opened. The only error is out of memory.
    fn prepare(
        &self,
        alloc: Global,
        shared: &SharedLinkAcceptorFields,
        mut remote: Attach,
        target: Option<T>,
    ) -> Result<Opening, NoMemory>
        requires { F.can_decide self.now.on_dynamic_target }
        ensures { IfOk result (ReceiverReady (LocalTerminus (F.decides self.now.on_dynamic_target)
            T.is_dynamic (T.with_capabilities self.now.target_capabilities) target)
            T.archetype shared.now self.now.credit_mode remote) }
    {
        let rule = &self.on_dynamic_target;
        let Ok(local) = local_terminus(rule, target, &self.target_capabilities) else {
            drop(remote);
            return Err(NoMemory);
        };
        let credit = credit_flow(self.credit_mode, &remote);
        remote.target = local.map(T::into_archetype);
        Opening::new(alloc, shared, remote, Role::Receiver, None, credit)
    }

    /// Accepts the link of a peer's sender whose target is of this acceptor's kind: its frames are
    /// the attach that answers the peer's and, where credit is granted, the flow that grants it.
    /// Part 2 of the standard, section 2.6.3 (establishing a link).
    ///
    /// # Errors
    ///
    /// - `CoordinatorIsNotImplemented` exactly where there is a target and it is of another kind.
    /// - Else `Alloc` where the session doesn't allocate the link.
    /// - `Session` where the session refuses the flow; the output handle that it allocated is then
    ///   freed.
    /// - `NoMemory` where memory runs out, of the session too.
    ///
    /// # Requires
    ///
    /// The rule for dynamic targets may be asked.
    pub fn accept_incoming_attach_inner<S: Session>(
        &self,
        alloc: Global,
        shared: &SharedLinkAcceptorFields,
        mut remote: Attach,
        session: &mut S,
    ) -> Result<(WireReceiver, Frames), ReceiverAttachError>
        requires { F.can_decide self.now.on_dynamic_target }
        ensures told { ReceiverTold (S.told session.old) (S.told session.new) result }
        ensures kept { S.kept session.new ≡ S.kept session.old }
        ensures stopped { AcceptStoppedBy ReceiverToldStop (S.kept session.old).stop result }
        ensures names { AcceptLeaves receiver_output (S.names session.old) (S.names session.new)
            remote.name result }
        ensures accepts { AcceptsReceiver (F.decides self.now.on_dynamic_target) T.is_dynamic
            (T.with_capabilities self.now.target_capabilities) T.of_archetype T.archetype
            shared.now self.now.credit_mode remote (OpensThrough S.calls.allocate_incoming_link
            S.calls.outgoing_flow S.calls.deallocate_link) session.old session.new result }
    {
        let Some(target) = kind_of_target(remote.target.take()) else {
            return Err(ReceiverAttachError::CoordinatorIsNotImplemented);
        };
        self.accept_of_kind(alloc, shared, remote, target, session)
    }

    /// Accepts the link of a peer's sender with this target, which is of the acceptor's kind.
    fn accept_of_kind<S: Session>(
        &self,
        alloc: Global,
        shared: &SharedLinkAcceptorFields,
        remote: Attach,
        target: Option<T>,
        session: &mut S,
    ) -> Result<(WireReceiver, Frames), ReceiverAttachError>
        requires { F.can_decide self.now.on_dynamic_target }
        ensures told { ReceiverTold (S.told session.old) (S.told session.new) result }
        ensures kept { S.kept session.new ≡ S.kept session.old }
        ensures stopped { AcceptStoppedBy ReceiverToldStop (S.kept session.old).stop result }
        ensures names { AcceptLeaves receiver_output (S.names session.old) (S.names session.new)
            remote.name result }
        ensures accepts { AcceptsBy (ReceiverReady (LocalTerminus
            (F.decides self.now.on_dynamic_target) T.is_dynamic
            (T.with_capabilities self.now.target_capabilities) target) T.archetype shared.now
            self.now.credit_mode remote) (OpensThrough S.calls.allocate_incoming_link
            S.calls.outgoing_flow S.calls.deallocate_link) receiver_answer refusals.NoMemory
            session.old session.new result }
    {
        let Ok(opening) = self.prepare(alloc, shared, remote, target) else {
            return Err(ReceiverAttachError::NoMemory);
        };
        let Ok(mut end) = opening.end(OutputHandle(0)) else {
            drop(opening);
            return Err(ReceiverAttachError::NoMemory);
        };
        let (output, frames) = opening.open(session)?;
        end.output = output;
        Ok((new_wire(alloc, end), frames))
    }
}

/// A receiving end on which nothing was put and nothing waits.
fn new_wire(alloc: Global, end: LinkEnd) -> WireReceiver
    ensures { result ≡ receiver_wire end }
{
    WireReceiver::new(alloc, end)
}
