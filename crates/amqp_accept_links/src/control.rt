//! The acceptor for control links.

ghost use Rattle.std.specs.Prelude.{◌≡◌, IsTrue, IfOk};
ghost use Rattle.amqp_txn_types.specs.Frames.{attaches_coordinator};
ghost use Rattle.amqp_below_sessions.specs.declared.attach_errors.ReceiverAttachError.TheVariants as refusals;
ghost use Rattle.amqp_accept_links.specs.Acceptance.{AcceptLeaves, AcceptStoppedBy, AcceptsBy, ReceiverTold, ReceiverToldStop};
ghost use Rattle.amqp_accept_links.specs.OpenLinks.{OpensThrough};

use crate::builder::{Acceptor, Builder};
use crate::dynamic::RejectDynamic;
use crate::fields::SharedLinkAcceptorFields;
use crate::open_link::Opening;
use crate::receiver::LocalReceiverLinkAcceptor;
use crate::reply::credit_flow;
use amqp_below_sessions::{ReceiverAttachError, Session};
use amqp_txn_types::{Attach, Coordinator, Frames, NoMemory, Role, TargetArchetype, TryClone};
use std::alloc::Global;

/// The acceptor for control links: those on which a peer declares and discharges transactions.
/// Part 4 of the standard, section 4.2 (declaring a transaction).
#[derive(Debug, Drop, PartialEq)]
pub struct ControlLinkAcceptor {
    /// What all its links have in common.
    pub shared: SharedLinkAcceptorFields,
    /// What it gives the local receiver. A coordinator is never dynamic, so its rule isn't asked.
    pub receiver: LocalReceiverLinkAcceptor<Coordinator, RejectDynamic>,
}

impl Default for ControlLinkAcceptor {
    ghost use Rattle.amqp_accept_links.specs.Receivers.{IsDefaultReceiver};
    ghost use Rattle.amqp_accept_links.specs.Fields.{default_shared};

    ghost is_default = { λ acceptor. (acceptor.shared ≡ default_shared)
        × IsDefaultReceiver acceptor.receiver };

    fn default() -> Self {
        ControlLinkAcceptor {
            shared: SharedLinkAcceptorFields::default(),
            receiver: LocalReceiverLinkAcceptor::default(),
        }
    }
}

/// Its local end is a receiver.
impl Acceptor for ControlLinkAcceptor {
    type Ends = LocalReceiverLinkAcceptor<Coordinator, RejectDynamic>;

    ghost of_parts = { λ shared receiver. record { shared = shared; receiver = receiver } };

    fn of_parts(shared: SharedLinkAcceptorFields, receiver: Self::Ends) -> Self {
        ControlLinkAcceptor { shared, receiver }
    }
}

impl TryClone for ControlLinkAcceptor {
    fn try_clone(&self) -> Result<Self, NoMemory> {
        Ok(ControlLinkAcceptor {
            shared: self.shared.try_clone()?,
            receiver: self.receiver.try_clone()?,
        })
    }
}

impl ControlLinkAcceptor {
    ghost use Rattle.amqp_accept_links.specs.Fields.{default_shared};
    ghost use Rattle.amqp_accept_links.specs.Receivers.{IsDefaultReceiver, control_answer, control_opening, output_told};

    /// A builder of the default acceptor.
    pub fn builder() -> Builder<Self>
        ensures shared { result.shared ≡ default_shared }
        ensures receiver { IsDefaultReceiver result.ends }
    {
        Builder {
            shared: SharedLinkAcceptorFields::default(),
            ends: LocalReceiverLinkAcceptor::default(),
        }
    }

    /// A control link, ready to be opened. Its target is a coordinator, whatever the attach's is.
    /// The only error is out of memory.
    pub fn prepare(&self, alloc: Global, remote: &Attach) -> Result<Opening, NoMemory>
        ensures { IfOk result (λ opening. opening ≡ control_opening self.now remote.now) }
    {
        let coordinator = Coordinator {
            capabilities: self.receiver.target_capabilities.try_clone()?,
        };
        let mut local = remote.try_clone()?;
        local.target = Some(TargetArchetype::Coordinator(coordinator));
        let credit = credit_flow(self.receiver.credit_mode, remote);
        Opening::new(alloc, &self.shared, local, Role::Receiver, None, credit)
    }

    /// Accepts a control link: its frames are the attach that answers the peer's and, where credit
    /// is granted, the flow that grants it. Part 2 of the standard, section 2.6.3 (establishing a
    /// link).
    ///
    /// # Errors
    ///
    /// - `Alloc` where the session doesn't allocate the link.
    /// - `Session` where the session refuses the flow; the output handle that it allocated is then
    ///   freed.
    /// - `NoMemory` where memory runs out, of the session too.
    ///
    /// It is never `CoordinatorIsNotImplemented`.
    ///
    /// # Requires
    ///
    /// The attach's target is a coordinator.
    pub fn accept_incoming_attach<S: Session>(
        &self,
        alloc: Global,
        remote: &Attach,
        session: &mut S,
    ) -> Result<Frames, ReceiverAttachError>
        requires { IsTrue (attaches_coordinator remote.now) }
        ensures told { ReceiverTold (S.told session.old) (S.told session.new) result }
        ensures kept { S.kept session.new ≡ S.kept session.old }
        ensures stopped { AcceptStoppedBy ReceiverToldStop (S.kept session.old).stop result }
        ensures names { AcceptLeaves output_told (S.names session.old) (S.names session.new)
            remote.now.name result }
        ensures accepts { AcceptsBy (λ opening. opening ≡ control_opening self.now remote.now)
            (OpensThrough S.calls.allocate_incoming_link S.calls.outgoing_flow
            S.calls.deallocate_link) control_answer refusals.NoMemory session.old session.new
            result }
    {
        let Ok(opening) = self.prepare(alloc, remote) else {
            return Err(ReceiverAttachError::NoMemory);
        };
        let (_output, frames) = opening.open(session)?;
        Ok(frames)
    }
}
