//! The acceptor for local senders.

ghost use Rattle.std.specs.Prelude.{◌≡◌};
ghost use Rattle.amqp_accept_links.specs.Senders.{sender_wire};

use crate::dynamic::{OnDynamic, RejectDynamic};
use crate::fields::SharedLinkAcceptorFields;
use crate::open_link::Opening;
use crate::termini::local_terminus;
use amqp_below_sessions::{SenderAttachError, Session};
use amqp_links::WireSender;
use amqp_txn_types::{
    Attach, Frames, LinkEnd, NoMemory, OutputHandle, Role, Source, Symbols, TryClone,
};
use std::alloc::Global;

/// What an acceptor gives a local sender. Part 2 of the standard, section 2.7.3 (attach).
#[derive(Debug, Drop, PartialEq)]
pub struct LocalSenderLinkAcceptor<F> {
    /// The delivery count that it begins with; 0 by default.
    pub initial_delivery_count: u32,
    /// What its source can do; none by default.
    pub source_capabilities: Option<Symbols>,
    /// The rule for a source that the peer wants to be made.
    pub on_dynamic_source: F,
    /// Whether the link's body is to verify the peer's source; true by default.
    pub verify_incoming_source: bool,
    /// Whether the link's body is to verify the peer's target; true by default.
    pub verify_incoming_target: bool,
}

impl Default for LocalSenderLinkAcceptor<RejectDynamic> {
    ghost use Rattle.amqp_accept_links.specs.Senders.{IsDefaultSender};

    ghost is_default = { IsDefaultSender };

    fn default() -> Self {
        LocalSenderLinkAcceptor {
            initial_delivery_count: 0,
            source_capabilities: None,
            on_dynamic_source: RejectDynamic,
            verify_incoming_source: true,
            verify_incoming_target: true,
        }
    }
}

impl TryClone for LocalSenderLinkAcceptor<RejectDynamic> {
    fn try_clone(&self) -> Result<Self, NoMemory> {
        Ok(LocalSenderLinkAcceptor {
            initial_delivery_count: self.initial_delivery_count,
            source_capabilities: self.source_capabilities.try_clone()?,
            on_dynamic_source: self.on_dynamic_source,
            verify_incoming_source: self.verify_incoming_source,
            verify_incoming_target: self.verify_incoming_target,
        })
    }
}

impl<F: OnDynamic<Source>> LocalSenderLinkAcceptor<F> {
    ghost use Rattle.std.specs.Prelude.{IfOk};
    ghost use Rattle.amqp_accept_links.specs.Acceptance.{AcceptLeaves, AcceptStoppedBy, SenderToldStop};
    ghost use Rattle.amqp_accept_links.specs.OpenLinks.{OpensThrough};
    ghost use Rattle.amqp_accept_links.specs.Senders.{AcceptsSource, LocalSource, SenderReady, SenderTold, sender_output};

    /// The link, ready to be opened. The only error is out of memory.
    fn prepare(
        &self,
        alloc: Global,
        shared: &SharedLinkAcceptorFields,
        mut remote: Attach,
    ) -> Result<Opening, NoMemory>
        requires { F.can_decide self.now.on_dynamic_source }
        ensures { IfOk result (SenderReady (LocalSource (F.decides self.now.on_dynamic_source)
            self.now.source_capabilities remote.source) shared.now
            self.now.initial_delivery_count remote) }
    {
        let rule = &self.on_dynamic_source;
        let source = remote.source.take();
        let Ok(source) = local_terminus(rule, source, &self.source_capabilities) else {
            drop(remote);
            return Err(NoMemory);
        };
        remote.source = source;
        let count = Some(self.initial_delivery_count);
        Opening::new(alloc, shared, remote, Role::Sender, count, None)
    }

    /// Accepts the link of a peer's receiver: its frame is the attach that answers the peer's. Part
    /// 2 of the standard, section 2.6.3 (establishing a link). The peer's target is answered as it
    /// is.
    ///
    /// # Errors
    ///
    /// - `Alloc` where the session doesn't allocate the link.
    /// - `NoMemory` where memory runs out, of the session too.
    ///
    /// It is never `SessionStopped` or `Session`.
    ///
    /// # Requires
    ///
    /// The rule for dynamic sources may be asked.
    pub fn accept_incoming_attach<S: Session>(
        &self,
        alloc: Global,
        shared: &SharedLinkAcceptorFields,
        remote: Attach,
        session: &mut S,
    ) -> Result<(WireSender, Frames), SenderAttachError>
        requires { F.can_decide self.now.on_dynamic_source }
        ensures told { SenderTold (S.told session.old) (S.told session.new) result }
        ensures kept { S.kept session.new ≡ S.kept session.old }
        ensures stopped { AcceptStoppedBy SenderToldStop (S.kept session.old).stop result }
        ensures names { AcceptLeaves sender_output (S.names session.old) (S.names session.new)
            remote.name result }
        ensures accepts { AcceptsSource (F.decides self.now.on_dynamic_source)
            self.now.source_capabilities shared.now self.now.initial_delivery_count remote
            (OpensThrough S.calls.allocate_incoming_link S.calls.outgoing_flow
            S.calls.deallocate_link) session.old session.new result }
    {
        let Ok(opening) = self.prepare(alloc, shared, remote) else {
            return Err(SenderAttachError::NoMemory);
        };
        let Ok(mut end) = opening.end(OutputHandle(0)) else {
            drop(opening);
            return Err(SenderAttachError::NoMemory);
        };
        let (output, frames) = opening.open(session)?;
        end.output = output;
        Ok((new_wire(alloc, end), frames))
    }
}

/// A sending end on which nothing was put.
fn new_wire(alloc: Global, end: LinkEnd) -> WireSender
    ensures { result ≡ sender_wire end }
{
    WireSender::new(alloc, end)
}
