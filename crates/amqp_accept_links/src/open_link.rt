//! Opening a link that the peer attached.

ghost use Rattle.std.specs.Prelude.{◌≡◌, IfOk};
ghost use Rattle.amqp_below_layer.specs.Told.{Checks};
ghost use Rattle.amqp_accept_links.specs.OpenLinks.{OpenLeaves, OpenStoppedBy, OpensThrough, relay_of};
ghost use Rattle.amqp_accept_links.specs.declared.open_link.OpenError.TheVariants as errors;

use crate::fields::SharedLinkAcceptorFields;
use crate::reply::{Reply, reply_to};
use amqp_below_layer::SessionInnerError;
use amqp_below_sessions::{AllocLinkError, Relay, Session};
use amqp_txn_types::{
    Attach, Frames, InputHandle, LinkEnd, LinkFlow, LinkFlows, NoMemory, OutputHandle,
    ReceiverSettleMode, Role, Text, TryClone,
};
use std::alloc::Global;

/// A link of the peer's that is ready to be opened: all that the session keeps of it, and all that
/// is sent for it but its output handle.
#[derive(Drop)]
pub struct Opening {
    /// The link's name.
    pub name: Text,
    /// What the session passes on to it.
    pub relay: Relay,
    /// The peer's handle.
    pub input: InputHandle,
    /// What is sent for it.
    pub reply: Reply,
}

/// Why a link isn't opened.
#[derive(Debug, Drop, PartialEq)]
pub enum OpenError {
    /// The session doesn't allocate it.
    Alloc(AllocLinkError),
    /// The session refuses its flow.
    Session(SessionInnerError),
}

impl From<AllocLinkError> for OpenError {
    ghost from_gives = { λ refused error. error ≡ errors.Alloc refused };

    fn from(error: AllocLinkError) -> Self {
        OpenError::Alloc(error)
    }
}

impl From<SessionInnerError> for OpenError {
    ghost from_gives = { λ refused error. error ≡ errors.Session refused };

    fn from(error: SessionInnerError) -> Self {
        OpenError::Session(error)
    }
}

impl Opening {
    ghost use Rattle.amqp_accept_links.specs.OpenLinks.{end_of, opening_of};

    /// The peer's link with this side's terminus in its place, ready to be opened. The only error
    /// is out of memory.
    pub(crate) fn new(
        alloc: Global,
        shared: &SharedLinkAcceptorFields,
        remote: Attach,
        role: Role,
        initial_delivery_count: Option<u32>,
        credit: Option<LinkFlow>,
    ) -> Result<Self, NoMemory>
        ensures { IfOk result (λ opening. opening ≡ opening_of shared.now remote role
            initial_delivery_count credit) }
    {
        let mode = shared.receiver_mode_for(remote.rcv_settle_mode);
        let relay = new_relay(alloc, remote.name.try_clone()?, role, mode);
        let name = remote.name.try_clone()?;
        let input = InputHandle(remote.handle.0);
        let attach = reply_to(shared, remote, role, initial_delivery_count)?;
        let reply = Reply::new(alloc, attach, credit)?;
        Ok(Opening {
            name,
            relay,
            input,
            reply,
        })
    }

    /// What the link's end will know of itself under an output handle. The only error is out of
    /// memory.
    pub(crate) fn end(&self, output: OutputHandle) -> Result<LinkEnd, NoMemory>
        ensures { IfOk result (λ end. end ≡ end_of self.now output) }
    {
        Ok(LinkEnd {
            name: self.name.try_clone()?,
            role: self.relay.role,
            output,
            snd_settle_mode: self.reply.sender_mode(),
            rcv_settle_mode: self.relay.rcv_settle_mode,
        })
    }

    /// Opens the link: the session allocates it, and then its reply is sent. It gives the link's
    /// output handle and the frames of the reply.
    ///
    /// # Errors
    ///
    /// - `Alloc` where the session doesn't allocate it.
    /// - `Session` where the session refuses its flow; the output handle is then freed.
    pub fn open<S: Session>(self, session: &mut S) -> Result<(OutputHandle, Frames), OpenError>
        ensures told { Checks (S.told session.old) (S.told session.new) result }
        ensures kept { S.kept session.new ≡ S.kept session.old }
        ensures stopped { OpenStoppedBy (S.kept session.old).stop result }
        ensures names { OpenLeaves (S.names session.old) (S.names session.new) self.name result }
        ensures opens { OpensThrough S.calls.allocate_incoming_link S.calls.outgoing_flow
            S.calls.deallocate_link session.old session.new self result }
    {
        let Opening {
            name,
            relay,
            input,
            reply,
        } = self;
        let output = session.allocate_incoming_link(name, relay, input)?;
        let frames = reply.send(session, output)?;
        Ok((output, frames))
    }
}

/// The relay of a link through which nothing came.
fn new_relay(alloc: Global, name: Text, role: Role, mode: ReceiverSettleMode) -> Relay
    ensures { result ≡ relay_of name role mode }
{
    Relay {
        name,
        role,
        rcv_settle_mode: mode,
        flows: LinkFlows::new(alloc),
        transfers: 0,
    }
}
