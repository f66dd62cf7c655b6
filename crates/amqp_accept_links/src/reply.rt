//! What an acceptor answers to the attach of a peer.

ghost use Rattle.std.specs.Prelude.{◌≡◌, [], IfOk};
ghost use Rattle.amqp_below_layer.specs.Told.{Checks};
ghost use Rattle.amqp_accept_links.specs.Replies.{Grants, ReplyLeaves, SendsReply, credit_of, flow_under, reply_of};

use crate::credit::CreditMode;
use crate::fields::SharedLinkAcceptorFields;
use amqp_below_layer::SessionInnerError;
use amqp_below_sessions::Session;
use amqp_txn_types::{
    Attach, Flow, Frame, Frames, Handle, LinkFlow, NoMemory, OutputHandle, Role, SenderSettleMode,
    TryClone,
};
use std::alloc::Global;
use std::marker::Model;

/// What is sent for a link once it has its output handle: its attach and, where credit is granted,
/// a flow, with room for both frames. Until then both have the peer's handle.
#[derive(Drop)]
pub struct Reply {
    attach: Attach,
    credit: Option<LinkFlow>,
    frames: Vec<Frame>,
}

impl Model for Reply {
    ghost use Rattle.std.specs.Prelude.{◌≡◌, ◌≤◌, [], vec_len, vec_capacity};
    ghost use Rattle.amqp_accept_links.specs.Replies.{Replying};

    ghost Value = { Replying };

    ghost view = { λ reply. record { attach = reply.attach; credit = reply.credit } };

    ghost invariant = { λ reply. (reply.frames.items ≡ []) × (vec_len reply.frames ≡ 0)
        × (2 ≤ vec_capacity reply.frames) };
}

impl Reply {
    /// The reply with these frames. The only error is out of memory.
    pub(crate) fn new(
        alloc: Global,
        attach: Attach,
        credit: Option<LinkFlow>,
    ) -> Result<Self, NoMemory>
        ensures { IfOk result (λ reply. reply ≡ record { attach = attach; credit = credit }) }
    {
        Ok(Reply {
            frames: Vec::with_capacity(alloc, 2)?,
            attach,
            credit,
        })
    }

    /// The settle mode of the link's sender that the link settled on.
    pub(crate) fn sender_mode(&self) -> SenderSettleMode
        ensures { result ≡ self.now.attach.snd_settle_mode }
    {
        self.attach.snd_settle_mode
    }

    /// The frames of a reply, with the link's output handle. The flow is sent by the session.
    ///
    /// The error is the session's, where it refuses the flow: the output handle is then freed.
    pub fn send<S: Session>(
        self,
        session: &mut S,
        output: OutputHandle,
    ) -> Result<Frames, SessionInnerError>
        ensures told { Checks (S.told session.old) (S.told session.new) result }
        ensures kept { S.kept session.new ≡ S.kept session.old }
        ensures names { ReplyLeaves (S.names session.old) (S.names session.new) output result }
        ensures sends { SendsReply S.calls.outgoing_flow S.calls.deallocate_link self.credit
            session.old session.new self.attach output result }
    {
        let Reply {
            mut attach,
            credit,
            mut frames,
        } = self;
        attach.handle = Handle(output.0);
        frames.push_reserved(Frame::Attach(attach));
        if let Some(credit) = credit {
            let flow = grant(session, credit, output)?;
            frames.push_reserved(Frame::Flow(flow));
        }
        Ok(Frames::from_vec(frames))
    }
}

/// Sends a flow of the link; where the session refuses it, the link's output handle is freed.
fn grant<S: Session>(
    session: &mut S,
    mut credit: LinkFlow,
    output: OutputHandle,
) -> Result<Flow, SessionInnerError>
    ensures told { Checks (S.told session.old) (S.told session.new) result }
    ensures kept { S.kept session.new ≡ S.kept session.old }
    ensures names { ReplyLeaves (S.names session.old) (S.names session.new) output result }
    ensures grants { Grants S.calls.outgoing_flow S.calls.deallocate_link session.old session.new
        (flow_under output credit) output result }
{
    credit.handle = Handle(output.0);
    match session.on_outgoing_flow(credit) {
        Ok(flow) => Ok(flow),
        Err(error) => {
            session.deallocate_link(output);
            Err(error)
        }
    }
}

/// The attach that answers the peer's, still with the peer's handle and termini. The only error is
/// out of memory.
pub(crate) fn reply_to(
    shared: &SharedLinkAcceptorFields,
    remote: Attach,
    role: Role,
    initial_delivery_count: Option<u32>,
) -> Result<Attach, NoMemory>
    ensures { IfOk result (λ reply. reply ≡ reply_of shared.now remote role
        initial_delivery_count) }
{
    let Ok(said) = shared.try_clone() else {
        drop(remote);
        return Err(NoMemory);
    };
    Ok(Attach {
        role,
        snd_settle_mode: said.sender_mode_for(remote.snd_settle_mode),
        rcv_settle_mode: said.receiver_mode_for(remote.rcv_settle_mode),
        initial_delivery_count,
        max_message_size: said.max_message_size,
        offered_capabilities: said.offered_capabilities,
        desired_capabilities: said.desired_capabilities,
        properties: said.properties,
        ..remote
    })
}

/// The flow that grants the peer credit, still with the peer's handle.
pub(crate) fn credit_flow(mode: CreditMode, remote: &Attach) -> Option<LinkFlow>
    ensures { result ≡ credit_of mode remote.now }
{
    match mode {
        CreditMode::Auto(credit) => Some(LinkFlow {
            delivery_count: Some(remote.initial_delivery_count.unwrap_or(0)),
            link_credit: Some(credit),
            ..LinkFlow::new(remote.handle)
        }),
        CreditMode::Manual => None,
    }
}
