//! The performatives of sessions and links, and the frames that carry them. Part 2 of the
//! standard, section 2.7 (performatives).

ghost use Rattle.std.specs.Prelude.{◌≡◌, None};

use crate::binary::Binary;
use crate::delivery::{DeliveryState, Error};
use crate::fields::Fields;
use crate::items::{Items, NoMemory, TryClone};
use crate::payload::Payload;
use crate::small::{Handle, InputHandle, OutputHandle, ReceiverSettleMode, Role, SenderSettleMode};
use crate::symbols::Symbols;
use crate::text::Text;

mod deliveries;
mod links;
mod sessions;

/// A list of frames, as a session sends back.
pub type Frames = Items<Frame>;

/// A list of flows of one link each.
pub type LinkFlows = Items<LinkFlow>;

/// Begins a session on a channel. Part 2 of the standard, section 2.7.2 (begin).
#[derive(Debug, Drop, PartialEq)]
pub struct Begin {
    /// The channel of the begin that this one answers.
    pub remote_channel: Option<u16>,
    /// The transfer id of the first transfer to be sent.
    pub next_outgoing_id: u32,
    /// How many transfers the sender of this frame can take now.
    pub incoming_window: u32,
    /// How many transfers it can send now.
    pub outgoing_window: u32,
    /// The greatest handle that it can take.
    pub handle_max: Handle,
    /// What it can do.
    pub offered_capabilities: Option<Symbols>,
    /// What it wants the peer to do.
    pub desired_capabilities: Option<Symbols>,
    /// Other properties of the session.
    pub properties: Option<Fields>,
}

impl TryClone for Begin {
    fn try_clone(&self) -> Result<Self, NoMemory> {
        Ok(Begin {
            remote_channel: self.remote_channel,
            next_outgoing_id: self.next_outgoing_id,
            incoming_window: self.incoming_window,
            outgoing_window: self.outgoing_window,
            handle_max: self.handle_max,
            offered_capabilities: self.offered_capabilities.try_clone()?,
            desired_capabilities: self.desired_capabilities.try_clone()?,
            properties: self.properties.try_clone()?,
        })
    }
}

/// Where a link's messages come from. Part 3 of the standard, section 3.5.3 (source).
#[derive(Debug, Drop, PartialEq)]
pub struct Source {
    /// The node's address.
    pub address: Option<Text>,
    /// Whether the peer is to make a node for this link.
    pub dynamic: bool,
    /// What that node is to be like.
    pub dynamic_node_properties: Option<Fields>,
    /// The outcomes that may be chosen for deliveries of the link.
    pub outcomes: Option<Symbols>,
    /// What the source can do.
    pub capabilities: Option<Symbols>,
}

impl TryClone for Source {
    fn try_clone(&self) -> Result<Self, NoMemory> {
        Ok(Source {
            address: self.address.try_clone()?,
            dynamic: self.dynamic,
            dynamic_node_properties: self.dynamic_node_properties.try_clone()?,
            outcomes: self.outcomes.try_clone()?,
            capabilities: self.capabilities.try_clone()?,
        })
    }
}

/// Where a link's messages go. Part 3 of the standard, section 3.5.4 (target).
#[derive(Debug, Drop, PartialEq)]
pub struct Target {
    /// The node's address.
    pub address: Option<Text>,
    /// Whether the peer is to make a node for this link.
    pub dynamic: bool,
    /// What that node is to be like.
    pub dynamic_node_properties: Option<Fields>,
    /// What the target can do.
    pub capabilities: Option<Symbols>,
}

impl TryClone for Target {
    fn try_clone(&self) -> Result<Self, NoMemory> {
        Ok(Target {
            address: self.address.try_clone()?,
            dynamic: self.dynamic,
            dynamic_node_properties: self.dynamic_node_properties.try_clone()?,
            capabilities: self.capabilities.try_clone()?,
        })
    }
}

/// The target of a control link: it takes declares and discharges of transactions. Part 4 of the
/// standard, section 4.5.1 (coordinator).
#[derive(Debug, Drop, PartialEq)]
pub struct Coordinator {
    /// What the coordinator can do, by the symbols of [`TxnCapability`](crate::TxnCapability).
    pub capabilities: Option<Symbols>,
}

/// The coordinator that names no capabilities.
impl Default for Coordinator {
    ghost is_default = { λ coordinator. coordinator.capabilities ≡ None };

    fn default() -> Self {
        Coordinator { capabilities: None }
    }
}

impl TryClone for Coordinator {
    fn try_clone(&self) -> Result<Self, NoMemory> {
        Ok(Coordinator {
            capabilities: self.capabilities.try_clone()?,
        })
    }
}

/// Attaches a link to a session. Part 2 of the standard, section 2.7.3 (attach). What serves to
/// resume a link is left out.
#[derive(Debug, Drop, PartialEq)]
pub struct Attach {
    /// The link's name: no other link of the two containers in this direction has it.
    pub name: Text,
    /// The handle by which the sender of this frame names the link.
    pub handle: Handle,
    /// Which end of the link it is.
    pub role: Role,
    /// When the link's sender settles.
    pub snd_settle_mode: SenderSettleMode,
    /// When the link's receiver settles.
    pub rcv_settle_mode: ReceiverSettleMode,
    /// Where the messages come from.
    pub source: Option<Source>,
    /// Where the messages go, or the coordinator.
    pub target: Option<TargetArchetype>,
    /// The delivery count that a sender begins with.
    pub initial_delivery_count: Option<u32>,
    /// The most octets that a message may have; 0 or none for no limit.
    pub max_message_size: Option<u64>,
    /// What the sender of this frame can do.
    pub offered_capabilities: Option<Symbols>,
    /// What it wants the peer to do.
    pub desired_capabilities: Option<Symbols>,
    /// Other properties of the link.
    pub properties: Option<Fields>,
}

impl TryClone for Attach {
    fn try_clone(&self) -> Result<Self, NoMemory> {
        Ok(Attach {
            name: self.name.try_clone()?,
            handle: self.handle,
            role: self.role,
            snd_settle_mode: self.snd_settle_mode,
            rcv_settle_mode: self.rcv_settle_mode,
            source: self.source.try_clone()?,
            target: self.target.try_clone()?,
            initial_delivery_count: self.initial_delivery_count,
            max_message_size: self.max_message_size,
            offered_capabilities: self.offered_capabilities.try_clone()?,
            desired_capabilities: self.desired_capabilities.try_clone()?,
            properties: self.properties.try_clone()?,
        })
    }
}

/// The flow state of a session, and of a link where it names one. Part 2 of the standard, section
/// 2.7.4 (flow).
#[derive(Debug, Drop, PartialEq)]
pub struct Flow {
    /// The transfer id of the next transfer that is awaited.
    pub next_incoming_id: Option<u32>,
    /// How many transfers the sender of this frame can take now.
    pub incoming_window: u32,
    /// The transfer id of the next transfer to be sent.
    pub next_outgoing_id: u32,
    /// How many transfers it can send now.
    pub outgoing_window: u32,
    /// The link that the rest is about; none for the session alone.
    pub handle: Option<Handle>,
    /// The link's delivery count.
    pub delivery_count: Option<u32>,
    /// How many more deliveries the link's receiver can take.
    pub link_credit: Option<u32>,
    /// How many deliveries wait at the link's sender.
    pub available: Option<u32>,
    /// Whether the sender is to use up the credit or give it up.
    pub drain: bool,
    /// Whether the peer is to answer with its own flow state.
    pub echo: bool,
    /// Other properties of the link's state.
    pub properties: Option<Fields>,
}

impl TryClone for Flow {
    fn try_clone(&self) -> Result<Self, NoMemory> {
        Ok(Flow {
            next_incoming_id: self.next_incoming_id,
            incoming_window: self.incoming_window,
            next_outgoing_id: self.next_outgoing_id,
            outgoing_window: self.outgoing_window,
            handle: self.handle,
            delivery_count: self.delivery_count,
            link_credit: self.link_credit,
            available: self.available,
            drain: self.drain,
            echo: self.echo,
            properties: self.properties.try_clone()?,
        })
    }
}

/// The part of a flow that is about one link. Part 2 of the standard, section 2.7.4 (flow).
#[derive(Debug, Drop, PartialEq)]
pub struct LinkFlow {
    /// The link.
    pub handle: Handle,
    /// The link's delivery count.
    pub delivery_count: Option<u32>,
    /// How many more deliveries the link's receiver can take.
    pub link_credit: Option<u32>,
    /// How many deliveries wait at the link's sender.
    pub available: Option<u32>,
    /// Whether the sender is to use up the credit or give it up.
    pub drain: bool,
    /// Whether the peer is to answer with its own flow state.
    pub echo: bool,
    /// Other properties of the link's state.
    pub properties: Option<Fields>,
}

impl TryClone for LinkFlow {
    fn try_clone(&self) -> Result<Self, NoMemory> {
        Ok(LinkFlow {
            handle: self.handle,
            delivery_count: self.delivery_count,
            link_credit: self.link_credit,
            available: self.available,
            drain: self.drain,
            echo: self.echo,
            properties: self.properties.try_clone()?,
        })
    }
}

/// Sends a message, or a part of one, on a link. Part 2 of the standard, section 2.7.5 (transfer).
/// Posting under a transaction is one with a transactional state: part 4, section 4.4.1.
#[derive(Debug, Drop, PartialEq)]
pub struct Transfer {
    /// The link.
    pub handle: Handle,
    /// The delivery's number on the session; needed in its first transfer alone.
    pub delivery_id: Option<u32>,
    /// The delivery's tag at its sender, at most 32 octets by the standard.
    pub delivery_tag: Option<Binary>,
    /// The format of the message; 0 for that of part 3.
    pub message_format: Option<u32>,
    /// Whether the delivery is settled at its sender.
    pub settled: Option<bool>,
    /// Whether more transfers of the delivery follow.
    pub more: bool,
    /// When the receiver settles this delivery, if not as the link says.
    pub rcv_settle_mode: Option<ReceiverSettleMode>,
    /// Whether it resumes an earlier delivery.
    pub resume: bool,
    /// Whether the delivery is given up, and what came of it is to be dropped.
    pub aborted: bool,
    /// Whether the answer may wait for others.
    pub batchable: bool,
    /// The delivery's state at its sender.
    pub state: Option<DeliveryState>,
}

impl TryClone for Transfer {
    #[inline(always)]
    fn try_clone(&self) -> Result<Self, NoMemory> {
        Ok(Transfer {
            handle: self.handle,
            delivery_id: self.delivery_id,
            delivery_tag: self.delivery_tag.try_clone()?,
            message_format: self.message_format,
            settled: self.settled,
            more: self.more,
            rcv_settle_mode: self.rcv_settle_mode,
            resume: self.resume,
            aborted: self.aborted,
            batchable: self.batchable,
            state: self.state.try_clone()?,
        })
    }
}

/// Tells the state of a range of deliveries. Part 2 of the standard, section 2.7.6 (disposition).
/// Retirement under a transaction is one with a transactional state: part 4, section 4.4.2.
#[derive(Debug, Drop, PartialEq)]
pub struct Disposition {
    /// Which end of the links the sender of this frame is.
    pub role: Role,
    /// The number of the first delivery.
    pub first: u32,
    /// The number of the last one; none where it is the first.
    pub last: Option<u32>,
    /// Whether the deliveries are settled at the sender of this frame.
    pub settled: bool,
    /// The deliveries' state.
    pub state: Option<DeliveryState>,
    /// Whether the answer may wait for others.
    pub batchable: bool,
}

impl TryClone for Disposition {
    #[inline(always)]
    fn try_clone(&self) -> Result<Self, NoMemory> {
        Ok(Disposition {
            role: self.role,
            first: self.first,
            last: self.last,
            settled: self.settled,
            state: self.state.try_clone()?,
            batchable: self.batchable,
        })
    }
}

/// Detaches a link from its session. Part 2 of the standard, section 2.7.7 (detach).
#[derive(Debug, Drop, PartialEq)]
pub struct Detach {
    /// The link.
    pub handle: Handle,
    /// Whether the link ends for good.
    pub closed: bool,
    /// Why, if something went wrong.
    pub error: Option<Error>,
}

impl TryClone for Detach {
    fn try_clone(&self) -> Result<Self, NoMemory> {
        Ok(Detach {
            handle: self.handle,
            closed: self.closed,
            error: self.error.try_clone()?,
        })
    }
}

/// Ends a session. Part 2 of the standard, section 2.7.8 (end).
#[derive(Debug, Drop, PartialEq)]
pub struct End {
    /// Why, if something went wrong.
    pub error: Option<Error>,
}

impl TryClone for End {
    fn try_clone(&self) -> Result<Self, NoMemory> {
        Ok(End {
            error: self.error.try_clone()?,
        })
    }
}

/// What one end of an attached link knows of itself.
#[derive(Debug, Drop, PartialEq)]
pub struct LinkEnd {
    /// The link's name.
    pub name: Text,
    /// Which end it is.
    pub role: Role,
    /// The handle of its frames.
    pub output: OutputHandle,
    /// When the link's sender settles.
    pub snd_settle_mode: SenderSettleMode,
    /// When the link's receiver settles.
    pub rcv_settle_mode: ReceiverSettleMode,
}

impl TryClone for LinkEnd {
    fn try_clone(&self) -> Result<Self, NoMemory> {
        Ok(LinkEnd {
            name: self.name.try_clone()?,
            role: self.role,
            output: self.output,
            snd_settle_mode: self.snd_settle_mode,
            rcv_settle_mode: self.rcv_settle_mode,
        })
    }
}

/// What an attach names as its target. Part 2 of the standard, section 2.7.3 (attach).
#[derive(Debug, Drop, PartialEq)]
pub enum TargetArchetype {
    /// A node that takes messages.
    Target(Target),
    /// A coordinator of transactions, so that the link is a control link.
    Coordinator(Coordinator),
}

impl TryClone for TargetArchetype {
    fn try_clone(&self) -> Result<Self, NoMemory> {
        match self {
            TargetArchetype::Target(x) => Ok(TargetArchetype::Target(x.try_clone()?)),
            TargetArchetype::Coordinator(x) => Ok(TargetArchetype::Coordinator(x.try_clone()?)),
        }
    }
}

/// A frame of a session that is about its links, as it passes between session and peer.
#[derive(Debug, Drop, PartialEq)]
pub enum Frame {
    /// A link is attached.
    Attach(Attach),
    /// Flow state of the session or of a link.
    Flow(Flow),
    /// A message, or a part of one.
    Transfer {
        /// The performative.
        transfer: Transfer,
        /// The octets that follow it.
        payload: Payload,
    },
    /// The state of deliveries.
    Disposition(Disposition),
    /// A link is detached.
    Detach(Detach),
}

// A frame is moved often, so its size counts.
const _: () = prove!(size_of::<Frame>() <= 248);

impl TryClone for Frame {
    #[inline(always)]
    fn try_clone(&self) -> Result<Self, NoMemory> {
        match self {
            Frame::Attach(x) => Ok(Frame::Attach(x.try_clone()?)),
            Frame::Flow(x) => Ok(Frame::Flow(x.try_clone()?)),
            Frame::Transfer { transfer, payload } => Ok(Frame::Transfer {
                transfer: transfer.try_clone()?,
                payload: payload.try_clone()?,
            }),
            Frame::Disposition(x) => Ok(Frame::Disposition(x.try_clone()?)),
            Frame::Detach(x) => Ok(Frame::Detach(x.try_clone()?)),
        }
    }
}

/// A frame as it passes from a link to its session, which has still to put its own numbers in.
#[derive(Debug, Drop, PartialEq)]
pub enum LinkFrame {
    /// A link is attached.
    Attach(Attach),
    /// Flow state of the link, without that of the session.
    Flow(LinkFlow),
    /// A message, or a part of one.
    Transfer {
        /// The peer's handle of the link.
        input: InputHandle,
        /// The performative.
        transfer: Transfer,
        /// The octets that follow it.
        payload: Payload,
        /// Whether it is the first transfer of its delivery.
        is_first: bool,
    },
    /// The state of deliveries.
    Disposition(Disposition),
    /// A link is detached.
    Detach(Detach),
}

impl TryClone for LinkFrame {
    fn try_clone(&self) -> Result<Self, NoMemory> {
        match self {
            LinkFrame::Attach(x) => Ok(LinkFrame::Attach(x.try_clone()?)),
            LinkFrame::Flow(x) => Ok(LinkFrame::Flow(x.try_clone()?)),
            LinkFrame::Transfer {
                input,
                transfer,
                payload,
                is_first,
            } => Ok(LinkFrame::Transfer {
                input: *input,
                transfer: transfer.try_clone()?,
                payload: payload.try_clone()?,
                is_first: *is_first,
            }),
            LinkFrame::Disposition(x) => Ok(LinkFrame::Disposition(x.try_clone()?)),
            LinkFrame::Detach(x) => Ok(LinkFrame::Detach(x.try_clone()?)),
        }
    }
}
