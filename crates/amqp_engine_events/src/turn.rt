//! The frames of a session as they come, and what an engine answers to an event.

ghost use Rattle.std.specs.Prelude.{◌≡◌, ◌<◌, [], IfOk, vec_capacity, vec_len};
ghost use Rattle.amqp_engine_events.specs.Turns.{nothing_sent, quiet, replying, sending, sending_end, sending_one};

use crate::controls::ControlReply;
use amqp_below_layer::Answers;
use amqp_txn_types::{Begin, End, Frame, Frames, NoMemory, TryClone};
use std::alloc::Global;

/// A frame of a session, with its channel. Part 2 of the standard, section 2.3 (framing).
#[derive(Debug, Drop, PartialEq)]
pub struct SessionFrame {
    /// The channel that it came on.
    pub channel: u16,
    /// What it says.
    pub body: SessionFrameBody,
}

impl TryClone for SessionFrame {
    fn try_clone(&self) -> Result<Self, NoMemory> {
        Ok(SessionFrame {
            channel: self.channel,
            body: self.body.try_clone()?,
        })
    }
}

/// What a frame of a session says. Part 2 of the standard, section 2.7 (performatives).
#[derive(Debug, Drop, PartialEq)]
pub enum SessionFrameBody {
    /// The session begins.
    Begin(Begin),
    /// A frame about the session's links.
    Link(Frame),
    /// The session ends.
    End(End),
}

impl TryClone for SessionFrameBody {
    fn try_clone(&self) -> Result<Self, NoMemory> {
        match self {
            SessionFrameBody::Begin(begin) => Ok(SessionFrameBody::Begin(begin.try_clone()?)),
            SessionFrameBody::Link(frame) => Ok(SessionFrameBody::Link(frame.try_clone()?)),
            SessionFrameBody::End(end) => Ok(SessionFrameBody::End(end.try_clone()?)),
        }
    }
}

/// Whether a session goes on.
#[derive(Clone, Copy, Debug, PartialEq, Eq)]
pub enum Running {
    /// It goes on.
    Continue,
    /// Nothing more is done but for the peer's end, which is awaited.
    Waiting,
    /// It is over.
    Stop,
}

/// What an engine answers to an event: what is to be sent, in this order, what is replied, and
/// whether the session goes on.
#[derive(Debug, Drop, PartialEq)]
pub struct Turn {
    /// Whether the session goes on.
    pub running: Running,
    /// The frames to be sent.
    pub sent: Answers,
    /// The end to be sent.
    pub ended: Option<End>,
    /// The reply to a control.
    pub reply: ControlReply,
}

/// A turn that sends nothing and replies nothing.
pub(crate) fn quiet(alloc: Global, running: Running) -> Turn
    ensures { result ≡ quiet running }
{
    Turn {
        running,
        sent: nothing_sent(alloc),
        ended: None,
        reply: ControlReply::Nothing,
    }
}

/// A turn after which the session goes on, with the frames to be sent.
pub(crate) fn sending(sent: Answers) -> Turn
    ensures { result ≡ sending sent }
{
    Turn {
        running: Running::Continue,
        sent,
        ended: None,
        reply: ControlReply::Nothing,
    }
}

/// A turn that sends an end.
pub(crate) fn sending_end(alloc: Global, running: Running, end: End) -> Turn
    ensures { result ≡ sending_end running end }
{
    Turn {
        running,
        sent: nothing_sent(alloc),
        ended: Some(end),
        reply: ControlReply::Nothing,
    }
}

/// A turn after which the session goes on, with the reply to a control.
pub(crate) fn replying(alloc: Global, reply: ControlReply) -> Turn
    ensures { result ≡ replying reply }
{
    Turn {
        running: Running::Continue,
        sent: nothing_sent(alloc),
        ended: None,
        reply,
    }
}

/// Room for one frame, which is made before the session is asked.
pub(crate) fn room_for_one(alloc: Global) -> Result<Vec<Frame>, NoMemory>
    ensures empty { IfOk result (λ room. room.items ≡ []) }
    ensures room { IfOk result (λ room. vec_len room < vec_capacity room) }
{
    Ok(Vec::with_capacity(alloc, 1)?)
}

/// A turn after which the session goes on, with one frame to be sent.
pub(crate) fn sending_one(mut room: Vec<Frame>, frame: Frame) -> Turn
    requires empty { room.items ≡ [] }
    requires room { vec_len room < vec_capacity room }
    ensures { result ≡ sending_one frame }
{
    room.push_reserved(frame);
    sending(Answers {
        given: Frames::from_vec(room),
        window: None,
    })
}

/// No frame.
fn nothing_sent(alloc: Global) -> Answers
    ensures { result ≡ nothing_sent }
{
    Answers {
        given: Frames::new(alloc),
        window: None,
    }
}
