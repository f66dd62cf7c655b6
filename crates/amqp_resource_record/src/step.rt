//! What a session is asked to do.

use amqp_txn_types::{ConnectionStopReason, Error, Frame, NoMemory, Payload, TryClone};

/// One step of a session.
#[derive(Debug, Drop, PartialEq)]
pub enum Step {
    /// A frame of the peer: plain, under a transaction, or the attach of a control link.
    Frame(Frame),
    /// A message on a control link: its payload spells a declare, a discharge, or neither.
    Control {
        /// The number of the link, as its reply gave it.
        link: u64,
        /// The octets of the message.
        payload: Payload,
    },
    /// The end of a control link, by a detach of the peer.
    LinkEnd {
        /// The number of the link.
        link: u64,
    },
    /// The session is ended by its own side.
    LocalEnd(Option<Error>),
    /// The session is ended by the peer.
    RemoteEnd(Option<Error>),
    /// The connection stopped.
    ConnectionStop(ConnectionStopReason),
}

impl TryClone for Step {
    fn try_clone(&self) -> Result<Self, NoMemory> {
        match self {
            Step::Frame(frame) => Ok(Step::Frame(frame.try_clone()?)),
            Step::Control { link, payload } => Ok(Step::Control {
                link: *link,
                payload: payload.try_clone()?,
            }),
            Step::LinkEnd { link } => Ok(Step::LinkEnd { link: *link }),
            Step::LocalEnd(error) => Ok(Step::LocalEnd(error.try_clone()?)),
            Step::RemoteEnd(error) => Ok(Step::RemoteEnd(error.try_clone()?)),
            Step::ConnectionStop(reason) => Ok(Step::ConnectionStop(reason.try_clone()?)),
        }
    }
}

const _: () = prove!(size_of::<Step>() <= 256);
