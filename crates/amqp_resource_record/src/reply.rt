//! What a session answers to a step.

ghost use Rattle.std.specs.Prelude.{◌≡◌, option_copied};
ghost use Rattle.amqp_resource_record.specs.Texts.{text_of};

use amqp_below_layer::{Answers, Echoes, SessionInnerError};
use amqp_txn_types::{AmqpError, Frames, NoMemory, TransactionError, TransactionId, TryClone};

/// The text beside a rejected control message.
#[derive(Clone, Copy, Debug, PartialEq, Eq)]
pub enum RejectText {
    /// No text: the id of a discharge isn't live or was declared on another link, or the commit was
    /// vetoed.
    Absent,
    /// A declare has a global id, which isn't supported.
    GlobalId,
    /// Each of the 16 ids that a declare drew is live.
    IdsRepeat,
}

impl RejectText {
    /// The text, where there is one.
    pub fn as_text(&self) -> Option<&str>
        ensures { option_copied result ≡ text_of self.now }
    {
        match self {
            RejectText::Absent => None,
            RejectText::GlobalId => Some("Global transaction ID is not implemented"),
            RejectText::IdsRepeat => Some("No unused transaction ID was drawn"),
        }
    }
}

/// The reply to one step. Part 4 of the standard, sections 4.2 to 4.4.
#[derive(Debug, Drop, PartialEq)]
pub enum Reply {
    /// To a frame: what the layer below gave back for a plain one; for one under a live id the
    /// presumptive disposition of a post, or nothing.
    Frames(Answers),
    /// To a coordinator attach: the number of the control link, counted from 0, and the frames that
    /// the layer below gave back.
    Attached {
        /// How many links were attached before.
        link: u64,
        /// The frames to be sent, the attach in answer among them.
        frames: Frames,
    },
    /// To a coordinator attach that the layer below refused. No link is opened.
    AttachRefused(SessionInnerError),
    /// To the end of an open link: what it declared and is live is aborted.
    LinkEnded,
    /// To a message on a link that isn't open, or to the end of one.
    NoLink,
    /// To a payload that is no control message: the link is closed, as if it ended, with this
    /// error.
    LinkClosed(AmqpError),
    /// To a declare: the id of the new transaction (section 4.5.5, declared).
    Declared(TransactionId),
    /// To a discharge: for a commit what the layer below gave back for each of its frames, in
    /// order; for a rollback nothing.
    Accepted(Echoes),
    /// To a declare or a discharge that is refused (section 4.5.8, transaction error). With
    /// `Rollback` the layer below vetoed a commit: its id has ended, and nothing was handed.
    Rejected {
        /// The condition.
        error: TransactionError,
        /// Which text is told beside it.
        text: RejectText,
    },
}

impl TryClone for Reply {
    fn try_clone(&self) -> Result<Self, NoMemory> {
        match self {
            Reply::Frames(answers) => Ok(Reply::Frames(answers.try_clone()?)),
            Reply::Attached { link, frames } => Ok(Reply::Attached {
                link: *link,
                frames: frames.try_clone()?,
            }),
            Reply::AttachRefused(error) => Ok(Reply::AttachRefused(error.try_clone()?)),
            Reply::LinkEnded => Ok(Reply::LinkEnded),
            Reply::NoLink => Ok(Reply::NoLink),
            Reply::LinkClosed(error) => Ok(Reply::LinkClosed(*error)),
            Reply::Declared(id) => Ok(Reply::Declared(*id)),
            Reply::Accepted(echoes) => Ok(Reply::Accepted(echoes.try_clone()?)),
            Reply::Rejected { error, text } => Ok(Reply::Rejected {
                error: *error,
                text: *text,
            }),
        }
    }
}
