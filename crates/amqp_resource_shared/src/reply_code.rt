//! The kind of a reply.

ghost use Rattle.std.specs.Prelude.{◌≡◌, ◌↔◌, IsTrue};
ghost use Rattle.amqp_resource_shared.specs.ReplyCodes.{code_of_reply};

use amqp_resource_record::{Reply, StopCode, code_of_fault};
use amqp_txn_types::{AmqpError, TransactionError, TransactionId};

/// The kind of a reply, without the frames that were given back.
#[derive(Clone, Copy, Debug, PartialEq, Eq)]
pub enum ReplyCode {
    /// To a frame, with how many frames were given back.
    Frames(usize),
    /// To a coordinator attach.
    Attached {
        /// The number of the control link.
        link: u64,
    },
    /// To a coordinator attach that the layer below refused, with the code of its fault.
    AttachRefused(StopCode),
    /// To the end of an open link.
    LinkEnded,
    /// To a message on a link that isn't open, or to the end of one.
    NoLink,
    /// To a payload that is no control message.
    LinkClosed(AmqpError),
    /// To a declare.
    Declared(TransactionId),
    /// To a discharge, with the number of its echoes: one for each frame of a commit, none for a
    /// rollback.
    Accepted(usize),
    /// To a declare or a discharge that is refused.
    Rejected(TransactionError),
}

/// The code of a reply.
pub fn code_of(reply: &Reply) -> ReplyCode
    ensures { result ≡ code_of_reply reply.now }
{
    match reply {
        Reply::Frames(answers) => ReplyCode::Frames(answers.given.len()),
        Reply::Attached { link, frames: _ } => ReplyCode::Attached { link: *link },
        Reply::AttachRefused(error) => ReplyCode::AttachRefused(code_of_fault(error)),
        Reply::LinkEnded => ReplyCode::LinkEnded,
        Reply::NoLink => ReplyCode::NoLink,
        Reply::LinkClosed(error) => ReplyCode::LinkClosed(*error),
        Reply::Declared(id) => ReplyCode::Declared(*id),
        Reply::Accepted(echoes) => ReplyCode::Accepted(echoes.len()),
        Reply::Rejected { error, text: _ } => ReplyCode::Rejected(*error),
    }
}

/// Whether two codes are one.
pub(crate) fn same_code(a: &ReplyCode, b: &ReplyCode) -> bool
    ensures { IsTrue result ↔ (a.now ≡ b.now) }
{
    *a == *b
}
