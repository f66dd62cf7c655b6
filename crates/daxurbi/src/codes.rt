//! The numbers that stand for answers, for what a layer below is told, and for kinds of messages.

ghost use Rattle.std.specs.Prelude.{◌≡◌};
ghost use Rattle.daxurbi_layer.specs.Answering.{answer_of};
ghost use Rattle.daxurbi.specs.Numbers.{kind_of, number_of, step_code};

use daxurbi_layer::{BelowAnswer, NamedError};
use daxurbi_session::{MessageKind, Stepped};

/// It was done, and an answered step was answered.
pub const OK: u32 = 0;
/// The step stopped the session.
pub const STOPPED: u32 = 1;
/// The session had stopped before.
pub const STOPPED_BEFORE: u32 = 2;
/// Out of memory.
pub const NO_MEMORY: u32 = 3;
/// The slot is closed.
pub const NOT_OPEN: u32 = 4;
/// The slot is open already.
pub const ALREADY_OPEN: u32 = 5;
/// The octets are no line of a step.
pub const NOT_A_STEP: u32 = 6;
/// The number tells no answer of a layer below.
pub const NOT_AN_ANSWER: u32 = 7;
/// The buffer is too short.
pub const SHORT_BUFFER: u32 = 8;
/// The id isn't live.
pub const NOT_LIVE: u32 = 9;
/// A seed has 32 octets.
pub const NOT_A_SEED: u32 = 10;
/// A list of ids is 1 to 64 times 16 octets.
pub const NOT_IDS: u32 = 11;
/// An id has at most 32 octets.
pub const NOT_AN_ID: u32 = 12;
/// No kind of message, or octets that spell none.
pub const NOT_A_MESSAGE: u32 = 13;
/// All numbers of control links are used up.
pub const NO_LINK_LEFT: u32 = 14;

/// The number of what a step answered.
pub fn code_of_step(stepped: Stepped) -> u32
    ensures { result ≡ step_code stepped }
{
    match stepped {
        Stepped::Answered => OK,
        Stepped::Stopped => STOPPED,
        Stepped::StoppedBefore => STOPPED_BEFORE,
        Stepped::NoLinkLeft => NO_LINK_LEFT,
        Stepped::NotAStep => NOT_A_STEP,
        Stepped::NoMemory => NO_MEMORY,
    }
}

/// What a layer below may be told, in the order of the numbers from 0.
const ANSWERS: [BelowAnswer; 10] = [
    BelowAnswer::Take,
    BelowAnswer::Veto,
    BelowAnswer::Refuse(NamedError::UnattachedHandle),
    BelowAnswer::Refuse(NamedError::LinkNameNotFound),
    BelowAnswer::Refuse(NamedError::HandleInUse),
    BelowAnswer::Refuse(NamedError::IllegalState),
    BelowAnswer::Refuse(NamedError::TransferToSender),
    BelowAnswer::Refuse(NamedError::ConnectionStopped),
    BelowAnswer::Refuse(NamedError::RemoteEnded),
    BelowAnswer::Refuse(NamedError::NoMemory),
];

/// The kinds of messages, in the order of the numbers from 0.
const KINDS: [MessageKind; 5] = [
    MessageKind::Declare,
    MessageKind::DeclareGlobal,
    MessageKind::Discharge,
    MessageKind::Commit,
    MessageKind::Rollback,
];

/// What a layer below is told by a number.
pub fn answer_of(number: u32) -> Option<BelowAnswer>
    ensures { result ≡ answer_of number }
{
    ANSWERS.get(number as usize).copied()
}

/// The kind of message of a number.
pub fn kind_of(number: u32) -> Option<MessageKind>
    ensures { result ≡ kind_of number }
{
    KINDS.get(number as usize).copied()
}

/// The number of a kind of message.
pub fn number_of(kind: MessageKind) -> u32
    ensures { result ≡ number_of kind }
{
    match kind {
        MessageKind::Declare => 0,
        MessageKind::DeclareGlobal => 1,
        MessageKind::Discharge => 2,
        MessageKind::Commit => 3,
        MessageKind::Rollback => 4,
    }
}
