//! Small values: roles, modes, states, error conditions, handles, channels and tokens.

ghost use Rattle.std.specs.Prelude.{◌≡◌, Some};
ghost use Rattle.amqp_txn_types.specs.Symbols.{symbol_of_transaction_error};

use std::error::Error;
use std::fmt;

/// Which end of a link is meant. Part 2 of the standard, section 2.8.1 (role).
#[derive(Clone, Copy, Debug, PartialEq, Eq)]
pub enum Role {
    /// The end that sends messages.
    Sender,
    /// The end that receives them.
    Receiver,
}

/// When a sender settles its deliveries. Part 2 of the standard, section 2.8.2.
#[derive(Clone, Copy, Debug, PartialEq, Eq)]
pub enum SenderSettleMode {
    /// It sends all deliveries unsettled.
    Unsettled,
    /// It sends all deliveries settled.
    Settled,
    /// It may send either; the default.
    Mixed,
}

impl Default for SenderSettleMode {
    ghost use Rattle.amqp_txn_types.specs.declared.small.SenderSettleMode.TheVariants.{Mixed};

    ghost is_default = { λ mode. mode ≡ Mixed };

    fn default() -> Self {
        SenderSettleMode::Mixed
    }
}

/// When a receiver settles deliveries. Part 2 of the standard, section 2.8.3.
#[derive(Clone, Copy, Debug, PartialEq, Eq)]
pub enum ReceiverSettleMode {
    /// As they arrive, of its own accord; the default.
    First,
    /// Only once the sender has settled.
    Second,
}

impl Default for ReceiverSettleMode {
    ghost use Rattle.amqp_txn_types.specs.declared.small.ReceiverSettleMode.TheVariants.{First};

    ghost is_default = { λ mode. mode ≡ First };

    fn default() -> Self {
        ReceiverSettleMode::First
    }
}

/// How far a session endpoint has come. Part 2 of the standard, section 2.5.5 (session states).
#[derive(Clone, Copy, Debug, PartialEq, Eq)]
pub enum SessionState {
    /// Neither a begin nor an end has passed, or both ends have.
    Unmapped,
    /// A begin was sent, and none has come.
    BeginSent,
    /// A begin has come, and none was sent.
    BeginReceived,
    /// A begin was sent and one has come: frames pass.
    Mapped,
    /// An end was sent without an error, and none has come.
    EndSent,
    /// An end has come, and none was sent.
    EndReceived,
    /// An end was sent with an error: what comes is dropped until the peer's end.
    Discarding,
}

/// Conditions of any part of the protocol. Part 2 of the standard, section 2.8.15 (amqp error).
#[derive(Clone, Copy, Debug, PartialEq, Eq)]
pub enum AmqpError {
    /// An internal fault; an operator may have to look.
    InternalError,
    /// The peer sent a frame that its state doesn't allow.
    IllegalState,
    /// The peer used a frame against its meaning.
    NotAllowed,
}

/// Conditions of a connection. Part 2 of the standard, section 2.8.16 (connection error).
#[derive(Clone, Copy, Debug, PartialEq, Eq)]
pub enum ConnectionError {
    /// The connection was closed for a reason of the operator's.
    ConnectionForced,
    /// The frame header wasn't valid.
    FramingError,
}

/// Conditions of a session. Part 2 of the standard, section 2.8.17 (session error).
#[derive(Clone, Copy, Debug, PartialEq, Eq)]
pub enum SessionError {
    /// An attach names a handle that is in use.
    HandleInUse,
    /// A frame names a handle that no link has.
    UnattachedHandle,
}

/// Conditions of a link. Part 2 of the standard, section 2.8.18 (link error).
#[derive(Clone, Copy, Debug, PartialEq, Eq)]
pub enum LinkError {
    /// The peer sent more deliveries than the link's credit allows.
    TransferLimitExceeded,
}

/// Conditions of a transaction. Part 4 of the standard, section 4.5.8 (transaction error).
#[derive(Clone, Copy, Debug, PartialEq, Eq)]
pub enum TransactionError {
    /// No live transaction has the id.
    UnknownId,
    /// The transaction was rolled back.
    Rollback,
    /// The transaction took too long.
    Timeout,
}

impl TransactionError {
    /// The condition's symbol as text, as `amqp:transaction:unknown-id`.
    pub fn as_str(&self) -> &'static str
        ensures { result.now ≡ symbol_of_transaction_error self.now }
    {
        match self {
            TransactionError::UnknownId => "amqp:transaction:unknown-id",
            TransactionError::Rollback => "amqp:transaction:rollback",
            TransactionError::Timeout => "amqp:transaction:timeout",
        }
    }
}

impl fmt::Display for TransactionError {
    ghost output = { λ error. Some (symbol_of_transaction_error error) };

    fn fmt<W: fmt::Write>(&self, f: &mut fmt::Formatter<W>) -> fmt::Result {
        f.write_str(self.as_str())
    }
}

impl Error for TransactionError {}

/// The number of a link on its session. Part 2 of the standard, section 2.8.4 (handle).
#[derive(Clone, Copy, Debug, PartialEq, Eq, PartialOrd, Ord, Hash)]
pub struct Handle(pub u32);

/// The greatest handle, 4,294,967,295, which a begin means by its `handle-max` where it names none.
impl Default for Handle {
    ghost is_default = { λ handle. handle.0 ≡ 4294967295 };

    fn default() -> Self {
        Handle(u32::MAX)
    }
}

impl From<u32> for Handle {
    ghost from_gives = { λ number handle. handle.0 ≡ number };

    fn from(number: u32) -> Self {
        Handle(number)
    }
}

/// The handle by which the peer names a link: that of frames that come.
#[derive(Clone, Copy, Debug, PartialEq, Eq, PartialOrd, Ord, Hash)]
pub struct InputHandle(pub u32);

impl From<Handle> for InputHandle {
    ghost from_gives = { λ handle input. input.0 ≡ handle.0 };

    fn from(handle: Handle) -> Self {
        InputHandle(handle.0)
    }
}

/// The handle by which this side names a link: that of frames that are sent.
#[derive(Clone, Copy, Debug, PartialEq, Eq, PartialOrd, Ord, Hash)]
pub struct OutputHandle(pub u32);

/// The channel of frames that come on a session.
#[derive(Clone, Copy, Debug, PartialEq, Eq, PartialOrd, Ord, Hash)]
pub struct IncomingChannel(pub u16);

/// The channel of frames that are sent on a session.
#[derive(Clone, Copy, Debug, PartialEq, Eq, PartialOrd, Ord, Hash)]
pub struct OutgoingChannel(pub u16);

/// The number of an unsettled send on its link, counted from 0.
#[derive(Clone, Copy, Debug, PartialEq, Eq, PartialOrd, Ord, Hash)]
pub struct Token(pub u64);

/// That a message was accepted. Part 3 of the standard, section 3.4.2 (accepted).
#[derive(Clone, Copy, Debug, PartialEq, Eq)]
pub struct Accepted;
