//! The end of a connection, as sessions see it.

ghost use Rattle.std.specs.Prelude.{◌≡◌};
ghost use Rattle.amqp_below_connections.specs.declared.connection.AllocSessionError.TheVariants as refusals;
ghost use Rattle.amqp_below_connections.specs.Connections.{begin_error};

use amqp_below_sessions::BeginError;
use amqp_links::Poll;
use amqp_txn_types::{Begin, ConnectionStopReason, NoMemory, OutgoingChannel, TryClone};
use thiserror::Error as ThisError;

/// A session that the peer began, and that waits to be accepted. Part 2 of the standard, section
/// 2.5.1 (establishing a session).
#[derive(Debug, Drop, PartialEq)]
pub struct IncomingSession {
    /// The channel of the peer's frames.
    pub channel: u16,
    /// The peer's begin.
    pub begin: Begin,
}

impl TryClone for IncomingSession {
    fn try_clone(&self) -> Result<Self, NoMemory> {
        Ok(IncomingSession {
            channel: self.channel,
            begin: self.begin.try_clone()?,
        })
    }
}

/// Why a connection gives no channel.
#[derive(Debug, Drop, PartialEq, ThisError)]
pub enum AllocSessionError {
    /// All channels of this side are in use.
    #[error("no channel is left")]
    ChannelMaxReached,
    /// The connection stopped.
    #[error("the connection stopped: {0:?}")]
    ConnectionStopped(ConnectionStopReason),
    /// Out of memory.
    #[error("out of memory")]
    NoMemory,
}

impl From<NoMemory> for AllocSessionError {
    ghost from_gives = { λ _ error. error ≡ refusals.NoMemory };

    fn from(_error: NoMemory) -> Self {
        AllocSessionError::NoMemory
    }
}

impl From<AllocSessionError> for BeginError {
    ghost from_gives = { λ refused error. error ≡ begin_error refused };

    fn from(error: AllocSessionError) -> Self {
        match error {
            AllocSessionError::ChannelMaxReached => BeginError::LocalChannelMaxReached,
            AllocSessionError::ConnectionStopped(reason) => BeginError::ConnectionStopped(reason),
            AllocSessionError::NoMemory => BeginError::NoMemory,
        }
    }
}

/// The end of a connection, on which sessions that the peer began wait, and which gives channels to
/// sessions of this side.
///
/// Every Err counts as a fault: it comes only where the count of faults rose in the call, or stands
/// at its last value, 2^64 - 1.
pub trait ConnectionEnd {
    ghost use Rattle.std.specs.Prelude.{◌≡◌, Option, Result, option_copied};
    ghost use Rattle.amqp_links.specs.declared.poll.Poll.{Poll};
    ghost use Rattle.amqp_txn_types.specs.declared.small.OutgoingChannel.{OutgoingChannel};
    ghost use Rattle.amqp_below_connections.specs.declared.connection.AllocSessionError.{AllocSessionError};
    ghost use Rattle.amqp_below_connections.specs.declared.connection.IncomingSession.{IncomingSession};
    ghost use Rattle.amqp_below_connections.specs.Connections.{Allocates, ConnectionTold, NextSession};

    /// What it tells: the sessions that wait, why it stopped, and how often it failed.
    ghost told: { Self → ConnectionTold };

    /// What a look for a session answers and leaves: the end before and after, the answer.
    ghost next_session_gives: { Self → Self → Poll (Option IncomingSession) → Type 0 };

    /// What an allocation answers and leaves: the end before and after, the answer.
    ghost allocate_gives: { Self → Self → Result OutgoingChannel AllocSessionError → Type 0 };

    /// Takes the session that waits longest. It is `Pending` exactly where none waits and the
    /// connection hasn't stopped, and `Ready(None)` exactly where none waits and it has.
    fn next_incoming_session(&mut self) -> Poll<Option<IncomingSession>>
        ensures told { NextSession (told self.old) (told self.new) result }
        ensures gives { next_session_gives self.old self.new result };

    /// Gives a channel to a session of this side (section 2.5.1).
    fn allocate_session(&mut self) -> Result<OutgoingChannel, AllocSessionError>
        ensures told { Allocates (told self.old) (told self.new) result }
        ensures gives { allocate_gives self.old self.new result };

    /// Why the connection stopped, where it did.
    fn stop_reason(&self) -> Option<&ConnectionStopReason>
        ensures { option_copied result ≡ (told self.now).stop };
}
