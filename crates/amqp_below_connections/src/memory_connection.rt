//! The end of a connection in memory.

ghost use Rattle.std.specs.Prelude.{◌≡◌, [], None, OnOk, OnErr, IfErr};
ghost use Rattle.amqp_below_connections.specs.MemoryConnections.{IsStopFault, with_session, with_stop};

use crate::connection::{AllocSessionError, ConnectionEnd, IncomingSession};
use amqp_links::Poll;
use amqp_txn_types::{ConnectionStopReason, NoMemory, OutgoingChannel, TryClone, count_one};
use std::alloc::Global;
use std::collections::VecDeque;
use std::marker::Model;

/// The end of a connection over which nothing travels: it gives the sessions and channels that its
/// owner says.
///
/// Channels are given from 0 on, each once, up to the greatest one.
#[derive(Drop)]
pub struct MemoryConnection {
    waiting: VecDeque<IncomingSession>,
    next: u32,
    channel_max: u16,
    stop: Option<ConnectionStopReason>,
    faults: u64,
}

impl Model for MemoryConnection {
    ghost use Rattle.std.specs.Prelude.{◌≤◌, ◌+◌};
    ghost use Rattle.amqp_below_connections.specs.MemoryConnections.{InMemory};

    ghost Value = { InMemory };

    ghost view = { λ c. record {
      waiting = c.waiting.items;
      next = c.next;
      channel_max = c.channel_max;
      stop = c.stop;
      faults = c.faults;
    } };

    ghost invariant = { λ c. c.next ≤ c.channel_max + 1 };
}

impl MemoryConnection {
    /// A connection whose greatest channel is `channel_max`. No session waits, no channel was given
    /// and it hasn't stopped. It makes its list on `alloc`, and takes no memory.
    pub fn new(alloc: Global, channel_max: u16) -> Self
        ensures waiting { result.waiting ≡ [] }
        ensures next { result.next ≡ 0 }
        ensures channel_max { result.channel_max ≡ channel_max }
        ensures stop { result.stop ≡ None }
        ensures faults { result.faults ≡ 0 }
    {
        MemoryConnection {
            waiting: VecDeque::new(alloc),
            next: 0,
            channel_max,
            stop: None,
            faults: 0,
        }
    }

    /// Has a session wait after those that do.
    ///
    /// # Errors
    ///
    /// Out of memory: the session is handed back, and the connection is as it was.
    pub fn push_session(
        &mut self,
        session: IncomingSession,
    ) -> Result<(), (IncomingSession, NoMemory)>
        ensures ok { OnOk result (self.new ≡ with_session self.old session) }
        ensures err { IfErr result (λ unkept. (unkept.0 ≡ session) × (self.new ≡ self.old)) }
    {
        match self.waiting.push_back(session) {
            Ok(()) => Ok(()),
            Err(unkept) => Err((unkept.value, NoMemory)),
        }
    }

    /// Has a session wait after those that do.
    ///
    /// # Errors
    ///
    /// Out of memory: the session is dropped, and the connection is as it was.
    /// [`MemoryConnection::push_session`] hands it back.
    pub fn append_session(&mut self, session: IncomingSession) -> Result<(), NoMemory>
        ensures ok { OnOk result (self.new ≡ with_session self.old session) }
        ensures err { OnErr result (self.new ≡ self.old) }
    {
        match self.push_session(session) {
            Ok(()) => Ok(()),
            Err((session, error)) => {
                drop(session);
                Err(error)
            }
        }
    }

    /// Says why the connection stopped. The reason that was said last is kept.
    pub fn set_stop_reason(&mut self, reason: ConnectionStopReason)
        ensures { self.new ≡ with_stop self.old reason }
    {
        self.stop = Some(reason);
    }
}

/// The stop reason as the fault of an allocation. The only other answer is out of memory.
fn stop_fault(reason: &ConnectionStopReason) -> AllocSessionError
    ensures { IsStopFault reason.now result }
{
    match reason.try_clone() {
        Ok(copy) => AllocSessionError::ConnectionStopped(copy),
        Err(_) => AllocSessionError::NoMemory,
    }
}

impl ConnectionEnd for MemoryConnection {
    ghost use Rattle.std.specs.Prelude.{◌≡◌};
    ghost use Rattle.amqp_below_connections.specs.MemoryConnections.{AllocatesBy, session_taken, told_of};

    ghost told = { told_of };

    ghost next_session_gives = { λ old new _. new ≡ session_taken old };

    ghost allocate_gives = { AllocatesBy };

    fn next_incoming_session(&mut self) -> Poll<Option<IncomingSession>> {
        match self.waiting.pop_front() {
            Some(session) => Poll::Ready(Some(session)),
            None if self.stop.is_some() => Poll::Ready(None),
            None => Poll::Pending,
        }
    }

    fn allocate_session(&mut self) -> Result<OutgoingChannel, AllocSessionError> {
        if let Some(reason) = &self.stop {
            let error = stop_fault(reason);
            count_one(&mut self.faults);
            return Err(error);
        }
        if self.next > self.channel_max as u32 {
            count_one(&mut self.faults);
            return Err(AllocSessionError::ChannelMaxReached);
        }
        let channel = OutgoingChannel(self.next as u16);
        self.next += 1;
        Ok(channel)
    }

    fn stop_reason(&self) -> Option<&ConnectionStopReason> {
        self.stop.as_ref()
    }
}
