//! A queue below a transactional session, with a greatest length.

ghost use Rattle.std.specs.Prelude.{◌≡◌, [], length};
ghost use Rattle.std.specs.Prelude.{◌-◌, count_by};
ghost use Rattle.amqp_txn_types.specs.Frames.{is_transfer};

use amqp_below_layer::{LayerBelow, SessionInnerError, Tells, Verdict};
use amqp_txn_types::{
    Attach, Disposition, Flow, Frame, Frames, Items, NoMemory, Payload, SessionState, count_one,
    refuse,
};
use std::alloc::Global;
use std::marker::Model;

/// A queue that holds at most `limit` messages. It vetoes a commit for which it has no room, so a
/// transaction is queued whole or not at all, if memory allows.
#[derive(Drop)]
pub struct BoundedQueue {
    alloc: Global,
    messages: Items<Payload>,
    limit: usize,
    refusals: u64,
    vetoes: u64,
}

impl Model for BoundedQueue {
    ghost use Rattle.std.specs.Prelude.{◌≤◌, length};
    ghost use Rattle.amqp_examples.specs.Bounded.{Bounded};

    ghost Value = { Bounded };

    ghost view = { λ queue. record {
      messages = queue.messages;
      limit = queue.limit;
      refusals = queue.refusals;
      vetoes = queue.vetoes;
    } };

    ghost invariant = { λ queue. length queue.messages ≤ queue.limit };
}

impl BoundedQueue {
    /// An empty queue for at most `limit` messages.
    pub fn new(alloc: Global, limit: usize) -> Self
        ensures { result ≡ record { messages = []; limit = limit; refusals = 0; vetoes = 0 } }
    {
        BoundedQueue {
            alloc,
            messages: Items::new(alloc),
            limit,
            refusals: 0,
            vetoes: 0,
        }
    }

    /// The messages, in the order in which they were handed.
    pub fn messages(&self) -> &Items<Payload>
        ensures { result.now ≡ self.now.messages }
    {
        &self.messages
    }

    /// How many messages there still is room for.
    fn room(&self) -> usize
        ensures { result ≡ self.now.limit - length self.now.messages }
    {
        self.limit - self.messages.len()
    }
}

/// Whether the frame is a transfer, which has a message.
fn is_transfer(frame: &Frame) -> bool
    ensures { result ≡ is_transfer frame.now }
{
    matches!(frame, Frame::Transfer { .. })
}

/// How many messages these frames hold.
fn message_count(frames: &[Frame]) -> usize
    ensures { result ≡ count_by is_transfer frames.now }
{
    let mut count = 0;
    for frame in frames {
        if is_transfer(frame) {
            count += 1;
        }
    }
    count
}

impl Tells for BoundedQueue {
    ghost use Rattle.amqp_examples.specs.Bounded.{told_of};

    ghost told = { told_of };
}

impl LayerBelow for BoundedQueue {
    ghost use Rattle.std.specs.Prelude.{◌≡◌, false, None, Ok, []};
    ghost use Rattle.amqp_examples.specs.Bounded.{HasRoom, Queues, ReviewsRoom};
    ghost use Rattle.amqp_examples.specs.BoundedLaws.{bounded-goes-on, bounded-stays-on, bounded-window};

    ghost incoming_gives = { Queues };

    ghost opening_gives = { λ old new _ answer. (answer ≡ Ok []) × (new ≡ old) };

    ghost check_gives = { λ old new _ answer. (answer ≡ Ok tt) × (new ≡ old) };

    ghost window_gives = { λ old new flow. (flow ≡ None) × (new ≡ old) };

    ghost review_gives = { ReviewsRoom };

    ghost takes = { HasRoom };

    ghost sure = { false };

    ghost goes_on = { bounded-goes-on };

    ghost stays_on = { λ old new _ answer gives. bounded-stays-on old new answer gives.0 gives.1 };

    ghost window_stays_on = { λ old new _ gives. bounded-window old new gives.1 };

    fn local_state(&self) -> SessionState {
        SessionState::Mapped
    }

    fn on_incoming_frame(&mut self, frame: Frame) -> Result<Frames, SessionInnerError> {
        match frame {
            Frame::Transfer { transfer, payload } => {
                drop(transfer);
                if self.room() == 0 {
                    drop(payload);
                    return refuse(&mut self.refusals, SessionInnerError::IllegalState);
                }
                match self.messages.append(payload) {
                    Ok(()) => Ok(Frames::new(self.alloc)),
                    Err(_) => refuse(&mut self.refusals, SessionInnerError::NoMemory),
                }
            }
            Frame::Attach(_) | Frame::Flow(_) | Frame::Disposition(_) | Frame::Detach(_) => {
                Ok(Frames::new(self.alloc))
            }
        }
    }

    fn review(&mut self, frames: &Frames) -> Result<Verdict, NoMemory> {
        if message_count(frames.as_slice()) <= self.room() {
            return Ok(Verdict::Accept);
        }
        count_one(&mut self.vetoes);
        Ok(Verdict::Veto)
    }

    fn on_control_attach(&mut self, attach: &Attach) -> Result<Frames, SessionInnerError> {
        Ok(Frames::new(self.alloc))
    }

    fn on_outgoing_disposition(
        &mut self,
        disposition: &Disposition,
    ) -> Result<(), SessionInnerError> {
        Ok(())
    }

    fn maybe_outgoing_session_flow(&mut self) -> Option<Flow> {
        None
    }
}
