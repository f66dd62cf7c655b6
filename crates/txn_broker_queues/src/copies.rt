//! Copies of the messages of a queue.

ghost use Rattle.std.specs.Prelude.{ℕ, ◌≡◌, ◌≤◌, ◌<◌, List, IfOk, Some, length, slice_get, take};
ghost use Rattle.txn_broker_queues.specs.Given.{max_messages};
ghost use Rattle.txn_broker_queues.specs.Keeping.{MailsStand, message_at, queue_names};
ghost use Rattle.txn_broker_queues.specs.Queues.{queue as queue_of};
ghost use Rattle.txn_broker_queues.specs.Taking.{frames_of};

use crate::message::{Message, Messages};
use crate::queues::Queues;
use amqp_txn_types::{Frame, Frames, NoMemory, TryClone};
use std::alloc::Global;

/// Copies of the first so many messages of a queue. The only error is out of memory.
///
/// # Requires
///
/// The names and the messages are those of the frames that were taken, and the queue is one of the
/// queues.
pub(crate) fn copy_messages(
    alloc: Global,
    taken: &[(Frame, Frames)],
    queues: &Queues,
    queue: usize,
    count: usize,
) -> Result<Messages, NoMemory>
    requires stand { MailsStand (frames_of taken.now) queues.now }
    requires names { queues.now.names ≡ queue_names (frames_of taken.now) }
    requires few { length queues.now.marks ≤ max_messages }
    requires queue { queue < length queues.now.names }
    ensures { IfOk result (λ copies. (name : List ℕ)
        → slice_get queues.now.names queue ≡ Some name
        → copies ≡ take count (queue_of (frames_of taken.now) name)) }
{
    let numbers = queues.first_numbers(alloc, queue, count)?;
    let mut copies = Messages::new(alloc);
    for number in &numbers {
        copies.append(copy_message(taken, queues, *number)?)?;
    }
    Ok(copies)
}

/// A copy of the message of a number. The only error is out of memory.
fn copy_message(
    taken: &[(Frame, Frames)],
    queues: &Queues,
    number: usize,
) -> Result<Message, NoMemory>
    requires stand { MailsStand (frames_of taken.now) queues.now }
    requires few { length queues.now.marks ≤ max_messages }
    requires within { number < length queues.now.marks }
    ensures { IfOk result (λ copy. copy ≡ message_at (frames_of taken.now) number) }
{
    let Some(mark) = queues.get(number) else {
        unreachable!()
    };
    let Frame::Transfer { payload, .. } = &taken[mark.place].0 else {
        unreachable!()
    };
    Ok(Message {
        number: number as u32,
        payload: payload.try_clone()?,
    })
}
