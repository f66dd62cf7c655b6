//! Transactional sessions over queues.

ghost use Rattle.amqp_resource_record.specs.Legal.{IsLegal};

use crate::bounded_queue::BoundedQueue;
use amqp_below_ids::CountIds;
use amqp_resource_record::{Driven, Steps};
use amqp_resource_session::{TxnSession, drive};
use std::alloc::Global;
use std::thread::{Threads, join};

/// Drives the steps of one session over a queue for a hundred messages.
pub fn serve(alloc: Global, steps: Steps) -> Driven
    ensures { IsLegal result.entries }
{
    let mut session = TxnSession::new(alloc, BoundedQueue::new(alloc, 100));
    let mut ids = CountIds::new();
    drive(&mut session, steps, &mut ids)
}

/// Serves two sessions side by side, each on a thread of its own.
pub fn serve_both<R: Threads>(
    rt: &R,
    alloc: Global,
    first: Steps,
    second: Steps,
) -> (Driven, Driven) {
    join(
        rt,
        move || serve(alloc, first),
        move || serve(alloc, second),
    )
}
