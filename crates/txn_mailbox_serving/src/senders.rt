//! The threads of the senders.

ghost use Rattle.std.specs.Prelude.{◌≡◌, ◌<◌, ◌≤◌, IfOk, IfErr};
ghost use Rattle.crossbeam_queue.specs.Passes.{view, IsPassOf};
ghost use Rattle.txn_mailbox_queue.specs.Order.{len_of, sender_view};

use std::sync::Wait;
use std::thread::{Promise, PromisedHandle, Scope, Threads};
use txn_gate::Gate;
use txn_mailbox_queue::{Lengths, Queue, Seat, put_all};

/// What a sender's thread gives back: its pass, once it has put its whole list.
#[derive(Clone, Copy)]
pub struct PutBy<'a, L: Lengths> {
    /// The queue that it puts into.
    pub queue: &'a Queue<L>,
    /// The sender's number.
    pub sender: u8,
    /// How many steps it has.
    pub len: usize,
}

impl<'a, L: Lengths> Promise<Seat> for PutBy<'a, L> {
    ghost use Rattle.std.specs.Prelude.{◌≡◌};
    ghost use Rattle.crossbeam_queue.specs.Passes.{view, IsPassOf};
    ghost use Rattle.txn_mailbox_queue.specs.Order.{sender_view};

    ghost kept_by = { λ p r. IsPassOf p.queue.now r × (view r ≡ sender_view p.sender p.len) };
}

/// A sender that was started: a thread, or its pass where none could be made and this thread has
/// put its list.
pub type Started<'s, L> = Result<PromisedHandle<Seat, PutBy<'s, L>>, Seat>;

/// Starts a sender. Where no thread can be made, this thread puts its list.
///
/// # Requires
///
/// The pass has the sender's right alone, and has put nothing.
pub fn start<'s, E: 's, L: Lengths + Sync + 's, R: Wait + Sync + 's, H: Gate + Sync + 's>(
    scope: &Scope<'s, E>,
    rt: &'s R,
    queue: &'s Queue<L>,
    gate: &'s H,
    pass: Seat,
    sender: u8,
    len: usize,
) -> Result<PromisedHandle<Seat, PutBy<'s, L>>, Seat>
    requires sender { (sender < 2) × (len ≤ len_of L.first L.second sender) }
    requires begins { IsPassOf queue.now pass × (view pass ≡ sender_view sender 0) }
    ensures there { IfOk result (λ h. (h.promise.queue ≡ queue.entry) × (h.promise.sender ≡ sender)
        × (h.promise.len ≡ len)) }
    ensures here { IfErr result
        (λ p. IsPassOf queue.now p × (view p ≡ sender_view sender len)) }
{
    let promise = PutBy { queue, sender, len };
    let job = move || -> Seat
        requires { (sender < 2) × (len ≤ len_of L.first L.second sender) × IsPassOf queue.now pass
            × (view pass ≡ sender_view sender 0) }
        ensures { IsPassOf queue.entry.now result × (view result ≡ sender_view sender len) }
    { put_all(rt, queue, gate, pass, sender, len) };
    match scope.spawn_with(promise, job) {
        Ok(handle) => Ok(handle),
        Err(refused) => Err((refused.value)()),
    }
}

/// The sender's pass, once it has put its list.
///
/// # Requires
///
/// The sender was started so.
pub fn end<L: Lengths, R: Threads>(
    rt: &R,
    queue: &Queue<L>,
    started: Result<PromisedHandle<Seat, PutBy<'_, L>>, Seat>,
    sender: u8,
    len: usize,
) -> Seat
    requires there { IfOk started (λ h. (h.promise.queue.now ≡ queue.now)
        × (h.promise.sender ≡ sender) × (h.promise.len ≡ len)) }
    requires here { IfErr started
        (λ p. IsPassOf queue.now p × (view p ≡ sender_view sender len)) }
    ensures { IsPassOf queue.now result × (view result ≡ sender_view sender len) }
{
    match started {
        Ok(handle) => handle.join(rt),
        Err(pass) => pass,
    }
}
