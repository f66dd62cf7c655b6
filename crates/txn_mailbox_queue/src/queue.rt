//! Items that are put and taken.

ghost use Rattle.std.specs.Prelude.{◌≡◌, ◌<◌, ◌≤◌, true};
ghost use Rattle.crossbeam_queue.specs.Passes.{view, IsPassOf};
ghost use Rattle.txn_mailbox_queue.specs.Order.{count, len_of, may, put as put_of, put_one, sender_view, took};

use crate::item::Item;
use crate::rule::{Lengths, Puts, Queue, Seat, Takes};
use std::sync::Wait;
use std::thread;
use txn_gate::Gate;

/// Puts one item, as soon as there is room.
///
/// # Requires
///
/// The pass is one of the queue's and may put items of the sender, and the item's place is the
/// number of those that were put, less than the sender's number of items.
pub fn put<L: Lengths, R: Wait>(rt: &R, queue: &Queue<L>, pass: &mut Seat, item: Item)
    requires queue { IsPassOf queue.now pass.old }
    requires next { (may (view pass.old) item.sender ≡ true)
        × (item.place ≡ put_of (view pass.old) item.sender) }
    requires room { item.place < len_of L.first L.second item.sender }
    ensures queue { IsPassOf queue.now pass.new }
    ensures put { view pass.new ≡ put_one (view pass.old) item.sender }
{
    for _ in rt.forever() {
        if queue.try_push_as::<Puts>(pass, item).is_ok() {
            return;
        }
        thread::yield_now();
    }
    unreachable!()
}

/// The turn in which a sender puts the item of a place: from 1 on, up to 2^32 - 1.
fn turn_of(place: usize) -> u32 {
    u32::try_from(place).unwrap_or(u32::MAX).saturating_add(1)
}

/// Puts a sender's items of the places 0 up to, but not with, `len`, in order. It passes the gate
/// before each.
///
/// # Requires
///
/// The pass is one of the queue's with the sender's right alone, which has put nothing, and `len`
/// is at most the sender's number of items.
pub fn put_all<L: Lengths, R: Wait, H: Gate>(
    rt: &R,
    queue: &Queue<L>,
    gate: &H,
    mut pass: Seat,
    sender: u8,
    len: usize,
) -> Seat
    requires sender { (sender < 2) × (len ≤ len_of L.first L.second sender) }
    requires begins { IsPassOf queue.now pass × (view pass ≡ sender_view sender 0) }
    ensures { IsPassOf queue.now result × (view result ≡ sender_view sender len) }
{
    for place in 0..len {
        gate.pass(u32::from(sender), turn_of(place));
        put(rt, queue, &mut pass, Item { sender, place });
    }
    pass
}

/// Takes one item, as soon as there is one.
///
/// # Requires
///
/// The pass is one of the queue's and may take.
pub fn take<L: Lengths, R: Wait>(rt: &R, queue: &Queue<L>, pass: &mut Seat) -> Item
    requires { IsPassOf queue.now pass.old × ((view pass.old).takes ≡ true) }
    ensures queue { IsPassOf queue.now pass.new }
    ensures took { view pass.new ≡ took (view pass.old) result }
    ensures sender { result.sender < 2 }
    ensures place { result.place ≡ count result.sender (view pass.old).taken }
    ensures within { result.place < len_of L.first L.second result.sender }
{
    for _ in rt.forever() {
        if let Some(item) = queue.try_pop_as::<Takes<L>>(pass) {
            return item;
        }
        thread::yield_now();
    }
    unreachable!()
}
