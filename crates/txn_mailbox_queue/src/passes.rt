//! How passes are made and taken in.

ghost use Rattle.std.specs.Prelude.{◌≡◌, ◌+◌, ◌++◌, true, [], List, length, IfOk};
ghost use Rattle.crossbeam_queue.specs.Passes.{view, IsPassOf};
ghost use Rattle.txn_mailbox_queue.specs.declared.item.Item.{Item as I};
ghost use Rattle.txn_mailbox_queue.specs.Order.{InTurn, but_first, but_second, count, only_first, only_second, view_of, with_first, with_second};

use crate::rule::{First, Lengths, Queue, Seat, Second, Totals};
use std::alloc::{AllocError, Global};

/// A queue with room for so many items, at least one, and the pass that may do all. The only error
/// is out of memory.
pub fn open_queue<L: Lengths>(alloc: Global, room: usize) -> Result<(Queue<L>, Seat), AllocError>
    ensures queue { IfOk result (λ made. IsPassOf made.0 made.1) }
    ensures view { IfOk result (λ made. view made.1 ≡ view_of true true true 0 0 []) }
{
    Queue::<L>::ruled(alloc, if room == 0 { 1 } else { room })
}

/// Makes a pass of the first sender's right to put.
///
/// # Requires
///
/// The pass is one of the queue's and has the right.
pub fn give_first<L: Lengths>(queue: &Queue<L>, pass: &mut Seat) -> Seat
    requires queue { IsPassOf queue.now pass.old }
    requires may { (view pass.old).first ≡ true }
    ensures queue { IsPassOf queue.now pass.new × IsPassOf queue.now result }
    ensures left { view pass.new ≡ but_first (view pass.old) }
    ensures right { view result ≡ only_first (view pass.old) }
{
    queue.another::<First>(pass)
}

/// Makes a pass of the second sender's right to put.
///
/// # Requires
///
/// The pass is one of the queue's and has the right.
pub fn give_second<L: Lengths>(queue: &Queue<L>, pass: &mut Seat) -> Seat
    requires queue { IsPassOf queue.now pass.old }
    requires may { (view pass.old).second ≡ true }
    ensures queue { IsPassOf queue.now pass.new × IsPassOf queue.now result }
    ensures left { view pass.new ≡ but_second (view pass.old) }
    ensures right { view result ≡ only_second (view pass.old) }
{
    queue.another::<Second>(pass)
}

/// Takes a pass in that has the first sender's right: it ends, and the other knows how many items
/// it put.
///
/// # Requires
///
/// Both are passes of the queue, and the one that ends has the right.
pub fn take_in_first<L: Lengths>(queue: &Queue<L>, pass: &mut Seat, ends: Seat)
    requires queue { IsPassOf queue.now pass.old × IsPassOf queue.now ends }
    requires may { (view ends).first ≡ true }
    ensures queue { IsPassOf queue.now pass.new }
    ensures view { view pass.new ≡ with_first (view pass.old) (view ends) }
{
    queue.absorb::<First>(pass, ends);
}

/// Takes a pass in that has the second sender's right: it ends, and the other knows how many items
/// it put.
///
/// # Requires
///
/// Both are passes of the queue, and the one that ends has the right.
pub fn take_in_second<L: Lengths>(queue: &Queue<L>, pass: &mut Seat, ends: Seat)
    requires queue { IsPassOf queue.now pass.old × IsPassOf queue.now ends }
    requires may { (view ends).second ≡ true }
    ensures queue { IsPassOf queue.now pass.new }
    ensures view { view pass.new ≡ with_second (view pass.old) (view ends) }
{
    queue.absorb::<Second>(pass, ends);
}

/// Tells a pass that may do all what is in the queue: with what was taken, each sender's items in
/// turn, as many as were put. It changes nothing.
///
/// # Requires
///
/// The pass is one of the queue's and may do all.
pub fn count_items<L: Lengths>(queue: &Queue<L>, pass: &mut Seat)
    requires queue { IsPassOf queue.now pass.old }
    requires first { (view pass.old).first ≡ true }
    requires second { (view pass.old).second ≡ true }
    requires takes { (view pass.old).takes ≡ true }
    ensures queue { IsPassOf queue.now pass.new }
    ensures view { view pass.new ≡ view pass.old }
    ensures left { (items : List I) × InTurn ((view pass.old).taken ++ items)
        × (count 0 ((view pass.old).taken ++ items) ≡ (view pass.old).first_put)
        × (count 1 ((view pass.old).taken ++ items) ≡ (view pass.old).second_put)
        × (length (view pass.old).taken + length items
        ≡ (view pass.old).first_put + (view pass.old).second_put) }
{
    queue.learn_as::<Totals>(pass);
}
