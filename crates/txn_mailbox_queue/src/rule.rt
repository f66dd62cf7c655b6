//! The rule that the queue keeps, and the kinds of step under it.

ghost use Rattle.std.specs.Prelude.{ℕ, ◌≡◌, ◌<◌, ◌+◌, length};

use crate::item::{Item, View};
use crossbeam_queue::protocol::{Join, Lesson, Outcome, Protocol, Split};
use crossbeam_queue::{Pass, RuledArrayQueue};
use std::marker::{Brand, PhantomData};

/// How many items each sender has.
pub trait Lengths {
    /// The first sender's number of items.
    ghost first: { ℕ };

    /// The second sender's number of items.
    ghost second: { ℕ };
}

impl Lengths for Brand {
    ghost first = { 0 };

    ghost second = { 0 };
}

/// The rule of the queue: each sender's items are at its places 0, 1, 2 and so on, fewer than its
/// number of items.
pub struct InOrder<L: Lengths> {
    of: PhantomData<L>,
}

impl<L: Lengths> Protocol<Item, View> for InOrder<L> {
    ghost use Rattle.std.specs.Prelude.{true, []};
    ghost use Rattle.txn_mailbox_queue.specs.Order.{Ordered, len_of, view_of};

    ghost holds = { Ordered (len_of L.first L.second) };

    ghost first = { view_of true true true 0 0 [] };
}

/// The first sender's right to put: it is made a pass of its own, and taken in again.
pub struct First;

impl Split<View> for First {
    ghost use Rattle.txn_mailbox_queue.specs.Order.{but_first, only_first};

    ghost left = { but_first };

    ghost right = { only_first };
}

impl Join<View> for First {
    ghost use Rattle.txn_mailbox_queue.specs.Order.{with_first, spent};

    ghost both = { with_first };

    ghost spent = { spent };
}

/// The second sender's right to put.
pub struct Second;

impl Split<View> for Second {
    ghost use Rattle.txn_mailbox_queue.specs.Order.{but_second, only_second};

    ghost left = { but_second };

    ghost right = { only_second };
}

impl Join<View> for Second {
    ghost use Rattle.txn_mailbox_queue.specs.Order.{with_second, spent};

    ghost both = { with_second };

    ghost spent = { spent };
}

/// A push of a sender's next item.
pub struct Puts;

impl Outcome<Item, View> for Puts {
    ghost use Rattle.txn_mailbox_queue.specs.Order.{put_one};

    ghost then = { λ v x w. w ≡ put_one v x.sender };
}

/// A pop of the oldest item.
pub struct Takes<L: Lengths> {
    of: PhantomData<L>,
}

impl<L: Lengths> Outcome<Item, View> for Takes<L> {
    ghost use Rattle.txn_mailbox_queue.specs.Order.{took, count, len_of};

    ghost then = { λ v x w. (w ≡ took v x) × (x.sender < 2) × (x.place ≡ count x.sender v.taken)
        × (x.place < len_of L.first L.second x.sender) };
}

/// What a pass that may do all knows of the items.
pub struct Totals;

impl Lesson<Item, View> for Totals {
    ghost use Rattle.std.specs.Prelude.{◌++◌};
    ghost use Rattle.txn_mailbox_queue.specs.Order.{InTurn, count};

    ghost fact = { λ v items. InTurn (v.taken ++ items)
        × (count 0 (v.taken ++ items) ≡ v.first_put) × (count 1 (v.taken ++ items) ≡ v.second_put)
        × (length v.taken + length items ≡ v.first_put + v.second_put) };
}

/// A queue under the rule.
pub type Queue<L> = RuledArrayQueue<Item, View, InOrder<L>>;

/// A pass of the queue.
pub type Seat = Pass<Item, View>;
