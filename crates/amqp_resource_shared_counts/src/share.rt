//! A count of steps, beside some parts of a ledger.

ghost use Rattle.std.specs.Prelude.{◌≡◌, ◌<◌, ◌+◌, ◌-◌, ◌^◌, sum_by};

use std::marker::Model;
use std::sync::ledger::{Book, Ledger, Share as Part};

/// How many steps an owner has made, beside the parts of the ledger that stand for them.
///
/// Owners cut shares from one another. The ledger's book has the sum of all counts, also of those
/// whose shares were dropped.
#[derive(Drop)]
pub struct Share<L: Ledger> {
    count: u64,
    part: Part<L>,
}

impl<L: Ledger> Model for Share<L> {
    ghost use Rattle.std.specs.Prelude.{◌≡◌, ◌<◌};
    ghost use Rattle.amqp_resource_shared_counts.specs.Shares.{Counted};

    ghost Value = { Counted };

    ghost view = { λ share. record { count = share.count; parts = share.part.parts } };

    ghost invariant = { λ share. (share.part.amount ≡ share.count) × (0 < share.part.parts) };
}

impl<L: Ledger> Share<L> {
    /// A share that counts no step and has these parts.
    ///
    /// # Requires
    ///
    /// There is at least one part, and its amount is 0.
    pub fn new(part: Part<L>) -> Share<L>
        requires amount { part.amount ≡ 0 }
        requires parts { 0 < part.parts }
        ensures { (result.parts ≡ part.parts) × (result.count ≡ 0) }
    {
        Share { count: 0, part }
    }

    /// How many steps it counts.
    pub fn count(&self) -> u64
        ensures { result ≡ self.now.count }
    {
        self.count
    }

    /// Another share, which counts no step and has `parts` of this one's parts.
    ///
    /// # Requires
    ///
    /// `parts` is at least 1 and less than the parts of this one.
    pub fn split(&mut self, parts: u64) -> Share<L>
        requires some { 0 < parts }
        requires fewer { parts < self.old.parts }
        ensures parts { (result.parts ≡ parts) × (self.new.parts + parts ≡ self.old.parts) }
        ensures counts { (result.count ≡ 0) × (self.new.count ≡ self.old.count) }
    {
        let other = self.part.split_off(parts, 0);
        Share {
            count: 0,
            part: other,
        }
    }

    /// Counts one step more, in the book too.
    ///
    /// # Requires
    ///
    /// The book's total is less than 2^64 - 1.
    pub fn add_one(&mut self, book: &mut Book<L>)
        requires { book.old.total < 2 ^ 64 - 1 }
        ensures total { book.new.total ≡ book.old.total + 1 }
        ensures count { self.new.count ≡ self.old.count + 1 }
        ensures parts { self.new.parts ≡ self.old.parts }
    {
        let Share { count, part } = self;
        book.audit(part);
        book.add(part, 1);
        *count += 1;
    }
}

/// The steps that the shares count, which with all parts of the ledger are all that the book has.
///
/// # Requires
///
/// `none` has no part and no amount, and the book's total fits a u64.
pub fn add_up<L: Ledger>(book: &mut Book<L>, none: Part<L>, shares: Vec<Share<L>>) -> u64
    requires none { (none.parts ≡ 0) × (none.amount ≡ 0) }
    requires room { book.old.total < 2 ^ 64 }
    ensures total { book.new.total ≡ book.old.total }
    ensures sum { result ≡ sum_by (λ s. s.count) shares.items }
    ensures whole { sum_by (λ s. s.parts) shares.items ≡ L.parts → result ≡ book.old.total }
{
    let mut all = none;
    let mut held = 0u64;
    book.audit(&mut all);
    for share in shares {
        let Share { count, part } = share;
        all.merge(part);
        book.audit(&mut all);
        held += count;
    }
    book.audit(&mut all);
    held
}
