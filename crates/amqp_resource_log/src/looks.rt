//! Counting the looks into the log.

ghost use Rattle.std.specs.Prelude.{◌≡◌, ◌+◌, ◌<◌};

use std::marker::Model;
use std::sync::ledger::{Blank, Book, Ledger, Share};

/// A count of looks into the log, for contracts alone: it takes no memory, and nothing reads it.
///
/// It is kept in a ledger, of which there is one for each `L`: so whoever is lent a count can put
/// no other in its place, and it never falls.
#[derive(Drop)]
pub struct Looks<L: Ledger> {
    book: Book<L>,
    share: Share<L>,
}

impl<L: Ledger> Model for Looks<L> {
    ghost use Rattle.std.specs.Prelude.{ℕ, ◌<◌};

    ghost Value = { ℕ };

    ghost view = { λ looks. looks.book.total };

    ghost invariant = { λ looks. 0 < looks.share.parts };
}

impl<L: Ledger> Looks<L> {
    /// No look so far, counted in a blank ledger.
    ///
    /// # Requires
    ///
    /// The ledger is `L`'s own, and has a part.
    pub fn new(blank: Blank) -> Self
        requires name { blank.name ≡ L.name }
        requires parts { blank.parts ≡ L.parts }
        requires some { 0 < blank.parts }
        ensures { result ≡ 0 }
    {
        let (book, share) = blank.open::<L>();
        Looks { book, share }
    }

    /// One look more.
    pub fn tick(&mut self)
        ensures { self.new ≡ self.old + 1 }
    {
        self.book.add(&mut self.share, 1);
    }
}
