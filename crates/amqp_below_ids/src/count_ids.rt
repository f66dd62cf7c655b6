//! Ids that are numbers.

ghost use Rattle.std.specs.Prelude.{◌≡◌, ℕ, Some};
ghost use Rattle.amqp_below_ids.specs.Counted.{ids_from, id_of_number};

use crate::ids::IdSource;
use amqp_txn_types::TransactionId;

/// The id of a number: its 16 octets, the highest first.
#[tactic(auto, unfolding(crate::specs::Counted::id_of_number))]
pub fn numbered_id(number: u64) -> TransactionId
    ensures { result ≡ id_of_number number }
{
    TransactionId::from(u128::from(number).to_be_bytes())
}

/// A source that gives the ids of the numbers 1, 2, 3 and so on. After 2^64 - 1 it begins at 0.
#[derive(Debug, Drop)]
pub struct CountIds {
    number: u64,
}

impl CountIds {
    /// A source whose first id is that of 1.
    pub fn new() -> CountIds
        ensures next { (n : ℕ) → ⟦<CountIds as IdSource>⟧.next result n ≡ ids_from 1 n }
        ensures start { ⟦<CountIds as IdSource>⟧.start result ≡ Some (ids_from 1) }
    {
        CountIds { number: 1 }
    }
}

impl IdSource for CountIds {
    ghost use Rattle.std.specs.Prelude.{Some};
    ghost use Rattle.amqp_below_ids.specs.Counted.{ids_from};

    ghost next = { λ s n. ids_from s.number n };

    ghost start = { λ s. Some (ids_from 1) };

    fn draw(&mut self) -> TransactionId {
        let id = numbered_id(self.number);
        self.number = self.number.wrapping_add(1);
        id
    }
}
