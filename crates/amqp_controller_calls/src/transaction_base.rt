//! What every transaction of this side has.

ghost use Rattle.std.specs.Prelude.{◌≡◌};

use amqp_txn_types::TransactionId;

/// A transaction that the coordinator declared. Part 4 of the standard, section 4.5.5 (declared).
pub trait TransactionBase {
    ghost use Rattle.amqp_txn_types.specs.declared.id.TransactionId.{TransactionId};

    /// The transaction's id.
    ghost id: { Self → TransactionId };

    /// The id that the coordinator gave.
    fn txn_id(&self) -> &TransactionId
        ensures { result.now ≡ id self.now };
}
