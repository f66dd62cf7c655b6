//! Where ids come from.

use amqp_txn_types::TransactionId;

/// Where the ids of declares come from. The ids that it will give are a function of its state.
pub trait IdSource {
    ghost use Rattle.std.specs.Prelude.{◌≡◌, ◌+◌, ℕ, Option};
    ghost use Rattle.amqp_txn_types.specs.declared.id.TransactionId.{TransactionId};

    /// The id after n others.
    ghost next: { Self → ℕ → TransactionId };

    /// The ids from its start on, where it tells them.
    ghost start: { Self → Option (ℕ → TransactionId) };

    /// The next id. It can't fail and takes no memory.
    fn draw(&mut self) -> TransactionId
        ensures drawn { result ≡ next self.old 0 }
        ensures rest { (n : ℕ) → next self.new n ≡ next self.old (1 + n) }
        ensures start { start self.new ≡ start self.old };
}
