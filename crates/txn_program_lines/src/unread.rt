//! Why a reader of words has no answer.

ghost use Rattle.std.specs.Prelude.{◌≡◌};
ghost use Rattle.txn_program_lines.specs.declared.unread.Unread.TheVariants as unread;

use amqp_txn_types::NoMemory;

/// Why a reader of words has no answer.
#[derive(Clone, Copy, Debug, PartialEq, Eq)]
pub enum Unread {
    /// The words are of no form of the table.
    OutsideTable,
    /// An allocation failed.
    NoMemory,
}

impl From<NoMemory> for Unread {
    ghost from_gives = { λ _ why. why ≡ unread.NoMemory };

    fn from(_error: NoMemory) -> Self {
        Unread::NoMemory
    }
}
