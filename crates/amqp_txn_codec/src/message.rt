//! The two control messages.

ghost use Rattle.std.specs.Prelude.{◌≡◌};
ghost use Rattle.amqp_txn_codec.specs.Discharges.{is_rollback};

use amqp_txn_types::TransactionId;
use thiserror::Error as ThisError;

/// Asks the resource to begin a transaction.
///
/// Part 4 of the standard, section 4.5.2 (declare).
#[derive(Clone, Copy, Debug, PartialEq, Eq)]
pub struct Declare {
    /// The id of the global transaction in which the new one is to take part, if any.
    pub global_id: Option<TransactionId>,
}

/// Asks the resource to end a transaction.
///
/// Part 4 of the standard, section 4.5.3 (discharge).
#[derive(Clone, Copy, Debug, PartialEq, Eq)]
pub struct Discharge {
    /// The transaction that ends.
    pub txn_id: TransactionId,
    /// `Some(true)` asks for a rollback, `Some(false)` and `None` for a commit.
    pub fail: Option<bool>,
}

/// The body of a message on a control link.
#[derive(Clone, Copy, Debug, PartialEq, Eq)]
pub enum ControlMessageBody {
    /// Asks for a new transaction.
    Declare(Declare),
    /// Ends a transaction: by a commit, or by a rollback.
    Discharge(Discharge),
}

/// The octets are no control message.
#[derive(Clone, Copy, Debug, PartialEq, Eq, ThisError)]
#[error("the octets are no control message")]
pub struct NotControl;

/// Whether a discharge with this `fail` rolls back; else it commits.
///
/// Part 4 of the standard, section 4.5.3 (discharge).
pub fn rolls_back(fail: Option<bool>) -> bool
    ensures { result ≡ is_rollback fail }
{
    match fail {
        Some(true) => true,
        _ => false,
    }
}
