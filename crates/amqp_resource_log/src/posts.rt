//! What a post is answered when it is kept.

ghost use Rattle.std.specs.Prelude.{◌≡◌};
ghost use Rattle.amqp_txn_types.specs.Presumptive.{presumed_disposition};

use amqp_txn_types::{Disposition, TransactionId, Transfer, presumed_disposition};

/// The disposition that tells the presumptive outcome of a post under the id: that of a commit.
/// There is none for a post that is settled or has no delivery id.
///
/// Part 4 of the standard, section 4.4.1 (transactional posting).
pub fn presumptive(txn_id: &TransactionId, transfer: &Transfer) -> Option<Disposition>
    ensures { result ≡ presumed_disposition transfer.now.settled transfer.now.delivery_id
        txn_id.now }
{
    presumed_disposition(transfer.settled, transfer.delivery_id, *txn_id)
}
