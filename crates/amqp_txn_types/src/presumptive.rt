//! What a post is told before its transaction is discharged.

ghost use Rattle.std.specs.Prelude.{◌≡◌};
ghost use Rattle.amqp_txn_types.specs.Presumptive.{presumed_disposition};

use crate::{DeliveryState, Disposition, Outcome, Role, TransactionId, TransactionalState};

/// The disposition that tells the presumptive outcome of a post under the id, with that `settled`
/// and delivery id: that of a commit. There is none for a post that is settled or has no delivery
/// id.
///
/// Part 4 of the standard, section 4.4.1 (transactional posting).
pub fn presumed_disposition(
    settled: Option<bool>,
    delivery_id: Option<u32>,
    txn_id: TransactionId,
) -> Option<Disposition>
    ensures { result ≡ presumed_disposition settled delivery_id txn_id }
{
    if settled == Some(true) {
        return None;
    }
    let first = delivery_id?;
    Some(Disposition {
        role: Role::Receiver,
        first,
        last: None,
        settled: true,
        state: Some(DeliveryState::TransactionalState(TransactionalState {
            txn_id,
            outcome: Some(Outcome::Accepted),
        })),
        batchable: false,
    })
}
