//! Retirements under a transaction.

ghost use Rattle.amqp_txn_types.specs.declared.delivery.Outcome.TheVariants as outcomes;
ghost use Rattle.amqp_links.specs.OneCall.{OneDisposition};
ghost use Rattle.amqp_controller_posting.specs.Retirements.{Retires};

use amqp_controller_calls::TransactionBase;
use amqp_links::{DeliveryInfo, DispositionError, ReceiverLink};
use amqp_txn_types::{DeliveryState, Error, Modified, Outcome, Rejected, TransactionalState};

/// Disposing of received deliveries under a transaction: the resource settles them so when it is
/// committed. Part 4 of the standard, section 4.4.2 (transactional retirement).
///
/// Each call makes one `dispose`, which doesn't say whether it is settled, with the transactional
/// state of the id and the outcome, and no other call.
///
/// # Errors
///
/// Each call's are what the link's `dispose` answered.
pub trait TransactionRetirement: TransactionBase {
    /// Why a delivery isn't retired.
    type RetireError: From<DispositionError> + Drop;

    /// Retires a delivery with an outcome.
    fn retire<R: ReceiverLink>(
        &self,
        recver: &mut R,
        delivery: &DeliveryInfo,
        outcome: Outcome,
    ) -> Result<(), Self::RetireError>
        ensures { Retires Self.RetireError.from_gives (OneDisposition R.dispose_gives R.told)
            recver.old recver.new (Self.id self.now) delivery.now outcome result }
    {
        let state = DeliveryState::TransactionalState(TransactionalState {
            txn_id: *self.txn_id(),
            outcome: Some(outcome),
        });
        match recver.dispose(delivery, None, state) {
            Ok(()) => Ok(()),
            Err(fault) => Err(Self::RetireError::from(fault)),
        }
    }

    /// Retires a delivery as accepted. Part 3 of the standard, section 3.4.2.
    fn accept<R: ReceiverLink>(
        &self,
        recver: &mut R,
        delivery: &DeliveryInfo,
    ) -> Result<(), Self::RetireError>
        ensures { Retires Self.RetireError.from_gives (OneDisposition R.dispose_gives R.told)
            recver.old recver.new (Self.id self.now) delivery.now outcomes.Accepted result }
    {
        self.retire(recver, delivery, Outcome::Accepted)
    }

    /// Retires a delivery as rejected, for the error. Part 3 of the standard, section 3.4.3.
    fn reject<R: ReceiverLink>(
        &self,
        recver: &mut R,
        delivery: &DeliveryInfo,
        error: Option<Error>,
    ) -> Result<(), Self::RetireError>
        ensures { Retires Self.RetireError.from_gives (OneDisposition R.dispose_gives R.told)
            recver.old recver.new (Self.id self.now) delivery.now
            (outcomes.Rejected (record { error = error })) result }
    {
        self.retire(recver, delivery, Outcome::Rejected(Rejected { error }))
    }

    /// Retires a delivery as released. Part 3 of the standard, section 3.4.4.
    fn release<R: ReceiverLink>(
        &self,
        recver: &mut R,
        delivery: &DeliveryInfo,
    ) -> Result<(), Self::RetireError>
        ensures { Retires Self.RetireError.from_gives (OneDisposition R.dispose_gives R.told)
            recver.old recver.new (Self.id self.now) delivery.now outcomes.Released result }
    {
        self.retire(recver, delivery, Outcome::Released)
    }

    /// Retires a delivery as modified. Part 3 of the standard, section 3.4.5.
    fn modify<R: ReceiverLink>(
        &self,
        recver: &mut R,
        delivery: &DeliveryInfo,
        modified: Modified,
    ) -> Result<(), Self::RetireError>
        ensures { Retires Self.RetireError.from_gives (OneDisposition R.dispose_gives R.told)
            recver.old recver.new (Self.id self.now) delivery.now (outcomes.Modified modified)
            result }
    {
        self.retire(recver, delivery, Outcome::Modified(modified))
    }
}
