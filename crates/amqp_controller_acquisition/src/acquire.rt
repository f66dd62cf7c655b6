//! Transactions that may acquire deliveries.

ghost use Rattle.std.specs.Prelude.{◌≡◌, Ok, refl, IfErr, IfOk};
ghost use Rattle.amqp_controller_acquisition.specs.Receivers.{OneAcquisition, RefusesToAcquire};
ghost use Rattle.amqp_controller_acquisition.specs.Acquisitions.{lent_to, recver_of, txn_of};

use crate::acquisition::TxnAcquisition;
use crate::receiver::acquire_on_link;
use amqp_controller_calls::TransactionBase;
use amqp_controller_posting::{TransactionPosting, TransactionRetirement};
use amqp_controller_transactions::{OwnedTransaction, Transaction, TransactionDischarge};
use amqp_links::{FlowError, ReceiverLink, SenderLink};
use std::alloc::Global;

/// Acquiring deliveries under a transaction: what the receiver is sent is the transaction's, and is
/// released where that is rolled back. Part 4 of the standard, section 4.4.3 (transactional
/// acquisition).
pub trait TransactionAcquisition: TransactionBase + TransactionDischarge + TransactionRetirement {
    /// The id that it names is that of the transaction that it ends.
    ghost one_id: { (transaction : Self) → Self.id transaction
        ≡ (Self.begun transaction).txn_id };

    /// Names the transaction in the receiver's properties, and puts a flow with the credit and the
    /// properties: see [`acquire_on_link`].
    ///
    /// # Errors
    ///
    /// Each hands the transaction back, and leaves the receiver's properties as before, where no
    /// map of them is as an empty one.
    ///
    /// - `IllegalState`: exactly where the properties named a transaction already, or the receiver's
    ///   `send_flow` answered it.
    /// - what else that answered.
    /// - `NoMemory`: memory runs out for the property.
    final fn acquire<'r, R: ReceiverLink>(
        self,
        alloc: Global,
        recver: &'r mut R,
        credit: u32,
    ) -> Result<TxnAcquisition<'r, Self, R>, (Self, FlowError)>
        ensures acquired { IfOk result (λ acquisition. OneAcquisition {T = Unit} R.told
            R.insert_gives R.remove_gives R.flow_gives recver.old (recver_of acquisition)
            (Self.id self) credit (Ok tt)) }
        ensures lent { IfOk result (λ acquisition. (lent_to acquisition).ghost_name
            ≡ recver.entry.ghost_name) }
        ensures txn { IfOk result (λ acquisition. txn_of acquisition ≡ self) }
        ensures refused { IfErr result (λ refused. RefusesToAcquire R.told R.insert_gives
            R.remove_gives R.flow_gives recver.old (Self.id self) credit refused.1) }
        ensures back { IfErr result (λ refused. refused.0 ≡ self) }
    {
        match acquire_on_link(alloc, recver, self.txn_id(), credit) {
            Ok(key) => Ok(TxnAcquisition::new(self, recver, key)),
            Err(fault) => Err((self, fault)),
        }
    }
}

/// All that a transaction does.
pub trait TransactionExt: TransactionAcquisition + TransactionPosting {}

impl<L: SenderLink> TransactionAcquisition for Transaction<'_, L> {
    ghost one_id = { λ _. refl };
}

impl<L: SenderLink> TransactionExt for Transaction<'_, L> {}

impl<L: SenderLink + Drop> TransactionAcquisition for OwnedTransaction<L> {
    ghost one_id = { λ _. refl };
}

impl<L: SenderLink + Drop> TransactionExt for OwnedTransaction<L> {}
