//! A transaction that acquires deliveries.

ghost use Rattle.std.specs.Prelude.{◌≡◌};
ghost use Rattle.amqp_links.specs.OneCall.{OneCredit, OneReceipt};
ghost use Rattle.amqp_controller_acquisition.specs.Receivers.{OneCleanup};

use crate::receiver::{TxnIdKey, clean_up_on_link};
use amqp_controller_calls::TransactionBase;
use amqp_controller_posting::TransactionRetirement;
use amqp_controller_transactions::TransactionDischarge;
use amqp_links::{Delivery, DeliveryInfo, FlowError, Poll, Progress, ReceiverLink, RecvError};
use amqp_txn_types::{Error, Modified, TransactionId};
use std::sync::Wait;

/// A transaction with a receiver whose deliveries it acquires: the receiver's properties name the
/// transaction. Part 4 of the standard, section 4.4.3 (transactional acquisition).
///
/// It must be spent: it ends by a commit or a rollback that was accepted, or by `abandon`.
pub struct TxnAcquisition<'r, Txn, R> {
    txn: Txn,
    recver: &'r mut R,
    key: TxnIdKey,
}

impl<'r, Txn: TransactionBase, R: ReceiverLink> TxnAcquisition<'r, Txn, R> {
    ghost use Rattle.std.specs.Prelude.{[]};
    ghost use Rattle.std.specs.Borrow.{Lends, sem};
    ghost use mir.Syntax.{named};
    ghost use Rattle.amqp_controller_acquisition.specs.Acquisitions.{lent_to, recver_of, txn_of};
    ghost use Rattle.amqp_controller_acquisition.specs.contracts.acquisition.TxnAcquisition.{the_row};

    /// The transaction.
    pub fn txn(&self) -> &Txn
        ensures { result.now ≡ txn_of self.now }
    {
        &self.txn
    }

    /// The transaction, to be changed.
    pub fn txn_mut(&mut self) -> &mut Txn
        ensures* writes_back { sem 𝓛 (Lends (the_row (record { mir = named 1; lft = [] }) Txn.row
            R.row) Txn.row self.entry result (λ w. record self.old { txn = w })) }
        ensures value { result.now ≡ txn_of self.old }
    {
        &mut self.txn
    }

    /// The transaction's id.
    pub fn txn_id(&self) -> &TransactionId
        ensures { result.now ≡ Txn.id (txn_of self.now) }
    {
        self.txn.txn_id()
    }

    /// Gives the receiver's next delivery: see [`ReceiverLink::recv`].
    pub fn recv(&mut self) -> Poll<Result<Delivery, RecvError>>
        ensures recver { OneReceipt R.recv_gives R.told (recver_of self.old)
            (recver_of self.new) result }
        ensures txn { txn_of self.new ≡ txn_of self.old }
        ensures lent { (lent_to self.new).ghost_name ≡ (lent_to self.old).ghost_name }
    {
        self.recver.recv()
    }

    /// Sets how many deliveries the receiver wants: see [`ReceiverLink::set_credit`].
    pub fn set_credit(&mut self, credit: u32) -> Result<(), FlowError>
        ensures recver { OneCredit R.credit_gives R.told (recver_of self.old)
            (recver_of self.new) credit result }
        ensures txn { txn_of self.new ≡ txn_of self.old }
        ensures lent { (lent_to self.new).ghost_name ≡ (lent_to self.old).ghost_name }
    {
        self.recver.set_credit(credit)
    }

    /// Takes the transaction out of the receiver's properties, and tells the peer so: without
    /// credit, to be drained, to be answered.
    ///
    /// # Errors
    ///
    /// That of the receiver's `send_flow`; the transaction is taken out all the same.
    pub fn cleanup(&mut self) -> Result<(), FlowError>
        ensures recver { OneCleanup R.told R.remove_gives R.flow_gives (recver_of self.old)
            (recver_of self.new) result }
        ensures txn { txn_of self.new ≡ txn_of self.old }
        ensures lent { (lent_to self.new).ghost_name ≡ (lent_to self.old).ghost_name }
    {
        clean_up_on_link(self.recver, &self.key)
    }
}

impl<'r, Txn, R> TxnAcquisition<'r, Txn, R> {
    ghost use Rattle.amqp_controller_acquisition.specs.Acquisitions.{lent_to, txn_of};

    pub(crate) fn new(txn: Txn, recver: &'r mut R, key: TxnIdKey) -> Self
        ensures txn { txn_of result ≡ txn }
        ensures lent { lent_to result ≡ recver.entry }
    {
        TxnAcquisition { txn, recver, key }
    }
}

impl<'r, Txn: TransactionDischarge, R> TxnAcquisition<'r, Txn, R> {
    ghost use Rattle.std.specs.Prelude.{IfErr, true, false};
    ghost use Rattle.amqp_controller_transactions.specs.Begun.{AsksToDischarge, IfUndischarged, OnPolledErr, PollsDischarge};
    ghost use Rattle.amqp_controller_transactions.specs.Locked.{error_of};
    ghost use Rattle.amqp_controller_acquisition.specs.Acquisitions.{lent_to, txn_of};

    /// Puts a discharge of the transaction.
    pub(crate) fn discharge<W: Wait>(
        &mut self,
        rt: &W,
        fail: bool,
    ) -> Result<Txn::Waiting, Txn::Error>
        ensures asks { AsksToDischarge (Txn.begun (txn_of self.old)) (Txn.begun (txn_of self.new))
            result }
        ensures gives { IfUndischarged (Txn.begun (txn_of self.old))
            (Txn.discharge_gives (Txn.begun (txn_of self.old)) fail result) }
        ensures cause { IfErr result (λ error. Txn.of_spend error ≡ false) }
        ensures lent { lent_to self.new ≡ lent_to self.old }
    {
        self.txn.discharge(rt, fail)
    }

    /// Polls a discharge of the transaction.
    pub(crate) fn poll_discharge<W: Wait>(
        &mut self,
        rt: &W,
        waiting: Txn::Waiting,
    ) -> Progress<Txn::Waiting, Result<(), Txn::Error>>
        ensures polls { PollsDischarge Txn.is_rollback (Txn.begun (txn_of self.old))
            (Txn.begun (txn_of self.new)) waiting result }
        ensures gives { IfUndischarged (Txn.begun (txn_of self.old))
            (Txn.poll_gives waiting result) }
        ensures cause { OnPolledErr result (λ error. Txn.of_spend error ≡ false) }
        ensures lent { lent_to self.new ≡ lent_to self.old }
    {
        self.txn.poll_discharge(rt, waiting)
    }

    /// Lets the discharged transaction go, and the receiver with it.
    pub(crate) fn spend<W: Wait>(self, rt: &W) -> Result<(), (Self, Txn::Error)>
        requires { (Txn.begun (txn_of self)).is_discharged ≡ true }
        ensures back { IfErr result (λ refused. Txn.begun (txn_of refused.0)
            ≡ Txn.begun (txn_of self.entry)) }
        ensures gives { Txn.spend_gives (error_of result) }
        ensures cause { IfErr result (λ refused. Txn.of_spend refused.1 ≡ true) }
        ensures lent { IfErr result (λ refused. lent_to refused.0 ≡ lent_to self.entry) }
    {
        let TxnAcquisition { txn, recver, key } = self;
        match txn.spend(rt) {
            Ok(()) => Ok(()),
            Err((txn, error)) => Err((TxnAcquisition { txn, recver, key }, error)),
        }
    }

    /// The transaction without its receiver.
    pub(crate) fn into_txn(self) -> Txn
        ensures { result ≡ txn_of self.entry }
    {
        let TxnAcquisition {
            txn,
            recver: _,
            key: _,
        } = self;
        txn
    }
}

/// The outcomes of deliveries that this receiver received, under the transaction.
impl<'r, Txn: TransactionRetirement, R: ReceiverLink> TxnAcquisition<'r, Txn, R> {
    ghost use Rattle.amqp_txn_types.specs.declared.delivery.Outcome.TheVariants as outcomes;
    ghost use Rattle.amqp_links.specs.OneCall.{OneDisposition};
    ghost use Rattle.amqp_controller_posting.specs.Retirements.{Retires};
    ghost use Rattle.amqp_controller_acquisition.specs.Acquisitions.{lent_to, recver_of, txn_of};

    /// Retires a delivery as accepted. See [`TransactionRetirement::accept`].
    pub fn accept(&mut self, delivery: &DeliveryInfo) -> Result<(), Txn::RetireError>
        ensures recver { Retires Txn.RetireError.from_gives (OneDisposition R.dispose_gives R.told)
            (recver_of self.old) (recver_of self.new) (Txn.id (txn_of self.old)) delivery.now
            outcomes.Accepted result }
        ensures txn { txn_of self.new ≡ txn_of self.old }
        ensures lent { (lent_to self.new).ghost_name ≡ (lent_to self.old).ghost_name }
    {
        self.txn.accept(self.recver, delivery)
    }

    /// Retires a delivery as rejected, for the error. See [`TransactionRetirement::reject`].
    pub fn reject(
        &mut self,
        delivery: &DeliveryInfo,
        error: Option<Error>,
    ) -> Result<(), Txn::RetireError>
        ensures recver { Retires Txn.RetireError.from_gives (OneDisposition R.dispose_gives R.told)
            (recver_of self.old) (recver_of self.new) (Txn.id (txn_of self.old)) delivery.now
            (outcomes.Rejected (record { error = error })) result }
        ensures txn { txn_of self.new ≡ txn_of self.old }
        ensures lent { (lent_to self.new).ghost_name ≡ (lent_to self.old).ghost_name }
    {
        self.txn.reject(self.recver, delivery, error)
    }

    /// Retires a delivery as released. See [`TransactionRetirement::release`].
    pub fn release(&mut self, delivery: &DeliveryInfo) -> Result<(), Txn::RetireError>
        ensures recver { Retires Txn.RetireError.from_gives (OneDisposition R.dispose_gives R.told)
            (recver_of self.old) (recver_of self.new) (Txn.id (txn_of self.old)) delivery.now
            outcomes.Released result }
        ensures txn { txn_of self.new ≡ txn_of self.old }
        ensures lent { (lent_to self.new).ghost_name ≡ (lent_to self.old).ghost_name }
    {
        self.txn.release(self.recver, delivery)
    }

    /// Retires a delivery as modified. See [`TransactionRetirement::modify`].
    pub fn modify(
        &mut self,
        delivery: &DeliveryInfo,
        modified: Modified,
    ) -> Result<(), Txn::RetireError>
        ensures recver { Retires Txn.RetireError.from_gives (OneDisposition R.dispose_gives R.told)
            (recver_of self.old) (recver_of self.new) (Txn.id (txn_of self.old)) delivery.now
            (outcomes.Modified modified) result }
        ensures txn { txn_of self.new ≡ txn_of self.old }
        ensures lent { (lent_to self.new).ghost_name ≡ (lent_to self.old).ghost_name }
    {
        self.txn.modify(self.recver, delivery, modified)
    }
}
