//! Transactions that own their controller.

ghost use Rattle.std.specs.Prelude.{◌≡◌};
ghost use Rattle.amqp_controller_transactions.specs.Begun.{with_trials};
ghost use Rattle.amqp_controller_transactions.specs.Declares.{PollsToBegin};
ghost use Rattle.amqp_controller_transactions.specs.Locked.{GivesUpUnder, SendsUnder, declare_of};
ghost use Rattle.amqp_controller_transactions.specs.Owned.{ClosesAtEnd, OwnedDischarges, OwnedPolls, is_close_error, is_owned_rollback, owned_begun, owned_declare_sent, owned_sent};

use crate::begun::Begun;
use crate::controller::Controller;
use crate::discharge::TransactionDischarge;
use crate::owned_errors::OwnedDischargeError;
use amqp_controller_calls::{
    Abandoned, ControllerSendError, DeclareOnLink, DischargeOnLink, TransactionBase,
};
use amqp_controller_posting::{TransactionPosting, TransactionRetirement};
use amqp_links::{DispositionError, Progress, SenderLink};
use amqp_txn_types::TransactionId;
use std::sync::Wait;

/// A transaction with a control link of its own, which is closed once it was discharged. Part 4 of
/// the standard, section 4.1.
///
/// It must be spent: it ends by a commit or a rollback that was accepted, or by
/// [`abandon`](TransactionDischarge::abandon), which doesn't close the link.
pub struct OwnedTransaction<L: SenderLink> {
    controller: Controller<L>,
    begun: Begun,
}

impl<L: SenderLink> OwnedTransaction<L> {
    /// Asks the coordinator of the link for a transaction: puts one declare. Part 4 of the
    /// standard, section 4.2 (declaring a transaction).
    ///
    /// # Errors
    ///
    /// Those of [`declare_on_link`](amqp_controller_calls::declare_on_link), with the controller
    /// handed back as it was.
    pub fn declare_with_controller<R: Wait>(
        controller: Controller<L>,
        rt: &R,
        global_id: Option<TransactionId>,
    ) -> Result<OwnedDeclaringOn<L>, (Controller<L>, ControllerSendError)>
        ensures { SendsUnder L.send_gives L.told (declare_of global_id)
            (owned_declare_sent result) }
    {
        match controller.declare(rt, global_id) {
            Ok(declare) => Ok(OwnedDeclaringOn {
                controller,
                declare,
            }),
            Err(error) => Err((controller, error)),
        }
    }

    /// The controller of the transaction's link.
    pub fn controller(&self) -> &Controller<L> {
        &self.controller
    }

    /// Whether a poll of this value's discharge read that the coordinator rolled the transaction
    /// back: that it was rejected with the condition `amqp:transaction:rollback`. It isn't
    /// discharged for that, so a second `commit` puts a discharge again, and an `abandon` puts
    /// nothing. Part 4 of the standard, section 4.5.8 (transaction error).
    pub fn is_rolled_back(&self) -> bool
        ensures { result ≡ (owned_begun self.now).is_rolled_back }
    {
        self.begun.is_rolled_back
    }

    /// How often an abandon looks for the outcome of its rollback.
    pub fn rollback_on_drop_trials(&self) -> u32
        ensures { result ≡ (owned_begun self.now).rollback_on_drop_trials }
    {
        self.begun.rollback_on_drop_trials
    }

    /// Sets how often an abandon looks for the outcome of its rollback. With 0 it puts none.
    pub fn set_rollback_on_drop_trials(&mut self, trials: u32)
        ensures { owned_begun self.new ≡ with_trials (owned_begun self.old) trials }
    {
        self.begun.rollback_on_drop_trials = trials;
    }
}

impl<L: SenderLink> TransactionBase for OwnedTransaction<L> {
    ghost id = { λ t. (owned_begun t).txn_id };

    fn txn_id(&self) -> &TransactionId {
        &self.begun.txn_id
    }
}

impl<L: SenderLink> TransactionPosting for OwnedTransaction<L> {}

impl<L: SenderLink> TransactionRetirement for OwnedTransaction<L> {
    type RetireError = DispositionError;
}

/// A `spend` closes the link. Where that fails the value handed back is discharged.
impl<L: SenderLink + Drop> TransactionDischarge for OwnedTransaction<L> {
    type Error = OwnedDischargeError;

    type Waiting = DischargeOnLink;

    ghost begun = { owned_begun };

    ghost of_spend = { is_close_error };

    ghost is_rollback = { is_owned_rollback };

    ghost discharge_gives = { OwnedDischarges L.send_gives L.told };

    ghost poll_gives = { OwnedPolls L.outcome_gives L.told };

    ghost abandon_gives = { GivesUpUnder L.send_gives L.outcome_gives L.told };

    ghost spend_gives = { ClosesAtEnd L.close_gives L.told };

    fn is_discharged(&self) -> bool {
        self.begun.is_discharged
    }

    fn discharge<R: Wait>(
        &mut self,
        rt: &R,
        fail: bool,
    ) -> Result<DischargeOnLink, OwnedDischargeError> {
        match self.begun.discharge(rt, &self.controller, fail) {
            Ok(waiting) => Ok(waiting),
            Err(error) => Err(OwnedDischargeError::ControllerSendError(error)),
        }
    }

    fn poll_discharge<R: Wait>(
        &mut self,
        rt: &R,
        waiting: DischargeOnLink,
    ) -> Progress<DischargeOnLink, Result<(), OwnedDischargeError>> {
        match self.begun.poll_discharge(rt, &self.controller, waiting) {
            Progress::Pending(waiting) => Progress::Pending(waiting),
            Progress::Ready(Ok(())) => Progress::Ready(Ok(())),
            Progress::Ready(Err(error)) => {
                Progress::Ready(Err(OwnedDischargeError::ControllerSendError(error)))
            }
        }
    }

    fn spend<R: Wait>(self, rt: &R) -> Result<(), (Self, OwnedDischargeError)> {
        if let Err(fault) = self.controller.close_link(rt, None) {
            return Err((self, OwnedDischargeError::DetachError(fault)));
        }
        let OwnedTransaction {
            controller: _,
            begun: _,
        } = self;
        Ok(())
    }

    fn abandon<R: Wait>(self, rt: &R) -> Abandoned {
        let OwnedTransaction { controller, begun } = self;
        begun.abandon(rt, &controller)
    }
}

/// An owned transaction whose declare was put.
#[derive(Drop)]
pub struct OwnedDeclaringOn<L: SenderLink> {
    controller: Controller<L>,
    declare: DeclareOnLink,
}

impl<L: SenderLink> OwnedDeclaringOn<L> {
    /// The controller of the link on which the declare was put.
    pub fn controller(&self) -> &Controller<L> {
        &self.controller
    }

    /// Looks once for the outcome of the declare. The transaction isn't discharged, and its trials
    /// are [`DEFAULT_ROLLBACK_ON_DROP_TRIALS`](crate::DEFAULT_ROLLBACK_ON_DROP_TRIALS).
    ///
    /// # Errors
    ///
    /// Those of [`DeclareOnLink::poll`], with the controller handed back.
    pub fn poll<R: Wait>(
        self,
        rt: &R,
    ) -> Progress<
        OwnedDeclaringOn<L>,
        Result<OwnedTransaction<L>, (Controller<L>, ControllerSendError)>,
    >
        ensures { PollsToBegin L.outcome_gives L.told owned_begun
            (λ refused error. refused.1 ≡ error) (owned_sent self) self result }
    {
        let OwnedDeclaringOn {
            controller,
            declare,
        } = self;
        match controller.poll_declare(rt, declare) {
            Progress::Pending(declare) => Progress::Pending(OwnedDeclaringOn {
                controller,
                declare,
            }),
            Progress::Ready(Ok(declared)) => {
                let begun = Begun::new(declared.txn_id);
                Progress::Ready(Ok(OwnedTransaction { controller, begun }))
            }
            Progress::Ready(Err(error)) => Progress::Ready(Err((controller, error))),
        }
    }
}
