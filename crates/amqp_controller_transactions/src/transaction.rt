//! Transactions that borrow their controller.

ghost use Rattle.std.specs.Prelude.{◌≡◌, Ok, false, IfOk};
ghost use Rattle.amqp_controller_calls.specs.Errors.{is_rollback};
ghost use Rattle.amqp_controller_transactions.specs.Begun.{with_trials};
ghost use Rattle.amqp_controller_transactions.specs.Declares.{OnBegun, PollsToBegin};
ghost use Rattle.amqp_controller_transactions.specs.Locked.{DischargesUnder, GivesUpUnder, PollsUnder, SendsUnder, declare_of};
ghost use Rattle.amqp_controller_transactions.specs.Transactions.{begun_of, controller_of, declare_sent, put_over, sent_of};

use crate::begun::Begun;
use crate::controller::Controller;
use crate::discharge::TransactionDischarge;
use amqp_controller_calls::{
    Abandoned, ControllerSendError, DeclareOnLink, DischargeOnLink, TransactionBase,
};
use amqp_controller_posting::{TransactionPosting, TransactionRetirement};
use amqp_links::{DispositionError, Progress, SenderLink};
use amqp_txn_types::TransactionId;
use std::sync::Wait;

/// A transaction over a controller that others may use too. Part 4 of the standard, section 4.1.
///
/// It must be spent: it ends by a commit or a rollback that was accepted, or by
/// [`abandon`](TransactionDischarge::abandon).
pub struct Transaction<'t, L: SenderLink> {
    controller: &'t Controller<L>,
    begun: Begun,
}

impl<'t, L: SenderLink> Transaction<'t, L> {
    /// Asks the coordinator for a transaction: puts one declare. Part 4 of the standard, section
    /// 4.2 (declaring a transaction).
    ///
    /// # Errors
    ///
    /// Those of [`declare_on_link`](amqp_controller_calls::declare_on_link).
    pub fn declare<R: Wait>(
        controller: &'t Controller<L>,
        rt: &R,
        global_id: Option<TransactionId>,
    ) -> Result<Declaring<'t, L>, ControllerSendError>
        ensures over { IfOk result (λ wait. put_over wait ≡ controller.entry) }
        ensures sends { SendsUnder L.send_gives L.told (declare_of global_id)
            (declare_sent result) }
    {
        match controller.declare(rt, global_id) {
            Ok(declare) => Ok(Declaring {
                controller,
                declare,
            }),
            Err(error) => Err(error),
        }
    }

    /// The controller over which it was declared.
    pub fn controller(&self) -> &Controller<L>
        ensures { result ≡ controller_of self.now }
    {
        self.controller
    }

    /// Whether a poll of this value's discharge read that the coordinator rolled the transaction
    /// back: that it was rejected with the condition `amqp:transaction:rollback`. It isn't
    /// discharged for that, so a second `commit` puts a discharge again, and an `abandon` puts
    /// nothing. Part 4 of the standard, section 4.5.8 (transaction error).
    pub fn is_rolled_back(&self) -> bool
        ensures { result ≡ (begun_of self.now).is_rolled_back }
    {
        self.begun.is_rolled_back
    }

    /// How often an abandon looks for the outcome of its rollback.
    pub fn rollback_on_drop_trials(&self) -> u32
        ensures { result ≡ (begun_of self.now).rollback_on_drop_trials }
    {
        self.begun.rollback_on_drop_trials
    }

    /// Sets how often an abandon looks for the outcome of its rollback. With 0 it puts none.
    pub fn set_rollback_on_drop_trials(&mut self, trials: u32)
        ensures trials { begun_of self.new ≡ with_trials (begun_of self.old) trials }
        ensures controller { controller_of self.new ≡ controller_of self.old }
    {
        self.begun.rollback_on_drop_trials = trials;
    }
}

impl<L: SenderLink> TransactionBase for Transaction<'_, L> {
    ghost id = { λ t. (begun_of t).txn_id };

    fn txn_id(&self) -> &TransactionId {
        &self.begun.txn_id
    }
}

impl<L: SenderLink> TransactionPosting for Transaction<'_, L> {}

impl<L: SenderLink> TransactionRetirement for Transaction<'_, L> {
    type RetireError = DispositionError;
}

impl<L: SenderLink> TransactionDischarge for Transaction<'_, L> {
    type Error = ControllerSendError;

    type Waiting = DischargeOnLink;

    ghost begun = { begun_of };

    ghost of_spend = { λ _. false };

    ghost is_rollback = { is_rollback };

    ghost discharge_gives = { DischargesUnder L.send_gives L.told };

    ghost poll_gives = { PollsUnder L.outcome_gives L.told };

    ghost abandon_gives = { GivesUpUnder L.send_gives L.outcome_gives L.told };

    ghost spend_gives = { λ result. result ≡ Ok tt };

    fn is_discharged(&self) -> bool {
        self.begun.is_discharged
    }

    fn discharge<R: Wait>(
        &mut self,
        rt: &R,
        fail: bool,
    ) -> Result<DischargeOnLink, ControllerSendError> {
        self.begun.discharge(rt, self.controller, fail)
    }

    fn poll_discharge<R: Wait>(
        &mut self,
        rt: &R,
        waiting: DischargeOnLink,
    ) -> Progress<DischargeOnLink, Result<(), ControllerSendError>> {
        self.begun.poll_discharge(rt, self.controller, waiting)
    }

    fn spend<R: Wait>(self, _rt: &R) -> Result<(), (Self, ControllerSendError)> {
        let Transaction {
            controller: _,
            begun: _,
        } = self;
        Ok(())
    }

    fn abandon<R: Wait>(self, rt: &R) -> Abandoned {
        let Transaction { controller, begun } = self;
        begun.abandon(rt, controller)
    }
}

/// A transaction whose declare was put.
#[derive(Drop)]
pub struct Declaring<'t, L: SenderLink> {
    controller: &'t Controller<L>,
    declare: DeclareOnLink,
}

impl<'t, L: SenderLink> Declaring<'t, L> {
    /// Looks once for the outcome of the declare. The transaction isn't discharged, and its trials
    /// are [`DEFAULT_ROLLBACK_ON_DROP_TRIALS`](crate::DEFAULT_ROLLBACK_ON_DROP_TRIALS).
    ///
    /// # Errors
    ///
    /// Those of [`DeclareOnLink::poll`].
    pub fn poll<R: Wait>(
        self,
        rt: &R,
    ) -> Progress<Declaring<'t, L>, Result<Transaction<'t, L>, ControllerSendError>>
        ensures declares { PollsToBegin L.outcome_gives L.told begun_of
            (λ error found. error ≡ found) (sent_of self.entry) self.entry result }
        ensures over { OnBegun result (λ transaction. controller_of transaction
            ≡ put_over self.entry) }
    {
        let Declaring {
            controller,
            declare,
        } = self;
        match controller.poll_declare(rt, declare) {
            Progress::Pending(declare) => Progress::Pending(Declaring {
                controller,
                declare,
            }),
            Progress::Ready(Ok(declared)) => {
                let begun = Begun::new(declared.txn_id);
                Progress::Ready(Ok(Transaction { controller, begun }))
            }
            Progress::Ready(Err(error)) => Progress::Ready(Err(error)),
        }
    }
}
