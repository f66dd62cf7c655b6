//! A transaction that was declared, as its owner sees it.

ghost use Rattle.std.specs.Prelude.{◌≡◌};
ghost use Rattle.amqp_controller_calls.specs.Errors.{is_rollback};
ghost use Rattle.amqp_controller_transactions.specs.Begun.{AsksToDischarge, GivesUp, IfTried, IfUndischarged, PollsDischarge, begun_as};
ghost use Rattle.amqp_controller_transactions.specs.Locked.{DischargesUnder, GivesUpUnder, PollsUnder};

use crate::controller::Controller;
use amqp_controller_calls::{Abandoned, ControllerSendError, DischargeOnLink};
use amqp_links::{Progress, SenderLink};
use amqp_txn_types::{Accepted, TransactionId};
use std::sync::Wait;

/// How often an abandon looks for the outcome of its rollback, where nothing else was set.
pub const DEFAULT_ROLLBACK_ON_DROP_TRIALS: u32 = 20;

/// What the owner of a declared transaction sees of it.
#[derive(Clone, Copy, Debug, PartialEq)]
pub struct Begun {
    /// The id that the coordinator gave.
    pub txn_id: TransactionId,
    /// Whether a discharge was accepted.
    pub is_discharged: bool,
    /// Whether a poll of its discharge read that the coordinator rolled it back.
    pub is_rolled_back: bool,
    /// How often an abandon looks for the outcome of its rollback.
    pub rollback_on_drop_trials: u32,
}

impl Begun {
    /// A transaction that was just declared.
    pub(crate) fn new(txn_id: TransactionId) -> Begun
        ensures { result ≡ begun_as txn_id }
    {
        Begun {
            txn_id,
            is_discharged: false,
            is_rolled_back: false,
            rollback_on_drop_trials: DEFAULT_ROLLBACK_ON_DROP_TRIALS,
        }
    }

    /// Asks for a discharge, or for nothing where it was discharged before.
    pub(crate) fn discharge<L: SenderLink, R: Wait>(
        &mut self,
        rt: &R,
        controller: &Controller<L>,
        fail: bool,
    ) -> Result<DischargeOnLink, ControllerSendError>
        ensures asks { AsksToDischarge self.old self.new result }
        ensures sends { IfUndischarged self.old (DischargesUnder L.send_gives L.told self.old
            fail result) }
    {
        if self.is_discharged {
            return Ok(DischargeOnLink::unsent());
        }
        controller.discharge(rt, &self.txn_id, fail)
    }

    /// Polls a discharge, and marks the value where it was accepted, or answered by a rollback.
    pub(crate) fn poll_discharge<L: SenderLink, R: Wait>(
        &mut self,
        rt: &R,
        controller: &Controller<L>,
        waiting: DischargeOnLink,
    ) -> Progress<DischargeOnLink, Result<(), ControllerSendError>>
        ensures polls { PollsDischarge is_rollback self.old self.new waiting result }
        ensures looks { IfUndischarged self.old (PollsUnder L.outcome_gives L.told waiting
            result) }
    {
        if self.is_discharged {
            return Progress::Ready(Ok(()));
        }
        match controller.poll_discharge(rt, waiting) {
            Progress::Pending(waiting) => Progress::Pending(waiting),
            Progress::Ready(Ok(Accepted)) => {
                self.is_discharged = true;
                Progress::Ready(Ok(()))
            }
            Progress::Ready(Err(error)) => {
                if error.is_rollback() {
                    self.is_rolled_back = true;
                }
                Progress::Ready(Err(error))
            }
        }
    }

    /// Rolls back, unless it was discharged or rolled back before, or there are no trials.
    pub(crate) fn abandon<L: SenderLink, R: Wait>(
        &self,
        rt: &R,
        controller: &Controller<L>,
    ) -> Abandoned
        ensures given { GivesUp self.now result }
        ensures link { IfTried self.now (GivesUpUnder L.send_gives L.outcome_gives L.told
            self.now result) }
    {
        if self.is_discharged {
            return Abandoned::Discharged;
        }
        if self.is_rolled_back {
            return Abandoned::RolledBack;
        }
        if self.rollback_on_drop_trials == 0 {
            return Abandoned::Skipped;
        }
        controller.abandon(rt, &self.txn_id, self.rollback_on_drop_trials)
    }
}
