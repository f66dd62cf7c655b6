//! The controller: a control link under a lock.

ghost use Rattle.std.specs.Prelude.{◌≤◌};
ghost use Rattle.amqp_controller_calls.specs.Abandoned.{WasTried};
ghost use Rattle.amqp_controller_calls.specs.Polls.{accepted_by, declared_by};
ghost use Rattle.amqp_controller_transactions.specs.Begun.{KeepsWait};
ghost use Rattle.amqp_controller_transactions.specs.Locked.{AbandonsUnder, ClosesUnder, LooksUnder, SendsUnder, declare_of, discharge_of, error_of};

use amqp_controller_calls::{
    Abandoned, ControllerSendError, DeclareOnLink, DischargeOnLink, abandon_on_link,
    declare_on_link, discharge_on_link,
};
use amqp_links::{DetachError, Progress, SenderLink};
use amqp_txn_types::{Accepted, Declared, Error, TransactionId};
use std::alloc::Global;
use std::sync::{Mutex, MutexGuard, Wait};

/// The transaction controller: it keeps its control link under a lock, so that several transactions
/// may be declared and discharged over the one link. Part 4 of the standard, section 4.1.
///
/// Each call over the lock takes it anew, and makes one call on the link under it.
#[derive(Drop)]
pub struct Controller<L: SenderLink> {
    link: Mutex<L>,
    alloc: Global,
}

impl<L: SenderLink> Controller<L> {
    /// A controller over an attached control link. It takes no memory; messages take theirs from
    /// `alloc`.
    pub fn new(alloc: Global, link: L) -> Self {
        Controller {
            link: Mutex::new(link),
            alloc,
        }
    }

    /// Takes the lock and lends the link, so that its owner can read and answer it.
    ///
    /// Each call of a transaction over this controller takes the same lock: one that is made while
    /// the guard lives waits for ever. Drop the guard first, and bind what is read of it by a `let`,
    /// since a `match` on a call of the guard keeps it to its end.
    pub fn link<R: Wait>(&self, rt: &R) -> MutexGuard<'_, L> {
        self.link.lock(rt)
    }

    /// Declares a transaction under the lock.
    pub(crate) fn declare<R: Wait>(
        &self,
        rt: &R,
        global_id: Option<TransactionId>,
    ) -> Result<DeclareOnLink, ControllerSendError>
        ensures { SendsUnder L.send_gives L.told (declare_of global_id) result }
    {
        let mut link = self.link.lock(rt);
        declare_on_link(self.alloc, &mut *link, global_id)
    }

    /// Polls a declare under the lock.
    pub(crate) fn poll_declare<R: Wait>(
        &self,
        rt: &R,
        declare: DeclareOnLink,
    ) -> Progress<DeclareOnLink, Result<Declared, ControllerSendError>>
        ensures wait { KeepsWait declare result }
        ensures looks { LooksUnder L.outcome_gives L.told declared_by declare result }
    {
        let mut link = self.link.lock(rt);
        declare.poll(&mut *link)
    }

    /// Discharges a transaction under the lock.
    pub(crate) fn discharge<R: Wait>(
        &self,
        rt: &R,
        txn_id: &TransactionId,
        fail: bool,
    ) -> Result<DischargeOnLink, ControllerSendError>
        ensures { SendsUnder L.send_gives L.told (discharge_of txn_id.now fail) result }
    {
        let mut link = self.link.lock(rt);
        discharge_on_link(self.alloc, &mut *link, txn_id, Some(fail))
    }

    /// Polls a discharge under the lock.
    pub(crate) fn poll_discharge<R: Wait>(
        &self,
        rt: &R,
        discharge: DischargeOnLink,
    ) -> Progress<DischargeOnLink, Result<Accepted, ControllerSendError>>
        ensures wait { KeepsWait discharge result }
        ensures looks { LooksUnder L.outcome_gives L.told accepted_by discharge result }
    {
        let mut link = self.link.lock(rt);
        discharge.poll(&mut *link)
    }

    /// Gives a transaction up, with that many looks under one lock.
    pub(crate) fn abandon<R: Wait>(&self, rt: &R, txn_id: &TransactionId, trials: u32) -> Abandoned
        requires { 1 ≤ trials }
        ensures tried { WasTried result }
        ensures link { AbandonsUnder L.send_gives L.outcome_gives L.told txn_id.now trials result }
    {
        let mut link = self.link.lock(rt);
        abandon_on_link(self.alloc, &mut *link, txn_id, trials)
    }

    /// Closes the link under the lock.
    pub(crate) fn close_link<R: Wait>(
        &self,
        rt: &R,
        error: Option<Error>,
    ) -> Result<(), DetachError>
        ensures { ClosesUnder L.close_gives L.told error result }
    {
        let mut link = self.link.lock(rt);
        link.close(error)
    }
}

impl<L: SenderLink + Drop> Controller<L> {
    /// Closes the control link. Part 2 of the standard, section 2.6.6 (closing a link). The
    /// coordinator rolls back what wasn't discharged.
    ///
    /// # Errors
    ///
    /// The link's, with the controller handed back as it was.
    pub fn close<R: Wait>(self, rt: &R) -> Result<(), (Self, DetachError)>
        ensures { ClosesUnder L.close_gives L.told None (error_of result) }
    {
        match self.close_link(rt, None) {
            Ok(()) => Ok(()),
            Err(fault) => Err((self, fault)),
        }
    }

    /// Closes the control link with an error, as [`Controller::close`] does without one.
    ///
    /// # Errors
    ///
    /// The link's, with the controller handed back as it was.
    pub fn close_with_error<R: Wait>(self, rt: &R, error: Error) -> Result<(), (Self, DetachError)>
        ensures { ClosesUnder L.close_gives L.told (Some error) (error_of result) }
    {
        match self.close_link(rt, Some(error)) {
            Ok(()) => Ok(()),
            Err(fault) => Err((self, fault)),
        }
    }
}
