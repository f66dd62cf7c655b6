//! A transaction whose discharge is awaited.

ghost use Rattle.std.specs.Prelude.{◌≡◌};
ghost use Rattle.amqp_controller_transactions.specs.Begun.{IfUndischarged, PollsToEnd};
ghost use Rattle.amqp_controller_transactions.specs.Discharges.{FindsEnd, SpendsAtEnd, WaitsOn, value_of, waiting_of};

use crate::discharge::TransactionDischarge;
use amqp_links::Progress;
use std::sync::Wait;

/// A transaction with a discharge of it that was put.
pub struct Discharging<T: TransactionDischarge> {
    value: T,
    waiting: T::Waiting,
}

impl<T: TransactionDischarge> Discharging<T> {
    pub(crate) fn new(value: T, waiting: T::Waiting) -> Self
        ensures value { value_of result ≡ value }
        ensures waiting { waiting_of result ≡ waiting }
    {
        Discharging { value, waiting }
    }

    /// The transaction.
    pub fn value(&self) -> &T
        ensures { result.now ≡ value_of self.now }
    {
        &self.value
    }

    /// Gives the transaction back as it stands, so that it can be given up. The discharge that was
    /// put is no longer awaited.
    pub fn into_value(self) -> T
        ensures { result ≡ value_of self }
    {
        let Discharging { value, waiting: _ } = self;
        value
    }

    /// Looks once for the outcome, and drops the transaction once it was discharged.
    ///
    /// # Errors
    ///
    /// Each hands the transaction back: discharged, where it couldn't be dropped, else as it was but
    /// for the mark of a rollback that was read. Where it was discharged before, only the first of
    /// these comes, and it isn't `Pending`.
    pub fn poll<R: Wait>(self, rt: &R) -> Progress<Discharging<T>, Result<(), (T, T::Error)>>
        ensures ends { PollsToEnd T.begun value_of T.of_spend T.is_rollback
            (T.begun (value_of self)) result }
        ensures waits { WaitsOn waiting_of (waiting_of self) result }
        ensures finds { IfUndischarged (T.begun (value_of self))
            (FindsEnd waiting_of T.of_spend (T.poll_gives (waiting_of self)) result) }
        ensures spends { SpendsAtEnd T.of_spend T.spend_gives result }
    {
        let Discharging { mut value, waiting } = self;
        match value.poll_discharge(rt, waiting) {
            Progress::Pending(waiting) => Progress::Pending(Discharging { value, waiting }),
            Progress::Ready(Ok(())) => Progress::Ready(value.spend(rt)),
            Progress::Ready(Err(error)) => Progress::Ready(Err((value, error))),
        }
    }
}
