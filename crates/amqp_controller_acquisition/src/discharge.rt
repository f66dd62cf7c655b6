//! How an acquisition ends.

ghost use Rattle.std.specs.Prelude.{◌≡◌, true, false};
ghost use Rattle.amqp_controller_transactions.specs.Begun.{GivesUp, IfTried, IfUndischarged, PollsToEnd};
ghost use Rattle.amqp_controller_transactions.specs.Discharges.{FindsEnd, SpendsAtEnd, WaitsOn};
ghost use Rattle.amqp_controller_acquisition.specs.Receivers.{OneCleanup};
ghost use Rattle.amqp_controller_acquisition.specs.Acquisitions.{lent_to, recver_of, txn_of};
ghost use Rattle.amqp_controller_acquisition.specs.Ends.{AsksToEnd, IsCleanedUp, KeepsReceiver, acquisition_of, waiting_of};

use crate::acquisition::TxnAcquisition;
use amqp_controller_calls::{Abandoned, TransactionBase};
use amqp_controller_transactions::TransactionDischarge;
use amqp_links::{FlowError, Progress, ReceiverLink};
use std::sync::Wait;

/// An acquisition with a discharge of its transaction that was put.
pub struct AcquisitionDischarging<'r, Txn: TransactionDischarge, R> {
    acquisition: TxnAcquisition<'r, Txn, R>,
    waiting: Txn::Waiting,
}

impl<'r, Txn: TransactionBase + TransactionDischarge, R: ReceiverLink> TxnAcquisition<'r, Txn, R> {
    /// Cleans up, and asks for a commit: puts one discharge, whose `fail` is false.
    ///
    /// # Errors
    ///
    /// Each hands the acquisition back, whose receiver is cleaned up all the same: what the flow of
    /// the cleanup answered, and no discharge is put then; or why the discharge isn't put.
    pub fn commit<W: Wait>(self, rt: &W) -> EndAsked<'r, Txn, R, Txn::Error>
    where
        Txn::Error: From<FlowError>,
        ensures { AsksToEnd Txn.begun
            (Txn.discharge_gives (Txn.begun (txn_of self.entry)) false) Txn.of_spend
            (OneCleanup R.told R.remove_gives R.flow_gives) Txn.Error.from_gives self.entry result }
    {
        discharge(self, rt, false)
    }

    /// Cleans up, and asks for a rollback: puts one discharge, whose `fail` is true.
    ///
    /// # Errors
    ///
    /// As those of [`TxnAcquisition::commit`].
    pub fn rollback<W: Wait>(self, rt: &W) -> EndAsked<'r, Txn, R, Txn::Error>
    where
        Txn::Error: From<FlowError>,
        ensures { AsksToEnd Txn.begun
            (Txn.discharge_gives (Txn.begun (txn_of self.entry)) true) Txn.of_spend
            (OneCleanup R.told R.remove_gives R.flow_gives) Txn.Error.from_gives self.entry result }
    {
        discharge(self, rt, true)
    }

    /// Gives the transaction up, after a cleanup where it isn't discharged, whether that succeeds
    /// or not: see [`TransactionDischarge::abandon`].
    pub fn abandon<W: Wait>(self, rt: &W) -> Abandoned
        ensures end { GivesUp (Txn.begun (txn_of self.entry)) result }
        ensures gives { IfTried (Txn.begun (txn_of self.entry))
            (Txn.abandon_gives (Txn.begun (txn_of self.entry)) result) }
        ensures cleaned { IfUndischarged (Txn.begun (txn_of self.entry))
            (IsCleanedUp (OneCleanup R.told R.remove_gives R.flow_gives) (recver_of self.entry)) }
    {
        let mut acquisition = self;
        if acquisition.txn().is_discharged() {
            return acquisition.into_txn().abandon(rt);
        }
        drop(acquisition.cleanup());
        acquisition.into_txn().abandon(rt)
    }
}

/// What a commit and a rollback answer: what is awaited, or the acquisition with the error.
type EndAsked<'r, Txn, R, E> = Result<
    AcquisitionDischarging<'r, Txn, R>,
    (TxnAcquisition<'r, Txn, R>, E),
>;

/// Cleans up, and puts a discharge.
fn discharge<'r, Txn: TransactionBase + TransactionDischarge, R: ReceiverLink, W: Wait>(
    mut acquisition: TxnAcquisition<'r, Txn, R>,
    rt: &W,
    fail: bool,
) -> EndAsked<'r, Txn, R, Txn::Error>
where
    Txn::Error: From<FlowError>,
    ensures { AsksToEnd Txn.begun
        (Txn.discharge_gives (Txn.begun (txn_of acquisition.entry)) fail) Txn.of_spend
        (OneCleanup R.told R.remove_gives R.flow_gives) Txn.Error.from_gives acquisition.entry
        result }
{
    if let Err(fault) = acquisition.cleanup() {
        return Err((acquisition, Txn::Error::from(fault)));
    }
    match acquisition.discharge(rt, fail) {
        Ok(waiting) => Ok(AcquisitionDischarging {
            acquisition,
            waiting,
        }),
        Err(error) => Err((acquisition, error)),
    }
}

impl<'r, Txn: TransactionBase + TransactionDischarge, R: ReceiverLink> AcquisitionDischarging<
    'r,
    Txn,
    R,
> {
    /// The acquisition as it stands, so that it can be given up. The discharge that was put is no
    /// longer awaited.
    pub fn into_value(self) -> TxnAcquisition<'r, Txn, R>
        ensures { result ≡ acquisition_of self.entry }
    {
        let AcquisitionDischarging {
            acquisition,
            waiting: _,
        } = self;
        acquisition
    }

    /// Looks once for the outcome, and drops the transaction once it was discharged.
    ///
    /// # Errors
    ///
    /// Each hands the acquisition back: with its transaction discharged, where that couldn't be
    /// dropped, else as it was but for the mark of a rollback that was read. Where it was discharged
    /// before, only the first of these comes, and it isn't `Pending`.
    pub fn poll<W: Wait>(
        self,
        rt: &W,
    ) -> Progress<Self, Result<(), (TxnAcquisition<'r, Txn, R>, Txn::Error)>>
        ensures polls { PollsToEnd (λ acquisition. Txn.begun (txn_of acquisition)) acquisition_of
            Txn.of_spend Txn.is_rollback (Txn.begun (txn_of (acquisition_of self.entry))) result }
        ensures waits { WaitsOn waiting_of (waiting_of self.entry) result }
        ensures finds { IfUndischarged (Txn.begun (txn_of (acquisition_of self.entry)))
            (FindsEnd waiting_of Txn.of_spend (Txn.poll_gives (waiting_of self.entry)) result) }
        ensures spends { SpendsAtEnd Txn.of_spend Txn.spend_gives result }
        ensures lent { KeepsReceiver acquisition_of (lent_to (acquisition_of self.entry)) result }
    {
        let AcquisitionDischarging {
            mut acquisition,
            waiting,
        } = self;
        match acquisition.poll_discharge(rt, waiting) {
            Progress::Pending(waiting) => Progress::Pending(AcquisitionDischarging {
                acquisition,
                waiting,
            }),
            Progress::Ready(Ok(())) => Progress::Ready(acquisition.spend(rt)),
            Progress::Ready(Err(error)) => Progress::Ready(Err((acquisition, error))),
        }
    }
}
