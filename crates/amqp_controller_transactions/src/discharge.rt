//! How transactions of this side end.

ghost use Rattle.std.specs.Prelude.{◌≡◌, true, false, IfErr, IfOk, OnErr};
ghost use Rattle.amqp_controller_transactions.specs.Begun.{AsksToDischarge, GivesUp, IfTried, IfUndischarged, OnPolledErr, PollsDischarge};
ghost use Rattle.amqp_controller_transactions.specs.Discharges.{asked_of, value_of};
ghost use Rattle.amqp_controller_transactions.specs.Locked.{error_of};

use crate::awaited_discharge::Discharging;
use amqp_controller_calls::Abandoned;
use amqp_links::Progress;
use std::sync::Wait;

/// A transaction that is ended by its owner: by a commit, by a rollback, or by giving it up. Part 4
/// of the standard, section 4.3 (discharging a transaction).
///
/// ```text
/// declared ── discharge ──▶ waiting ── poll: Accepted ──▶ discharged ── spend ──▶ gone
///    ▲                         │
///    └─── poll: an error ──────┘
/// ```
pub trait TransactionDischarge: Sized {
    ghost use Rattle.std.specs.Prelude.{Bool, Result};
    ghost use Rattle.amqp_links.specs.declared.progress.Progress.{Progress};
    ghost use Rattle.amqp_controller_calls.specs.declared.abandon.Abandoned.{Abandoned};
    ghost use Rattle.amqp_controller_transactions.specs.declared.begun.Begun.{Begun};

    /// Why it isn't discharged.
    type Error: Drop;

    /// A discharge whose outcome is awaited.
    type Waiting: Drop;

    /// What the owner sees of it.
    ghost begun: { Self → Begun };

    /// Whether the error is that of a `spend`.
    ghost of_spend: { Self.Error → Bool };

    /// Whether the error says that the coordinator rolled it back.
    ghost is_rollback: { Self.Error → Bool };

    /// What its control link answers to a discharge, by whether that is a rollback.
    ghost discharge_gives: { Begun → Bool → Result Self.Waiting Self.Error → Type 0 };

    /// What its control link answers to a poll of a discharge.
    ghost poll_gives: { Self.Waiting → Progress Self.Waiting (Result Unit Self.Error) → Type 0 };

    /// What its control link answers where it is given up with a rollback.
    ghost abandon_gives: { Begun → Abandoned → Type 0 };

    /// What its control link answers where it is dropped.
    ghost spend_gives: { Result Unit Self.Error → Type 0 };

    /// Whether a discharge was accepted.
    fn is_discharged(&self) -> bool
        ensures { result ≡ (begun self.now).is_discharged };

    /// Puts one discharge, where it wasn't discharged before: a rollback where `fail` is true, else a
    /// commit.
    ///
    /// # Errors
    ///
    /// Why the discharge isn't put.
    fn discharge<R: Wait>(&mut self, rt: &R, fail: bool) -> Result<Self::Waiting, Self::Error>
        ensures asks { AsksToDischarge (begun self.old) (begun self.new) result }
        ensures gives { IfUndischarged (begun self.old)
            (discharge_gives (begun self.old) fail result) }
        ensures cause { IfErr result (λ error. of_spend error ≡ false) };

    /// Looks once for the outcome of a discharge of this value. Where it was discharged before it
    /// looks at nothing and is `Ready(Ok)`. An error leaves it undischarged, so that it can be
    /// discharged again; one that says that the coordinator rolled it back marks it so.
    fn poll_discharge<R: Wait>(
        &mut self,
        rt: &R,
        waiting: Self::Waiting,
    ) -> Progress<Self::Waiting, Result<(), Self::Error>>
        ensures polls { PollsDischarge is_rollback (begun self.old) (begun self.new)
            waiting result }
        ensures gives { IfUndischarged (begun self.old) (poll_gives waiting result) }
        ensures cause { OnPolledErr result (λ error. of_spend error ≡ false) };

    /// Drops a discharged transaction.
    ///
    /// # Requires
    ///
    /// It was discharged.
    fn spend<R: Wait>(self, rt: &R) -> Result<(), (Self, Self::Error)>
        requires { (begun self).is_discharged ≡ true }
        ensures back { IfErr result (λ refused. begun refused.0 ≡ begun self) }
        ensures gives { spend_gives (error_of result) }
        ensures cause { IfErr result (λ refused. of_spend refused.1 ≡ true) };

    /// Gives it up: see [`abandon_on_link`](amqp_controller_calls::abandon_on_link). `Discharged`
    /// exactly where it was discharged, else `RolledBack` exactly where a poll of its discharge
    /// read that the coordinator rolled it back, else `Skipped` exactly where its trials are 0.
    fn abandon<R: Wait>(self, rt: &R) -> Abandoned
        ensures given { GivesUp (begun self) result }
        ensures gives { IfTried (begun self) (abandon_gives (begun self) result) };

    /// Asks for a commit: puts one discharge, whose `fail` is false.
    ///
    /// # Errors
    ///
    /// Why the discharge isn't put, with the value handed back as it was.
    final fn commit<R: Wait>(self, rt: &R) -> Result<Discharging<Self>, (Self, Self::Error)>
        ensures wait { IfOk result (λ wait. begun (value_of wait) ≡ begun self) }
        ensures back { IfErr result (λ refused. begun refused.0 ≡ begun self) }
        ensures gives { IfUndischarged (begun self)
            (discharge_gives (begun self) false (asked_of result)) }
        ensures cause { OnErr result ((begun self).is_discharged ≡ false) }
        ensures unspent { IfErr result (λ refused. of_spend refused.1 ≡ false) }
    {
        begin_discharge(self, rt, false)
    }

    /// Asks for a rollback: puts one discharge, whose `fail` is true.
    ///
    /// # Errors
    ///
    /// Why the discharge isn't put, with the value handed back as it was.
    final fn rollback<R: Wait>(self, rt: &R) -> Result<Discharging<Self>, (Self, Self::Error)>
        ensures wait { IfOk result (λ wait. begun (value_of wait) ≡ begun self) }
        ensures back { IfErr result (λ refused. begun refused.0 ≡ begun self) }
        ensures gives { IfUndischarged (begun self)
            (discharge_gives (begun self) true (asked_of result)) }
        ensures cause { OnErr result ((begun self).is_discharged ≡ false) }
        ensures unspent { IfErr result (λ refused. of_spend refused.1 ≡ false) }
    {
        begin_discharge(self, rt, true)
    }
}

/// Puts the discharge of a value, and keeps the value beside what is awaited.
fn begin_discharge<T: TransactionDischarge, R: Wait>(
    mut value: T,
    rt: &R,
    fail: bool,
) -> Result<Discharging<T>, (T, T::Error)>
    ensures wait { IfOk result (λ wait. T.begun (value_of wait) ≡ T.begun value) }
    ensures back { IfErr result (λ refused. T.begun refused.0 ≡ T.begun value) }
    ensures gives { IfUndischarged (T.begun value)
        (T.discharge_gives (T.begun value) fail (asked_of result)) }
    ensures cause { OnErr result ((T.begun value).is_discharged ≡ false) }
    ensures unspent { IfErr result (λ refused. T.of_spend refused.1 ≡ false) }
{
    match value.discharge(rt, fail) {
        Ok(waiting) => Ok(Discharging::new(value, waiting)),
        Err(error) => Err((value, error)),
    }
}
