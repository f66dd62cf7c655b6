//! Rolling back a transaction that is given up, on a control link that is lent.

ghost use Rattle.std.specs.Prelude.{◌≤◌};
ghost use Rattle.amqp_controller_calls.specs.Abandoned.{Abandons, FailsByFault, LooksUpTo, OnFoundErr, WasTried};
ghost use Rattle.amqp_txn_types.specs.Counts.{Rose};
ghost use Rattle.amqp_controller_calls.specs.Polls.{OneLook};
ghost use Rattle.amqp_controller_calls.specs.Sends.{OneSend};

use crate::errors::ControllerSendError;
use crate::send::send_control;
use amqp_links::{Answer, Poll, SenderLink, Sent};
use amqp_txn_codec::{ControlMessageBody, Discharge};
use amqp_txn_types::{DeliveryState, Token, TransactionId};
use std::alloc::Global;

/// What became of a transaction that was given up.
#[derive(Debug, Drop, PartialEq)]
pub enum Abandoned {
    /// It was discharged before.
    Discharged,
    /// The coordinator rolled it back before.
    RolledBack,
    /// Its trials are 0, so it was to be given up without a rollback.
    Skipped,
    /// A rollback was put, and this is its outcome; `None` is an answer without a state.
    Answered(Option<DeliveryState>),
    /// A rollback was put, and no look found its outcome.
    Unanswered,
    /// The rollback wasn't put, or its outcome is lost.
    Failed(ControllerSendError),
}

/// Gives a transaction up: puts one rollback, and looks for its outcome until it is there, at most
/// `trials` times. It doesn't wait between looks. Part 4 of the standard, section 4.3 (discharging
/// a transaction).
///
/// - `Answered`: with the outcome that was found.
/// - `Unanswered`: exactly where each of `trials` looks found none.
/// - `Failed`: with the link's fault where `send` or a look answered one, or with `NoMemory` where
///   memory runs out for the octets; the link isn't asked then.
///
/// # Requires
///
/// `trials` is at least 1.
pub fn abandon_on_link<L: SenderLink>(
    alloc: Global,
    link: &mut L,
    txn_id: &TransactionId,
    trials: u32,
) -> Abandoned
    requires { 1 ≤ trials }
    ensures link { Abandons (OneSend L.send_gives L.told) (OneLook L.outcome_gives L.told)
        link.old link.new txn_id.now trials result }
    ensures cause { FailsByFault result (L.told link.old) (L.told link.new) }
    ensures tried { WasTried result }
{
    let rollback = ControlMessageBody::Discharge(Discharge {
        txn_id: *txn_id,
        fail: Some(true),
    });
    let token = match send_control(alloc, link, &rollback) {
        Ok(Sent::Unsettled(token)) => token,
        Ok(Sent::Settled) => unreachable!(),
        Err(error) => return Abandoned::Failed(error),
    };
    match look_up_to(link, &token, trials) {
        None => Abandoned::Unanswered,
        Some(Ok(state)) => Abandoned::Answered(state),
        Some(Err(fault)) => Abandoned::Failed(ControllerSendError::LinkStateError(fault)),
    }
}

/// Looks for an answer until it is there, at most `trials` times.
fn look_up_to<L: SenderLink>(link: &mut L, token: &Token, trials: u32) -> Option<Answer>
    ensures looks { LooksUpTo (OneLook L.outcome_gives L.told) trials token.now link.old link.new
        result }
    ensures cause { OnFoundErr result (Rose (L.told link.old).faults (L.told link.new).faults) }
{
    for _look in 0..trials {
        if let Poll::Ready(answer) = link.outcome(token) {
            return Some(answer);
        }
    }
    None
}
