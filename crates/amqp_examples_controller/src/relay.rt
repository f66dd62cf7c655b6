//! A delivery that is passed on under a transaction.

use amqp_controller_acquisition::{TransactionAcquisition, TxnAcquisition};
use amqp_controller_posting::TransactionPosting;
use amqp_controller_transactions::{Transaction, TransactionDischarge};
use amqp_links::{Poll, Progress, ReceiverLink, Sendable, SenderLink};
use amqp_txn_types::Outcome;
use std::sync::Wait;

/// Receives a delivery and posts it on: the outcome of the post, or `None` where there is none, be
/// it that nothing came, that a call failed or that the answer is still out.
pub fn pass_on<T: TransactionAcquisition + TransactionPosting, R: ReceiverLink, L: SenderLink>(
    acquisition: &mut TxnAcquisition<'_, T, R>,
    sender: &mut L,
) -> Option<Outcome> {
    let Poll::Ready(Ok(delivery)) = acquisition.recv() else {
        return None;
    };
    let sendable = Sendable {
        payload: delivery.payload,
        message_format: 0,
        settled: None,
    };
    let post = acquisition.txn().post(sender, sendable).ok()?;
    acquisition.accept(&delivery.info).ok()?;
    match post.poll(sender) {
        Progress::Ready(outcome) => outcome.ok(),
        Progress::Pending(_post) => None,
    }
}

/// Passes one delivery on under the acquisition, and ends it: whether a commit was answered as
/// accepted.
pub fn relay_under<L: SenderLink, R: ReceiverLink, S: SenderLink, W: Wait>(
    rt: &W,
    mut acquisition: TxnAcquisition<'_, Transaction<'_, L>, R>,
    sender: &mut S,
) -> bool {
    if pass_on(&mut acquisition, sender) == Some(Outcome::Accepted) {
        commit_under(rt, acquisition)
    } else {
        drop(acquisition.abandon(rt));
        false
    }
}

/// Commits the transaction of the acquisition, and looks once for the answer.
fn commit_under<L: SenderLink, R: ReceiverLink, W: Wait>(
    rt: &W,
    acquisition: TxnAcquisition<'_, Transaction<'_, L>, R>,
) -> bool {
    let answer = match acquisition.commit(rt) {
        Ok(commit) => commit.poll(rt),
        Err(unsent) => Progress::Ready(Err(unsent)),
    };
    match answer {
        Progress::Ready(Ok(())) => true,
        Progress::Ready(Err((acquisition, _error))) => {
            drop(acquisition.abandon(rt));
            false
        }
        Progress::Pending(commit) => {
            drop(commit.into_value().abandon(rt));
            false
        }
    }
}
