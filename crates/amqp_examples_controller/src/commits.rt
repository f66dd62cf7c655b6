//! A post under a transaction of its own, and how its commit ended.

use amqp_controller_calls::ControllerSendError;
use amqp_controller_posting::TransactionPosting;
use amqp_controller_transactions::{Controller, Transaction, TransactionDischarge};
use amqp_links::{Progress, Sendable, SenderLink};
use amqp_txn_types::Outcome;
use std::sync::Wait;

/// How a commit ended.
#[derive(Debug, Drop, PartialEq)]
pub enum CommitEnd {
    /// It was accepted.
    Accepted,
    /// The coordinator rolled the transaction back: the work may be sent again in a new one.
    RolledBack,
    /// The work wasn't accepted, or an answer is still out: the transaction was given up. How a
    /// commit without an answer ended isn't known.
    GivenUp,
}

/// Posts a message under a transaction of its own, and commits that.
pub fn post_and_commit<L: SenderLink, S: SenderLink, R: Wait>(
    rt: &R,
    controller: &Controller<L>,
    sender: &mut S,
    sendable: Sendable,
) -> Result<CommitEnd, ControllerSendError> {
    let transaction = match Transaction::declare(controller, rt, None)?.poll(rt) {
        Progress::Ready(declared) => declared?,
        Progress::Pending(_declaring) => return Ok(CommitEnd::GivenUp),
    };
    if !is_accepted(&transaction, sender, sendable) {
        drop(transaction.abandon(rt));
        return Ok(CommitEnd::GivenUp);
    }
    let commit = match transaction.commit(rt) {
        Ok(commit) => commit,
        Err((transaction, error)) => {
            drop(transaction.abandon(rt)); // the commit wasn't sent
            return Err(error);
        }
    };
    match commit.poll(rt) {
        Progress::Ready(Ok(())) => Ok(CommitEnd::Accepted),
        Progress::Ready(Err((transaction, error))) => {
            let is_rolled_back = transaction.is_rolled_back();
            drop(transaction.abandon(rt)); // sends nothing where it was rolled back
            if is_rolled_back {
                Ok(CommitEnd::RolledBack)
            } else {
                Err(error)
            }
        }
        Progress::Pending(commit) => {
            drop(commit.into_value().abandon(rt));
            Ok(CommitEnd::GivenUp)
        }
    }
}

/// Posts a message under the transaction, and looks once whether it was accepted.
pub fn is_accepted<T: TransactionPosting, S: SenderLink>(
    transaction: &T,
    sender: &mut S,
    sendable: Sendable,
) -> bool {
    match transaction.post(sender, sendable) {
        Ok(post) => post.poll(sender) == Progress::Ready(Ok(Outcome::Accepted)),
        Err(_error) => false,
    }
}
