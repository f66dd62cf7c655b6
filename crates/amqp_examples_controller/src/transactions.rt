//! A transaction over a controller.

use amqp_controller_calls::ControllerSendError;
use amqp_controller_transactions::{Controller, Transaction, TransactionDischarge};
use amqp_links::{Progress, SenderLink};
use std::sync::Wait;

/// Declares a transaction and commits it: whether the commit was answered as accepted.
pub fn commit_once<L: SenderLink, R: Wait>(
    rt: &R,
    controller: &Controller<L>,
) -> Result<bool, ControllerSendError> {
    let transaction = match Transaction::declare(controller, rt, None)?.poll(rt) {
        Progress::Ready(declared) => declared?,
        Progress::Pending(_declaring) => return Ok(false),
    };
    let commit = match transaction.commit(rt) {
        Ok(commit) => commit,
        Err((transaction, error)) => {
            drop(transaction.abandon(rt));
            return Err(error);
        }
    };
    match commit.poll(rt) {
        Progress::Ready(Ok(())) => Ok(true),
        Progress::Ready(Err((transaction, error))) => {
            drop(transaction.abandon(rt));
            Err(error)
        }
        Progress::Pending(commit) => {
            drop(commit.into_value().abandon(rt));
            Ok(false)
        }
    }
}
