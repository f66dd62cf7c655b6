//! Work under a transaction. It borrows the transaction, so `?` is as usual.

use amqp_controller_posting::{PostError, TransactionPosting, TransactionRetirement};
use amqp_links::{Poll, Progress, ReceiverLink, Sendable, SenderLink};
use amqp_txn_types::{Outcome, Payload};

/// Posts a message: its outcome, or `None` where that is still out.
pub fn post_once<T: TransactionPosting, L: SenderLink>(
    transaction: &T,
    sender: &mut L,
    sendable: Sendable,
) -> Result<Option<Outcome>, PostError> {
    match transaction.post(sender, sendable)?.poll(sender) {
        Progress::Ready(outcome) => Ok(Some(outcome?)),
        Progress::Pending(_post) => Ok(None),
    }
}

/// Receives a message and retires it as accepted: its octets, or `None` where none was received.
pub fn take_once<T: TransactionRetirement, R: ReceiverLink>(
    transaction: &T,
    receiver: &mut R,
) -> Result<Option<Payload>, T::RetireError> {
    let Poll::Ready(Ok(delivery)) = receiver.recv() else {
        return Ok(None);
    };
    transaction.accept(receiver, &delivery.info)?;
    Ok(Some(delivery.payload))
}
