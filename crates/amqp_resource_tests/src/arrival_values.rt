//! Values for the tests.

use amqp_test_values::leak;
use amqp_txn_types::{Disposition, Role, TransactionId, TxnWorkFrame};

pub fn id(octet: u8) -> TransactionId {
    TransactionId::from([octet; 16])
}

pub fn work(number: u32) -> TxnWorkFrame {
    TxnWorkFrame::Retire(Disposition {
        role: Role::Receiver,
        first: number,
        last: None,
        settled: true,
        state: None,
        batchable: false,
    })
}

pub fn number_of(work: Option<TxnWorkFrame>) -> Option<u32> {
    let number = match &work {
        Some(TxnWorkFrame::Retire(disposition)) => Some(disposition.first),
        _ => None,
    };
    leak(work);
    number
}
