//! What an item is, beside its step.

use amqp_txn_types::TransactionId;

/// What an item of the forward wire is; with its step it is the item.
#[derive(Clone, Copy, Debug, PartialEq, Eq)]
pub enum Tag {
    /// A transaction's declare.
    Declare {
        /// The number of the transaction.
        txn: u32,
        /// The number of the control link.
        link: u64,
    },
    /// A transaction's discharge.
    Discharge {
        /// The number of the transaction.
        txn: u32,
        /// The number of the control link.
        link: u64,
        /// The id that it heard.
        id: TransactionId,
        /// Whether it is to be rolled back.
        rollback: bool,
    },
    /// The end of a control link.
    LinkEnd {
        /// The number of the control link.
        link: u64,
    },
    /// A frame, which the step has.
    Frame,
}
