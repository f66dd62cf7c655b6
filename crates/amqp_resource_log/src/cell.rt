//! The cells of the log.

use amqp_txn_types::{TransactionId, TxnWorkFrame};

/// A cell of the log: the work that came under an id, or nothing once that was taken.
#[derive(Debug, Drop)]
pub enum Cell {
    /// Work that is kept.
    Live {
        /// The id that it came under.
        txn_id: TransactionId,
        /// The frame, as it came.
        work: TxnWorkFrame,
    },
    /// The work was taken.
    Dead,
}
