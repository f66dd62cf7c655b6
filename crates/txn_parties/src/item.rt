//! What is put on the two wires.

use amqp_resource_record::{RejectText, StopCode};
use amqp_txn_types::{Frame, TransactionError, TransactionId};

/// An item of the forward wire. Part 4 of the standard, sections 4.2 to 4.4.
#[derive(Debug, Drop, PartialEq)]
pub enum Item {
    /// A transaction's declare, without a global id.
    Declare {
        /// The number of the transaction.
        txn: u32,
        /// The number of the control link.
        link: u64,
    },
    /// A transaction's discharge.
    Discharge {
        /// The number of the transaction.
        txn: u32,
        /// The number of the control link, on which it was declared.
        link: u64,
        /// The id that it heard.
        id: TransactionId,
        /// Whether it is to be rolled back, else committed.
        rollback: bool,
    },
    /// The end of a control link.
    LinkEnd {
        /// The number of the control link.
        link: u64,
    },
    /// A frame, under a transaction or plain.
    Frame(Frame),
}

/// What was asked of the resource on a control link.
#[derive(Clone, Copy, Debug, PartialEq, Eq)]
pub enum Asked {
    /// A new transaction.
    Declare,
    /// A discharge that commits.
    Commit,
    /// A discharge that rolls back.
    Rollback,
}

/// The delivery state that stands for a reply, or that the link is gone.
#[derive(Clone, Copy, Debug, PartialEq, Eq)]
pub enum ReplyState {
    /// Declared, with the id.
    Declared(TransactionId),
    /// Accepted.
    Accepted,
    /// Rejected, with the condition of its error, and the text that is its description.
    Rejected {
        /// The condition.
        error: TransactionError,
        /// The text.
        text: RejectText,
    },
    /// No state: the link isn't open, or was closed.
    Closed,
}

/// An item of the back wire: the answer to one declare or discharge.
#[derive(Clone, Copy, Debug, PartialEq, Eq)]
pub struct Answered {
    /// The number of the transaction that asked.
    pub txn: u32,
    /// What it asked.
    pub asked: Asked,
    /// What it was answered.
    pub state: ReplyState,
}

/// Why the resource's session stopped, and how many frames of the stopping item the layer below
/// took.
#[derive(Clone, Copy, Debug, PartialEq, Eq)]
pub struct Halt {
    /// The cause.
    pub code: StopCode,
    /// How many frames were taken.
    pub handed: usize,
}
