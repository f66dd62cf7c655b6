//! What may happen to two parties, and what a transaction hears.

use amqp_txn_types::{Disposition, Frame, Outcome, Payload, Transfer};

/// One thing that may happen.
///
/// Controllers are numbered from 0 by the order of their attaches, transactions from 0 by the order
/// of their declares. Part 4 of the standard, sections 4.2 to 4.4.
#[derive(Debug, Drop, PartialEq)]
pub enum Event {
    /// The controller with this number declares a new transaction, without a global id.
    Declare(u32),
    /// A transfer under a transaction is put (section 4.4.1, posting).
    Post {
        /// The number of the transaction.
        txn: u32,
        /// The transfer; its state is replaced by the transactional state.
        transfer: Transfer,
        /// The outcome in that state.
        outcome: Option<Outcome>,
        /// The octets of the message.
        payload: Payload,
    },
    /// A disposition under a transaction is put (section 4.4.2, retirement).
    Retire {
        /// The number of the transaction.
        txn: u32,
        /// The disposition; its state is replaced by the transactional state.
        disposition: Disposition,
        /// The outcome in that state.
        outcome: Option<Outcome>,
    },
    /// The transaction with this number is to be committed.
    Commit(u32),
    /// The transaction with this number is to be rolled back.
    Rollback(u32),
    /// The controller with this number ends its link.
    LinkEnd(u32),
    /// A frame that is neither under a transaction nor the attach of a control link is put.
    Plain(Frame),
    /// The next item on the forward wire arrives.
    Arrive,
    /// The next answer on the back wire returns.
    Return,
    /// Both wires are cut: nothing arrives or returns any more.
    Cut,
}

/// What an event did.
#[derive(Clone, Copy, Debug, PartialEq, Eq)]
pub enum Happened {
    /// An item was put on the forward wire.
    Put,
    /// An item arrived: it was answered, or it stopped the resource's session.
    Arrived,
    /// An answer returned, and its transaction heard it.
    Heard,
    /// The wires were cut.
    Cut,
    /// Nothing: what the event needs wasn't there.
    Skipped,
}

/// What a transaction has heard.
#[derive(Clone, Copy, Debug, PartialEq, Eq)]
pub enum Heard {
    /// No answer that declares it.
    Undeclared,
    /// It was declared; no answer to a discharge of it.
    Nothing,
    /// Its commit was accepted.
    Committed,
    /// Its rollback was accepted.
    RolledBack,
    /// Its discharge was rejected; with a commit the layer below may have vetoed it.
    Rejected,
}
