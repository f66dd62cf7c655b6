//! One session that several threads serve, under one lock.
//!
//! | item | is |
//! |---|---|
//! | [`SharedTxnSession`] | a session, its ids and its entries under a lock |
//! | [`Locked`] | the same while the lock is held: it makes the steps |
//! | [`Share`] | how many steps a caller has made |
//! | [`Receipt`] | the step, number, draws and reply code of an entry |
//! | [`Closed`], [`CloseWhy`] | what comes out at the end, and why the sums don't agree |
//!
//! Each thread has a share that was split from the first one, takes the lock for each step and
//! keeps the receipt:
//!
//! ```text
//! let (shared, mut first) = SharedTxnSession::new(blank, alloc, session, ids);
//! let mut mine = first.split(1);
//! // in a thread
//! let receipt = shared.lock(rt).step(&mut mine, &step)?;
//! // when all threads are joined
//! let closed = shared.close(shares, receipts);
//! ```
//!
//! It stands on the session, on the tests of equality and on shares of a ledger. The promise that
//! it carries: whenever the lock is free, the entries under it are a legal record that the session
//! stands for, and the layer below has taken the work of that record and, only after a stop, the
//! first frames of the step that stopped. After an Ok of `close` there are as many entries as the
//! shares count, and each receipt is of the entry with its number.
//!
//! It promises nothing of which thread comes first, nor of how long anyone waits.
#![tactic(auto)]

mod close;
mod draws;
mod laws;
mod one_step;
mod receipt;
mod reply_code;
mod room;
mod shared_session;
mod shared_state;

pub use amqp_resource_shared_counts::Share;
pub use close::{CloseWhy, Closed};
pub use laws::{each_entry_has_its_receipt, receipts_are_the_entries};
pub use receipt::{Receipt, StoppedAt};
pub use reply_code::{ReplyCode, code_of};
pub use shared_session::{Locked, SharedTxnSession};
pub use shared_state::SharedState;
