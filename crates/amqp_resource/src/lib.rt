//! The resource of transactions, part 4 of the standard (OASIS AMQP 1.0), under one name.
//!
//! | items | are |
//! |---|---|
//! | [`TxnSession`], [`drive`], [`drive_counted`], [`HandleControlLink`] | a transactional session, and a run of it |
//! | [`Step`], [`Steps`], [`Reply`], [`Entry`], [`Entries`], [`Driven`] | what a session is asked and answers |
//! | [`StepError`], [`Stop`], [`StopCode`] | why it gives no reply |
//! | [`TxnCoordinator`], [`TransactionManager`], [`ResourceTransaction`] | the coordinator, and the work of its transactions |
//! | [`IdSource`], [`ListIds`], [`CountIds`], [`UuidIds`], [`seeded_ids`] | where ids come from |
//! | [`ArrivalLog`], [`Looks`], [`presumptive`] | the work under live ids, and what its sender is told at once |
//! | [`SharedTxnSession`], [`Locked`], [`Share`], [`Receipt`], [`ReplyCode`], [`StoppedAt`], [`Closed`], [`CloseWhy`] | one session for several threads |
//! | [`SessionAcceptor`], [`AcceptedSession`], [`BeganSession`], [`begin`] | sessions that are accepted or begun |
//!
//! A list of steps drives a session over a layer below, here the bounded queue of `amqp_examples`
//! (`served_queue` there). The page of `amqp_resource_session` shows single steps, the page of
//! `amqp_accept` the links of a session that was accepted.
//!
//! ```rust
//! /// Drives the steps of one session over a queue for a hundred messages.
//! pub fn serve(alloc: Global, steps: Steps) -> Driven
//!     ensures { IsLegal result.entries }
//! {
//!     let mut session = TxnSession::new(alloc, BoundedQueue::new(alloc, 100));
//!     let mut ids = CountIds::new();
//!     drive(&mut session, steps, &mut ids)
//! }
//! ```
//!
//! This crate has nothing of its own: it passes these on, and their definitions too.
#![tactic(auto)]

pub use amqp_below_ids::{CountIds, Drawn, IdSource, ListIds, numbered_id};
pub use amqp_below_uuid_ids::{UuidIds, seeded_ids};
pub use amqp_resource_accepted::{
    AcceptedSession, BeganSession, SessionAcceptor, SessionAcceptorBuilder, begin,
};
pub use amqp_resource_coordinator::{
    CoordinatorError, CoordinatorReply, DischargeError, ResourceTransaction, SuccessfulOutcome,
    TransactionManager, TxnCoordinator,
};
pub use amqp_resource_log::{ArrivalLog, Looks, presumptive};
pub use amqp_resource_record::{
    Drawn16, Driven, Entries, Entry, RejectText, Reply, Step, StepError, Steps, Stop, StopCode,
    commits, hands, home, is_answer, is_legal, is_live, is_open, work,
};
pub use amqp_resource_session::{
    HandleControlLink, TxnSession, drive, drive_counted, the_view_of_a_record_looks_back,
};
pub use amqp_resource_shared::{
    CloseWhy, Closed, Locked, Receipt, ReplyCode, Share, SharedTxnSession, StoppedAt,
};
