//! A session that serves transactions of AMQP 1.0 over a layer below, as the resource of part 4 of
//! the standard (OASIS AMQP 1.0), section 4.1.
//!
//! A [`TxnSession`] takes steps: frames, control messages, ends. A frame under a live transaction
//! is kept until the transaction is discharged: a rollback lets it go, and a commit hands it to the
//! layer below, in order and without its transactional state. Before that the layer is asked to
//! review the frames of the commit: where it vetoes them they are let go, and the commit is
//! answered with `Rollback`. A plain frame goes below at once.
//! `single_steps` of `amqp_examples` makes two steps:
//!
//! ```rust
//! /// Opens a control link on a new session and declares a transaction there: the reply to the
//! /// second step, which draws an id.
//! pub fn attach_and_declare(
//!     alloc: Global,
//!     attach: &Step,
//!     declare: &Step,
//! ) -> Result<Reply, StepError> {
//!     let mut ids = CountIds::new();
//!     let mut session = TxnSession::new(alloc, OpenSession::new(alloc));
//!     let (_drawn, attached) = session.step(attach, &mut ids)?;
//!     drop(attached);
//!     let (_drawn, reply) = session.step(declare, &mut ids)?;
//!     Ok(reply)
//! }
//! ```
//!
//! [`drive`] makes a list of steps on a fresh session, and gives its entries and why it stopped.
//! A session also has the calls of `HandleDeclare` and `HandleDischarge`: an id that they allocate
//! is declared on no link, and only they discharge it. Over a session it is a session, which an
//! engine can run: frames under a live id are kept, plain ones go below, an attach to a coordinator
//! opens a control link ([`HandleControlLink`]), and every other call is that of the session below.
//!
//! The frames that are kept for all live ids stand in one log of arrivals. [`drive_counted`] and
//! `step_counted` count the looks into it.
//!
//! Below stand the types, the codec of control messages, the log of arrivals, what a session keeps,
//! the traits of the outside, the coordinator, which asks a session by these calls, and the record
//! with its definitions, which look back over the entries of a session and know nothing of what it
//! keeps. What a user of a session needs of them is passed on. The promise that this crate carries:
//! a step answers by the record, and a run is its record. The layer below has taken exactly the
//! work of the record, each accepted commit's frames whole and in order and nothing of a rollback
//! or of a vetoed commit, followed, only where it refused, by the first frames of the next step's.
#![tactic(auto)]

mod as_session;
mod declare;
mod discharge;
mod dispatch;
mod ends;
mod frame_steps;
mod incoming;
mod laws;
mod link_steps;
mod outcomes;
mod review;
mod runs;
mod session;
mod transactional_calls;

pub use amqp_below_ids::{CountIds, Drawn, IdSource, ListIds, numbered_id};
pub use amqp_resource_coordinator::{
    CoordinatorError, CoordinatorReply, DischargeError, ResourceTransaction, SuccessfulOutcome,
    TransactionManager, TxnCoordinator,
};
pub use amqp_resource_log::Looks;
pub use amqp_resource_record::{
    Drawn16, Driven, Entries, Entry, RejectText, Reply, Step, StepError, Steps, Stop, StopCode,
    commits, hands, home, is_answer, is_legal, is_live, is_open, work,
};
pub use as_session::HandleControlLink;
pub use laws::the_view_of_a_record_looks_back;
pub use runs::{drive, drive_counted};
pub use session::TxnSession;
