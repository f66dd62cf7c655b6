//! The controlling side of transactions: what a client declares, does and ends.
//!
//! One name for what stands in these crates, as a client uses it:
//!
//! | crate | has |
//! |---|---|
//! | `amqp_links` | the ends of links that all calls take, and what their calls answer |
//! | `amqp_controller_calls` | declares, discharges and abandons on a control link that is lent |
//! | `amqp_controller_posting` | posts and retirements under a transaction |
//! | `amqp_controller_transactions` | the controller over a lock, and transactions over it |
//! | `amqp_controller_acquisition` | deliveries that are acquired under a transaction |
//!
//! A client attaches its control link over a session, and sends the attach that it is given; once
//! the peer's has come it has its controller (`controller` of `amqp_examples_controller`; the page
//! of `amqp_engine` does this over a session that an engine runs):
//!
//! ```rust
//! /// Asks for a control link: the attach is to be sent, and the wait to be polled.
//! pub fn attach<S: Session>(
//!     alloc: Global,
//!     session: &mut S,
//!     name: Text,
//! ) -> Result<(Attaching, Attach), SenderAttachError> {
//!     Controller::attach(alloc, session, name)
//! }
//!
//! /// Looks once for the peer's attach: the controller, or `None` where the session stopped. A
//! /// wait that goes on is polled again later.
//! pub fn poll_attach<S: Session>(
//!     session: &mut S,
//!     attaching: Attaching,
//! ) -> Progress<Attaching, Option<Controller<WireSender>>> {
//!     match attaching.poll(session) {
//!         Progress::Pending(attaching) => Progress::Pending(attaching),
//!         Progress::Ready(Ok(controller)) => Progress::Ready(Some(controller)),
//!         Progress::Ready(Err(_error)) => Progress::Ready(None),
//!     }
//! }
//! ```
//!
//! Then it posts a message under a transaction, and commits that (`commits` there):
//!
//! ```rust
//! /// How a commit ended.
//! #[derive(Debug, Drop, PartialEq)]
//! pub enum CommitEnd {
//!     /// It was accepted.
//!     Accepted,
//!     /// The coordinator rolled the transaction back: the work may be sent again in a new one.
//!     RolledBack,
//!     /// The work wasn't accepted, or an answer is still out: the transaction was given up. How a
//!     /// commit without an answer ended isn't known.
//!     GivenUp,
//! }
//!
//! /// Posts a message under a transaction of its own, and commits that.
//! pub fn post_and_commit<L: SenderLink, S: SenderLink, R: Wait>(
//!     rt: &R,
//!     controller: &Controller<L>,
//!     sender: &mut S,
//!     sendable: Sendable,
//! ) -> Result<CommitEnd, ControllerSendError> {
//!     let transaction = match Transaction::declare(controller, rt, None)?.poll(rt) {
//!         Progress::Ready(declared) => declared?,
//!         Progress::Pending(_declaring) => return Ok(CommitEnd::GivenUp),
//!     };
//!     if !is_accepted(&transaction, sender, sendable) {
//!         drop(transaction.abandon(rt));
//!         return Ok(CommitEnd::GivenUp);
//!     }
//!     let commit = match transaction.commit(rt) {
//!         Ok(commit) => commit,
//!         Err((transaction, error)) => {
//!             drop(transaction.abandon(rt)); // the commit wasn't sent
//!             return Err(error);
//!         }
//!     };
//!     match commit.poll(rt) {
//!         Progress::Ready(Ok(())) => Ok(CommitEnd::Accepted),
//!         Progress::Ready(Err((transaction, error))) => {
//!             let is_rolled_back = transaction.is_rolled_back();
//!             drop(transaction.abandon(rt)); // sends nothing where it was rolled back
//!             if is_rolled_back {
//!                 Ok(CommitEnd::RolledBack)
//!             } else {
//!                 Err(error)
//!             }
//!         }
//!         Progress::Pending(commit) => {
//!             drop(commit.into_value().abandon(rt));
//!             Ok(CommitEnd::GivenUp)
//!         }
//!     }
//! }
//!
//! /// Posts a message under the transaction, and looks once whether it was accepted.
//! pub fn is_accepted<T: TransactionPosting, S: SenderLink>(
//!     transaction: &T,
//!     sender: &mut S,
//!     sendable: Sendable,
//! ) -> bool {
//!     match transaction.post(sender, sendable) {
//!         Ok(post) => post.poll(sender) == Progress::Ready(Ok(Outcome::Accepted)),
//!         Err(_error) => false,
//!     }
//! }
//! ```
//!
//! Answers have come before they are polled here. A client that waits keeps what `Pending` hands
//! back, and polls that once more frames have come. Until then it moves the messages of the control
//! link, and fills in their answers:
//!
//! ```rust
//! /// Fills in the peer's answer to a message of the control link: whether it was awaited.
//! pub fn answer_message<R: Wait>(
//!     rt: &R,
//!     controller: &Controller<WireSender>,
//!     token: Token,
//!     answer: Answer,
//! ) -> bool {
//!     let mut link = controller.link(rt);
//!     let awaited = link.answer(token, answer);
//!     drop(link); // a call over the controller would wait for ever for this guard
//!     awaited
//! }
//! ```
//!
//! For one who comes from `fe2o3-amqp`:
//!
//! - A transaction isn't `Drop`: nothing is rolled back by dropping one, and the check refuses a
//!   function that lets one go. So there is no `?` while one is held by value. The work stands in a
//!   function that borrows it, as `is_accepted` above, and the `match` that holds it ends it in
//!   each of its ways out. [`Discharging::into_value`] gives back one whose answer is still out.
//! - Nothing is async. [`Poll`] and [`Progress`] aren't std's: no waker is kept, and whoever moves
//!   the frames polls again.
//! - Calls over a [`Controller`] take a runtime, since they take its lock. One that is made while
//!   the guard of [`Controller::link`] lives waits for ever, a poll too: bind what is read by a
//!   `let`, and drop the guard, as `answer_message` does.
//! - [`Controller::attach`] and its poll need the session itself, so whoever runs it lends it for
//!   both. [`Controller::new`] takes any [`SenderLink`], so a link of one's own needs no session.
//! - A commit that isn't sent, or is refused, hands the transaction back: it is committed again, or
//!   given up. One that the coordinator answered by a rollback of its own hands it back with
//!   `is_rolled_back`: it isn't discharged, and is given up as `RolledBack`.
//!
//! The life of a transaction on this side:
//!
//! ```text
//!              declare            poll: Declared
//!  controller ─────────▶ waiting ───────────────▶ transaction ─── abandon ──▶ gone
//!      ▲                    │                       │      ▲
//!      └── poll: an error ──┘      commit, rollback │      │ poll: an error
//!                                                   ▼      │
//!                                                 waiting ─┘
//!                                                   │ poll: Accepted
//!                                                   ▼
//!                                               discharged ─── spend ──▶ gone
//! ```
//!
//! What is proved of each call stands with it. This crate has nothing of its own.
#![tactic(auto)]

pub use amqp_below_sessions::{AllocLinkError, SenderAttachError, Session};
pub use amqp_controller_acquisition::{
    AcquisitionDischarging, TransactionAcquisition, TransactionExt, TxnAcquisition, TxnIdKey,
    acquire_on_link, clean_up_on_link,
};
pub use amqp_controller_calls::{
    Abandoned, ControllerSendError, DeclareOnLink, DischargeOnLink, TransactionBase,
    abandon_on_link, declare_on_link, discharge_on_link,
};
pub use amqp_controller_posting::{
    DeliveryFut, FromDeliveryFailure, FromDeliveryState, FromPreSettled, PostError, PostResult,
    TransactionPosting, TransactionRetirement,
};
pub use amqp_controller_transactions::{
    Attaching, Begun, Controller, ControllerBuilder, DEFAULT_ROLLBACK_ON_DROP_TRIALS, Declaring,
    Discharging, OwnedDeclareError, OwnedDeclaring, OwnedDeclaringOn, OwnedDischargeError,
    OwnedTransaction, Transaction, TransactionDischarge,
};
pub use amqp_links::{
    Answer, Delivery, DeliveryInfo, DetachError, DispositionError, FlowError,
    IllegalLinkStateError, LinkStateError, Poll, Progress, ReceiverLink, RecvError, SendError,
    Sendable, SenderLink, Sent, WireReceiver, WireSender,
};
