//! The layer below a transactional session: what takes the frames that are handed on.
//!
//! | type | is |
//! |---|---|
//! | [`Tells`] | what contracts see of a session or layer: what it took, opened, refused, vetoed |
//! | [`LayerBelow`] | the calls that a transactional session makes below |
//! | [`Verdict`] | what a layer answers that is asked about frames before they are handed |
//! | [`OpenSession`] | a layer that takes everything |
//! | [`take_frame`] | one frame through a layer, with the checks and the window that go with it |
//!
//! A layer says, in contracts, what each call adds to its lists and counts (`told`), and what it
//! answers and leaves (`incoming_gives`, `opening_gives`, `check_gives`, `window_gives`,
//! `review_gives`). Where it accepted a list of frames in a review, it takes them one after
//! another, if memory allows. What stands above is proved over every such layer:
//!
//! ```text
//! let mut below = OpenSession::new(alloc);
//! let answers = take_frame(&mut below, Frame::Detach(detach))?;
//! assert_eq!(answers.given.len(), 0);
//! ```
//!
//! Below stand the types of `amqp_txn_types`. The promise that this crate carries: one frame goes
//! through a layer by its incoming call, the checks of what is given back and, after a transfer,
//! the window, and by nothing else. 'The standard' is OASIS AMQP 1.0.
#![tactic(auto)]

mod answers;
mod inner_error;
mod layer;
mod open;
mod refusal;
mod take;
mod tells;
mod verdict;

pub use answers::{Answers, Echoes};
pub use inner_error::SessionInnerError;
pub use layer::LayerBelow;
pub use open::OpenSession;
pub use refusal::{Exchanges, Openings, Refusal, Refusals, Reviews};
pub use take::{TakeError, check_given, take_frame};
pub use tells::Tells;
pub use verdict::Verdict;
