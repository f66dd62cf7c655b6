//! Examples that the first pages of the controlling side are cut from.
//!
//! | file | shows |
//! |---|---|
//! | `control_link` | a declare and a commit on a link that is lent |
//! | `messages` | a post and a retirement under a transaction |
//! | `transactions` | a transaction over a controller, and its ways out |
//! | `relay` | a delivery that is acquired, posted on and accepted under one transaction |
//! | `controller` | a control link that is attached, and whose answers are filled in |
//! | `commits` | a post that is committed, and how that ended |
#![tactic(auto)]

mod commits;
mod control_link;
mod controller;
mod messages;
mod relay;
mod transactions;

pub use commits::{CommitEnd, is_accepted, post_and_commit};
pub use control_link::commit_on_link;
pub use controller::{answer_message, attach, poll_attach};
pub use messages::{post_once, take_once};
pub use relay::{pass_on, relay_under};
pub use transactions::commit_once;
