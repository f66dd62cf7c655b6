//! Values that the tests of several crates use, and how they compare what they find with what they
//! want.
//!
//! Each value is the plainest of its kind: what a test is about it sets in the value that it got.
#![tactic(auto)]

mod answers;
mod errors;
mod frames;
mod links;
mod sessions;

pub use answers::{error_of, gives, is_done, leak, refuses, same, value_of};
pub use errors::{not_allowed, other_text, plain_error, reads};
pub use frames::{
    begin, control_attach, detach, disposition, flow, sender_attach, transfer, under, work,
};
pub use links::{call_numbers, link_end};
pub use sessions::{judges, plain_session, relay, takes_work};
