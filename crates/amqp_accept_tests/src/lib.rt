//! Tests of the acceptors of links and of the listeners.
//!
//! What a test made isn't taken apart at its end: the process gives all its memory back at once.
#![tactic(auto)]

#[cfg(test)]
mod at_once_tests;
#[cfg(test)]
mod link_tests;
#[cfg(test)]
mod listener_tests;
#[cfg(test)]
mod review_tests;
