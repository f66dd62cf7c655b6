//! Tests of the words `broker`, `mailbox`, `audit`, `relay` and `threads`: each command over a
//! source and a sink in memory, and of their parts what no clause says.
//!
//! What a test made isn't taken apart at its end: the process gives all its memory back at once.
#![tactic(auto)]

#[cfg(test)]
mod audit_tests;
#[cfg(test)]
mod broker_tests;
#[cfg(test)]
mod mailbox_tests;
#[cfg(test)]
mod meeting;
#[cfg(test)]
mod memory_streams;
#[cfg(test)]
mod queue_tests;
#[cfg(test)]
mod relay_tests;
#[cfg(test)]
mod threads_tests;
