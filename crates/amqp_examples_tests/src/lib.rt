//! Tests of the examples: each is called once, where there is memory.
//!
//! What a test made isn't taken apart at its end: the process gives all its memory back at once.
#![tactic(auto)]

#[cfg(test)]
mod accept_tests;
#[cfg(test)]
mod controller_tests;
#[cfg(test)]
mod layer_tests;
#[cfg(test)]
mod ready_link;
