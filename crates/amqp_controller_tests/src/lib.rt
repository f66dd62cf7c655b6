//! Tests of the controlling side.
//!
//! What a test made isn't taken apart at its end: the process gives all its memory back at once.
#![tactic(auto)]

#[cfg(test)]
mod acquisition_tests;
#[cfg(test)]
mod transaction_tests;
