//! Tests of the engine, of the builder of sessions, and of accepted sessions.
//!
//! What a test made isn't taken apart at its end: the process gives all its memory back at once.
#![tactic(auto)]

#[cfg(test)]
mod accepted_tests;
#[cfg(test)]
mod builder_tests;
#[cfg(test)]
mod control_tests;
#[cfg(test)]
mod controller_tests;
#[cfg(test)]
mod engine_tests;
#[cfg(test)]
mod test_values;
#[cfg(test)]
mod text_tests;
