//! Tests of the pointer `thin`, of the types and of the codec of control messages, of the ends of
//! links, and of what a transactional session works on: the layer below, sessions, connections, the
//! recorder.
//!
//! What a test made isn't taken apart at its end: the process gives all its memory back at once.
#![tactic(auto)]

#[cfg(test)]
mod codec_tests;
#[cfg(test)]
mod connection_tests;
#[cfg(test)]
mod constructor_tests;
#[cfg(test)]
mod error_tests;
#[cfg(test)]
mod layer_tests;
#[cfg(test)]
mod link_tests;
#[cfg(test)]
mod plain_tests;
#[cfg(test)]
mod recorder_tests;
#[cfg(test)]
mod thin_tests;
#[cfg(test)]
mod type_tests;
