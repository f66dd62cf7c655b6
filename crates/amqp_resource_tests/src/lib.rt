//! Tests of the record, the log, the coordinator, the transactional session, and one under a lock.
//!
//! What a test made isn't taken apart at its end: the process gives all its memory back at once.
#![tactic(auto)]

#[cfg(test)]
mod arrival_tests;
#[cfg(test)]
mod arrival_values;
#[cfg(test)]
mod close_tests;
#[cfg(test)]
mod coordinator_tests;
#[cfg(test)]
mod live_work_tests;
#[cfg(test)]
mod record_tests;
#[cfg(test)]
mod session_tests;
