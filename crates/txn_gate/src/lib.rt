//! What threads that make steps pass before each step.
//!
//! A test, or whoever wants the threads to meet, puts a gate of its own in the way. The gate that
//! lets everyone pass is [`OpenGate`]:
//!
//! ```
//! fn make_steps<H: Gate>(gate: &H, worker: u32) {
//!     for turn in 1..4 {
//!         gate.pass(worker, turn);
//!         // the step
//!     }
//! }
//! make_steps(&OpenGate, 1);
//! ```
//!
//! It stands on nothing, so that all that starts threads can stand on it. A gate promises nothing
//! of what it lets pass when: its callers' promises hold at any gate.
#![tactic(auto)]

/// What a thread passes before each of its steps.
///
/// A gate that wants two threads to meet keeps atomics, looks at them a limited number of times
/// and calls `thread::yield_now` in between, which needs no handle. One that blocks has a handle
/// with the bound `Wait` in its type.
pub trait Gate {
    /// Returns once the worker may make its step. Workers and turns are the caller's numbers; a
    /// caller passes the gate once before each step, with turns in rising order for each worker.
    fn pass(&self, worker: u32, turn: u32);
}

/// The gate that lets everyone pass at once.
#[derive(Clone, Copy, Debug, PartialEq, Eq)]
pub struct OpenGate;

impl Gate for OpenGate {
    fn pass(&self, _worker: u32, _turn: u32) {}
}
