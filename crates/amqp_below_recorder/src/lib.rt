//! A recorder: a layer below a transactional session that keeps what the layer in it took.
//!
//! | type | is |
//! |---|---|
//! | [`Recorder`] | a layer with the lists of what it took, opened, refused and vetoed |
//!
//! A recorder stands over any layer below and passes on what that answers, so what it tells is what
//! the layer in it did. Over a session it is a session too, with every call of that one. The code
//! here is `recorded_calls` of `amqp_examples`:
//!
//! ```rust
//! /// Has a recorder take a transfer: how many exchanges it then keeps.
//! pub fn record_transfer(
//!     alloc: Global,
//!     transfer: Transfer,
//!     payload: Payload,
//! ) -> Result<usize, SessionInnerError>
//!     ensures { IfOk result (λ kept. kept ≡ 1) }
//! {
//!     let mut below = Recorder::new(alloc, OpenSession::new(alloc));
//!     let given = below.on_incoming_transfer(transfer, payload)?;
//!     drop(given);
//!     Ok(below.exchanges().len())
//! }
//! ```
//!
//! A plan has it refuse calls by their numbers, as a faulty layer would. It is set before the first
//! call, while the recorder [`is_fresh`](Recorder::is_fresh):
//!
//! ```rust
//! /// Has a recorder refuse the second call that comes: how many refusals it then keeps. The plan
//! /// is set before the first call.
//! pub fn refuse_second(
//!     alloc: Global,
//!     first: Detach,
//!     second: Detach,
//! ) -> Result<usize, SessionInnerError> {
//!     let Ok(second_call) = Vec::from_slice(alloc, &[2]) else {
//!         return Err(SessionInnerError::NoMemory);
//!     };
//!     let mut below = Recorder::new(alloc, OpenSession::new(alloc));
//!     below.set_plan(CallNumbers::from_vec(second_call));
//!     let given = below.on_incoming_detach(first)?;
//!     drop(given);
//!     let answer = below.on_incoming_detach(second); // IllegalState
//!     drop(answer);
//!     Ok(below.refused().len())
//! }
//! ```
//!
//! A review of frames that would make such a call is vetoed. Calls of another plan, the starved
//! ones, are answered with out of memory, which no review foresees.
//!
//! Below stand the layer of `amqp_below_layer`, the sessions of `amqp_below_sessions` and the ids
//! of `amqp_below_ids`. The promise that this crate carries: a recorder's exchanges are the pairs
//! of the calls of the layer in it that were Ok, in order, but for those whose given frames it
//! couldn't copy, which it answers with `NoMemory`. 'The standard' is OASIS AMQP 1.0.
#![tactic(auto)]

mod call_numbers;
mod keeping;
mod recorder;

pub use recorder::Recorder;
