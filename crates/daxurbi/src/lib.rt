//! Sessions that serve transactions of AMQP 1.0, for programs in Rust, C and Python: a static
//! library.
//!
//! | call | does |
//! |---|---|
//! | [`daxurbi_open`], [`daxurbi_open_with_ids`] | opens a slot with a new session |
//! | [`daxurbi_step`] | makes a step, with what the layer below answers |
//! | [`daxurbi_report`] | reads what the last step made |
//! | [`daxurbi_pending`] | reads which frames a commit would hand |
//! | [`daxurbi_close`] | closes a slot |
//! | [`daxurbi_payload`], [`daxurbi_message`] | writes and reads control messages |
//!
//! ```text
//! daxurbi_open(&slot, seed, 32);
//! daxurbi_step(&slot, "attach c 0", 10, DAXURBI_TAKE);
//! daxurbi_report(&slot, text, sizeof text, &needed); /* attached 0 */
//! ```
//!
//! A slot lies in the memory of the program, which asks its own layer below what a step is to be
//! answered there, and then tells it. Each call answers with a number, also where it is misused: on
//! a closed slot, on an open one, with octets that are no line, with a buffer that is too short.
//! Below stand the session of `daxurbi_session`. The promise that
//! this crate carries: each call does what its number says, and nothing else.
#![tactic(auto)]

mod codes;
mod exports;
mod handle;
mod parts;
#[cfg(test)]
mod session_tests;
mod slot;
mod slot_calls;
#[cfg(test)]
mod tests;

pub use exports::{
    daxurbi_close, daxurbi_message, daxurbi_open, daxurbi_open_with_ids, daxurbi_payload,
    daxurbi_pending, daxurbi_report, daxurbi_step,
};
pub use slot::Slot;
