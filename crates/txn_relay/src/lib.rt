//! A relay: messages are moved from one queue to another, one transaction a message.
//!
//! A [`Relay`] has two parties over a broker, with one controller, and moves the messages of the
//! queue `from` to the queue `to`. Each [`RelayEvent`] is one thing that may happen:
//!
//! | event | what it does |
//! |---|---|
//! | `Go` | the next move is put: a declare, or the post of the message, its retirement and the commit |
//! | `Arrive` | the first item that waits is a step of the session |
//! | `Return` | the first answer on its way back is heard |
//! | `Cut` | nothing arrives or returns any more |
//!
//! ```text
//! let mut relay = Relay::new(alloc, world, work);
//! relay.event(RelayEvent::Go)?; // Happened::Put
//! relay.event(RelayEvent::Arrive)?; // Happened::Arrived
//! relay.event(RelayEvent::Return)?; // Happened::Heard
//! relay.committed(); // 0
//! ```
//!
//! What the word `relay` of a program does:
//!
//! | item | is |
//! |---|---|
//! | [`run_relay`], [`RelayRan`] | a relay over a new broker, by the words and the input, with its text |
//! | [`end_relay`] | the same for a process |
//! | [`spelled_script`], [`Script`] | the messages and the events that lines spell |
//!
//! The lines of an input are messages first, `message PAYLOAD`, and then events: `go`, `arrive`,
//! `return`, `cut`.
//!
//! ```text
//! let ran = run_relay(alloc, words, &mut input, &mut output);
//! // from 1
//! // message 1 51
//! // to 1
//! // message 2 50
//! // heard 1
//! // skipped 0
//! // stop none
//! ```
//!
//! Below stand the two parties of `txn_world`, the broker of `txn_broker_queues` and the edges of a
//! program. The promise that this crate carries: the messages of the input are filled into `from`;
//! the relay has each event of the input, once and in order; whatever is cut and whenever, each
//! message is in exactly one of the two queues, and what the relay heard tells how far it came.
#![tactic(auto)]

mod ending;
mod event;
mod filling;
mod moves;
mod playing;
mod relay;
mod relay_text;
mod runs;
mod script;

pub use ending::end_relay;
pub use event::RelayEvent;
pub use moves::{FROM_HANDLE, FROM_NAME, TO_HANDLE, TO_NAME, transfer_on};
pub use relay::Relay;
pub use runs::{RelayRan, run_relay};
pub use script::{Script, spelled_script};
