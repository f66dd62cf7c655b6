//! The text of the messages of a queue, as the reports of a broker and of a relay have it.
//!
//! ```text
//! let messages = relay.from_queue()?;
//! put_messages(alloc, &mut out, messages.as_slice())?;
//! // message 1 51
//! // message 2 50
//! ```
//!
//! Below stand the messages of `txn_broker_queues` and the words of a report. The promise that this
//! crate carries: each message has its line, in order, with its number and its octets.
#![tactic(auto)]

mod messages;

pub use messages::put_messages;
