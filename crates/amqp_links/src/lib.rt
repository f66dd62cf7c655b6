//! The ends of attached links: two traits, each with one plain body.
//!
//! Code that sends or receives over a link takes any type with the trait (`L: SenderLink`), so it
//! runs on a wire of this crate in a test and on a real link elsewhere.
//!
//! | trait | is | body here |
//! |---|---|---|
//! | [`SenderLink`] | the end that sends messages and hears what became of them | [`WireSender`] |
//! | [`ReceiverLink`] | the end that receives messages and disposes of them | [`WireReceiver`] |
//!
//! A call answers at once, and its caller asks again where the answer is still out: [`Poll`] is
//! what a look finds, and [`Progress`] what the poll of a wait finds that is taken by value.
//! Neither is std's: no waker is kept, nothing is woken, and whoever moves the frames polls again.
//!
//! A link tells, in contracts, what was put on it, what stands ready to be heard, and a count of
//! its faults; each call says what it does to them. A wire keeps what was put for its owner to
//! read, and hears what its owner fills in (`answered_message` of `amqp_examples`):
//!
//! ```rust
//! /// Sends a message on a wire whose owner answers it as accepted: what its sender then hears, if
//! /// anything.
//! pub fn send_and_hear(
//!     alloc: Global,
//!     end: LinkEnd,
//!     sendable: Sendable,
//! ) -> Result<Option<Answer>, SendError> {
//!     let mut wire = WireSender::new(alloc, end);
//!     let Sent::Unsettled(token) = wire.send(sendable, None, false)? else {
//!         return Ok(None); // it was sent settled: no answer comes
//!     };
//!     wire.answer(token, Ok(Some(DeliveryState::Accepted)));
//!     match wire.outcome(&token) {
//!         Poll::Ready(answer) => Ok(Some(answer)),
//!         Poll::Pending => Ok(None),
//!     }
//! }
//! ```
//!
//! Below stand the types of `amqp_txn_types`. The promise that this crate carries: on both wires an
//! Ok adds exactly its message to what was put and an Err nothing, an answer goes to its own token,
//! and every Err but the out of memory of a property comes with a fault that is counted. 'The
//! standard' is OASIS AMQP 1.0.
#![tactic(auto)]

mod answer_slot;
mod delivery;
mod errors;
mod messages;
mod poll;
mod progress;
mod receiver;
mod sendable;
mod sender;
mod wire_receiver;
mod wire_sender;

pub use delivery::{Delivery, DeliveryInfo};
pub use errors::{
    DetachError, DispositionError, FlowError, IllegalLinkStateError, LinkStateError,
    MessageSizeExceeded, RecvError, SendError,
};
pub use messages::{Closes, ReceiverMessage, ReceiverMessages, SentMessage, SentMessages};
pub use poll::Poll;
pub use progress::Progress;
pub use receiver::ReceiverLink;
pub use sendable::{Sendable, Sent};
pub use sender::{Answer, SenderLink};
pub use wire_receiver::WireReceiver;
pub use wire_sender::WireSender;
