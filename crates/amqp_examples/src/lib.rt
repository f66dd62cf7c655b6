//! Examples that the guide and first pages are cut from: parts of one's own under and over Daxurbi.
//!
//! | file | shows |
//! |---|---|
//! | `bounded_queue` | a layer below that vetoes a commit which doesn't fit |
//! | `node_ids` | an id source of one's own |
//! | `counted_link` | a link of one's own under a controller |
//! | `answered_message` | a message on a wire, and its answer |
//! | `recorded_calls` | what a layer took, and calls that a plan refuses |
//! | `served_queue` | a session over a queue, and two side by side |
//! | `single_steps` | the steps of a session, one by one |
#![tactic(auto)]

mod answered_message;
mod bounded_queue;
mod counted_link;
mod node_ids;
mod recorded_calls;
mod served_queue;
mod single_steps;

pub use answered_message::send_and_hear;
pub use bounded_queue::BoundedQueue;
pub use counted_link::CountedLink;
pub use node_ids::NodeIds;
pub use recorded_calls::{record_transfer, refuse_second};
pub use served_queue::{serve, serve_both};
pub use single_steps::attach_and_declare;
