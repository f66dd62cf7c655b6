//! Examples that the first pages of accepted sessions and of engines are cut from.
//!
//! | file | shows |
//! |---|---|
//! | `sessions` | sessions that are accepted and begun |
//! | `links` | links that are accepted, and a listener that is closed |
//! | `events` | a frame through the engine of a session |
//! | `engine_controller` | a controller on a session that an engine runs |
#![tactic(auto)]

mod engine_controller;
mod events;
mod links;
mod sessions;

pub use engine_controller::{Attached, attach_control, hear_frame};
pub use events::take;
pub use links::{accept_link, close_listener, next_link};
pub use sessions::{accept_session, begin_session};
