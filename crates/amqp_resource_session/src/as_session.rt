//! A session over another as a session: its incoming frame calls and `on_incoming_control_attach`
//! are its own, all other calls go to the one below it, `on_control_attach` among them. Part 2 of
//! the standard, section 2.5 (sessions), and part 4, section 4.4 (transactional work).

mod control_calls;
mod endpoint_calls;
mod layer_calls;
mod session_calls;

pub use control_calls::HandleControlLink;
