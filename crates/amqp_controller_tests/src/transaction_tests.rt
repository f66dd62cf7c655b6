//! What no clause says of the calls.
//!
//! | module | tests |
//! |---|---|
//! | `control` | calls on a control link that is lent |
//! | `posting` | posts and retirements |
//! | `borrowed`, `owned` | which calls are made over a controller's lock |
//! | `faults` | faults of the link under the lock |
//! | `orders`, `closing` | two transactions over one controller; controllers that are closed |
//! | `attaching` | control links that are attached over a session |
//! | `texts` | printed texts of errors |

mod attaching;
mod borrowed;
mod closing;
mod control;
mod faults;
pub(crate) mod links;
mod orders;
mod owned;
mod posting;
mod rows;
mod texts;
pub(crate) mod values;
