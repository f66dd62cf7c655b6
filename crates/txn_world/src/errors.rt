//! Why two parties can't begin.

use amqp_below_layer::SessionInnerError;
use thiserror::Error as ThisError;

/// Why two parties couldn't begin.
#[derive(Debug, Drop, ThisError)]
pub enum WorldError {
    /// Out of memory.
    #[error("out of memory")]
    NoMemory,
    /// The layer below refused the attach of a control link.
    #[error("the attach of a control link was refused")]
    AttachRefused(SessionInnerError),
}
