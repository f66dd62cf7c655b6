//! What may happen to a relay.

/// One thing that may happen to a relay.
#[derive(Clone, Copy, Debug, PartialEq, Eq)]
pub enum RelayEvent {
    /// The relay makes its next move, if one is left.
    Go,
    /// The next item on the forward wire arrives.
    Arrive,
    /// The next answer on the back wire returns.
    Return,
    /// Both wires are cut: nothing arrives or returns any more.
    Cut,
}
