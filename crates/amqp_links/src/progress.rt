//! A wait that is polled by value.

/// What a poll by value finds: the wait goes on, or it is over. A wait that goes on is handed back,
/// to be polled again once more frames have come; no waker is kept, as none is by
/// [`Poll`](crate::Poll), which isn't std's either.
#[derive(Debug, Drop, PartialEq)]
pub enum Progress<P, R> {
    /// It goes on: poll it again later.
    Pending(P),
    /// It is over, with this answer.
    Ready(R),
}
