//! An answer that may still be out.

/// What a look for an answer finds. It isn't std's `Poll`: no waker is kept, and whoever looked in
/// vain looks again once more frames have come.
#[derive(Debug, Drop, PartialEq)]
pub enum Poll<T> {
    /// It has come.
    Ready(T),
    /// It is still out: look again later.
    Pending,
}
