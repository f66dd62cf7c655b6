//! What a review answers.

/// Whether frames that are to be handed together would all be taken.
#[derive(Clone, Copy, Debug, PartialEq, Eq)]
pub enum Verdict {
    /// Each of them will be taken, or refused where memory runs out.
    Accept,
    /// None of them may be handed.
    Veto,
}
