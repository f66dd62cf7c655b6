//! Numbers of calls, and what the plans say of a call by its number.

ghost use Rattle.std.specs.Prelude.{◌≡◌};
ghost use Rattle.amqp_below_recorder.specs.Recording.{any_refused, is_among, planned_for};

use amqp_txn_types::{CallNumbers, Frame};

/// What the plans say of a call.
#[derive(Clone, Copy, Debug, PartialEq, Eq)]
pub enum Planned {
    /// It is made.
    Made,
    /// It is refused.
    Refused,
    /// It runs out of memory.
    Starved,
}

/// Whether the number is one of these.
fn is_among(numbers: &CallNumbers, number: u64) -> bool
    ensures { result ≡ is_among numbers.now number }
{
    numbers.as_slice().contains(&number)
}

/// What the plans say of the call of a number. One in both runs out of memory.
pub(crate) fn planned_for(refused: &CallNumbers, starved: &CallNumbers, number: u64) -> Planned
    ensures { result ≡ planned_for refused.now starved.now number }
{
    if is_among(starved, number) {
        Planned::Starved
    } else if is_among(refused, number) {
        Planned::Refused
    } else {
        Planned::Made
    }
}

/// Whether one of the calls that the frames would make, after so many, is planned to be refused.
pub(crate) fn any_refused(refused: &CallNumbers, calls: u64, frames: &[Frame]) -> bool
    ensures { result ≡ any_refused refused.now calls frames.now }
{
    let mut number = calls;
    for _frame in frames {
        number = number.saturating_add(1);
        if is_among(refused, number) {
            return true;
        }
    }
    false
}
