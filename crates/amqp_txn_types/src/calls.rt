//! The fallible calls of a body in memory.

ghost use Rattle.std.specs.Prelude.{◌≡◌, ◌≤◌, Err};
ghost use Rattle.amqp_txn_types.specs.Calls.{is_failing, called, faulted};

use crate::counts::refuse;
use crate::items::CallNumbers;

/// The fallible calls of a body in memory, whichever they are: how many there were, how many
/// failed, and the numbers, from 1, of those that are to fail.
#[derive(Debug, Drop)]
pub struct Calls {
    /// The numbers of the calls that are to fail.
    pub failing: CallNumbers,
    made: u64,
    faults: u64,
}

impl Calls {
    /// No calls yet, of which those of these numbers are to fail.
    pub fn new(failing: CallNumbers) -> Calls
        ensures failing { result.failing ≡ failing }
        ensures made { result.made ≡ 0 }
        ensures faults { result.faults ≡ 0 }
    {
        Calls {
            failing,
            made: 0,
            faults: 0,
        }
    }

    /// Counts a call, and answers whether its number is one of those that are to fail.
    #[tactic(auto, unfolding(crate::specs::Calls::is_failing))]
    pub fn begin(&mut self) -> bool
        ensures fails { result ≡ is_failing self.old }
        ensures counted { self.new ≡ called self.old }
    {
        self.made = self.made.saturating_add(1);
        self.failing.as_slice().contains(&self.made)
    }

    /// Counts a fault, and answers it.
    pub fn fail<T, E>(&mut self, error: E) -> Result<T, E>
        ensures answer { result ≡ Err error }
        ensures counted { self.new ≡ faulted self.old }
        ensures later { self.old.faults ≤ self.new.faults }
    {
        refuse(&mut self.faults, error)
    }
}
