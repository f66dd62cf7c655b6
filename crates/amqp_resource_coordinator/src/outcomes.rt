//! What a coordinator answers where it doesn't refuse.

ghost use Rattle.std.specs.Prelude.{◌≡◌};
ghost use Rattle.amqp_resource_coordinator.specs.Outcomes.{state_of_success};

use amqp_below_ids::Drawn;
use amqp_below_layer::Echoes;
use amqp_txn_types::{Accepted, Declared, DeliveryState};

/// The answer to a control message that isn't refused.
#[derive(Debug, Drop, PartialEq)]
pub enum CoordinatorReply {
    /// To a declare: the ids drawn, of which the last is that of the new transaction.
    Declared(Drawn),
    /// To a discharge: for a commit the answers of its frames, in order; for a rollback none.
    Discharged(Echoes),
}

/// The outcome of a control message that succeeded. Section 4.5.5 (declared) of the standard, and
/// part 3, section 3.4.2 (accepted).
#[derive(Clone, Copy, Debug, PartialEq)]
pub enum SuccessfulOutcome {
    /// Of a declare.
    Declared(Declared),
    /// Of a discharge.
    Accepted(Accepted),
}

impl From<SuccessfulOutcome> for DeliveryState {
    ghost from_gives = { λ outcome state. state ≡ state_of_success outcome };

    fn from(outcome: SuccessfulOutcome) -> Self {
        match outcome {
            SuccessfulOutcome::Declared(declared) => DeliveryState::Declared(declared),
            SuccessfulOutcome::Accepted(_) => DeliveryState::Accepted,
        }
    }
}
