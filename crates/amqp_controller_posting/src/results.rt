//! The outcome of a post.

ghost use Rattle.std.specs.Prelude.{◌≡◌, Ok, Err};
ghost use Rattle.amqp_links.specs.declared.errors.LinkStateError.TheVariants as links;
ghost use Rattle.amqp_txn_types.specs.declared.delivery.Outcome.TheVariants as outcomes;
ghost use Rattle.amqp_controller_posting.specs.declared.errors.PostError.TheVariants as errors;
ghost use Rattle.amqp_controller_posting.specs.Posts.{outcome_by};

use crate::errors::PostError;
use amqp_links::LinkStateError;
use amqp_txn_types::{DeliveryState, Outcome, SessionStopReason};

/// The outcome of a post, which it gets if its transaction is committed.
pub type PostResult = Result<Outcome, PostError>;

/// A result that is made of the answer to a send.
pub trait FromDeliveryState: Sized {
    ghost use Rattle.amqp_txn_types.specs.declared.delivery.DeliveryState.{DeliveryState};

    /// What no state makes.
    ghost none_gives: { Self };

    /// What a state makes.
    ghost state_gives: { DeliveryState → Self };

    /// That of an answer without a state.
    fn from_none() -> Self
        ensures { result ≡ none_gives };

    /// That of a state.
    fn from_delivery_state(state: DeliveryState) -> Self
        ensures { result ≡ state_gives state };
}

/// A result that is made where a message was sent settled.
pub trait FromPreSettled: Sized {
    /// What it is.
    ghost settled_gives: { Self };

    /// That of a message that was sent settled, to which no answer comes.
    fn from_settled() -> Self
        ensures { result ≡ settled_gives };
}

/// A result that is made where no answer comes.
pub trait FromDeliveryFailure: Sized {
    ghost use Rattle.amqp_links.specs.declared.errors.LinkStateError.{LinkStateError};

    /// What a state of the link makes.
    ghost fault_gives: { LinkStateError → Self };

    /// That of a link whose session stopped.
    fn from_session_stop_reason(reason: SessionStopReason) -> Self
        ensures { result ≡ fault_gives (links.SessionStopped reason) };

    /// That of a state of the link.
    fn from_link_state_error(error: LinkStateError) -> Self
        ensures { result ≡ fault_gives error };

    /// That of an answer that is lost: the state of the link doesn't allow it.
    fn from_lost_answer() -> Self
        ensures { result ≡ fault_gives links.IllegalState };
}

impl FromDeliveryState for PostResult {
    ghost none_gives = { Err errors.IllegalDeliveryState };

    ghost state_gives = { outcome_by };

    fn from_none() -> Self {
        Err(PostError::IllegalDeliveryState)
    }

    fn from_delivery_state(state: DeliveryState) -> Self {
        match state {
            DeliveryState::TransactionalState(state) => match state.outcome {
                None => Err(PostError::IllegalDeliveryState),
                Some(Outcome::Declared(_)) => Err(PostError::IllegalDeliveryState),
                Some(outcome) => Ok(outcome),
            },
            _ => Err(PostError::IllegalDeliveryState),
        }
    }
}

impl FromPreSettled for PostResult {
    ghost settled_gives = { Ok outcomes.Accepted };

    fn from_settled() -> Self {
        Ok(Outcome::Accepted)
    }
}

impl FromDeliveryFailure for PostResult {
    ghost fault_gives = { λ fault. Err (errors.LinkStateError fault) };

    fn from_session_stop_reason(reason: SessionStopReason) -> Self {
        Err(PostError::LinkStateError(LinkStateError::SessionStopped(reason)))
    }

    fn from_link_state_error(error: LinkStateError) -> Self {
        Err(PostError::LinkStateError(error))
    }

    fn from_lost_answer() -> Self {
        Err(PostError::LinkStateError(LinkStateError::IllegalState))
    }
}
