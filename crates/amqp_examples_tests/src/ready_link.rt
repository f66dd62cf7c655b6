//! A link whose answers have come before they are looked for.

use amqp_links::{
    DetachError, LinkStateError, Poll, SendError, Sendable, SenderLink, Sent, WireSender,
};
use amqp_test_values::{link_end, plain_error};
use amqp_txn_types::{
    Declared, DeliveryState, Error, ErrorCondition, Outcome, Rejected, Role, Text, Token,
    TransactionError, TransactionId, TransactionalState,
};
use std::alloc::Global;

/// A link on which the first look finds a state, and each later one `Accepted`, or nothing.
#[derive(Drop)]
pub struct ReadyLink {
    wire: WireSender,
    first: Option<DeliveryState>,
    second: Option<DeliveryState>,
}

impl SenderLink for ReadyLink {
    ghost use Rattle.std.specs.Prelude.{Ok, Some};
    ghost use Rattle.std.specs.Option.{option_map, option_or};

    ghost told = { λ link. record {
      put = link.wire.put;
      ready = λ _. option_map (λ state. Ok (Some state)) (option_or link.first link.second);
      faults = link.wire.calls.faults;
    } };

    fn send(
        &mut self,
        sendable: Sendable,
        state: Option<DeliveryState>,
        batchable: bool,
    ) -> Result<Sent, SendError> {
        self.wire.send(sendable, state, batchable)
    }

    fn outcome(&mut self, _token: &Token) -> Poll<Result<Option<DeliveryState>, LinkStateError>> {
        let state = match self.first.take() {
            Some(state) => Some(state),
            None => self.second.take(),
        };
        match state {
            Some(state) => Poll::Ready(Ok(Some(state))),
            None => Poll::Pending,
        }
    }

    fn close(&mut self, error: Option<Error>) -> Result<(), DetachError> {
        self.wire.close(error)
    }
}

/// The id of each transaction.
pub fn id() -> TransactionId {
    TransactionId::from([7; 16])
}

fn ready(alloc: Global, first: DeliveryState, second: Option<DeliveryState>) -> ReadyLink {
    let end = link_end(Text::new(alloc), Role::Sender, 0);
    ReadyLink {
        wire: WireSender::new(alloc, end),
        first: Some(first),
        second,
    }
}

/// A control link on which a transaction is declared, and its discharge is answered so.
pub fn declaring(alloc: Global, second: Option<DeliveryState>) -> ReadyLink {
    let declared = DeliveryState::Declared(Declared { txn_id: id() });
    ready(alloc, declared, second)
}

/// A link on which a post is accepted.
pub fn accepting(alloc: Global) -> ReadyLink {
    let state = TransactionalState {
        txn_id: id(),
        outcome: Some(Outcome::Accepted),
    };
    ready(alloc, DeliveryState::TransactionalState(state), None)
}

/// The answer to a discharge of a transaction that the coordinator rolled back.
pub fn rolled_back() -> DeliveryState {
    let condition = ErrorCondition::TransactionError(TransactionError::Rollback);
    DeliveryState::Rejected(Rejected {
        error: Some(plain_error(condition)),
    })
}
