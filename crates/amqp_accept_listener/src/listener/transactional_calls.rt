//! A listener does no transactions.

use crate::listener::ListenerSession;
use amqp_below_ids::{Drawn, IdSource};
use amqp_below_layer::Echoes;
use amqp_below_sessions::{AllocTxnIdError, CommitFault, HandleDeclare, HandleDischarge, Session};
use amqp_txn_types::{Accepted, TransactionError, TransactionId, count_one};

impl<S: Session> HandleDeclare for ListenerSession<S> {
    ghost use Rattle.std.specs.Prelude.{◌≡◌, Err};
    ghost use Rattle.amqp_accept_listener.specs.Listening.{RefusedOnce};
    ghost use Rattle.amqp_below_sessions.specs.declared.transacting.AllocTxnIdError.TheVariants as allocations;

    ghost allocate_gives = { λ old new _ _ answer.
        (answer ≡ Err allocations.NotImplemented) × RefusedOnce old new };

    fn allocate_transaction_id<G: IdSource>(
        &mut self,
        ids: &mut G,
    ) -> Result<Drawn, AllocTxnIdError> {
        count_one(&mut self.refusals);
        Err(AllocTxnIdError::NotImplemented)
    }
}

impl<S: Session> HandleDischarge for ListenerSession<S> {
    ghost use Rattle.std.specs.Prelude.{◌≡◌, Ok, Err};
    ghost use Rattle.amqp_accept_listener.specs.Listening.{RefusedOnce};
    ghost use Rattle.amqp_txn_types.specs.declared.small.TransactionError.TheVariants as failures;

    ghost commit_gives = { λ old new _ answer.
        (answer ≡ Ok (Err failures.UnknownId)) × RefusedOnce old new };

    ghost rollback_gives = { λ old new _ answer.
        (answer ≡ Err failures.UnknownId) × RefusedOnce old new };

    fn commit_transaction(
        &mut self,
        txn_id: &TransactionId,
    ) -> Result<Result<Echoes, TransactionError>, CommitFault> {
        count_one(&mut self.refusals);
        Ok(Err(TransactionError::UnknownId))
    }

    fn rollback_transaction(
        &mut self,
        txn_id: &TransactionId,
    ) -> Result<Accepted, TransactionError> {
        count_one(&mut self.refusals);
        Err(TransactionError::UnknownId)
    }
}
