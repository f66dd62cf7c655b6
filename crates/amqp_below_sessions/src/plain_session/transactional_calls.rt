//! A plain session does no transactions.

use crate::plain_session::PlainSession;
use crate::transacting::{AllocTxnIdError, CommitFault, HandleDeclare, HandleDischarge};
use amqp_below_ids::{Drawn, IdSource};
use amqp_below_layer::Echoes;
use amqp_txn_types::{Accepted, TransactionError, TransactionId, refuse};

impl HandleDeclare for PlainSession {
    ghost use Rattle.std.specs.Prelude.{◌≡◌, Err};
    ghost use Rattle.amqp_below_sessions.specs.PlainSessions.{refused_once};
    ghost use Rattle.amqp_below_sessions.specs.declared.transacting.AllocTxnIdError.TheVariants as allocations;

    ghost allocate_gives = { λ old new _ _ answer.
        (answer ≡ Err allocations.NotImplemented) × (new ≡ refused_once old) };

    fn allocate_transaction_id<G: IdSource>(
        &mut self,
        ids: &mut G,
    ) -> Result<Drawn, AllocTxnIdError> {
        refuse(&mut self.refusals, AllocTxnIdError::NotImplemented)
    }
}

impl HandleDischarge for PlainSession {
    ghost use Rattle.std.specs.Prelude.{◌≡◌, Ok, Err};
    ghost use Rattle.amqp_below_sessions.specs.PlainSessions.{refused_once};
    ghost use Rattle.amqp_txn_types.specs.declared.small.TransactionError.TheVariants as failures;

    ghost commit_gives = { λ old new _ answer.
        (answer ≡ Ok (Err failures.UnknownId)) × (new ≡ refused_once old) };

    ghost rollback_gives = { λ old new _ answer.
        (answer ≡ Err failures.UnknownId) × (new ≡ refused_once old) };

    fn commit_transaction(
        &mut self,
        txn_id: &TransactionId,
    ) -> Result<Result<Echoes, TransactionError>, CommitFault> {
        Ok(refuse(&mut self.refusals, TransactionError::UnknownId))
    }

    fn rollback_transaction(
        &mut self,
        txn_id: &TransactionId,
    ) -> Result<Accepted, TransactionError> {
        refuse(&mut self.refusals, TransactionError::UnknownId)
    }
}
