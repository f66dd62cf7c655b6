//! A recorder over a session that does transactions does them too: each call goes to that one.

use crate::recorder::Recorder;
use amqp_below_ids::{Drawn, IdSource};
use amqp_below_layer::{Echoes, LayerBelow, Tells};
use amqp_below_sessions::{AllocTxnIdError, CommitFault, HandleDeclare, HandleDischarge};
use amqp_txn_types::{Accepted, TransactionError, TransactionId};

impl<S: LayerBelow + HandleDeclare> HandleDeclare for Recorder<S> {
    ghost use Rattle.amqp_below_layer.specs.Told.{Checks};
    ghost use Rattle.amqp_below_recorder.specs.Recording.{Passes};

    ghost allocate_gives = { λ old new before after answer.
        Passes (λ a b. Checks (⟦<S as Tells>⟧.told a) (⟦<S as Tells>⟧.told b) answer)
        (λ a b. S.allocate_gives a b before after answer) old new };

    fn allocate_transaction_id<G: IdSource>(
        &mut self,
        ids: &mut G,
    ) -> Result<Drawn, AllocTxnIdError> {
        self.session.allocate_transaction_id(ids)
    }
}

impl<S: LayerBelow + HandleDischarge> HandleDischarge for Recorder<S> {
    ghost use Rattle.amqp_below_layer.specs.Told.{Checks, Steady};
    ghost use Rattle.amqp_below_recorder.specs.Recording.{Passes};

    ghost commit_gives = { λ old new txn_id answer.
        Passes (λ a b. Steady (⟦<S as Tells>⟧.told a) (⟦<S as Tells>⟧.told b))
        (λ a b. S.commit_gives a b txn_id answer) old new };

    ghost rollback_gives = { λ old new txn_id answer.
        Passes (λ a b. Checks (⟦<S as Tells>⟧.told a) (⟦<S as Tells>⟧.told b) answer)
        (λ a b. S.rollback_gives a b txn_id answer) old new };

    fn commit_transaction(
        &mut self,
        txn_id: &TransactionId,
    ) -> Result<Result<Echoes, TransactionError>, CommitFault> {
        self.session.commit_transaction(txn_id)
    }

    fn rollback_transaction(
        &mut self,
        txn_id: &TransactionId,
    ) -> Result<Accepted, TransactionError> {
        self.session.rollback_transaction(txn_id)
    }
}
