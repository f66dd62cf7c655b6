//! The transactional calls of a session. Part 4 of the standard, sections 4.2 (declaring) and 4.3
//! (discharging).
//!
//! An id that they allocate is declared on no link: a control message that discharges it is
//! rejected, and no end of a link aborts it. While one is live the session stands for no record of
//! steps; what a step does then is said by what is kept (`keeps`). The clauses of these calls need
//! no record.

ghost use Rattle.std.specs.Prelude.{Err};
ghost use Rattle.amqp_resource_session.specs.Calls.{StopAfterCommit};

use crate::declare::allocate;
use crate::discharge::{commit_kept, roll_back_kept};
use crate::session::TxnSession;
use amqp_below_ids::{Drawn, IdSource};
use amqp_below_layer::{Echoes, LayerBelow, Tells};
use amqp_below_sessions::{AllocTxnIdError, CommitFault, HandleDeclare, HandleDischarge};
use amqp_resource_record::{StopCode, code_of_fault};
use amqp_txn_types::{Accepted, TransactionError, TransactionId, refuse};
use std::marker::Brand;
use std::sync::ledger::Blank;

/// The code that a session keeps after a commit that failed; `None` where it goes on.
fn stop_after_commit(fault: &CommitFault) -> Option<StopCode>
    ensures { StopAfterCommit (Err fault.now) result }
{
    match fault {
        CommitFault::NoMemory => None,
        CommitFault::Refused { error, .. } => Some(code_of_fault(error)),
    }
}

impl<S: LayerBelow> Tells for TxnSession<S> {
    ghost use Rattle.amqp_resource_session.specs.Session.{own_told};

    ghost told = { own_told S.told };
}

impl<S: LayerBelow> HandleDeclare for TxnSession<S> {
    ghost use Rattle.amqp_resource_session.specs.Calls.{AllocationGives};

    ghost allocate_gives = { λ old new before after result. AllocationGives old new result };

    fn allocate_transaction_id<G: IdSource>(
        &mut self,
        ids: &mut G,
    ) -> Result<Drawn, AllocTxnIdError> {
        if self.stop.is_some() {
            return refuse(&mut self.refusals, AllocTxnIdError::NotImplemented);
        }
        let alloc = self.allocator();
        match allocate(&mut self.held, alloc, ids) {
            Ok(drawn) => Ok(drawn),
            Err(error) => refuse(&mut self.refusals, error),
        }
    }
}

impl<S: LayerBelow> HandleDischarge for TxnSession<S> {
    ghost use Rattle.amqp_resource_session.specs.Calls.{CommitGives, RollbackGives};

    ghost commit_gives = { CommitGives S.told S.sure S.review_gives };

    ghost rollback_gives = { RollbackGives };

    fn commit_transaction(
        &mut self,
        txn_id: &TransactionId,
    ) -> Result<Result<Echoes, TransactionError>, CommitFault> {
        if self.stop.is_some() {
            return Ok(refuse(&mut self.refusals, TransactionError::UnknownId));
        }
        let alloc = self.allocator();
        match commit_kept::<S, Brand>(
            &mut self.held,
            &mut self.below,
            alloc,
            *txn_id,
            Blank::new(1),
        ) {
            Ok(Ok(echoes)) => Ok(Ok(echoes)),
            Ok(Err(error)) => Ok(refuse(&mut self.refusals, error)),
            Err(fault) => {
                self.stop = stop_after_commit(&fault);
                refuse(&mut self.refusals, fault)
            }
        }
    }

    fn rollback_transaction(
        &mut self,
        txn_id: &TransactionId,
    ) -> Result<Accepted, TransactionError> {
        if self.stop.is_some() {
            return refuse(&mut self.refusals, TransactionError::UnknownId);
        }
        match roll_back_kept::<Brand>(&mut self.held, *txn_id, Blank::new(1)) {
            Ok(accepted) => Ok(accepted),
            Err(error) => refuse(&mut self.refusals, error),
        }
    }
}
