//! The transactional calls of a session.

use amqp_below_ids::{Drawn, IdSource};
use amqp_below_layer::{Echoes, SessionInnerError, Tells};
use amqp_txn_types::{Accepted, TransactionError, TransactionId};
use thiserror::Error as ThisError;

/// Why no transaction id was allocated.
#[derive(Debug, Drop, PartialEq, ThisError)]
pub enum AllocTxnIdError {
    /// The session doesn't do transactions, or has stopped.
    #[error("the session allocates no transaction ids")]
    NotImplemented,
    /// All of the 16 ids drawn, which it carries, are live.
    #[error("no unused transaction id was drawn")]
    IdsRepeat(Drawn),
    /// Out of memory. Nothing was drawn.
    #[error("out of memory")]
    NoMemory,
}

/// Why a commit failed.
#[derive(Debug, Drop, PartialEq, ThisError)]
pub enum CommitFault {
    /// Out of memory of the session itself. The transaction is as it was.
    #[error("out of memory")]
    NoMemory,
    /// The layer below ran out of memory, in its review or for a frame that it had accepted; the
    /// transaction has ended and the session has stopped.
    #[error("the commit was refused below: {error}")]
    Refused {
        /// Why.
        error: SessionInnerError,
        /// How many of the transaction's frames were taken before.
        handed: usize,
    },
}

/// A session that allocates transaction ids. Part 4 of the standard, section 4.2 (declaring).
///
/// An allocation adds to no list. Every Err counts as a refusal: it comes only where the count of
/// refusals rose in the call, or stands at its last value, 2^64 - 1.
pub trait HandleDeclare: Tells {
    ghost use Rattle.std.specs.Prelude.{◌≡◌, ℕ, Result};
    ghost use Rattle.amqp_txn_types.specs.declared.id.TransactionId.{TransactionId};
    ghost use Rattle.amqp_below_ids.specs.Drawn.{DrawnIds};
    ghost use Rattle.amqp_below_layer.specs.Told.{Checks};
    ghost use Rattle.amqp_below_sessions.specs.Transacting.{Allocates};
    ghost use Rattle.amqp_below_sessions.specs.declared.transacting.AllocTxnIdError.{AllocTxnIdError};

    /// What an allocation answers, and what it makes of the session: before, after, the ids that
    /// the source gives before and after, and the answer.
    ghost allocate_gives: { Self → Self → (ℕ → TransactionId) → (ℕ → TransactionId)
        → Result DrawnIds AllocTxnIdError → Type 0 };

    /// Draws ids until one isn't live, at most 16, and makes the last one live. Room is made before
    /// the first draw.
    fn allocate_transaction_id<G: IdSource>(
        &mut self,
        ids: &mut G,
    ) -> Result<Drawn, AllocTxnIdError>
        ensures drew { Allocates (G.next ids.old) (G.next ids.new) result }
        ensures start { G.start ids.new ≡ G.start ids.old }
        ensures told { Checks (Self.told self.old) (Self.told self.new) result }
        ensures gives { allocate_gives self.old self.new (G.next ids.old) (G.next ids.new) result };
}

/// A session that commits and rolls back. Part 4 of the standard, section 4.3 (discharging).
///
/// Neither call adds to a list. Every answer but echoes and `Accepted` counts as a refusal: it
/// comes only where the count of refusals rose in the call, or stands at its last value.
pub trait HandleDischarge: Tells {
    ghost use Rattle.std.specs.Prelude.{List, Result};
    ghost use Rattle.amqp_txn_types.specs.declared.id.TransactionId.{TransactionId};
    ghost use Rattle.amqp_txn_types.specs.declared.small.Accepted.{Accepted};
    ghost use Rattle.amqp_txn_types.specs.declared.small.TransactionError.{TransactionError};
    ghost use Rattle.amqp_txn_types.specs.Counts.{Rose};
    ghost use Rattle.amqp_below_layer.specs.declared.answers.Answers.{Answers};
    ghost use Rattle.amqp_below_layer.specs.Told.{Checks, Steady};
    ghost use Rattle.amqp_below_sessions.specs.declared.transacting.CommitFault.{CommitFault};
    ghost use Rattle.amqp_below_sessions.specs.Transacting.{CommitRefused};

    /// What a commit hands below and answers: the session before and after, the transaction, the
    /// answer.
    ghost commit_gives: { Self → Self → TransactionId
        → Result (Result (List Answers) TransactionError) CommitFault → Type 0 };

    /// What a rollback drops and answers: the session before and after, the transaction, the
    /// answer.
    ghost rollback_gives: { Self → Self → TransactionId → Result Accepted TransactionError → Type 0 };

    /// Ends the transaction and hands its frames below, in the order in which they came, where they
    /// are accepted there. The answers are those of its frames; `UnknownId` where there is no such
    /// transaction, `Rollback` where its frames were vetoed: then it has ended, and none was
    /// handed.
    fn commit_transaction(
        &mut self,
        txn_id: &TransactionId,
    ) -> Result<Result<Echoes, TransactionError>, CommitFault>
        ensures told { Steady (Self.told self.old) (Self.told self.new) }
        ensures cause { CommitRefused result
            (Rose (Self.told self.old).refusals (Self.told self.new).refusals) }
        ensures gives { commit_gives self.old self.new txn_id.now result };

    /// Ends the transaction and drops its frames; `UnknownId` where there is no such transaction.
    /// It takes no memory.
    fn rollback_transaction(&mut self, txn_id: &TransactionId) -> Result<Accepted, TransactionError>
        ensures told { Checks (Self.told self.old) (Self.told self.new) result }
        ensures gives { rollback_gives self.old self.new txn_id.now result };
}
