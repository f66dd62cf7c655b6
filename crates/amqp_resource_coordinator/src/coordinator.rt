//! The coordinator: it hears control messages and asks the session.

ghost use Rattle.std.specs.Prelude.{◌≡◌, ◌<◌, cond, true, []};
ghost use Rattle.indexmap.specs.IndexSet.{spare};
ghost use Rattle.amqp_txn_types.specs.declared.id.TransactionId.{TransactionId};
ghost use Rattle.amqp_txn_types.specs.Ids.{same_id};
ghost use Rattle.amqp_txn_codec.specs.Discharges.{is_rollback};
ghost use Rattle.amqp_resource_coordinator.specs.Held.{AfterDeclare, AfterDischarge, is_held};
ghost use Rattle.amqp_resource_coordinator.specs.Declare.{Allocation, AnswersDeclare};
ghost use Rattle.amqp_resource_coordinator.specs.Discharge.{AnswersByKind, AnswersDischarge, Commit, Rollback, discharged_by};
ghost use Rattle.amqp_resource_coordinator.specs.Delivery.{AnswersDelivery};

use crate::errors::{CoordinatorError, DischargeError};
use crate::outcomes::CoordinatorReply;
use amqp_below_ids::{Drawn, IdSource};
use amqp_below_layer::{Echoes, Tells};
use amqp_below_sessions::{HandleDeclare, HandleDischarge};
use amqp_txn_codec::{ControlMessageBody, Declare, Discharge, rolls_back};
use amqp_txn_types::{TransactionError, TransactionId};
use indexmap::IndexSet;
use std::alloc::Global;
use std::marker::Model;

/// A coordinator: the ids that were declared to it and that it didn't discharge since.
///
/// Sections 4.2 (declaring) and 4.3 (discharging) of the standard. It keeps no frames: the session
/// does. An id stays held until a discharge of it is Ok or answered with `Rollback`, so also where
/// the session has ended it by itself; a later discharge is then answered by the session.
#[derive(Drop)]
pub struct TxnCoordinator {
    held: IndexSet<TransactionId>,
    alloc: Global,
}

impl Model for TxnCoordinator {
    ghost use Rattle.std.specs.Prelude.{List};
    ghost use Rattle.amqp_txn_types.specs.declared.id.TransactionId.{TransactionId};

    ghost Value = { List TransactionId };

    ghost view = { λ c. c.held.keys };
}

impl TxnCoordinator {
    /// A coordinator that holds no id. It takes no memory; later growth takes it from `alloc`.
    pub fn new(alloc: Global) -> Self
        ensures { result ≡ [] }
    {
        TxnCoordinator {
            held: IndexSet::new(alloc),
            alloc,
        }
    }

    /// Whether the id was declared to it and not discharged since.
    pub fn holds(&self, txn_id: &TransactionId) -> bool
        ensures { result ≡ is_held self.now txn_id.now }
    {
        self.held.contains(txn_id)
    }

    /// Declares a transaction: the ids drawn, of which the last is the new one, and is held from
    /// then on. Section 4.5.2 (declare) of the standard.
    ///
    /// Errors: `GlobalIdNotImplemented` exactly where the declare has a global id; else what the
    /// session answers, or `NoMemory` for want of room for the id, which is made before the session
    /// is asked. An error leaves the ids that are held.
    pub fn on_declare<H: HandleDeclare, G: IdSource>(
        &mut self,
        declare: &Declare,
        session: &mut H,
        ids: &mut G,
    ) -> Result<Drawn, CoordinatorError>
        ensures answer { AnswersDeclare declare.now
            (Allocation H.allocate_gives H.told session.old session.new
            (G.next ids.old) (G.next ids.new))
            ((session.new ≡ session.old) × (ids.new ≡ ids.old)) result }
        ensures held { AfterDeclare self.old self.new result }
        ensures start { G.start ids.new ≡ G.start ids.old }
    {
        if declare.global_id.is_some() {
            return Err(CoordinatorError::GlobalIdNotImplemented);
        }
        let Ok(()) = self.held.reserve(1) else {
            return Err(CoordinatorError::NoMemory);
        };
        let drawn = session.allocate_transaction_id(ids)?;
        if let Some(txn_id) = drawn.get(drawn.len() - 1) {
            keep(&mut self.held, *txn_id);
        }
        Ok(drawn)
    }

    /// Discharges a transaction: by a rollback where `fail` is `Some(true)`, else by a commit,
    /// whose answers it gives. Section 4.5.3 (discharge) of the standard.
    ///
    /// Errors: `TransactionError` with `UnknownId` where the id isn't held, and the session isn't
    /// asked then; else what the session answers, `Rollback` where it vetoed the commit. That
    /// error takes the id out, and every other one leaves the ids that are held, this one too.
    pub fn on_discharge<H: HandleDischarge>(
        &mut self,
        discharge: &Discharge,
        session: &mut H,
    ) -> Result<Echoes, CoordinatorError>
        ensures answer { AnswersDischarge (is_held self.old discharge.now.txn_id) discharge.now
            (Commit H.commit_gives H.told session.old session.new discharge.now.txn_id)
            (Rollback H.rollback_gives H.told session.old session.new discharge.now.txn_id)
            (session.new ≡ session.old) result }
        ensures held { AfterDischarge self.old self.new discharge.now.txn_id result }
    {
        if !self.holds(&discharge.txn_id) {
            return Err(CoordinatorError::TransactionError(TransactionError::UnknownId));
        }
        let answer = asked_to_discharge(self.alloc, discharge, session);
        let_go(&mut self.held, &discharge.txn_id, &answer);
        Ok(answer?)
    }

    /// Hears a control message: a declare or a discharge.
    ///
    /// Section 4.5 (coordination) of the standard. Errors are those of
    /// [`TxnCoordinator::on_declare`] or of [`TxnCoordinator::on_discharge`], by the message.
    pub fn on_delivery<H: HandleDeclare + HandleDischarge, G: IdSource>(
        &mut self,
        body: &ControlMessageBody,
        session: &mut H,
        ids: &mut G,
    ) -> Result<CoordinatorReply, CoordinatorError>
        ensures answer { AnswersDelivery body.now
            (λ declare answer. AnswersDeclare declare
            (Allocation ⟦<H as HandleDeclare>⟧.allocate_gives ⟦<H as Tells>⟧.told
            session.old session.new (G.next ids.old) (G.next ids.new))
            ((session.new ≡ session.old) × (ids.new ≡ ids.old)) answer
            × AfterDeclare self.old self.new answer)
            (λ discharge answer. AnswersDischarge (is_held self.old discharge.txn_id) discharge
            (Commit ⟦<H as HandleDischarge>⟧.commit_gives ⟦<H as Tells>⟧.told
            session.old session.new discharge.txn_id)
            (Rollback ⟦<H as HandleDischarge>⟧.rollback_gives ⟦<H as Tells>⟧.told
            session.old session.new discharge.txn_id)
            (session.new ≡ session.old) answer
            × AfterDischarge self.old self.new discharge.txn_id answer
            × (ids.new ≡ ids.old)) result }
        ensures start { G.start ids.new ≡ G.start ids.old }
    {
        match body {
            ControlMessageBody::Declare(declare) => {
                let drawn = self.on_declare(declare, session, ids)?;
                Ok(CoordinatorReply::Declared(drawn))
            }
            ControlMessageBody::Discharge(discharge) => {
                let echoes = self.on_discharge(discharge, session)?;
                Ok(CoordinatorReply::Discharged(echoes))
            }
        }
    }
}

/// Holds an id, for which there is room.
fn keep(held: &mut IndexSet<TransactionId>, txn_id: TransactionId)
    requires room { 0 < spare held.old }
    ensures { (t : TransactionId) → is_held held.new.keys t ≡ cond (same_id txn_id t) true
        (is_held held.old.keys t) }
{
    match held.insert(txn_id) {
        Ok(_) => {}
        Err(_) => unreachable!(),
    }
}

/// Lets an id go, where the answer to its discharge says that it has ended.
fn let_go(
    held: &mut IndexSet<TransactionId>,
    txn_id: &TransactionId,
    answer: &Result<Echoes, DischargeError>,
)
    ensures { AfterDischarge held.old.keys held.new.keys txn_id.now (discharged_by answer.now) }
{
    match answer {
        Ok(_) | Err(DischargeError::TransactionError(TransactionError::Rollback)) => {
            let _held = held.swap_remove(txn_id);
        }
        Err(_) => {}
    }
}

/// Asks the session to roll back where the discharge says so, else to commit.
fn asked_to_discharge<H: HandleDischarge>(
    alloc: Global,
    discharge: &Discharge,
    session: &mut H,
) -> Result<Echoes, DischargeError>
    ensures { AnswersByKind (is_rollback discharge.now.fail)
        (Commit H.commit_gives H.told session.old session.new discharge.now.txn_id)
        (Rollback H.rollback_gives H.told session.old session.new discharge.now.txn_id)
        (discharged_by result) }
{
    if rolls_back(discharge.fail) {
        session.rollback_transaction(&discharge.txn_id)?;
        return Ok(Echoes::new(alloc));
    }
    match session.commit_transaction(&discharge.txn_id) {
        Ok(Ok(echoes)) => Ok(echoes),
        Ok(Err(error)) => Err(DischargeError::TransactionError(error)),
        Err(fault) => Err(DischargeError::Fault(fault)),
    }
}
