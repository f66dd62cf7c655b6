//! What no clause says: that the calls succeed where there is memory, and printed texts.

use amqp_below_ids::{Drawn, IdSource, ListIds};
use amqp_below_layer::{Answers, Echoes, SessionInnerError, Tells};
use amqp_below_sessions::{AllocTxnIdError, CommitFault, HandleDeclare, HandleDischarge};
use amqp_resource_coordinator::*;
use amqp_test_values::{leak, other_text, same, transfer};
use amqp_txn_codec::{ControlMessageBody, Declare, Discharge};
use amqp_txn_types::{
    Accepted, Declared, DeliveryState, Disposition, Frames, NoMemory, Payload, TransactionError,
    TransactionId, Transfer,
};
use std::alloc::Global;
use std::process::Abort;

/// A session that allocates whatever is drawn first, and accepts each discharge: a commit with one
/// answer, so that it shows which of the two was asked; or it rolls each commit back instead.
#[derive(Drop)]
struct Willing {
    alloc: Global,
    refusals: u64,
    vetoes: bool,
}

/// Such a session, which accepts each commit.
fn accepting_all(alloc: Global) -> Willing {
    Willing {
        alloc,
        refusals: 0,
        vetoes: false,
    }
}

/// Such a session, which accepts no commit.
fn accepting_none(alloc: Global) -> Willing {
    Willing {
        alloc,
        refusals: 0,
        vetoes: true,
    }
}

impl Tells for Willing {
    ghost use Rattle.amqp_below_layer.specs.Told.{open_told};

    ghost told = { λ session. record open_told { refusals = session.refusals } };
}

impl HandleDeclare for Willing {
    ghost allocate_gives = { λ old new before after result. Unit {0} };

    fn allocate_transaction_id<G: IdSource>(
        &mut self,
        ids: &mut G,
    ) -> Result<Drawn, AllocTxnIdError> {
        let mut drawn = Drawn::new(self.alloc);
        let Ok(()) = drawn.make_room() else {
            self.refusals = self.refusals.saturating_add(1);
            return Err(AllocTxnIdError::NoMemory);
        };
        drawn.push(ids.draw());
        Ok(drawn)
    }
}

impl HandleDischarge for Willing {
    ghost commit_gives = { λ old new id result. Unit {0} };

    ghost rollback_gives = { λ old new id result. Unit {0} };

    fn commit_transaction(
        &mut self,
        txn_id: &TransactionId,
    ) -> Result<Result<Echoes, TransactionError>, CommitFault> {
        if self.vetoes {
            self.refusals = self.refusals.saturating_add(1);
            return Ok(Err(TransactionError::Rollback));
        }
        let mut echoes = Echoes::new(self.alloc);
        let answers = Answers {
            given: Frames::new(self.alloc),
            window: None,
        };
        match echoes.push(answers) {
            Ok(()) => Ok(Ok(echoes)),
            Err(unkept) => {
                leak(unkept);
                self.refusals = self.refusals.saturating_add(1);
                Err(CommitFault::NoMemory)
            }
        }
    }

    fn rollback_transaction(
        &mut self,
        txn_id: &TransactionId,
    ) -> Result<Accepted, TransactionError> {
        Ok(Accepted)
    }
}

/// How many ids were drawn, or how many echoes there are; 100 for an error.
fn size(answer: Result<CoordinatorReply, CoordinatorError>) -> usize {
    let count = match &answer {
        Ok(CoordinatorReply::Declared(drawn)) => drawn.len(),
        Ok(CoordinatorReply::Discharged(echoes)) => echoes.len(),
        Err(_) => 100,
    };
    leak(answer);
    count
}

fn discharge(txn_id: TransactionId, fail: Option<bool>) -> ControlMessageBody {
    ControlMessageBody::Discharge(Discharge { txn_id, fail })
}

fn declare(global_id: Option<TransactionId>) -> ControlMessageBody {
    ControlMessageBody::Declare(Declare { global_id })
}

#[test]
fn a_coordinator_holds_what_it_declared(rt: HostRuntime) {
    let alloc = rt.alloc();
    let id = TransactionId::new(b"\x01").expect(&rt, "an Ok");
    let mut ids = ListIds::new(alloc, &[id]).expect(&rt, "an Ok");
    let mut session = accepting_all(alloc);
    let mut coordinator = TxnCoordinator::new(alloc);
    let unheld = size(coordinator.on_delivery(&discharge(id, None), &mut session, &mut ids));
    assert!(rt; unheld == 100);
    let global = size(coordinator.on_delivery(&declare(Some(id)), &mut session, &mut ids));
    assert!(rt; global == 100);
    assert!(rt; !coordinator.holds(&id));
    let declared = size(coordinator.on_delivery(&declare(None), &mut session, &mut ids));
    assert!(rt; declared == 1);
    assert!(rt; coordinator.holds(&id));
    let committed = size(coordinator.on_delivery(&discharge(id, None), &mut session, &mut ids));
    assert!(rt; committed == 1);
    assert!(rt; !coordinator.holds(&id));
    leak(coordinator);
    leak(session);
    leak(ids);
}

#[test]
fn a_vetoed_id_is_held_no_more(rt: HostRuntime) {
    let alloc = rt.alloc();
    let id = TransactionId::new(b"\x01").expect(&rt, "an Ok");
    let mut ids = ListIds::new(alloc, &[id]).expect(&rt, "an Ok");
    let mut session = accepting_none(alloc);
    let mut coordinator = TxnCoordinator::new(alloc);
    let declared = size(coordinator.on_delivery(&declare(None), &mut session, &mut ids));
    assert!(rt; declared == 1);
    let committed = size(coordinator.on_delivery(&discharge(id, None), &mut session, &mut ids));
    assert!(rt; committed == 100);
    assert!(rt; !coordinator.holds(&id));
    leak(coordinator);
    leak(session);
    leak(ids);
}

#[test]
fn a_rollback_has_no_echoes(rt: HostRuntime) {
    let alloc = rt.alloc();
    let id = TransactionId::new(b"\x01").expect(&rt, "an Ok");
    let mut ids = ListIds::new(alloc, &[id]).expect(&rt, "an Ok");
    let mut session = accepting_all(alloc);
    let mut coordinator = TxnCoordinator::new(alloc);
    let declared = size(coordinator.on_delivery(&declare(None), &mut session, &mut ids));
    assert!(rt; declared == 1);
    let rollback = discharge(id, Some(true));
    let rolled_back = size(coordinator.on_delivery(&rollback, &mut session, &mut ids));
    assert!(rt; rolled_back == 0);
    leak(coordinator);
    leak(session);
    leak(ids);
}

fn post(delivery_id: Option<u32>, settled: Option<bool>) -> Transfer {
    let mut post = transfer(1);
    post.delivery_id = delivery_id;
    post.settled = settled;
    post
}

/// The delivery id of the disposition that answers a post; 100 for none, 101 where memory runs out.
fn answered(answer: Result<Option<Disposition>, NoMemory>) -> u32 {
    let first = match &answer {
        Ok(Some(disposition)) => disposition.first,
        Ok(None) => 100,
        Err(_) => 101,
    };
    leak(answer);
    first
}

/// What the post with that delivery id is answered under the id, which is held.
fn answer_of(
    rt: &impl Abort,
    manager: &mut TransactionManager,
    alloc: Global,
    id: TransactionId,
    delivery_id: Option<u32>,
    settled: Option<bool>,
) -> u32 {
    let payload = Payload::from_slice(alloc, b"m").expect(rt, "an Ok");
    let post = post(delivery_id, settled);
    match manager.get_mut(&id) {
        Some(work) => answered(work.on_incoming_post(id, post, payload)),
        None => panic!(rt; "the id is held"),
    }
}

/// How much work a transaction has.
fn count_work(transaction: Option<ResourceTransaction>) -> usize {
    match transaction {
        Some(transaction) => count_taken(transaction),
        None => 100,
    }
}

/// How much work can be taken out of it, 10 at most.
fn count_taken(mut transaction: ResourceTransaction) -> usize {
    for count in 0..10usize {
        if !is_some(transaction.take_first()) {
            leak(transaction);
            return count;
        }
    }
    leak(transaction);
    10
}

/// Whether there is one.
fn is_some<T>(value: Option<T>) -> bool {
    let some = value.is_some();
    leak(value);
    some
}

#[test]
fn a_manager_keeps_work(rt: HostRuntime) {
    let alloc = rt.alloc();
    let id = TransactionId::new(b"\x01").expect(&rt, "an Ok");
    let mut manager = TransactionManager::new(alloc);
    manager.insert(id).expect(&rt, "an Ok");
    assert!(rt; answer_of(&rt, &mut manager, alloc, id, Some(7), None) == 7);
    assert!(rt; answer_of(&rt, &mut manager, alloc, id, None, None) == 100);
    assert!(rt; count_work(manager.remove(&id)) == 2);
    assert!(rt; count_work(manager.remove(&id)) == 100);
    leak(manager);
}

fn refused_frame() -> CommitFault {
    CommitFault::Refused {
        error: SessionInnerError::IllegalState,
        handed: 1,
    }
}

#[test]
fn each_error_has_its_text(rt: HostRuntime) {
    let rows = [
        (
            CoordinatorError::GlobalIdNotImplemented,
            "global transaction ids are not implemented",
        ),
        (
            CoordinatorError::from(AllocTxnIdError::NotImplemented),
            "the session allocates no transaction ids",
        ),
        (
            CoordinatorError::IdsRepeat(Drawn::new(rt.alloc())),
            "no unused transaction id was drawn",
        ),
        (
            CoordinatorError::from(DischargeError::from(TransactionError::UnknownId)),
            "the transaction is not discharged: amqp:transaction:unknown-id",
        ),
        (
            CoordinatorError::from(DischargeError::Fault(refused_frame())),
            "the commit failed: the commit was refused below: the state does not allow it",
        ),
        (CoordinatorError::NoMemory, "out of memory"),
    ];
    let other = other_text(rt.alloc(), &rows);
    leak(rows);
    assert!(rt; other == Ok(None));
}

#[test]
fn a_declare_has_its_state(rt: HostRuntime) {
    let txn_id = TransactionId::new(b"\x01").expect(&rt, "an Ok");
    let state = DeliveryState::from(SuccessfulOutcome::Declared(Declared { txn_id }));
    assert!(rt; same(state, DeliveryState::Declared(Declared { txn_id })));
}

#[test]
fn a_second_id_is_held_beside_the_first(rt: HostRuntime) {
    let alloc = rt.alloc();
    let first = TransactionId::new(b"\x01").expect(&rt, "an Ok");
    let second = TransactionId::new(b"\x02").expect(&rt, "an Ok");
    let mut ids = ListIds::new(alloc, &[first, second]).expect(&rt, "an Ok");
    let mut session = accepting_all(alloc);
    let mut coordinator = TxnCoordinator::new(alloc);
    let one = size(coordinator.on_delivery(&declare(None), &mut session, &mut ids));
    let two = size(coordinator.on_delivery(&declare(None), &mut session, &mut ids));
    assert!(rt; one == 1);
    assert!(rt; two == 1);
    assert!(rt; coordinator.holds(&first));
    let committed = size(coordinator.on_delivery(&discharge(first, None), &mut session, &mut ids));
    assert!(rt; committed == 1);
    assert!(rt; !coordinator.holds(&first));
    assert!(rt; coordinator.holds(&second));
    leak(coordinator);
    leak(session);
    leak(ids);
}

/// Adds a transaction, where there is none under the id.
fn add(manager: &mut TransactionManager, id: TransactionId) -> Result<(), NoMemory> {
    if manager.get_mut(&id).is_some() {
        return Ok(());
    }
    manager.insert(id)
}

#[test]
fn a_manager_keeps_the_work_of_each_id(rt: HostRuntime) {
    let alloc = rt.alloc();
    let first = TransactionId::new(b"\x01").expect(&rt, "an Ok");
    let second = TransactionId::new(b"\x02").expect(&rt, "an Ok");
    let mut manager = TransactionManager::new(alloc);
    add(&mut manager, first).expect(&rt, "an Ok");
    add(&mut manager, second).expect(&rt, "an Ok");
    assert!(rt; answer_of(&rt, &mut manager, alloc, second, Some(8), None) == 8);
    assert!(rt; count_work(manager.remove(&first)) == 0);
    assert!(rt; count_work(manager.remove(&second)) == 1);
    leak(manager);
}

#[test]
fn a_post_is_answered_by_whether_it_is_settled(rt: HostRuntime) {
    let alloc = rt.alloc();
    let id = TransactionId::new(b"\x01").expect(&rt, "an Ok");
    let mut manager = TransactionManager::new(alloc);
    manager.insert(id).expect(&rt, "an Ok");
    assert!(rt; answer_of(&rt, &mut manager, alloc, id, Some(7), Some(false)) == 7);
    assert!(rt; answer_of(&rt, &mut manager, alloc, id, Some(7), Some(true)) == 100);
    leak(manager);
}
