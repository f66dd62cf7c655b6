//! The log of the work is closed up once more looks are owed than frames are kept.

use crate::session_tests::{answer_of, begin_transaction, post};
use amqp_below_layer::{LayerBelow, OpenSession};
use amqp_below_sessions::{HandleDeclare, HandleDischarge};
use amqp_resource_session::*;
use amqp_test_values::leak;
use amqp_txn_types::TransactionId;

/// Makes so many posts under the id.
fn make_posts<S: LayerBelow>(
    session: &mut TxnSession<S>,
    id: TransactionId,
    count: u8,
    ids: &mut CountIds,
) {
    for _turn in 0..count {
        let _word = answer_of(session, post(true, id), ids);
    }
}

#[test]
fn what_is_owed_is_never_more_than_what_is_kept(rt: HostRuntime) {
    let alloc = rt.alloc();
    let mut ids = CountIds::new();
    let mut session = TxnSession::new(alloc, OpenSession::new(alloc));
    begin_transaction(&rt, alloc, &mut session, &mut ids);
    leak(session.allocate_transaction_id(&mut ids));
    make_posts(&mut session, numbered_id(1), 2, &mut ids);
    make_posts(&mut session, numbered_id(2), 3, &mut ids);
    let before = session.owed();
    let _word = answer_of(&mut session, Step::LinkEnd { link: 0 }, &mut ids);
    let two_taken = session.owed();
    leak(session.rollback_transaction(&numbered_id(2)));
    let all_taken = session.owed();
    leak(session);
    assert!(rt; before == 0);
    assert!(rt; two_taken == 2);
    assert!(rt; all_taken == 0);
}
