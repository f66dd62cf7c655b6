//! Posts and retirements under a transaction.

use crate::transaction_tests::values::{end, id, pending, same, wire};
use amqp_controller_calls::TransactionBase;
use amqp_controller_posting::{
    DeliveryFut, FromDeliveryFailure, FromDeliveryState, PostError, PostResult, TransactionPosting,
    TransactionRetirement,
};
use amqp_links::{
    DeliveryInfo, DispositionError, LinkStateError, Progress, Sendable, WireReceiver, WireSender,
};
use amqp_test_values::leak;
use amqp_txn_types::{
    Binary, DeliveryState, Modified, Outcome, Payload, Role, SenderSettleMode, SessionStopReason,
    Token, TransactionId, TransactionalState,
};
use std::process::Abort;

/// A transaction that is only an id.
#[derive(Drop)]
struct Named(TransactionId);

impl TransactionBase for Named {
    ghost id = { λ t. t.0 };

    fn txn_id(&self) -> &TransactionId {
        &self.0
    }
}

impl TransactionPosting for Named {}

impl TransactionRetirement for Named {
    type RetireError = DispositionError;
}

/// The transaction 010203.
fn transaction() -> Named {
    Named(id())
}

fn sendable(settled: Option<bool>) -> Sendable {
    Sendable {
        payload: Payload::new(),
        message_format: 0,
        settled,
    }
}

/// A post that was put.
fn posted<R: Abort>(rt: &R, sender: &mut WireSender, settled: Option<bool>) -> DeliveryFut {
    let post = transaction().post(sender, sendable(settled));
    post.expect(rt, "an Ok")
}

#[test]
fn messages_are_posted(rt: HostRuntime) {
    let mut sender = wire(&rt, &[]);
    let message = sendable(None);
    leak(posted(&rt, &mut sender, None));
    let post = transaction().post_batchable(&mut sender, sendable(None));
    leak(post.expect(&rt, "an Ok"));
    let post = transaction().post_ref(&mut sender, &message);
    leak(post.expect(&rt, "an Ok"));
    let post = transaction().post_batchable_ref(&mut sender, &message);
    leak(post.expect(&rt, "an Ok"));
    assert!(rt; sender.put().len() == 4);
    leak(message);
    leak(sender);
}

/// The answer to a post under another transaction.
fn released() -> DeliveryState {
    DeliveryState::TransactionalState(TransactionalState {
        txn_id: TransactionId::from([7; 16]),
        outcome: Some(Outcome::Released),
    })
}

#[test]
fn a_post_is_answered(rt: HostRuntime) {
    let mut sender = wire(&rt, &[]);
    let post = posted(&rt, &mut sender, None);
    let post = pending(&rt, post.poll(&mut sender));
    assert!(rt; sender.answer(Token(0), Ok(Some(released()))));
    let want = Progress::Ready(Ok(Outcome::Released));
    assert!(rt; same(post.poll(&mut sender), want));
    leak(sender);
}

/// The answer was lost with the link, which the peer closed.
#[test]
fn a_post_whose_link_is_closed(rt: HostRuntime) {
    let mut sender = wire(&rt, &[]);
    let post = posted(&rt, &mut sender, None);
    assert!(rt; sender.answer(Token(0), Err(LinkStateError::RemoteClosed)));
    let fault = PostError::LinkStateError(LinkStateError::RemoteClosed);
    assert!(rt; same(post.poll(&mut sender), Progress::Ready(Err(fault))));
    leak(sender);
}

/// The link's third call fails at the second poll: each poll looks once.
#[test]
fn each_poll_of_a_post_looks_once(rt: HostRuntime) {
    let mut sender = wire(&rt, &[3]);
    let post = posted(&rt, &mut sender, None);
    let post = pending(&rt, post.poll(&mut sender));
    let fault = PostError::LinkStateError(LinkStateError::IllegalState);
    assert!(rt; same(post.poll(&mut sender), Progress::Ready(Err(fault))));
    leak(sender);
}

#[test]
fn a_post_that_was_settled_is_accepted(rt: HostRuntime) {
    let mut sender = wire(&rt, &[]);
    let post = posted(&rt, &mut sender, Some(true));
    let want = Progress::Ready(Ok(Outcome::Accepted));
    assert!(rt; same(post.poll(&mut sender), want));
    leak(sender);
}

/// An outcome of each kind is put.
fn retires<R: Abort>(rt: &R, recver: &mut WireReceiver, info: &DeliveryInfo) {
    let modified = Modified {
        delivery_failed: None,
        undeliverable_here: None,
        message_annotations: None,
    };
    transaction().accept(recver, info).expect(rt, "an Ok");
    transaction().reject(recver, info, None).expect(rt, "an Ok");
    transaction().release(recver, info).expect(rt, "an Ok");
    transaction()
        .modify(recver, info, modified)
        .expect(rt, "an Ok");
    assert!(rt; recver.put().len() == 4);
}

#[test]
fn deliveries_are_retired(rt: HostRuntime) {
    let info = DeliveryInfo {
        delivery_id: 7,
        delivery_tag: Binary::from_slice(rt.alloc(), b"\x07").expect(&rt, "an Ok"),
        rcv_settle_mode: None,
    };
    let end = end(&rt, Role::Receiver, SenderSettleMode::Mixed);
    let mut recver = WireReceiver::new(rt.alloc(), end);
    retires(&rt, &mut recver, &info);
    leak(recver);
    leak(info);
}

/// Whether a result is that error.
fn is_error(found: PostResult, want: PostError) -> bool {
    same(found, Err(want))
}

#[test]
fn results_that_are_no_outcome(rt: HostRuntime) {
    let lost = PostError::LinkStateError(LinkStateError::IllegalState);
    assert!(rt; is_error(PostResult::from_lost_answer(), lost));
    let ended = SessionStopReason::Ended;
    let stopped = PostError::LinkStateError(LinkStateError::SessionStopped(ended));
    let found = PostResult::from_session_stop_reason(SessionStopReason::Ended);
    assert!(rt; is_error(found, stopped));
    assert!(rt; is_error(PostResult::from_none(), PostError::IllegalDeliveryState));
    let found = PostResult::from_delivery_state(DeliveryState::Accepted);
    assert!(rt; is_error(found, PostError::IllegalDeliveryState));
}
