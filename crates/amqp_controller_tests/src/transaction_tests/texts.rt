//! The texts of errors, and the names under which one error becomes another.

use crate::transaction_tests::values::same;
use amqp_below_sessions::SenderAttachError;
use amqp_controller_calls::ControllerSendError;
use amqp_controller_posting::PostError;
use amqp_controller_transactions::{OwnedDeclareError, OwnedDischargeError};
use amqp_links::{
    DetachError, IllegalLinkStateError, LinkStateError, MessageSizeExceeded, SendError,
};
use amqp_test_values::leak;
use amqp_txn_types::Rejected;
use std::fmt::Display;
use std::process::Abort;

/// Each error of the table has the text beside it.
fn assert_texts<E: Display, R: Abort + AllocGlobal>(rt: &R, table: &[(E, &str)]) {
    for (error, want) in table.iter() {
        let text = format!(in rt.alloc(); "{error}").expect(rt, "an Ok");
        assert!(rt; text.as_str() == *want, "the text is {text}");
        leak(text);
    }
}

/// A message of two octets on a link that takes one.
fn too_large() -> MessageSizeExceeded {
    MessageSizeExceeded {
        size: 2,
        max_size: 1,
    }
}

#[test]
fn texts_of_errors_of_control_messages(rt: HostRuntime) {
    let table = [
        (
            ControllerSendError::LinkStateError(LinkStateError::RemoteClosed),
            "the remote link closed",
        ),
        (
            ControllerSendError::Detached(DetachError::DetachedByRemote),
            "the link was detached: the remote link detached",
        ),
        (
            ControllerSendError::NonTerminalDeliveryState,
            "a delivery state that is not terminal came in place of an outcome",
        ),
        (
            ControllerSendError::IllegalDeliveryState,
            "a delivery state came that the message cannot have",
        ),
        (
            ControllerSendError::MessageSizeExceeded(too_large()),
            "the message has 2 octets, and the link takes at most 1",
        ),
        (
            ControllerSendError::MessageEncodeError,
            "the message cannot be encoded",
        ),
        (
            ControllerSendError::Rejected(Rejected { error: None }),
            "the coordinator rejected the message: Rejected { error: None }",
        ),
        (ControllerSendError::NoMemory, "out of memory"),
    ];
    assert_texts(&rt, table.as_slice());
    leak(table);
}

#[test]
fn texts_of_errors_of_posts(rt: HostRuntime) {
    let table = [
        (
            PostError::LinkStateError(LinkStateError::RemoteClosed),
            "the remote link closed",
        ),
        (
            PostError::Detached(DetachError::DetachedByRemote),
            "the link was detached: the remote link detached",
        ),
        (
            PostError::NonTerminalDeliveryState,
            "a delivery state that is not terminal came in place of an outcome",
        ),
        (
            PostError::IllegalDeliveryState,
            "a delivery state came that the post cannot have",
        ),
        (
            PostError::MessageSizeExceeded(too_large()),
            "the message has 2 octets, and the link takes at most 1",
        ),
        (
            PostError::MessageEncodeError,
            "the message cannot be encoded",
        ),
        (PostError::NoMemory, "out of memory"),
    ];
    assert_texts(&rt, table.as_slice());
    leak(table);
}

#[test]
fn texts_of_errors_of_owned_transactions(rt: HostRuntime) {
    let declares = [
        (
            OwnedDeclareError::AttachError(SenderAttachError::NoMemory),
            "the control link is not attached: out of memory",
        ),
        (
            OwnedDeclareError::ControllerSendError(ControllerSendError::NoMemory),
            "the transaction is not declared: out of memory",
        ),
    ];
    assert_texts(&rt, declares.as_slice());
    leak(declares);
    let discharges = [
        (
            OwnedDischargeError::ControllerSendError(ControllerSendError::NoMemory),
            "the transaction is not discharged: out of memory",
        ),
        (
            OwnedDischargeError::DetachError(DetachError::DetachedByRemote),
            "the control link is not closed: the remote link detached",
        ),
    ];
    assert_texts(&rt, discharges.as_slice());
    leak(discharges);
}

/// Each error of a link is named as it must be where control messages are sent.
fn names_of_control<R: Abort>(rt: &R) {
    let found = ControllerSendError::from(SendError::MessageEncodeError);
    assert!(rt; same(found, ControllerSendError::MessageEncodeError));
    let found = ControllerSendError::from(LinkStateError::RemoteClosed);
    let want = ControllerSendError::LinkStateError(LinkStateError::RemoteClosed);
    assert!(rt; same(found, want));
    let found = ControllerSendError::from(IllegalLinkStateError::IllegalState);
    let want = ControllerSendError::LinkStateError(LinkStateError::IllegalState);
    assert!(rt; same(found, want));
}

/// Each error of a link is named as it must be where messages are posted.
fn names_of_posts<R: Abort>(rt: &R) {
    let found = PostError::from(SendError::MessageEncodeError);
    assert!(rt; same(found, PostError::MessageEncodeError));
    let found = PostError::from(DetachError::ClosedByRemote);
    let want = PostError::Detached(DetachError::ClosedByRemote);
    assert!(rt; same(found, want));
    let found = PostError::from(IllegalLinkStateError::IllegalState);
    let want = PostError::LinkStateError(LinkStateError::IllegalState);
    assert!(rt; same(found, want));
}

#[test]
fn faults_of_a_link_by_name(rt: HostRuntime) {
    names_of_control(&rt);
    names_of_posts(&rt);
}
