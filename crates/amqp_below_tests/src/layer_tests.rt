//! What no clause says: that the calls succeed where there is memory, and the texts of errors.

use amqp_below_layer::*;
use amqp_test_values::{detach, gives, judges, leak, not_allowed, other_text, takes_work};
use amqp_txn_types::{ConnectionStopReason, Frame, Frames, TryClone};

#[test]
fn an_open_session_takes_everything(rt: HostRuntime) {
    let mut below = OpenSession::new(rt.alloc());
    let answers = Answers {
        given: Frames::new(rt.alloc()),
        window: None,
    };
    assert!(rt; gives(take_frame(&mut below, Frame::Detach(detach(3))), answers));
    leak(below);
}

#[test]
fn an_open_session_accepts_everything(rt: HostRuntime) {
    let alloc = rt.alloc();
    let mut below = OpenSession::new(alloc);
    assert!(rt; judges(alloc, &mut below, 3, Verdict::Accept));
    assert!(rt; takes_work(alloc, &mut below, 3));
    leak(below);
}

#[test]
fn errors_have_their_texts(rt: HostRuntime) {
    let table = [
        (
            SessionInnerError::UnattachedHandle,
            "the handle is not attached",
        ),
        (
            SessionInnerError::RemoteAttachingLinkNameNotFound,
            "no link of that name is known",
        ),
        (SessionInnerError::HandleInUse, "the handle is in use"),
        (
            SessionInnerError::IllegalState,
            "the state does not allow it",
        ),
        (
            SessionInnerError::ConnectionStopped(ConnectionStopReason::Closed),
            "the connection stopped: Closed",
        ),
        (
            SessionInnerError::TransferFrameToSender,
            "found a transfer frame to a sender",
        ),
        (SessionInnerError::RemoteEnded, "the remote session ended"),
        (
            SessionInnerError::RemoteEndedWithError(not_allowed()),
            "the remote session ended with an error: \
             Error { condition: AmqpError(NotAllowed), description: None, info: None }",
        ),
        (
            SessionInnerError::UnknownTxnId,
            "the transaction id is not known",
        ),
        (SessionInnerError::NoMemory, "out of memory"),
    ];
    let other = other_text(rt.alloc(), &table);
    leak(table);
    assert!(rt; other == Ok(None));
}

#[test]
fn errors_are_copied(rt: HostRuntime) {
    let ended = SessionInnerError::RemoteEndedWithError(not_allowed());
    assert!(rt; gives(ended.try_clone(), ended));
    let stopped = SessionInnerError::ConnectionStopped(ConnectionStopReason::Closed);
    assert!(rt; gives(stopped.try_clone(), stopped));
}
