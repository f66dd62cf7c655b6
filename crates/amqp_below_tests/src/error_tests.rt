//! The texts of errors.

use amqp_below_ids::Drawn;
use amqp_below_layer::SessionInnerError;
use amqp_below_sessions::*;
use amqp_test_values::{leak, not_allowed, other_text};
use amqp_txn_types::{ConnectionStopReason, SessionStopReason};

#[test]
fn errors_have_their_texts(rt: HostRuntime) {
    let alloc = rt.alloc();
    let unallocated = [
        (
            AllocLinkError::SessionStopped(SessionStopReason::Ended),
            "the session stopped: Ended",
        ),
        (
            AllocLinkError::DuplicatedLinkName,
            "the link name is in use",
        ),
        (AllocLinkError::HandleInUse, "the handle is in use"),
        (AllocLinkError::HandleMaxReached, "no handle is left"),
        (AllocLinkError::NoMemory, "out of memory"),
    ];
    let other = other_text(alloc, &unallocated);
    leak(unallocated);
    assert!(rt; other == Ok(None));
    let unbegun = [
        (
            BeginError::ConnectionStopped(ConnectionStopReason::Closed),
            "the connection stopped: Closed",
        ),
        (BeginError::LocalChannelMaxReached, "no channel is left"),
        (BeginError::RemoteEnded, "the remote session ended"),
        (
            BeginError::RemoteEndedWithError(not_allowed()),
            "the remote session ended with an error: \
             Error { condition: AmqpError(NotAllowed), description: None, info: None }",
        ),
        (BeginError::IllegalState, "the state does not allow it"),
        (BeginError::NoMemory, "out of memory"),
    ];
    let other = other_text(alloc, &unbegun);
    leak(unbegun);
    assert!(rt; other == Ok(None));
    let undrawn = [
        (
            AllocTxnIdError::NotImplemented,
            "the session allocates no transaction ids",
        ),
        (
            AllocTxnIdError::IdsRepeat(Drawn::new(alloc)),
            "no unused transaction id was drawn",
        ),
        (AllocTxnIdError::NoMemory, "out of memory"),
    ];
    let other = other_text(alloc, &undrawn);
    leak(undrawn);
    assert!(rt; other == Ok(None));
    let uncommitted = [
        (CommitFault::NoMemory, "out of memory"),
        (
            CommitFault::Refused {
                error: SessionInnerError::HandleInUse,
                handed: 2,
            },
            "the commit was refused below: the handle is in use",
        ),
    ];
    let other = other_text(alloc, &uncommitted);
    leak(uncommitted);
    assert!(rt; other == Ok(None));
}
