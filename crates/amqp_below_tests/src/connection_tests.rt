//! What no clause says: that the calls succeed where there is memory, and the texts of errors.

use amqp_below_connections::*;
use amqp_below_layer::SessionInnerError;
use amqp_below_sessions::{AllocLinkError, BeginError, ReceiverAttachError, SenderAttachError};
use amqp_links::Poll;
use amqp_test_values::{begin, is_done, leak, other_text, same};
use amqp_txn_types::{ConnectionStopReason, OutgoingChannel, SessionStopReason, TryClone};

fn incoming(channel: u16) -> IncomingSession {
    IncomingSession {
        channel,
        begin: begin(7),
    }
}

#[test]
fn sessions_come_in_order(rt: HostRuntime) {
    let mut connection = MemoryConnection::new(rt.alloc(), 1);
    assert!(rt; same(connection.next_incoming_session(), Poll::Pending));
    assert!(rt; is_done(connection.push_session(incoming(3))));
    assert!(rt; is_done(connection.append_session(incoming(4))));
    assert!(rt;
        same(
            connection.next_incoming_session(),
            Poll::Ready(Some(incoming(3)))
        )
    );
    let second = incoming(4);
    let copy = second.try_clone().expect(&rt, "an Ok");
    leak(second);
    assert!(rt; same(connection.next_incoming_session(), Poll::Ready(Some(copy))));
    connection.set_stop_reason(ConnectionStopReason::Closed);
    assert!(rt; same(connection.next_incoming_session(), Poll::Ready(None)));
}

#[test]
fn channels_are_given_once(rt: HostRuntime) {
    let mut connection = MemoryConnection::new(rt.alloc(), 1);
    assert!(rt; same(connection.allocate_session(), Ok(OutgoingChannel(0))));
    assert!(rt; same(connection.allocate_session(), Ok(OutgoingChannel(1))));
    assert!(rt;
        same(
            connection.allocate_session(),
            Err(AllocSessionError::ChannelMaxReached)
        )
    );
    connection.set_stop_reason(ConnectionStopReason::RemoteClosed);
    let stopped = AllocSessionError::ConnectionStopped(ConnectionStopReason::RemoteClosed);
    assert!(rt; same(connection.allocate_session(), Err(stopped)));
}

#[test]
fn refusals_go_on_by_name(rt: HostRuntime) {
    let max_reached = BeginError::from(AllocSessionError::ChannelMaxReached);
    assert!(rt; same(max_reached, BeginError::LocalChannelMaxReached));
    let closed = ConnectionStopReason::Closed;
    let stopped = BeginError::from(AllocSessionError::ConnectionStopped(closed));
    let wanted = BeginError::ConnectionStopped(ConnectionStopReason::Closed);
    assert!(rt; same(stopped, wanted));
    let in_use = SenderAttachError::from(AllocLinkError::HandleInUse);
    assert!(rt;
        same(
            in_use,
            SenderAttachError::Alloc(AllocLinkError::HandleInUse)
        )
    );
    let lacking = ReceiverAttachError::from(AllocLinkError::NoMemory);
    assert!(rt; same(lacking, ReceiverAttachError::NoMemory));
}

#[test]
fn errors_of_channels_have_their_texts(rt: HostRuntime) {
    let stopped = AllocSessionError::ConnectionStopped(ConnectionStopReason::Closed);
    let table = [
        (AllocSessionError::ChannelMaxReached, "no channel is left"),
        (stopped, "the connection stopped: Closed"),
        (AllocSessionError::NoMemory, "out of memory"),
    ];
    let other = other_text(rt.alloc(), &table);
    leak(table);
    assert!(rt; other == Ok(None));
}

#[test]
fn errors_of_senders_have_their_texts(rt: HostRuntime) {
    let table = [
        (
            SenderAttachError::Alloc(AllocLinkError::HandleMaxReached),
            "the link is not allocated: no handle is left",
        ),
        (
            SenderAttachError::SessionStopped(SessionStopReason::Ended),
            "the session stopped: Ended",
        ),
        (
            SenderAttachError::Session(SessionInnerError::IllegalState),
            "the session refused: the state does not allow it",
        ),
        (SenderAttachError::NoMemory, "out of memory"),
    ];
    let other = other_text(rt.alloc(), &table);
    leak(table);
    assert!(rt; other == Ok(None));
}

#[test]
fn errors_of_receivers_have_their_texts(rt: HostRuntime) {
    let table = [
        (
            ReceiverAttachError::Alloc(AllocLinkError::DuplicatedLinkName),
            "the link is not allocated: the link name is in use",
        ),
        (
            ReceiverAttachError::Session(SessionInnerError::IllegalState),
            "the session refused: the state does not allow it",
        ),
        (
            ReceiverAttachError::CoordinatorIsNotImplemented,
            "the target is of a kind that is not taken here",
        ),
        (ReceiverAttachError::NoMemory, "out of memory"),
    ];
    let other = other_text(rt.alloc(), &table);
    leak(table);
    assert!(rt; other == Ok(None));
}
