//! What no clause says: that the calls of an acceptor and a recorder over a listener succeed.

use crate::listener_tests::{close, gives_frames, is_closed, is_next, listener, stop};
use amqp_accept_links::{AcceptorAttachError, LinkAcceptor, LinkEndpoint, SessionHandle};
use amqp_below_layer::{LayerBelow, Verdict};
use amqp_below_recorder::Recorder;
use amqp_below_sessions::ListenerSessionEndpoint;
use amqp_links::Poll;
use amqp_test_values::{judges, leak, sender_attach, takes_work};
use amqp_txn_types::{ConnectionStopReason, Frames, SessionStopReason, Text};
use std::alloc::Global;
use std::process::Abort;

/// What accepting the next link answers.
type Accepted = Poll<Result<(LinkEndpoint, Frames), AcceptorAttachError>>;

/// The peer attaches the link "a": whether that is Ok, without frames.
fn hears_attach<S: LayerBelow>(rt: &impl Abort, alloc: Global, session: &mut S) -> bool {
    let name = Text::from_str(alloc, "a").expect(rt, "an Ok");
    gives_frames(session.on_incoming_attach(sender_attach(name, 5, None)), 0)
}

/// Accepts the next link.
fn accept<E: ListenerSessionEndpoint>(alloc: Global, session: &mut E) -> Accepted {
    let acceptor = LinkAcceptor::new();
    let mut handle = SessionHandle::new(session);
    let accepted = acceptor.accept(alloc, &mut handle);
    leak(acceptor);
    accepted
}

/// Whether no link waits, and one may still come.
fn is_pending(accepted: Accepted) -> bool {
    let pending = matches!(&accepted, Poll::Pending);
    leak(accepted);
    pending
}

/// Whether the session had stopped for that reason.
fn is_stopped(accepted: Accepted, reason: SessionStopReason) -> bool {
    let stopped = match &accepted {
        Poll::Ready(Err(AcceptorAttachError::SessionStopped(found))) => *found == reason,
        _ => false,
    };
    leak(accepted);
    leak(reason);
    stopped
}

/// Whether a local receiver was made, with so many frames.
fn is_receiver(accepted: Accepted, count: usize) -> bool {
    let is_one = match &accepted {
        Poll::Ready(Ok((LinkEndpoint::Receiver(_), frames))) => frames.len() == count,
        _ => false,
    };
    leak(accepted);
    is_one
}

#[test]
fn an_open_empty_queue_is_pending(rt: HostRuntime) {
    let alloc = rt.alloc();
    let mut listener = listener(alloc);
    assert!(rt; is_pending(accept(alloc, &mut listener)));
    leak(listener);
}

#[test]
fn a_closed_empty_queue_without_a_reason_has_ended(rt: HostRuntime) {
    let alloc = rt.alloc();
    let mut listener = listener(alloc);
    close(&mut listener);
    assert!(rt; is_stopped(accept(alloc, &mut listener), SessionStopReason::Ended));
    leak(listener);
}

#[test]
fn a_closed_empty_queue_tells_the_reason_that_is_kept(rt: HostRuntime) {
    let alloc = rt.alloc();
    let mut listener = listener(alloc);
    close(&mut listener);
    let closed = ConnectionStopReason::Closed;
    stop(&mut listener, SessionStopReason::ConnectionStopped(closed));
    let accepted = accept(alloc, &mut listener);
    let closed = ConnectionStopReason::Closed;
    assert!(rt; is_stopped(accepted, SessionStopReason::ConnectionStopped(closed)));
    leak(listener);
}

#[test]
fn an_attach_that_waits_is_accepted(rt: HostRuntime) {
    let alloc = rt.alloc();
    let mut listener = listener(alloc);
    assert!(rt; hears_attach(&rt, alloc, &mut listener));
    assert!(rt; is_receiver(accept(alloc, &mut listener), 2));
    assert!(rt; is_pending(accept(alloc, &mut listener)));
    leak(listener);
}

#[test]
fn a_recorder_gives_the_attaches_of_its_listener(rt: HostRuntime) {
    let alloc = rt.alloc();
    let mut recorder = Recorder::new(alloc, listener(alloc));
    assert!(rt; hears_attach(&rt, alloc, &mut recorder));
    assert!(rt; is_next(&mut recorder, "a"));
    assert!(rt; !is_next(&mut recorder, "a"));
    assert!(rt; !is_closed(&recorder));
    leak(recorder);
}

#[test]
fn a_queue_that_is_closed_through_a_recorder_tells_the_stop(rt: HostRuntime) {
    let alloc = rt.alloc();
    let mut recorder = Recorder::new(alloc, listener(alloc));
    assert!(rt; hears_attach(&rt, alloc, &mut recorder));
    close(&mut recorder);
    assert!(rt; is_receiver(accept(alloc, &mut recorder), 2));
    assert!(rt; is_stopped(accept(alloc, &mut recorder), SessionStopReason::Ended));
    leak(recorder);
}

#[test]
fn a_transfer_that_is_dropped_by_itself_is_vetoed(rt: HostRuntime) {
    let alloc = rt.alloc();
    let mut listener = listener(alloc);
    assert!(rt; takes_work(alloc, &mut listener, 5));
    assert!(rt; judges(alloc, &mut listener, 5, Verdict::Veto));
    leak(listener);
}

#[test]
fn a_listener_takes_what_it_accepted(rt: HostRuntime) {
    let alloc = rt.alloc();
    let mut listener = listener(alloc);
    assert!(rt; hears_attach(&rt, alloc, &mut listener));
    assert!(rt; is_receiver(accept(alloc, &mut listener), 2));
    assert!(rt; judges(alloc, &mut listener, 5, Verdict::Accept));
    assert!(rt; takes_work(alloc, &mut listener, 5));
    leak(listener);
}

#[test]
fn a_recorder_keeps_what_its_listener_vetoed(rt: HostRuntime) {
    let alloc = rt.alloc();
    let mut recorder = Recorder::new(alloc, listener(alloc));
    assert!(rt; judges(alloc, &mut recorder, 5, Verdict::Veto));
    assert!(rt; recorder.vetoed().len() == 1);
    leak(recorder);
}
