//! Runs over plain sessions and listeners, each worked by hand.

use crate::tests::run_over::{A, assert_over};
use amqp_accept_at_once::AcceptingListener;
use amqp_accept_links::{ControlLinkAcceptor, LinkAcceptor};
use amqp_accept_listener::ListenerSession;
use amqp_below_sessions::PlainSession;
use amqp_txn_types::{Begin, Handle, OutgoingChannel, SessionState};
use std::alloc::{Alloc, Global};
use std::process::Abort;

/// A session with no link, of which the handles up to that one may be used.
fn plain_session(alloc: Global, handle_max: Handle) -> PlainSession {
    let begin = Begin {
        remote_channel: None,
        next_outgoing_id: 0,
        incoming_window: 2048,
        outgoing_window: 2048,
        handle_max,
        offered_capabilities: None,
        desired_capabilities: None,
        properties: None,
    };
    PlainSession::new(alloc, OutgoingChannel(0), SessionState::Mapped, begin)
}

#[test]
fn a_plain_session_refuses_an_unattached_handle(rt: HostRuntime) {
    let lines = "attach c 0\nflow -\ntransfer 4 7 true 61\n";
    let text = "attached 0\nok\nstop unattached-handle\nhanded 0\ntaken flow - -\n";
    let below = plain_session(rt.alloc(), Handle(u32::MAX));
    assert_over(&rt, below, &["run", A], lines, (1, text));
}

/// A listener over such a session that accepts links at once.
pub(crate) fn listener_session(
    alloc: Global,
    handle_max: Handle,
) -> AcceptingListener<PlainSession> {
    let control = ControlLinkAcceptor::default();
    let listener = ListenerSession::new(alloc, plain_session(alloc, handle_max), control);
    AcceptingListener::new(alloc, listener, LinkAcceptor::new())
}

/// Runs the program over a listener, and compares its status and its text.
fn assert_listen(
    rt: &(impl Abort + Alloc<A = Global>),
    words: &[&str],
    lines: &str,
    status: u8,
    text: &str,
) {
    let below = listener_session(rt.alloc(), Handle(u32::MAX));
    assert_over(rt, below, words, lines, (status, text));
}

#[test]
fn what_a_listener_lets_pass_is_taken(rt: HostRuntime) {
    let lines = "flow 4 9\ntransfer 4 7 true 61\n";
    let text = "ok\nok\nstop done\nhanded 0\ntaken flow 4 9\ntaken transfer 4 7 true - 61\n";
    assert_listen(&rt, &["listen", A], lines, 0, text);
}

#[test]
fn a_commit_on_an_attached_link_is_handed(rt: HostRuntime) {
    assert_listen(
        &rt,
        &["listen", A],
        "attach c 4\n\
         link q 1 sender\n\
         control 0 00537700533145\n\
         post 00000000000000000000000000000001 1 7 - - 6869\n\
         control 0 005377005332c01301a01000000000000000000000000000000001\n",
        0,
        "attached 0\n\
         out attach c 0 receiver\n\
         out flow 0 200\n\
         ok\n\
         out attach q 1 receiver\n\
         out flow 1 200\n\
         declared 00000000000000000000000000000001\n\
         ok\n\
         out disposition receiver 7 - true txn:00000000000000000000000000000001:accepted\n\
         accepted\n\
         stop done\n\
         handed 0\n\
         taken attach q 1 sender\n\
         taken transfer 1 7 - - 6869\n",
    );
}

#[test]
fn a_commit_on_an_unattached_handle_is_vetoed(rt: HostRuntime) {
    assert_listen(
        &rt,
        &["listen", A],
        "attach c 4\n\
         control 0 00537700533145\n\
         post 00000000000000000000000000000001 9 7 - - 6869\n\
         control 0 005377005332c01301a01000000000000000000000000000000001\n",
        0,
        "attached 0\n\
         out attach c 0 receiver\n\
         out flow 0 200\n\
         declared 00000000000000000000000000000001\n\
         ok\n\
         out disposition receiver 7 - true txn:00000000000000000000000000000001:accepted\n\
         rejected rollback\n\
         stop done\n\
         handed 0\n",
    );
}

#[test]
fn a_listener_refuses_a_handle_that_is_in_use(rt: HostRuntime) {
    assert_listen(
        &rt,
        &["listen", A],
        "attach c 4\nattach d 4\ncontrol 0 00537700533145\n",
        0,
        "attached 0\n\
         out attach c 0 receiver\n\
         out flow 0 200\n\
         attach-refused handle-in-use\n\
         declared 00000000000000000000000000000001\n\
         stop done\n\
         handed 0\n",
    );
}

#[test]
fn a_link_is_attached_until_its_detach(rt: HostRuntime) {
    assert_listen(
        &rt,
        &["listen", A],
        "link q 1 receiver\nflow 1 9\ndetach 1 true\ndetach 1 true\n",
        1,
        "ok\n\
         out attach q 0 sender\n\
         ok\n\
         ok\n\
         out detach 0 true\n\
         stop unattached-handle\n\
         handed 0\n\
         taken attach q 1 receiver\n\
         taken flow 1 9\n\
         taken detach 1 true\n",
    );
}

#[test]
fn a_link_of_a_known_name_is_refused(rt: HostRuntime) {
    assert_listen(
        &rt,
        &["listen", A],
        "attach c 4\nlink c 1 sender\nflow 4 9\n",
        1,
        "attached 0\n\
         out attach c 0 receiver\n\
         out flow 0 200\n\
         stop handle-in-use\n\
         handed 0\n",
    );
}

#[test]
fn a_detach_frees_the_handle_of_an_open_control_link(rt: HostRuntime) {
    assert_listen(
        &rt,
        &["listen", A],
        "attach c 4\ndetach 4 true\nattach c 4\ncontrol 0 00537700533145\n",
        0,
        "attached 0\n\
         out attach c 0 receiver\n\
         out flow 0 200\n\
         ok\n\
         out detach 0 true\n\
         attached 1\n\
         out attach c 0 receiver\n\
         out flow 0 200\n\
         declared 00000000000000000000000000000001\n\
         stop done\n\
         handed 0\n\
         taken detach 4 true\n",
    );
}

#[test]
fn the_plan_holds_over_a_listener(rt: HostRuntime) {
    assert_listen(
        &rt,
        &["listen", "--refuse", "1", A],
        "flow 4 9\n",
        1,
        "stop illegal-state\nhanded 0\n",
    );
}
