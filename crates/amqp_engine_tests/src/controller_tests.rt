//! A control link of this side, on a session that an engine runs.

use crate::test_values::{mapped, taken};
use amqp_below_sessions::Session;
use amqp_controller_transactions::{Attaching, Controller};
use amqp_engine_events::SessionFrameBody;
use amqp_links::Progress;
use amqp_test_values::{control_attach, leak};
use amqp_txn_types::{Attach, Frame, Handle, Role, Text};
use std::alloc::Global;
use std::process::Abort;

/// A control link whose attach is to be sent, on the engine's session; the handle of that attach.
fn attach<S: Session>(rt: &impl Abort, alloc: Global, session: &mut S) -> (Attaching, Handle) {
    let answer = Controller::attach(alloc, session, Text::new(alloc));
    let (attaching, attach) = answer.expect(rt, "a control link");
    let handle = attach.handle;
    leak(attach);
    (attaching, handle)
}

/// The peer's attach of the link.
fn peers_attach(alloc: Global) -> Attach {
    let mut attach = control_attach(Text::new(alloc), 5);
    attach.role = Role::Receiver;
    attach
}

/// Whether the link is attached.
fn is_attached<S: Session>(attaching: Attaching, session: &mut S) -> bool {
    let progress = attaching.poll(session);
    let attached = matches!(&progress, Progress::Ready(Ok(_)));
    leak(progress);
    attached
}

#[test]
fn a_controller_is_attached(rt: HostRuntime) {
    let alloc = rt.alloc();
    let mut engine = mapped(alloc).expect(&rt, "a session");
    let (attaching, handle) = attach(&rt, alloc, engine.session_mut());
    let answered = Frame::Attach(peers_attach(alloc));
    leak(taken(&mut engine, SessionFrameBody::Link(answered)));
    let attached = is_attached(attaching, engine.session_mut());
    leak(engine);
    assert!(rt; handle == Handle(0));
    assert!(rt; attached);
}

#[test]
fn a_control_link_waits_for_the_peers_attach(rt: HostRuntime) {
    let alloc = rt.alloc();
    let mut engine = mapped(alloc).expect(&rt, "a session");
    let (attaching, _handle) = attach(&rt, alloc, engine.session_mut());
    let attached = is_attached(attaching, engine.session_mut());
    leak(engine);
    assert!(rt; !attached);
}
