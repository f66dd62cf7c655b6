//! Control links that are attached over a plain session. The helpers take any session: the contract
//! of a known one is dear to prove.

use crate::transaction_tests::links::{assert_put, illegal};
use crate::transaction_tests::values::{
    GLOBAL_DECLARE, declaration, end, id, name, passed, pending, ready, refused, same,
};
use amqp_below_layer::{LayerBelow, SessionInnerError};
use amqp_below_sessions::{AllocLinkError, PlainSession, SenderAttachError, Session};
use amqp_controller_calls::{Abandoned, TransactionBase};
use amqp_controller_transactions::{
    Attaching, Controller, OwnedDeclareError, OwnedTransaction, TransactionDischarge,
};
use amqp_links::{LinkStateError, Poll, SenderLink, WireSender};
use amqp_test_values::{begin, call_numbers, leak, sender_attach};
use amqp_txn_types::{
    Coordinator, DeliveryState, OutgoingChannel, Role, SenderSettleMode, SessionState,
    SessionStopReason, Token,
};
use std::process::Abort;
use std::sync::Wait;

fn session<R: AllocGlobal>(rt: &R) -> PlainSession {
    let channel = OutgoingChannel(0);
    PlainSession::new(rt.alloc(), channel, SessionState::Mapped, begin(3))
}

/// The peer attaches the link.
fn peer_attaches<S: Session, R: Abort + AllocGlobal>(rt: &R, session: &mut S) {
    let mut attach = sender_attach(name(rt), 0, None);
    attach.role = Role::Receiver;
    attach.snd_settle_mode = SenderSettleMode::Unsettled;
    leak(session.on_incoming_attach(attach).expect(rt, "an Ok"));
}

/// The control link whose attach a sender is to send.
fn attach<S: Session, R: Abort + AllocGlobal>(rt: &R, session: &mut S) -> Attaching {
    let begun = Controller::attach(rt.alloc(), session, name(rt));
    let (attaching, attach) = begun.expect(rt, "an Ok");
    assert!(rt; attach.role == Role::Sender);
    leak(attach);
    attaching
}

/// Lists a call of the link that is to fail, by its number.
fn fails_at<R: Wait + Abort + AllocGlobal>(rt: &R, controller: &Controller<WireSender>, call: u64) {
    let failing = call_numbers(rt.alloc(), &[call]).expect(rt, "numbers");
    let mut link = controller.link(rt);
    link.set_failing(failing);
    drop(link);
}

/// So many messages were put on the link, and no close, and its next call has that number.
fn assert_calls<R: Wait + Abort + AllocGlobal>(
    rt: &R,
    controller: &Controller<WireSender>,
    puts: usize,
    next: u64,
) {
    fails_at(rt, controller, next);
    let mut link = controller.link(rt);
    let found = link.outcome(&Token(9));
    let counts = (link.put().len(), link.closes().len());
    drop(link);
    assert!(rt; same(found, Poll::Ready(Err(LinkStateError::IllegalState))));
    assert!(rt; counts == (puts, 0));
}

/// A link is pending first, and attached once the peer attached it; it settles so.
fn is_attached<S: Session, R: Wait + Abort + AllocGlobal>(
    rt: &R,
    mut session: S,
    attaching: Attaching,
    mode: SenderSettleMode,
) {
    let attaching = pending(rt, attaching.poll(&mut session));
    peer_attaches(rt, &mut session);
    let controller = ready(rt, attaching.poll(&mut session)).expect(rt, "an Ok");
    leak(session);
    let want = end(rt, Role::Sender, mode);
    let link = controller.link(rt);
    assert!(rt; *link.end() == want);
    drop(link);
    leak(want);
    assert_calls(rt, &controller, 0, 1);
    leak(controller);
}

#[test]
fn a_control_link_is_attached(rt: HostRuntime) {
    let mut session = session(&rt);
    let attaching = attach(&rt, &mut session);
    is_attached(&rt, session, attaching, SenderSettleMode::Unsettled);
}

/// The control link that a builder asks for, which is sent settled.
fn built<S: Session, R: Abort + AllocGlobal>(rt: &R, session: &mut S) -> Attaching {
    let builder = Controller::builder(rt.alloc())
        .name(name(rt))
        .coordinator(Coordinator::default())
        .sender_settle_mode(SenderSettleMode::Settled);
    let (attaching, attach) = builder.attach(session).expect(rt, "an Ok");
    leak(attach);
    attaching
}

#[test]
fn a_control_link_is_built(rt: HostRuntime) {
    let mut session = session(&rt);
    let attaching = built(&rt, &mut session);
    is_attached(&rt, session, attaching, SenderSettleMode::Settled);
}

/// A second link of a name is refused.
fn attaches_once<S: Session, R: Abort + AllocGlobal>(rt: &R, session: &mut S) {
    leak(Controller::attach(rt.alloc(), session, name(rt)).expect(rt, "an Ok"));
    let coordinator = Coordinator::default();
    let again = Controller::attach_with_coordinator(rt.alloc(), session, name(rt), coordinator);
    let want = SenderAttachError::Alloc(AllocLinkError::DuplicatedLinkName);
    assert!(rt; same(refused(rt, again), want));
}

#[test]
fn a_name_is_attached_once(rt: HostRuntime) {
    let mut session = session(&rt);
    attaches_once(&rt, &mut session);
    leak(session);
}

/// The session refuses the attach, which it gave a handle.
fn refuses_attach<S: Session, R: Abort + AllocGlobal>(rt: &R, session: &mut S) {
    let found = refused(rt, Controller::attach(rt.alloc(), session, name(rt)));
    let want = SenderAttachError::Session(SessionInnerError::IllegalState);
    assert!(rt; same(found, want));
}

/// The session has one handle, and isn't mapped: so the second attach is refused as the first is.
#[test]
fn a_refused_attach_frees_its_handle(rt: HostRuntime) {
    let channel = OutgoingChannel(0);
    let state = SessionState::BeginSent;
    let mut session = PlainSession::new(rt.alloc(), channel, state, begin(0));
    refuses_attach(&rt, &mut session);
    refuses_attach(&rt, &mut session);
    leak(session);
}

/// The stop of the session ends the attach.
fn is_stopped<S: Session, R: Abort + AllocGlobal>(rt: &R, session: &mut S) {
    let attaching = attach(rt, session);
    session.set_session_stop_reason(SessionStopReason::Ended);
    let want = SenderAttachError::SessionStopped(SessionStopReason::Ended);
    assert!(rt; same(refused(rt, ready(rt, attaching.poll(session))), want));
}

#[test]
fn a_stopped_session_ends_the_attach(rt: HostRuntime) {
    let mut session = session(&rt);
    is_stopped(&rt, &mut session);
    leak(session);
}

/// The only message of the controller's link is the declare of 010203; it is answered.
fn answers_declare<R: Wait + Abort + AllocGlobal>(rt: &R, controller: &Controller<WireSender>) {
    let mut link = controller.link(rt);
    assert!(rt; link.put().len() == 1);
    assert_put(rt, &link, &GLOBAL_DECLARE);
    let state = DeliveryState::Declared(declaration());
    assert!(rt; link.answer(Token(0), Ok(Some(state))));
    drop(link);
}

/// An owned transaction waits for its link, is pending with one put once that is attached, and then
/// declared.
fn is_declared<S: Session, R: Wait + Abort + AllocGlobal>(rt: &R, session: &mut S) {
    let begun = OwnedTransaction::declare(rt.alloc(), session, name(rt), Some(id()));
    let (declaring, attach) = begun.expect(rt, "an Ok");
    leak(attach);
    assert!(rt; declaring.controller().is_none());
    peer_attaches(rt, session);
    let declaring = pending(rt, declaring.poll(rt, session));
    answers_declare(rt, declaring.controller().expect(rt, "a controller"));
    let transaction = passed(rt, ready(rt, declaring.poll(rt, session)));
    assert!(rt; *transaction.txn_id() == id());
    assert_calls(rt, transaction.controller(), 1, 3);
    assert!(rt; same(transaction.abandon(rt), Abandoned::Unanswered));
}

#[test]
fn an_owned_transaction_is_declared_once_its_link_is_attached(rt: HostRuntime) {
    let mut session = session(&rt);
    is_declared(&rt, &mut session);
    leak(session);
}

/// The calls of the link of an owned transaction: the declare, and one look, which fails.
fn is_undeclared<S: Session, R: Wait + Abort + AllocGlobal>(rt: &R, session: &mut S) {
    let begun = OwnedTransaction::declare(rt.alloc(), session, name(rt), None);
    let (declaring, attach) = begun.expect(rt, "an Ok");
    leak(attach);
    peer_attaches(rt, session);
    let declaring = pending(rt, declaring.poll(rt, session));
    fails_at(rt, declaring.controller().expect(rt, "a controller"), 2);
    let (controller, error) = refused(rt, ready(rt, declaring.poll(rt, session)));
    assert!(rt; same(error, OwnedDeclareError::ControllerSendError(illegal())));
    let controller = controller.expect(rt, "a controller");
    assert_calls(rt, &controller, 1, 3);
    leak(controller);
}

#[test]
fn a_declare_that_fails_hands_the_controller_back(rt: HostRuntime) {
    let mut session = session(&rt);
    is_undeclared(&rt, &mut session);
    leak(session);
}
