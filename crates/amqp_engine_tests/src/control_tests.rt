//! Each control and each outgoing frame once, over a plain session.

use crate::test_values::{
    asked, ended, mapped, only_frame, quiet, replied, sent, stopped_for, turn,
};
use amqp_below_layer::SessionInnerError;
use amqp_below_sessions::{AllocTxnIdError, HandleDeclare, HandleDischarge, Session};
use amqp_engine_events::*;
use amqp_test_values::{
    detach, disposition, flow, gives, leak, plain_error, refuses, relay, same, sender_attach,
    transfer,
};
use amqp_txn_types::{
    Attach, Binary, ConnectionError, End, ErrorCondition, Flow, Frame, Handle, InputHandle,
    LinkFlow, LinkFrame, OutputHandle, Payload, Role, SessionStopReason, Text, TransactionError,
    TransactionId,
};
use std::alloc::Global;
use std::mem::replace;
use std::process::Abort;

/// Whether the engine answers a control so.
fn answers<S: Session + HandleDeclare + HandleDischarge>(
    mut engine: SessionEngine<S>,
    control: SessionControl,
    wanted: Turn,
) -> bool {
    let answer = asked(&mut engine, control);
    leak(engine);
    gives(answer, wanted)
}

/// Whether a mapped session gives this reply.
fn replies<R: Abort>(rt: &R, alloc: Global, control: SessionControl, reply: ControlReply) -> bool {
    let engine = mapped(alloc).expect(rt, "a session");
    answers(engine, control, replied(alloc, reply))
}

/// What a session replies that allocates its first link.
fn first_link() -> ControlReply {
    ControlReply::Linked(Ok(OutputHandle(0)))
}

#[test]
fn links_are_allocated(rt: HostRuntime) {
    let alloc = rt.alloc();
    let control = SessionControl::AllocateLink {
        link_name: Text::new(alloc),
        link_relay: relay(alloc, Role::Receiver),
    };
    assert!(rt; replies(&rt, alloc, control, first_link()));
}

#[test]
fn incoming_links_are_allocated(rt: HostRuntime) {
    let alloc = rt.alloc();
    let control = SessionControl::AllocateIncomingLink {
        link_name: Text::new(alloc),
        link_relay: relay(alloc, Role::Receiver),
        input_handle: InputHandle(1),
    };
    assert!(rt; replies(&rt, alloc, control, first_link()));
}

#[test]
fn a_connection_is_to_be_closed(rt: HostRuntime) {
    let condition = ConnectionError::FramingError;
    let control = SessionControl::CloseConnectionWithError(condition, None);
    let closing = ControlReply::CloseConnection(plain_error(ErrorCondition::ConnectionError(
        condition,
    )));
    assert!(rt; replies(&rt, rt.alloc(), control, closing));
}

#[test]
fn a_plain_session_allocates_no_ids(rt: HostRuntime) {
    let control = SessionControl::AllocateTransactionId;
    let refused = ControlReply::Allocated(Err(AllocTxnIdError::NotImplemented));
    assert!(rt; replies(&rt, rt.alloc(), control, refused));
}

#[test]
fn a_plain_session_discharges_nothing(rt: HostRuntime) {
    let txn_id = TransactionId::new(b"t").expect(&rt, "an Ok");
    let commit = SessionControl::CommitTransaction { txn_id };
    let uncommitted = ControlReply::Committed(Err(TransactionError::UnknownId));
    assert!(rt; replies(&rt, rt.alloc(), commit, uncommitted));
    let rollback = SessionControl::RollbackTransaction { txn_id };
    let unended = ControlReply::RolledBack(Err(TransactionError::UnknownId));
    assert!(rt; replies(&rt, rt.alloc(), rollback, unended));
}

#[test]
fn some_controls_have_no_reply(rt: HostRuntime) {
    let abort = SessionControl::AbortTransaction(TransactionId::new(b"t").expect(&rt, "an Ok"));
    assert!(rt; replies(&rt, rt.alloc(), abort, ControlReply::Nothing));
    let free = SessionControl::DeallocateLink(OutputHandle(0));
    assert!(rt; replies(&rt, rt.alloc(), free, ControlReply::Nothing));
}

#[test]
fn an_end_keeps_its_reason(rt: HostRuntime) {
    let alloc = rt.alloc();
    let mut engine = mapped(alloc).expect(&rt, "a session");
    let answer = asked(&mut engine, SessionControl::End(None));
    let ended = Some(End { error: None });
    assert!(rt; gives(answer, turn(alloc, Running::Waiting, ended)));
    assert!(rt; stopped_for(engine.session(), SessionStopReason::Ended));
    leak(engine);
}

#[test]
fn an_end_is_sent_once(rt: HostRuntime) {
    let alloc = rt.alloc();
    let engine = ended(alloc).expect(&rt, "a session");
    assert!(rt;
        answers(
            engine,
            SessionControl::End(None),
            quiet(alloc, Running::Waiting)
        )
    );
}

#[test]
fn a_control_outside_mapped_is_illegal(rt: HostRuntime) {
    let mut engine = ended(rt.alloc()).expect(&rt, "a session");
    let refused = asked(&mut engine, SessionControl::DeallocateLink(OutputHandle(0)));
    leak(engine);
    assert!(rt; refuses(refused, SessionInnerError::IllegalState));
}

#[test]
fn a_disposition_is_sent(rt: HostRuntime) {
    let mut engine = mapped(rt.alloc()).expect(&rt, "a session");
    let answer = asked(&mut engine, SessionControl::Disposition(disposition(0)));
    leak(engine);
    let only = only_frame(&rt, answer);
    assert!(rt; same(only, Some(Frame::Disposition(disposition(0)))));
}

/// Whether a mapped session sends this frame for that of a link.
fn sends<R: Abort>(rt: &R, alloc: Global, frame: LinkFrame, wanted: Frame) -> bool {
    let mut engine = mapped(alloc).expect(rt, "a session");
    let answer = sent(&mut engine, frame);
    leak(engine);
    same(only_frame(rt, answer), Some(wanted))
}

/// An attach of a sender without a name.
fn attach(alloc: Global) -> Attach {
    sender_attach(Text::new(alloc), 0, None)
}

#[test]
fn an_attach_is_sent(rt: HostRuntime) {
    let alloc = rt.alloc();
    let wanted = Frame::Attach(attach(alloc));
    assert!(rt; sends(&rt, alloc, LinkFrame::Attach(attach(alloc)), wanted));
}

#[test]
fn a_links_disposition_is_sent(rt: HostRuntime) {
    let frame = LinkFrame::Disposition(disposition(0));
    let wanted = Frame::Disposition(disposition(0));
    assert!(rt; sends(&rt, rt.alloc(), frame, wanted));
}

#[test]
fn a_detach_is_sent(rt: HostRuntime) {
    let wanted = Frame::Detach(detach(0));
    assert!(rt; sends(&rt, rt.alloc(), LinkFrame::Detach(detach(0)), wanted));
}

#[test]
fn a_continuation_is_sent_as_it_is(rt: HostRuntime) {
    let frame = LinkFrame::Transfer {
        input: InputHandle(5),
        transfer: transfer(5),
        payload: Payload::new(),
        is_first: false,
    };
    let wanted = Frame::Transfer {
        transfer: transfer(5),
        payload: Payload::new(),
    };
    assert!(rt; sends(&rt, rt.alloc(), frame, wanted));
}

/// A first transfer with this tag.
fn first(tag: Option<Binary>) -> LinkFrame {
    let mut transfer = transfer(5);
    leak(replace(&mut transfer.delivery_tag, tag));
    LinkFrame::Transfer {
        input: InputHandle(5),
        transfer,
        payload: Payload::new(),
        is_first: true,
    }
}

/// The id that the one transfer to be sent has.
fn delivery_id(rt: &impl Abort, answer: Result<Turn, SessionInnerError>) -> Option<u32> {
    let only = only_frame(rt, answer);
    let id = match &only {
        Some(Frame::Transfer { transfer, .. }) => transfer.delivery_id,
        _ => None,
    };
    leak(only);
    id
}

#[test]
fn a_first_transfer_gets_an_id(rt: HostRuntime) {
    let mut engine = mapped(rt.alloc()).expect(&rt, "a session");
    let answer = sent(&mut engine, first(Some(Binary::new(rt.alloc()))));
    leak(engine);
    assert!(rt; delivery_id(&rt, answer) == Some(0));
}

#[test]
fn a_first_transfer_without_a_tag_is_illegal(rt: HostRuntime) {
    let mut engine = mapped(rt.alloc()).expect(&rt, "a session");
    let refused = sent(&mut engine, first(None));
    leak(engine);
    assert!(rt; refuses(refused, SessionInnerError::IllegalState));
}

/// The flow of a link with ten credits, with the session's numbers.
fn numbered_flow() -> Flow {
    let mut numbered = flow(Some(Handle(0)));
    numbered.next_incoming_id = Some(0);
    numbered.link_credit = Some(10);
    numbered
}

#[test]
fn a_flow_gets_the_sessions_numbers(rt: HostRuntime) {
    let frame = LinkFrame::Flow(LinkFlow {
        link_credit: Some(10),
        ..LinkFlow::new(Handle(0))
    });
    assert!(rt; sends(&rt, rt.alloc(), frame, Frame::Flow(numbered_flow())));
}
