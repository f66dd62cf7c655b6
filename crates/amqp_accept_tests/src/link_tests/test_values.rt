//! What the tests are made of.

use amqp_accept_links::*;
use amqp_below_sessions::{PlainSession, Session};
use amqp_test_values::{begin, leak};
use amqp_txn_types::{
    Attach, Coordinator, Flow, Frame, Frames, Handle, OutgoingChannel, ReceiverSettleMode, Role,
    SenderSettleMode, SessionState, Source, Symbol, Symbols, Target, TargetArchetype, Text,
};
use std::alloc::Global;
use std::mem::replace;
use std::process::Abort;

pub fn session(alloc: Global, state: SessionState) -> PlainSession {
    PlainSession::new(alloc, OutgoingChannel(0), state, begin(7))
}

fn source(dynamic: bool) -> Source {
    Source {
        address: None,
        dynamic,
        dynamic_node_properties: None,
        outcomes: None,
        capabilities: None,
    }
}

fn node(dynamic: bool) -> TargetArchetype {
    TargetArchetype::Target(Target {
        address: None,
        dynamic,
        dynamic_node_properties: None,
        capabilities: None,
    })
}

/// The attach of a link under handle 5, of that role and with those termini.
fn attach(alloc: Global, role: Role, source: Source, target: TargetArchetype) -> Attach {
    Attach {
        name: Text::new(alloc),
        handle: Handle(5),
        role,
        snd_settle_mode: SenderSettleMode::Mixed,
        rcv_settle_mode: ReceiverSettleMode::Second,
        source: Some(source),
        target: Some(target),
        initial_delivery_count: Some(9),
        max_message_size: Some(1),
        offered_capabilities: None,
        desired_capabilities: None,
        properties: None,
    }
}

pub fn control_attach(alloc: Global) -> Attach {
    let coordinator = TargetArchetype::Coordinator(Coordinator::default());
    attach(alloc, Role::Sender, source(false), coordinator)
}

pub fn sender_attach(alloc: Global) -> Attach {
    attach(alloc, Role::Sender, source(false), node(false))
}

/// The attach of a receiver whose source is dynamic.
pub fn dynamic_attach(alloc: Global) -> Attach {
    attach(alloc, Role::Receiver, source(true), node(false))
}

/// The attach of a sender whose target is dynamic.
pub fn dynamic_target_attach(alloc: Global) -> Attach {
    attach(alloc, Role::Sender, source(false), node(true))
}

/// The attach that answers a peer's, under output handle 0.
pub fn reply(alloc: Global, role: Role) -> Attach {
    let mut reply = attach(alloc, role, source(false), node(false));
    reply.handle = Handle(0);
    reply.max_message_size = None;
    reply.initial_delivery_count = match role {
        Role::Sender => Some(0),
        Role::Receiver => None,
    };
    reply
}

/// Puts the value in that place.
pub fn set<T>(place: &mut T, value: T) {
    leak(replace(place, value));
}

/// The attach that answers that of a control link, under output handle 0.
pub fn control_reply(alloc: Global) -> Attach {
    let mut reply = reply(alloc, Role::Receiver);
    let coordinator = TargetArchetype::Coordinator(Coordinator::default());
    set(&mut reply.target, Some(coordinator));
    reply
}

/// The flow that grants a credit under output handle 0, from delivery count 9.
pub fn granted(credit: u32) -> Flow {
    Flow {
        next_incoming_id: None,
        incoming_window: 2,
        next_outgoing_id: 0,
        outgoing_window: 2,
        handle: Some(Handle(0)),
        delivery_count: Some(9),
        link_credit: Some(credit),
        available: None,
        drain: false,
        echo: false,
        properties: None,
    }
}

fn are_equal(frames: &[Frame], reply: &Attach, flow: &Option<Flow>) -> bool {
    match frames {
        [Frame::Attach(first)] => first == reply && flow.is_none(),
        [Frame::Attach(first), Frame::Flow(second)] => {
            first == reply && flow.as_ref() == Some(second)
        }
        _ => false,
    }
}

/// Whether there are frames: a reply and, where one is wanted, a flow.
pub fn are_frames(found: Option<Frames>, reply: Attach, flow: Option<Flow>) -> bool {
    let equal = match &found {
        Some(frames) => are_equal(frames.as_slice(), &reply, &flow),
        None => false,
    };
    leak(found);
    leak(reply);
    leak(flow);
    equal
}

/// A list of one symbol.
pub fn symbols(rt: &impl Abort, alloc: Global, word: &str) -> Symbols {
    let mut symbols = Symbols::new(alloc);
    let symbol = Symbol::from_str(alloc, word).expect(rt, "an Ok");
    symbols.append(symbol).expect(rt, "an Ok");
    symbols
}

/// What an acceptor answers whose rules may be asked.
///
/// # Requires
///
/// The rules for dynamic sources and targets may be asked.
pub fn accept<S: Session, FS: OnDynamic<Source>, FT: OnDynamic<Target>>(
    alloc: Global,
    acceptor: &LinkAcceptor<FS, FT>,
    remote: Attach,
    session: &mut S,
) -> Result<(LinkEndpoint, Frames), AcceptorAttachError>
    requires source { FS.can_decide acceptor.now.local_sender_acceptor.on_dynamic_source }
    requires target { FT.can_decide acceptor.now.local_receiver_acceptor.on_dynamic_target }
{
    acceptor.accept_incoming_attach(alloc, remote, session)
}

/// The frames with which an acceptor answers over a mapped session, where it accepts.
///
/// # Requires
///
/// The rules for dynamic sources and targets may be asked.
pub fn frames_of<FS: OnDynamic<Source>, FT: OnDynamic<Target>>(
    alloc: Global,
    acceptor: &LinkAcceptor<FS, FT>,
    remote: Attach,
) -> Option<Frames>
    requires source { FS.can_decide acceptor.now.local_sender_acceptor.on_dynamic_source }
    requires target { FT.can_decide acceptor.now.local_receiver_acceptor.on_dynamic_target }
{
    let mut session = session(alloc, SessionState::Mapped);
    let answer = accept(alloc, acceptor, remote, &mut session);
    leak(session);
    frames_in(answer)
}

/// The second of an Ok.
pub fn frames_in<T, E>(answer: Result<(T, Frames), E>) -> Option<Frames> {
    match answer {
        Ok((first, frames)) => {
            leak(first);
            Some(frames)
        }
        Err(error) => {
            leak(error);
            None
        }
    }
}
