//! A run over a listener: the attaches that it queues, the flows that it holds and the transfers
//! that it drops count as taken.

use crate::session_tests::transfer;
use amqp_accept_links::ControlLinkAcceptor;
use amqp_accept_listener::ListenerSession;
use amqp_below_recorder::Recorder;
use amqp_below_sessions::PlainSession;
use amqp_resource_session::*;
use amqp_test_values::{flow, leak, plain_session, sender_attach};
use amqp_txn_types::{Frame, Handle, NoMemory, SessionState, Text};
use std::alloc::Global;

/// A session over a recorder of a listener.
type Listening = TxnSession<Recorder<ListenerSession<PlainSession>>>;

/// Such a session, over a mapped one without links.
fn listening(alloc: Global) -> Listening {
    let plain = plain_session(alloc, SessionState::Mapped, 9);
    let listener = ListenerSession::new(alloc, plain, ControlLinkAcceptor::default());
    TxnSession::new(alloc, Recorder::new(alloc, listener))
}

/// An attach, a transfer and a flow of a link that nobody allocated.
fn steps(alloc: Global) -> Result<Steps, NoMemory> {
    let mut steps = Steps::new(alloc);
    let name = Text::from_str(alloc, "a")?;
    steps.append(Step::Frame(Frame::Attach(sender_attach(name, 1, None))))?;
    steps.append(Step::Frame(transfer(true, None)))?;
    steps.append(Step::Frame(Frame::Flow(flow(Some(Handle(1))))))?;
    Ok(steps)
}

/// Makes the steps on the session: how many were answered, where all were; 100 otherwise.
fn count_answered(session: &mut Listening, steps: Steps) -> usize {
    if !session.is_fresh() {
        leak(steps);
        return 100;
    }
    let driven = drive(session, steps, &mut CountIds::new());
    let count = if matches!(driven.stop, Stop::Done) {
        driven.entries.len()
    } else {
        100
    };
    leak(driven);
    count
}

/// Whether the three frames were taken, with no frame given back, and none refused.
fn took_all(session: &Listening) -> bool {
    let recorder = session.below();
    match recorder.exchanges().as_slice() {
        [
            (Frame::Attach(_), queued),
            (Frame::Transfer { .. }, dropped),
            (Frame::Flow(_), held),
        ] => {
            queued.is_empty()
                && dropped.is_empty()
                && held.is_empty()
                && recorder.refused().is_empty()
        }
        _ => false,
    }
}

#[test]
fn what_a_listener_lets_pass_is_taken(rt: HostRuntime) {
    let alloc = rt.alloc();
    let steps = steps(alloc).expect(&rt, "an Ok");
    let mut session = listening(alloc);
    let count = count_answered(&mut session, steps);
    let took = took_all(&session);
    leak(session);
    assert!(rt; count == 3);
    assert!(rt; took);
}
