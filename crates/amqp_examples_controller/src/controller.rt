//! A controller whose control link is attached on a session.

use amqp_below_sessions::{SenderAttachError, Session};
use amqp_controller_transactions::{Attaching, Controller};
use amqp_links::{Answer, Progress, WireSender};
use amqp_txn_types::{Attach, Text, Token};
use std::alloc::Global;
use std::sync::Wait;

/// Asks for a control link: the attach is to be sent, and the wait to be polled.
pub fn attach<S: Session>(
    alloc: Global,
    session: &mut S,
    name: Text,
) -> Result<(Attaching, Attach), SenderAttachError> {
    Controller::attach(alloc, session, name)
}

/// Looks once for the peer's attach: the controller, or `None` where the session stopped. A
/// wait that goes on is polled again later.
pub fn poll_attach<S: Session>(
    session: &mut S,
    attaching: Attaching,
) -> Progress<Attaching, Option<Controller<WireSender>>> {
    match attaching.poll(session) {
        Progress::Pending(attaching) => Progress::Pending(attaching),
        Progress::Ready(Ok(controller)) => Progress::Ready(Some(controller)),
        Progress::Ready(Err(_error)) => Progress::Ready(None),
    }
}

/// Fills in the peer's answer to a message of the control link: whether it was awaited.
pub fn answer_message<R: Wait>(
    rt: &R,
    controller: &Controller<WireSender>,
    token: Token,
    answer: Answer,
) -> bool {
    let mut link = controller.link(rt);
    let awaited = link.answer(token, answer);
    drop(link); // a call over the controller would wait for ever for this guard
    awaited
}
