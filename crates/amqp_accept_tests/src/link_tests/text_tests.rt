//! The texts of acceptors and errors.

use amqp_accept_links::*;
use amqp_below_sessions::{AllocLinkError, ReceiverAttachError, SenderAttachError};
use amqp_test_values::leak;
use amqp_txn_types::SessionStopReason;
use std::alloc::Global;
use std::fmt::Display;

/// Whether the text of the value is this.
fn reads<T: Display>(alloc: Global, value: T, want: &str) -> bool {
    let text = format!(in alloc; "{value}");
    leak(value);
    match text {
        Ok(text) => text.as_str() == want,
        Err(_) => false,
    }
}

#[test]
fn an_acceptor_has_its_text(rt: HostRuntime) {
    assert!(rt; reads(rt.alloc(), LinkAcceptor::new(), "LinkAcceptor"));
}

#[test]
fn errors_have_their_texts(rt: HostRuntime) {
    let alloc = rt.alloc();
    let stopped = AcceptorAttachError::SessionStopped(SessionStopReason::Ended);
    assert!(rt; reads(alloc, stopped, "the session stopped: Ended"));
    let refused = SenderAttachError::Alloc(AllocLinkError::HandleInUse);
    let text = "the local sender is not attached: the link is not allocated: the handle is in use";
    assert!(rt; reads(alloc, AcceptorAttachError::from(refused), text));
    let lacking = ReceiverAttachError::NoMemory;
    let text = "the local receiver is not attached: out of memory";
    assert!(rt; reads(alloc, AcceptorAttachError::from(lacking), text));
}
