//! The texts of controls.

use amqp_engine_events::*;
use amqp_test_values::{disposition, leak, not_allowed, other_text, relay};
use amqp_txn_types::{
    ConnectionError, InputHandle, OutgoingChannel, OutputHandle, Role, Text, TransactionId,
};
use std::alloc::Global;
use std::fmt::Display;
use std::process::Abort;

/// Each value has the text beside it.
fn have_texts<T: Display>(rt: &impl Abort, alloc: Global, table: &[(T, &str)]) {
    assert!(rt; other_text(alloc, table) == Ok(None));
}

#[test]
fn controls_of_connections_have_their_texts(rt: HostRuntime) {
    let table = [
        (ConnectionControl::Close(None), "Close(None)"),
        (
            ConnectionControl::Close(Some(not_allowed())),
            "Close(Some(Error { condition: AmqpError(NotAllowed), description: None, \
             info: None }))",
        ),
        (ConnectionControl::AllocateSession, "AllocateSession"),
        (
            ConnectionControl::DeallocateSession(OutgoingChannel(7)),
            "DeallocateSession(7)",
        ),
    ];
    have_texts(&rt, rt.alloc(), &table);
    leak(table);
}

#[test]
fn controls_of_links_have_their_texts(rt: HostRuntime) {
    let alloc = rt.alloc();
    let table = [
        (
            SessionControl::AllocateLink {
                link_name: Text::new(alloc),
                link_relay: relay(alloc, Role::Receiver),
            },
            "AllocateLink",
        ),
        (
            SessionControl::AllocateIncomingLink {
                link_name: Text::new(alloc),
                link_relay: relay(alloc, Role::Receiver),
                input_handle: InputHandle(1),
            },
            "AllocateIncomingLink",
        ),
        (
            SessionControl::DeallocateLink(OutputHandle(2)),
            "DeallocateLink(OutputHandle(2))",
        ),
    ];
    have_texts(&rt, alloc, &table);
    leak(table);
}

#[test]
fn controls_of_sessions_have_their_texts(rt: HostRuntime) {
    let table = [
        (SessionControl::End(None), "End(None)"),
        (
            SessionControl::End(Some(not_allowed())),
            "End(Some(Error { condition: AmqpError(NotAllowed), description: None, info: None }))",
        ),
        (SessionControl::Disposition(disposition(0)), "Disposition"),
        (
            SessionControl::CloseConnectionWithError(ConnectionError::FramingError, None),
            "CloseConnectionWithError",
        ),
    ];
    have_texts(&rt, rt.alloc(), &table);
    leak(table);
}

#[test]
fn controls_of_transactions_have_their_texts(rt: HostRuntime) {
    let txn_id = TransactionId::new(b"t").expect(&rt, "an Ok");
    let table = [
        (
            SessionControl::AllocateTransactionId,
            "AllocateTransactionId",
        ),
        (
            SessionControl::CommitTransaction { txn_id },
            "CommitTransaction",
        ),
        (
            SessionControl::RollbackTransaction { txn_id },
            "RollbackTransaction",
        ),
        (SessionControl::AbortTransaction(txn_id), "AbortTransaction"),
    ];
    have_texts(&rt, rt.alloc(), &table);
    leak(table);
}
