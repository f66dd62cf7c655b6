//! Each setter of the builder of acceptors once.

use amqp_accept_links::ControlLinkAcceptor;
use amqp_engine_builder::Builder;
use amqp_resource_accepted::*;
use amqp_test_values::{leak, same, value_of};
use amqp_txn_types::{Fields, Handle, Symbol, Symbols};
use std::alloc::Global;
use std::process::Abort;

#[test]
fn numbers_are_set(rt: HostRuntime) {
    let acceptor = SessionAcceptor::builder()
        .next_outgoing_id(1)
        .incoming_window(2)
        .outgoing_window(3)
        .handle_max(Handle(4))
        .buffer_size(5)
        .build();
    let wanted = Builder::new()
        .next_outgoing_id(1)
        .incoming_window(2)
        .outgoing_window(3)
        .handle_max(Handle(4))
        .buffer_size(5);
    assert!(rt; same(acceptor.0, wanted));
}

#[test]
fn lists_are_set(rt: HostRuntime) {
    let alloc = rt.alloc();
    let acceptor = SessionAcceptor::builder()
        .set_offered_capabilities(Symbols::new(alloc))
        .set_desired_capabilities(Symbols::new(alloc))
        .properties(Fields::new(alloc))
        .control_link_acceptor(ControlLinkAcceptor::default())
        .build();
    let wanted = Builder::new()
        .set_offered_capabilities(Symbols::new(alloc))
        .set_desired_capabilities(Symbols::new(alloc))
        .properties(Fields::new(alloc))
        .control_link_acceptor(ControlLinkAcceptor::default());
    assert!(rt; same(acceptor.0, wanted));
}

fn symbol<R: Abort>(rt: &R, alloc: Global, text: &str) -> Symbol {
    Symbol::from_str(alloc, text).expect(rt, "memory")
}

/// How many things an acceptor says that this side can do, and that it wants the peer to do.
fn counts(acceptor: SessionAcceptor) -> (usize, usize) {
    let offered = match &acceptor.0.offered_capabilities {
        Some(symbols) => symbols.len(),
        None => 0,
    };
    let desired = match &acceptor.0.desired_capabilities {
        Some(symbols) => symbols.len(),
        None => 0,
    };
    leak(acceptor);
    (offered, desired)
}

/// An acceptor with one thing that this side can do, in either form.
fn offering<R: Abort>(rt: &R, alloc: Global, kept: bool) -> SessionAcceptor {
    let builder = SessionAcceptor::builder();
    let offered = symbol(rt, alloc, "a");
    if kept {
        let answer = builder.add_offered_capabilities(alloc, offered);
        return value_of(answer).expect(rt, "memory").build();
    }
    let answer = builder.append_offered_capabilities(alloc, offered);
    answer.expect(rt, "memory").build()
}

/// An acceptor with one thing that it wants the peer to do, in either form.
fn desiring<R: Abort>(rt: &R, alloc: Global, kept: bool) -> SessionAcceptor {
    let builder = SessionAcceptor::builder();
    let desired = symbol(rt, alloc, "b");
    if kept {
        let answer = builder.add_desired_capabilities(alloc, desired);
        return value_of(answer).expect(rt, "memory").build();
    }
    let answer = builder.append_desired_capabilities(alloc, desired);
    answer.expect(rt, "memory").build()
}

#[test]
fn capabilities_are_added(rt: HostRuntime) {
    let alloc = rt.alloc();
    assert!(rt; counts(offering(&rt, alloc, true)) == (1, 0));
    assert!(rt; counts(desiring(&rt, alloc, true)) == (0, 1));
}

#[test]
fn capabilities_are_appended(rt: HostRuntime) {
    let alloc = rt.alloc();
    assert!(rt; counts(offering(&rt, alloc, false)) == (1, 0));
    assert!(rt; counts(desiring(&rt, alloc, false)) == (0, 1));
}
