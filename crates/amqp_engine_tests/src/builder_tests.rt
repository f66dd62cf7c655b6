//! What no clause says: that the calls succeed where there is memory.

use amqp_accept_links::ControlLinkAcceptor;
use amqp_below_connections::{ConnectionEnd, MemoryConnection};
use amqp_below_layer::LayerBelow;
use amqp_below_sessions::{BeginError, Session};
use amqp_engine_builder::*;
use amqp_test_values::{gives, is_done, leak, refuses};
use amqp_txn_types::{
    ConnectionStopReason, Fields, Handle, OutgoingChannel, SessionState, Symbol, Symbols, TryClone,
    Value,
};
use std::alloc::Global;
use std::process::Abort;

#[test]
fn numbers_are_set(rt: HostRuntime) {
    let builder = Builder::new()
        .next_outgoing_id(1)
        .incoming_window(2)
        .outgoing_window(3)
        .handle_max(Handle(4))
        .buffer_size(5);
    assert!(rt; builder.next_outgoing_id == 1);
    assert!(rt; builder.incoming_window == 2);
    assert!(rt; builder.outgoing_window == 3);
    assert!(rt; builder.handle_max == Handle(4));
    assert!(rt; builder.buffer_size == 5);
    leak(builder);
}

#[test]
fn numbers_have_defaults(rt: HostRuntime) {
    let builder = Builder::default();
    assert!(rt; builder.next_outgoing_id == 0);
    assert!(rt; builder.incoming_window == 2048);
    assert!(rt; builder.outgoing_window == 2048);
    assert!(rt; builder.handle_max == Handle(4_294_967_295));
    assert!(rt; builder.buffer_size == 65_535);
    leak(builder);
}

fn symbol(rt: &impl Abort, alloc: Global, text: &str) -> Symbol {
    Symbol::from_str(alloc, text).expect(rt, "memory")
}

/// A list of these symbols.
fn symbols(rt: &impl Abort, alloc: Global, texts: &[&str]) -> Symbols {
    let mut symbols = Symbols::new(alloc);
    for text in texts {
        symbols.append(symbol(rt, alloc, text)).expect(rt, "memory");
    }
    symbols
}

/// Fields with one key.
fn fields(rt: &impl Abort, alloc: Global) -> Fields {
    let mut fields = Fields::new(alloc);
    let inserted = is_done(fields.insert(symbol(rt, alloc, "k"), Value::Bool(true)));
    assert!(rt; inserted);
    fields
}

/// Whether there is one, and it is that.
fn is_that<T: PartialEq>(found: &Option<T>, wanted: T) -> bool {
    let same = match found {
        Some(found) => *found == wanted,
        None => false,
    };
    leak(wanted);
    same
}

/// A builder whose lists are set.
fn with_lists<R: Abort>(rt: &R, alloc: Global) -> Builder {
    let offered = symbols(rt, alloc, &["a", "b"]);
    let desired = symbols(rt, alloc, &["c", "d"]);
    let properties = fields(rt, alloc);
    Builder::new()
        .set_offered_capabilities(offered)
        .set_desired_capabilities(desired)
        .properties(properties)
        .control_link_acceptor(ControlLinkAcceptor::default())
}

#[test]
fn lists_are_set(rt: HostRuntime) {
    let alloc = rt.alloc();
    let builder = with_lists(&rt, alloc);
    assert!(rt;
        is_that(
            &builder.offered_capabilities,
            symbols(&rt, alloc, &["a", "b"])
        )
    );
    assert!(rt;
        is_that(
            &builder.desired_capabilities,
            symbols(&rt, alloc, &["c", "d"])
        )
    );
    assert!(rt; is_that(&builder.properties, fields(&rt, alloc)));
    assert!(rt; builder.control_link_acceptor.is_some());
    leak(builder);
}

#[test]
fn a_builder_is_copied(rt: HostRuntime) {
    let builder = with_lists(&rt, rt.alloc());
    let copy = builder.try_clone();
    assert!(rt; gives(copy, builder));
}

/// One more thing that this side can do.
fn offering(rt: &impl Abort, alloc: Global, builder: Builder, text: &str) -> Builder {
    let symbol = symbol(rt, alloc, text);
    passed(rt, builder.add_offered_capabilities(alloc, symbol))
}

/// One more thing that this side wants the peer to do.
fn desiring(rt: &impl Abort, alloc: Global, builder: Builder, text: &str) -> Builder {
    let symbol = symbol(rt, alloc, text);
    passed(rt, builder.add_desired_capabilities(alloc, symbol))
}

/// What a call gave that went well.
fn passed<T, E>(rt: &impl Abort, answer: Result<T, E>) -> T {
    match answer {
        Ok(value) => value,
        Err(_error) => panic!(rt; "the call is refused"),
    }
}

#[test]
fn offered_capabilities_are_added(rt: HostRuntime) {
    let alloc = rt.alloc();
    let builder = offering(&rt, alloc, Builder::new(), "a");
    let builder = offering(&rt, alloc, builder, "b");
    assert!(rt;
        is_that(
            &builder.offered_capabilities,
            symbols(&rt, alloc, &["a", "b"])
        )
    );
    assert!(rt; builder.desired_capabilities.is_none());
    leak(builder);
}

#[test]
fn desired_capabilities_are_added(rt: HostRuntime) {
    let alloc = rt.alloc();
    let builder = desiring(&rt, alloc, Builder::new(), "a");
    let builder = desiring(&rt, alloc, builder, "b");
    assert!(rt;
        is_that(
            &builder.desired_capabilities,
            symbols(&rt, alloc, &["a", "b"])
        )
    );
    assert!(rt; builder.offered_capabilities.is_none());
    leak(builder);
}

/// A builder with one thing that this side can do, and one that it wants the peer to do.
fn appended(rt: &impl Abort, alloc: Global) -> Builder {
    let offered = symbol(rt, alloc, "a");
    let desired = symbol(rt, alloc, "b");
    let builder = Builder::new();
    let builder = passed(rt, builder.append_offered_capabilities(alloc, offered));
    passed(rt, builder.append_desired_capabilities(alloc, desired))
}

#[test]
fn capabilities_are_appended(rt: HostRuntime) {
    let alloc = rt.alloc();
    let builder = appended(&rt, alloc);
    assert!(rt; is_that(&builder.offered_capabilities, symbols(&rt, alloc, &["a"])));
    assert!(rt; is_that(&builder.desired_capabilities, symbols(&rt, alloc, &["b"])));
    leak(builder);
}

#[test]
fn a_session_is_built(rt: HostRuntime) {
    let builder = Builder::new();
    let session = builder.into_session(rt.alloc(), OutgoingChannel(7), SessionState::Mapped);
    assert!(rt; session.local_state() == SessionState::Mapped);
    assert!(rt; session.outgoing_channel() == OutgoingChannel(7));
    leak(session);
}

/// Whether a session begins on this connection, and awaits the peer's begin.
fn begins(alloc: Global, connection: &mut MemoryConnection) -> bool {
    let answer = Builder::new().begin(alloc, connection);
    let begins = match &answer {
        Ok((begun, sent)) => {
            sent.incoming_window == 2048 && begun.session().local_state() == SessionState::BeginSent
        }
        Err(_) => false,
    };
    leak(answer);
    begins
}

/// Whether no session begins on this connection, for that reason.
fn is_refused<C: ConnectionEnd>(alloc: Global, connection: &mut C, wanted: BeginError) -> bool {
    refuses(Builder::new().begin(alloc, connection), wanted)
}

#[test]
fn a_session_begins(rt: HostRuntime) {
    let mut connection = MemoryConnection::new(rt.alloc(), 0);
    assert!(rt; begins(rt.alloc(), &mut connection));
    assert!(rt;
        is_refused(
            rt.alloc(),
            &mut connection,
            BeginError::LocalChannelMaxReached
        )
    );
    leak(connection);
}

#[test]
fn no_session_begins_on_a_stopped_connection(rt: HostRuntime) {
    let mut connection = MemoryConnection::new(rt.alloc(), 0);
    connection.set_stop_reason(ConnectionStopReason::RemoteClosed);
    let stopped = BeginError::ConnectionStopped(ConnectionStopReason::RemoteClosed);
    assert!(rt; is_refused(rt.alloc(), &mut connection, stopped));
    leak(connection);
}
