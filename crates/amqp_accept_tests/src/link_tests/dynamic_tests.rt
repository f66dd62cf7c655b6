//! Nodes that the peer wants to be made.

use crate::link_tests::test_values::{
    are_frames, dynamic_attach, dynamic_target_attach, frames_of, granted, reply, set, symbols,
};
use amqp_accept_links::*;
use amqp_test_values::leak;
use amqp_txn_types::{Attach, Role, Source, Target};
use std::alloc::Global;

/// The attach that accepts a link without its node.
fn nodeless_reply(alloc: Global) -> Attach {
    let mut wanted = reply(alloc, Role::Sender);
    set(&mut wanted.source, None);
    wanted
}

#[test]
fn a_closure_is_asked_for_a_node(rt: HostRuntime) {
    let alloc = rt.alloc();
    let known = symbols(&rt, alloc, "a");
    let ask = Ask::new(|source: Source| {
        if known.is_empty() {
            return None;
        }
        Some(Source {
            dynamic: false,
            ..source
        })
    });
    let acceptor = LinkAcceptor::builder().on_dynamic_source(ask).build();
    let frames = frames_of(alloc, &acceptor, dynamic_attach(alloc));
    assert!(rt; are_frames(frames, reply(alloc, Role::Sender), None));
}

#[test]
fn a_link_without_its_node_is_accepted(rt: HostRuntime) {
    let alloc = rt.alloc();
    let ask = Ask::new(|source: Source| {
        leak(source);
        None
    });
    let acceptor = LinkAcceptor::builder().on_dynamic_source(ask).build();
    let frames = frames_of(alloc, &acceptor, dynamic_attach(alloc));
    assert!(rt; are_frames(frames, nodeless_reply(alloc), None));
}

#[test]
fn a_rule_that_makes_no_node_is_asked(rt: HostRuntime) {
    let alloc = rt.alloc();
    let frames = frames_of(alloc, &LinkAcceptor::new(), dynamic_attach(alloc));
    assert!(rt; are_frames(frames, nodeless_reply(alloc), None));
}

#[test]
fn a_closure_is_asked_for_a_target(rt: HostRuntime) {
    let alloc = rt.alloc();
    let ask = Ask::new(|target: Target| {
        Some(Target {
            dynamic: false,
            ..target
        })
    });
    let acceptor = LinkAcceptor::builder().on_dynamic_target(ask).build();
    let frames = frames_of(alloc, &acceptor, dynamic_target_attach(alloc));
    assert!(rt; are_frames(frames, reply(alloc, Role::Receiver), Some(granted(200))));
}
