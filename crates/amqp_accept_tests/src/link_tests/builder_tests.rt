//! Each setter of the builders once, and copies of what they build.

use crate::link_tests::test_values::{set, symbols};
use amqp_accept_links::*;
use amqp_test_values::leak;
use amqp_txn_types::{Fields, ReceiverSettleMode, SenderSettleMode, TryClone};

/// Whether the value is the wanted one, and its copy too.
fn is_copied<T: TryClone + PartialEq>(found: T, wanted: T) -> bool {
    let copied = match found.try_clone() {
        Ok(copy) => {
            let equal = copy == wanted;
            leak(copy);
            equal
        }
        Err(_) => false,
    };
    let equal = found == wanted;
    leak(found);
    leak(wanted);
    copied && equal
}

#[test]
fn modes_are_built(rt: HostRuntime) {
    let acceptor = ControlLinkAcceptor::builder()
        .supported_sender_settle_modes(SupportedSenderSettleModes::Settled)
        .fallback_snd_settle_mode(SenderSettleMode::Settled)
        .supported_receiver_settle_modes(SupportedReceiverSettleModes::First)
        .fallback_rcv_settle_mode(ReceiverSettleMode::Second)
        .build();
    let sender = acceptor.shared.sender_mode_for(SenderSettleMode::Mixed);
    let receiver = acceptor
        .shared
        .receiver_mode_for(ReceiverSettleMode::Second);
    leak(acceptor);
    assert!(rt; sender == SenderSettleMode::Settled);
    assert!(rt; receiver == ReceiverSettleMode::Second);
}

#[test]
fn shared_fields_are_built(rt: HostRuntime) {
    let alloc = rt.alloc();
    let acceptor = ControlLinkAcceptor::builder()
        .max_message_size(1)
        .offered_capabilities(symbols(&rt, alloc, "o"))
        .desired_capabilities(symbols(&rt, alloc, "d"))
        .properties(Fields::new(alloc))
        .buffer_size(2)
        .build();
    let mut wanted = SharedLinkAcceptorFields::default();
    wanted.max_message_size = Some(1);
    set(
        &mut wanted.offered_capabilities,
        Some(symbols(&rt, alloc, "o")),
    );
    set(
        &mut wanted.desired_capabilities,
        Some(symbols(&rt, alloc, "d")),
    );
    set(&mut wanted.properties, Some(Fields::new(alloc)));
    wanted.buffer_size = 2;
    assert!(rt; is_copied(acceptor.shared, wanted));
}

#[test]
fn control_receivers_are_built(rt: HostRuntime) {
    let alloc = rt.alloc();
    let acceptor = ControlLinkAcceptor::builder()
        .credit_mode(CreditMode::Manual)
        .target_capabilities(symbols(&rt, alloc, "t"))
        .auto_accept(true)
        .verify_incoming_source(false)
        .verify_incoming_target(false)
        .build();
    let mut wanted = ControlLinkAcceptor::default();
    wanted.receiver.credit_mode = CreditMode::Manual;
    set(
        &mut wanted.receiver.target_capabilities,
        Some(symbols(&rt, alloc, "t")),
    );
    wanted.receiver.auto_accept = true;
    wanted.receiver.verify_incoming_source = false;
    wanted.receiver.verify_incoming_target = false;
    assert!(rt; is_copied(acceptor, wanted));
}

#[test]
fn local_ends_are_built(rt: HostRuntime) {
    let alloc = rt.alloc();
    let acceptor = LinkAcceptor::new()
        .into_builder()
        .initial_delivery_count(1)
        .source_capabilities(symbols(&rt, alloc, "s"))
        .credit_mode(CreditMode::Manual)
        .target_capabilities(symbols(&rt, alloc, "t"))
        .auto_accept(true)
        .build();
    let mut wanted = LinkAcceptor::default();
    wanted.local_sender_acceptor.initial_delivery_count = 1;
    set(
        &mut wanted.local_sender_acceptor.source_capabilities,
        Some(symbols(&rt, alloc, "s")),
    );
    wanted.local_receiver_acceptor.credit_mode = CreditMode::Manual;
    set(
        &mut wanted.local_receiver_acceptor.target_capabilities,
        Some(symbols(&rt, alloc, "t")),
    );
    wanted.local_receiver_acceptor.auto_accept = true;
    assert!(rt; is_copied(acceptor, wanted));
}

#[test]
fn verification_is_built_for_both_ends(rt: HostRuntime) {
    let acceptor = LinkAcceptor::builder()
        .verify_incoming_source(false)
        .verify_incoming_target(false)
        .build();
    let sender = &acceptor.local_sender_acceptor;
    let verifies_at_sender = sender.verify_incoming_source || sender.verify_incoming_target;
    let receiver = &acceptor.local_receiver_acceptor;
    let verifies_at_receiver = receiver.verify_incoming_source || receiver.verify_incoming_target;
    leak(acceptor);
    assert!(rt; !verifies_at_sender);
    assert!(rt; !verifies_at_receiver);
}
