//! Performatives made of their required fields, and calls that answer out of memory alone.

use amqp_test_values::leak;
use amqp_txn_types::*;

#[test]
fn an_attach_is_made_of_its_required_fields(rt: HostRuntime) {
    let name = Text::from_str(rt.alloc(), "control").expect(&rt, "an Ok");
    let attach = Attach::new(name, Handle(3), Role::Sender).target(TargetArchetype::Coordinator(
        Coordinator::default(),
    ));
    assert!(rt; attach.handle == Handle(3));
    assert!(rt; attach.snd_settle_mode == SenderSettleMode::Mixed);
    assert!(rt; is_coordinator(&attach));
    leak(attach);
}

#[test]
fn a_retirement_is_made_of_its_required_fields(rt: HostRuntime) {
    let txn_id = TransactionId::new(b"\x07").expect(&rt, "an Ok");
    let accepted = TransactionalState::new(txn_id).outcome(Outcome::Accepted);
    let retirement = Disposition::new(Role::Receiver, 7)
        .last(9)
        .state(DeliveryState::TransactionalState(accepted));
    let frame = Frame::Disposition(retirement);
    assert!(rt; txn_of(&frame) == Some(txn_id));
    leak(frame);
}

#[test]
fn a_flow_of_a_link_is_made_of_the_windows(rt: HostRuntime) {
    let flow = Flow::new(2, 0, 3).handle(Handle(1)).link_credit(10);
    assert!(rt; (flow.incoming_window, flow.outgoing_window) == (2, 3));
    assert!(rt; (flow.handle, flow.link_credit) == (Some(Handle(1)), Some(10)));
    assert!(rt; (flow.drain, flow.echo) == (false, false));
    leak(flow);
}

#[test]
fn text_grows_by_a_character(rt: HostRuntime) {
    let mut text = Text::new(rt.alloc());
    text.append('é').expect(&rt, "an Ok");
    let mut symbol = Symbol::new(rt.alloc());
    symbol.append('a').expect(&rt, "an Ok");
    assert!(rt; (text.as_str(), symbol.as_str()) == ("é", "a"));
    leak(text);
    leak(symbol);
}

#[test]
fn octets_grow_by_one(rt: HostRuntime) {
    let mut octets = Binary::new(rt.alloc());
    octets.append(3).expect(&rt, "an Ok");
    assert!(rt; octets.as_slice() == b"\x03".as_slice());
    leak(octets);
}

#[test]
fn fields_are_looked_up_by_their_keys(rt: HostRuntime) {
    let mut fields = Fields::new(rt.alloc());
    let key = Symbol::from_str(rt.alloc(), "txn-id").expect(&rt, "an Ok");
    let again = Symbol::from_str(rt.alloc(), "txn-id").expect(&rt, "an Ok");
    let other = Symbol::from_str(rt.alloc(), "txn").expect(&rt, "an Ok");
    fields.set(key, Value::Uint(7)).expect(&rt, "an Ok");
    assert!(rt; fields.contains_key(&again));
    assert!(rt; fields.value_of(&again).is_some());
    assert!(rt; !fields.contains_key(&other));
    leak((fields, again, other));
}
