//! What no clause says: that each call succeeds where there is memory, and printed texts.

use amqp_test_values::{leak, other_text, reads, same};
use amqp_txn_types::*;
use std::alloc::{Alloc, Global};
use std::process::Abort;

fn symbols(rt: &impl Abort, alloc: Global) -> Symbols {
    let mut symbols = Symbols::new(alloc);
    symbols
        .append(
            TxnCapability::LocalTransactions
                .to_symbol(alloc)
                .expect(rt, "an Ok"),
        )
        .expect(rt, "an Ok");
    symbols
        .append(
            TxnCapability::MultiTxnsPerSsn
                .to_symbol(alloc)
                .expect(rt, "an Ok"),
        )
        .expect(rt, "an Ok");
    symbols
}

fn fields(rt: &impl Abort, alloc: Global) -> Fields {
    let mut fields = Fields::new(alloc);
    fields
        .insert(
            Symbol::from_str(alloc, "b").expect(rt, "an Ok"),
            Value::Uint(1),
        )
        .expect(rt, "an Ok");
    fields
        .insert(
            Symbol::from_str(alloc, "a").expect(rt, "an Ok"),
            Value::Ulong(2),
        )
        .expect(rt, "an Ok");
    fields
        .insert(
            Symbol::from_str(alloc, "b").expect(rt, "an Ok"),
            Value::Bool(true),
        )
        .expect(rt, "an Ok");
    fields
}

fn error(rt: &impl Abort, alloc: Global, condition: ErrorCondition) -> Error {
    Error {
        condition,
        description: Some(Text::from_str(alloc, "why").expect(rt, "an Ok")),
        info: Some(fields(rt, alloc)),
    }
}

fn rejected(rt: &impl Abort, alloc: Global) -> Rejected {
    let condition = ErrorCondition::TransactionError(TransactionError::UnknownId);
    Rejected {
        error: Some(error(rt, alloc, condition)),
    }
}

fn under_txn(rt: &impl Abort, outcome: Option<Outcome>) -> Option<DeliveryState> {
    let txn_id = TransactionId::new(b"\x07").expect(rt, "an Ok");
    Some(DeliveryState::TransactionalState(TransactionalState { txn_id, outcome }))
}

fn transfer(rt: &impl Abort, alloc: Global, state: Option<DeliveryState>) -> Transfer {
    Transfer {
        handle: Handle(1),
        delivery_id: Some(7),
        delivery_tag: Some(Binary::from_slice(alloc, b"\x01\x02").expect(rt, "an Ok")),
        message_format: Some(0),
        settled: Some(true),
        more: true,
        rcv_settle_mode: Some(ReceiverSettleMode::Second),
        state,
        resume: true,
        aborted: true,
        batchable: true,
    }
}

fn disposition(settled: bool, state: Option<DeliveryState>) -> Disposition {
    Disposition {
        role: Role::Receiver,
        first: 7,
        last: Some(9),
        settled,
        state,
        batchable: true,
    }
}

fn attach(rt: &impl Abort, alloc: Global) -> Attach {
    let coordinator = Coordinator {
        capabilities: Some(symbols(rt, alloc)),
    };
    let source = Source {
        address: Some(Text::from_str(alloc, "queue").expect(rt, "an Ok")),
        dynamic: true,
        dynamic_node_properties: Some(fields(rt, alloc)),
        outcomes: Some(symbols(rt, alloc)),
        capabilities: Some(symbols(rt, alloc)),
    };
    Attach {
        name: Text::from_str(alloc, "control").expect(rt, "an Ok"),
        handle: Handle(3),
        role: Role::Sender,
        snd_settle_mode: SenderSettleMode::Settled,
        rcv_settle_mode: ReceiverSettleMode::Second,
        source: Some(source),
        target: Some(TargetArchetype::Coordinator(coordinator)),
        initial_delivery_count: Some(7),
        max_message_size: Some(1_048_576),
        offered_capabilities: Some(symbols(rt, alloc)),
        desired_capabilities: Some(symbols(rt, alloc)),
        properties: Some(fields(rt, alloc)),
    }
}

fn link_flow(rt: &impl Abort, alloc: Global) -> LinkFlow {
    LinkFlow {
        handle: Handle(5),
        delivery_count: Some(6),
        link_credit: Some(7),
        available: Some(8),
        drain: true,
        echo: true,
        properties: Some(fields(rt, alloc)),
    }
}

fn detach(rt: &impl Abort, alloc: Global) -> Detach {
    Detach {
        handle: Handle(5),
        closed: true,
        error: Some(error(
            rt,
            alloc,
            ErrorCondition::AmqpError(AmqpError::IllegalState),
        )),
    }
}

fn assert_copied<T: TryClone + PartialEq>(rt: &impl Abort, original: T) {
    let copy = original.try_clone().expect(rt, "an Ok");
    assert!(rt; same(copy, original));
}

fn moves_to_a_thread<T: Send>(_value: &T) {}

fn is_shared_by_threads<T: Sync>(_value: &T) {}

#[test]
fn a_frame_crosses_threads(rt: HostRuntime) {
    let frame = Frame::Detach(detach(&rt, rt.alloc()));
    moves_to_a_thread(&frame);
    is_shared_by_threads(&frame);
    leak(frame);
}

#[test]
fn an_id_has_at_most_32_octets(rt: HostRuntime) {
    let longest = TransactionId::new(&[9; 32]).expect(&rt, "an Ok");
    assert!(rt; longest.as_ref() == [9; 32].as_slice());
    assert!(rt; TransactionId::new(&[9; 33]) == Err(IdTooLong));
    assert!(rt; TransactionId::from([5; 16]).as_ref() == [5; 16].as_slice());
    assert!(rt;
        TransactionId::new(b"\x01\x02").expect(&rt, "an Ok")
            < TransactionId::new(b"\x02").expect(&rt, "an Ok")
    );
    assert_copied(&rt, longest)
}

#[test]
fn lists_grow_at_their_end(rt: HostRuntime) {
    let mut text = Text::new(rt.alloc());
    assert!(rt; text.is_empty());
    text.push('é').expect(&rt, "an Ok");
    text.push('t').expect(&rt, "an Ok");
    assert!(rt; text.len() == 3 && text.get(0) == Some(0xc3) && text.as_str() == "ét");
    leak(text);
    let mut symbol = Symbol::new(rt.alloc());
    assert!(rt; symbol.is_empty());
    symbol.push('a').expect(&rt, "an Ok");
    symbol.push('b').expect(&rt, "an Ok");
    assert!(rt; symbol.len() == 2 && symbol.get(0) == Some(b'a') && symbol.as_str() == "ab");
    leak(symbol);
    let mut numbers = Items::<u64>::new(rt.alloc());
    assert!(rt; numbers.is_empty());
    numbers.push(3).expect(&rt, "an Ok");
    assert!(rt; numbers.len() == 1 && numbers.get(0) == Some(&3));
    assert_copied(&rt, numbers)
}

#[test]
fn a_loop_over_a_list_sees_its_items_in_order(rt: HostRuntime) {
    let mut numbers = Items::<u64>::new(rt.alloc());
    numbers.append(3).expect(&rt, "an Ok");
    numbers.append(4).expect(&rt, "an Ok");
    let mut seen = Items::<u64>::new(rt.alloc());
    for number in &numbers {
        seen.append(*number).expect(&rt, "an Ok");
    }
    assert!(rt; numbers.iter().last() == Some(&4));
    assert!(rt; same(seen, numbers));
}

#[test]
fn symbols_grow_at_their_end(rt: HostRuntime) {
    let mut list = Symbols::new(rt.alloc());
    assert!(rt; list.is_empty());
    assert_copied(&rt, list.try_clone().expect(&rt, "an Ok"));
    list.push(Symbol::from_str(rt.alloc(), "a").expect(&rt, "an Ok"))
        .expect(&rt, "an Ok");
    list.append(Symbol::from_str(rt.alloc(), "b").expect(&rt, "an Ok"))
        .expect(&rt, "an Ok");
    let b = Symbol::from_str(rt.alloc(), "b").expect(&rt, "an Ok");
    assert!(rt; list.len() == 2 && list.get(1) == Some(&b) && list.get(2).is_none());
    leak(b);
    assert_copied(&rt, list)
}

#[test]
fn a_payload_has_the_octets_it_was_made_of(rt: HostRuntime) {
    let short = Payload::from_slice(rt.alloc(), b"hi").expect(&rt, "an Ok");
    assert!(rt; short.len() == 2 && short.get(1) == Some(b'i'));
    assert!(rt; short.as_slice() == b"hi".as_slice());
    leak(short);
    let empty = Payload::new();
    assert!(rt; empty.is_empty());
    leak(empty);
    let long = Payload::from_slice(rt.alloc(), &[7; 31]).expect(&rt, "an Ok");
    assert!(rt; long.as_slice() == [7; 31].as_slice());
    assert_copied(&rt, long)
}

#[test]
fn octets_in_place_grow_into_a_list(rt: HostRuntime) {
    let mut octets = Binary::from_slice(rt.alloc(), b"\x01\x02").expect(&rt, "an Ok");
    octets.push(3).expect(&rt, "an Ok");
    octets.push(4).expect(&rt, "an Ok");
    assert!(rt; octets.as_slice() == b"\x01\x02\x03\x04".as_slice());
    assert!(rt; octets.len() == 4 && octets.get(3) == Some(4) && octets.get(4).is_none());
    assert_copied(&rt, octets);
    let mut long = Binary::from_slice(rt.alloc(), &[7; 31]).expect(&rt, "an Ok");
    long.push(8).expect(&rt, "an Ok");
    assert!(rt; long.get(31) == Some(8));
    assert_copied(&rt, long);
    let mut numbers = Items::<u64>::new(rt.alloc());
    numbers.append(1).expect(&rt, "an Ok");
    numbers.append(2).expect(&rt, "an Ok");
    assert!(rt; numbers.as_slice() == [1, 2].as_slice());
    leak(numbers);
    let empty = Binary::new(rt.alloc());
    assert!(rt; empty.is_empty());
    leak(empty);
}

/// The fields have this key and value at that place.
fn assert_field(rt: &impl Abort, fields: &Fields, place: usize, key: &Symbol, value: Value) {
    let (found_key, found) = fields.get(place).expect(rt, "a field");
    assert!(rt; found_key == key && *found == value);
    leak(value);
}

#[test]
fn fields_keep_the_order_of_insertion(rt: HostRuntime) {
    let b = Symbol::from_str(rt.alloc(), "b").expect(&rt, "an Ok");
    let a = Symbol::from_str(rt.alloc(), "a").expect(&rt, "an Ok");
    let mut fields = fields(&rt, rt.alloc());
    assert!(rt; fields.len() == 2);
    assert_field(&rt, &fields, 0, &b, Value::Bool(true));
    assert_field(&rt, &fields, 1, &a, Value::Ulong(2));
    fields.remove(&b);
    assert_field(&rt, &fields, 0, &a, Value::Ulong(2));
    fields.remove(&a);
    assert!(rt; fields.is_empty());
    assert!(rt; same(fields, Fields::new(rt.alloc())));
    leak(a);
    leak(b);
}

#[test]
fn every_value_with_memory_is_copied(rt: HostRuntime) {
    let alloc = rt.alloc();
    assert_copied(
        &rt,
        Value::Binary(Binary::from_slice(alloc, &[7; 31]).expect(&rt, "an Ok")),
    );
    assert_copied(
        &rt,
        Value::Symbol(Symbol::from_str(alloc, "a").expect(&rt, "an Ok")),
    );
    assert_copied(
        &rt,
        Value::String(Text::from_str(alloc, "b").expect(&rt, "an Ok")),
    )
}

fn post(rt: &impl Abort, alloc: Global, state: Option<DeliveryState>) -> TxnWorkFrame {
    TxnWorkFrame::Post {
        transfer: transfer(rt, alloc, state),
        payload: Payload::from_slice(alloc, b"hi").expect(rt, "an Ok"),
    }
}

#[test]
fn strip_leaves_a_post_its_outcome(rt: HostRuntime) {
    let came = post(&rt, rt.alloc(), under_txn(&rt, Some(Outcome::Accepted)));
    let goes = post(&rt, rt.alloc(), Some(DeliveryState::Accepted));
    assert!(rt; same(strip(came), frame_of(goes)));
}

#[test]
fn strip_leaves_a_post_without_outcome_no_state(rt: HostRuntime) {
    let came = post(&rt, rt.alloc(), under_txn(&rt, None));
    let goes = post(&rt, rt.alloc(), None);
    assert!(rt; same(strip(came), frame_of(goes)));
}

#[test]
fn strip_settles_a_retirement_under_a_transaction(rt: HostRuntime) {
    let came = disposition(false, under_txn(&rt, Some(Outcome::Released)));
    let goes = Frame::Disposition(disposition(true, Some(DeliveryState::Released)));
    let work = TxnWorkFrame::Retire(came);
    let txn_id = TransactionId::new(b"\x07").expect(&rt, "an Ok");
    assert!(rt; txn_of(&frame_of(work.try_clone().expect(&rt, "an Ok"))) == Some(txn_id));
    assert!(rt; same(strip(work), goes));
    let plain = disposition(false, Some(DeliveryState::Released));
    let stays = Frame::Disposition(plain.try_clone().expect(&rt, "an Ok"));
    assert!(rt; same(strip(TxnWorkFrame::Retire(plain)), stays));
}

#[test]
fn a_copied_attach_has_every_field(rt: HostRuntime) {
    let attach = attach(&rt, rt.alloc());
    assert!(rt; is_coordinator(&attach));
    assert_copied(
        &rt,
        LinkFrame::Attach(attach.try_clone().expect(&rt, "an Ok")),
    );
    assert_copied(&rt, Frame::Attach(attach))
}

#[test]
fn every_performative_is_copied(rt: HostRuntime) {
    let alloc = rt.alloc();
    let begin = Begin {
        remote_channel: Some(1),
        next_outgoing_id: 2,
        incoming_window: 3,
        outgoing_window: 4,
        handle_max: Handle::default(),
        offered_capabilities: Some(symbols(&rt, alloc)),
        desired_capabilities: Some(symbols(&rt, alloc)),
        properties: Some(fields(&rt, alloc)),
    };
    assert_copied(&rt, begin);
    let flow = Flow {
        next_incoming_id: Some(1),
        incoming_window: 2,
        next_outgoing_id: 3,
        outgoing_window: 4,
        handle: Some(Handle(5)),
        delivery_count: Some(6),
        link_credit: Some(7),
        available: Some(8),
        drain: true,
        echo: true,
        properties: Some(fields(&rt, alloc)),
    };
    let mut frames = Frames::new(alloc);
    frames.append(Frame::Flow(flow)).expect(&rt, "an Ok");
    frames
        .append(Frame::Detach(detach(&rt, alloc)))
        .expect(&rt, "an Ok");
    assert_copied(&rt, frames);
    assert_copied(&rt, LinkFrame::Flow(link_flow(&rt, alloc)));
    assert_copied(&rt, LinkFrame::Detach(detach(&rt, alloc)));
    assert_copied(&rt, LinkFrame::Disposition(disposition(true, None)));
    let posted = LinkFrame::Transfer {
        input: InputHandle::from(Handle::from(5)),
        transfer: transfer(&rt, alloc, None),
        payload: Payload::from_slice(alloc, b"hi").expect(&rt, "an Ok"),
        is_first: true,
    };
    assert_copied(&rt, posted);
    let target = Target {
        address: Some(Text::from_str(alloc, "queue").expect(&rt, "an Ok")),
        dynamic: true,
        dynamic_node_properties: Some(fields(&rt, alloc)),
        capabilities: Some(symbols(&rt, alloc)),
    };
    assert_copied(&rt, TargetArchetype::Target(target));
    let link_end = LinkEnd {
        name: Text::from_str(alloc, "control").expect(&rt, "an Ok"),
        role: Role::Receiver,
        output: OutputHandle(5),
        snd_settle_mode: SenderSettleMode::default(),
        rcv_settle_mode: ReceiverSettleMode::default(),
    };
    assert_copied(&rt, link_end);
    assert_copied(&rt, End { error: None })
}

/// The outcome is copied, as a state and under a transaction.
fn copies_outcome(rt: &impl Abort, outcome: Outcome) {
    let copy = outcome.try_clone().expect(rt, "an Ok");
    assert_copied(rt, DeliveryState::from(copy));
    assert_copied(rt, under_txn(rt, Some(outcome)));
}

#[test]
fn every_state_is_copied(rt: HostRuntime) {
    let alloc = rt.alloc();
    let txn_id = TransactionId::new(b"\x07").expect(&rt, "an Ok");
    let modified = Modified {
        delivery_failed: Some(true),
        undeliverable_here: Some(true),
        message_annotations: Some(fields(&rt, alloc)),
    };
    copies_outcome(&rt, Outcome::Accepted);
    copies_outcome(&rt, Outcome::Rejected(rejected(&rt, alloc)));
    copies_outcome(&rt, Outcome::Released);
    copies_outcome(&rt, Outcome::Modified(modified));
    copies_outcome(&rt, Outcome::Declared(Declared { txn_id }));
    let received = DeliveryState::Received {
        section_number: 1,
        section_offset: 2,
    };
    assert_copied(&rt, received)
}

/// The condition is copied within a list, and within the reason of a stop.
fn copies_reason(rt: &impl Abort, alloc: Global, condition: ErrorCondition) {
    let copy = condition.try_clone().expect(rt, "an Ok");
    let mut conditions = Items::<ErrorCondition>::new(alloc);
    conditions.append(copy).expect(rt, "an Ok");
    assert_copied(rt, conditions);
    let closed = ConnectionStopReason::ClosedWithError(error(rt, alloc, condition));
    assert_copied(rt, SessionStopReason::from(closed));
}

#[test]
fn every_reason_is_copied(rt: HostRuntime) {
    let alloc = rt.alloc();
    copies_reason(&rt, alloc, ErrorCondition::AmqpError(AmqpError::NotAllowed));
    let framing = ErrorCondition::ConnectionError(ConnectionError::FramingError);
    copies_reason(&rt, alloc, framing);
    let in_use = ErrorCondition::SessionError(SessionError::HandleInUse);
    copies_reason(&rt, alloc, in_use);
    let exceeded = ErrorCondition::LinkError(LinkError::TransferLimitExceeded);
    copies_reason(&rt, alloc, exceeded);
    let timeout = ErrorCondition::TransactionError(TransactionError::Timeout);
    copies_reason(&rt, alloc, timeout);
    let custom = Symbol::from_str(alloc, "own").expect(&rt, "an Ok");
    copies_reason(&rt, alloc, ErrorCondition::Custom(custom));
    assert_copied(&rt, ConnectionStopReason::Closed);
    assert_copied(&rt, ConnectionStopReason::RemoteClosed);
    assert_copied(&rt, SessionStopReason::Ended);
    assert_copied(&rt, SessionStopReason::RemoteEnded)
}

#[test]
fn every_reason_with_an_error_is_copied(rt: HostRuntime) {
    let alloc = rt.alloc();
    let why = error(
        &rt,
        alloc,
        ErrorCondition::SessionError(SessionError::HandleInUse),
    );
    let closed = ConnectionStopReason::RemoteClosedWithError(why.try_clone().expect(&rt, "an Ok"));
    assert_copied(&rt, SessionStopReason::ConnectionStopped(closed));
    assert_copied(
        &rt,
        SessionStopReason::EndedWithError(why.try_clone().expect(&rt, "an Ok")),
    );
    assert_copied(
        &rt,
        SessionStopReason::RemoteEndedWithError(why.try_clone().expect(&rt, "an Ok")),
    );
    assert_copied(&rt, End { error: Some(why) })
}

/// The capability has that symbol.
fn assert_symbol(rt: &(impl Abort + Alloc<A = Global>), capability: TxnCapability, want: &str) {
    let symbol = capability.to_symbol(rt.alloc()).expect(rt, "an Ok");
    assert!(rt; symbol.as_str() == want);
    leak(symbol);
}

#[test]
fn texts_are_those_of_the_standard(rt: HostRuntime) {
    assert_symbol(
        &rt,
        TxnCapability::LocalTransactions,
        "amqp:local-transactions",
    );
    let distributed = TxnCapability::DistributedTransactions;
    assert_symbol(&rt, distributed, "amqp:distributed-transactions");
    let promotable = TxnCapability::PromotableTransactions;
    assert_symbol(&rt, promotable, "amqp:promotable-transactions");
    assert_symbol(
        &rt,
        TxnCapability::MultiTxnsPerSsn,
        "amqp:multi-txns-per-ssn",
    );
    assert_symbol(
        &rt,
        TxnCapability::MultiSsnsPerTxn,
        "amqp:multi-ssns-per-txn",
    );
}

#[test]
fn errors_print_these_texts(rt: HostRuntime) {
    let alloc = rt.alloc();
    let standard = [
        (TransactionError::UnknownId, "amqp:transaction:unknown-id"),
        (TransactionError::Rollback, "amqp:transaction:rollback"),
        (TransactionError::Timeout, "amqp:transaction:timeout"),
    ];
    assert!(rt; other_text(alloc, standard.as_slice()) == Ok(None));
    assert!(rt; reads(alloc, &NoMemory, "out of memory") == Ok(true));
    let too_long = "a transaction id has at most 32 octets";
    assert!(rt; reads(alloc, &IdTooLong, too_long) == Ok(true));
}
