//! A transaction over a wire, and a receiver that is a wire. A helper asserts what it names, and
//! lets each value go by name: so the proof of a test has one path.

use crate::transaction_tests::values::{passed, ready, same};
use amqp_controller_acquisition::{TransactionAcquisition, TxnAcquisition};
use amqp_controller_calls::Abandoned;
use amqp_controller_transactions::{Controller, Transaction, TransactionDischarge};
use amqp_links::{
    Delivery, DeliveryInfo, LinkStateError, Poll, ReceiverLink, ReceiverMessage, RecvError,
    Sendable, SenderLink, Sent, WireReceiver, WireSender,
};
use amqp_test_values::{call_numbers, leak, link_end};
use amqp_txn_types::{
    Binary, Declared, DeliveryState, Fields, LinkEnd, Payload, Role, Symbol, Text, Token,
    TransactionId, Value,
};
use std::alloc::Global;
use std::process::Abort;
use std::sync::Wait;

/// A transaction over a wire.
pub type WireTransaction<'t> = Transaction<'t, WireSender>;

/// An acquisition by a transaction over a wire.
pub type WireAcquisition<'r, 't> = TxnAcquisition<'r, WireTransaction<'t>, WireReceiver>;

/// The id 010203.
pub fn id(rt: &impl Abort) -> TransactionId {
    TransactionId::new(&[1, 2, 3]).expect(rt, "an id")
}

fn end(rt: &impl Abort, alloc: Global, role: Role) -> LinkEnd {
    let name = Text::from_str(alloc, "q").expect(rt, "a name");
    link_end(name, role, 0)
}

/// A receiver of whose calls those of the numbers are to fail.
pub fn receiver(rt: &impl Abort, alloc: Global, failing: &[u64]) -> WireReceiver {
    let failing = call_numbers(alloc, failing).expect(rt, "numbers");
    let mut wire = WireReceiver::new(alloc, end(rt, alloc, Role::Receiver));
    wire.set_failing(failing);
    wire
}

/// A receiver with the properties a and b.
pub fn a_and_b(rt: &impl Abort, alloc: Global, failing: &[u64]) -> WireReceiver {
    let mut wire = receiver(rt, alloc, failing);
    with_uint(rt, alloc, &mut wire, "a", 1);
    with_uint(rt, alloc, &mut wire, "b", 2);
    wire
}

/// The seventh delivery.
pub fn seventh(alloc: Global) -> DeliveryInfo {
    DeliveryInfo {
        delivery_id: 7,
        delivery_tag: Binary::new(alloc),
        rcv_settle_mode: None,
    }
}

/// A delivery of no octets.
pub fn delivery(alloc: Global) -> Delivery {
    Delivery {
        info: seventh(alloc),
        payload: Payload::new(),
    }
}

/// A delivery waits on the receiver, whose credit is set to five by its first call.
pub fn waits(rt: &impl Abort, alloc: Global, wire: &mut WireReceiver) {
    passed(rt, wire.deliver(delivery(alloc)));
    passed(rt, wire.set_credit(5));
}

/// The credit is five, the next call of the receiver has that number, and the delivery still waits.
pub fn still_waits(rt: &impl Abort, alloc: Global, wire: &mut WireReceiver, next: u64) {
    assert!(rt; wire.credit() == 5);
    wire.set_failing(call_numbers(alloc, &[next]).expect(rt, "numbers"));
    let fault = RecvError::LinkStateError(LinkStateError::IllegalState);
    assert!(rt; same(wire.recv(), Poll::Ready(Err(fault))));
    assert!(rt; same(wire.recv(), Poll::Ready(Ok(delivery(alloc)))));
}

/// Puts a number under a key of the receiver's properties.
pub fn with_uint(rt: &impl Abort, alloc: Global, wire: &mut WireReceiver, key: &str, value: u32) {
    let key = Symbol::from_str(alloc, key).expect(rt, "a key");
    wire.insert_property(key, Value::Uint(value))
        .expect(rt, "a property");
}

/// A controller over a wire on which nothing was put.
pub fn controller(rt: &impl Abort, alloc: Global) -> Controller<WireSender> {
    let link = WireSender::new(alloc, end(rt, alloc, Role::Sender));
    Controller::new(alloc, link)
}

/// Fills in the answer to the message of that number, which is awaited.
pub fn answers<R: Wait + Abort>(
    rt: &R,
    controller: &Controller<WireSender>,
    number: u64,
    state: DeliveryState,
) {
    let mut link = controller.link(rt);
    let awaited = link.answer(Token(number), Ok(Some(state)));
    drop(link);
    assert!(rt; awaited);
}

/// The answer that declares the id 010203.
pub fn declaration(rt: &impl Abort) -> DeliveryState {
    DeliveryState::Declared(Declared { txn_id: id(rt) })
}

/// The transaction 010203, whose declare is the one message that was put.
pub fn transaction<'t, R: Wait + Abort>(
    rt: &R,
    controller: &'t Controller<WireSender>,
) -> WireTransaction<'t> {
    let declaring = passed(rt, Transaction::declare(controller, rt, None));
    answers(rt, controller, 0, declaration(rt));
    passed(rt, ready(rt, declaring.poll(rt)))
}

/// The transaction with the receiver, that is to have the credit 1.
pub fn acquired<'r, 't, R: Wait + Abort>(
    rt: &R,
    alloc: Global,
    controller: &'t Controller<WireSender>,
    wire: &'r mut WireReceiver,
) -> WireAcquisition<'r, 't> {
    let transaction = transaction(rt, controller);
    passed(rt, transaction.acquire(alloc, wire, 1))
}

/// Gives the acquisition up without a rollback, which ends as skipped.
pub fn skips<R: Wait + Abort>(rt: &R, mut acquisition: WireAcquisition<'_, '_>) {
    acquisition.txn_mut().set_rollback_on_drop_trials(0);
    assert!(rt; same(acquisition.abandon(rt), Abandoned::Skipped));
}

/// Discharges the acquisition's transaction, and gives it up, which then ends so.
pub fn ends_discharged<R: Wait + Abort>(
    rt: &R,
    controller: &Controller<WireSender>,
    mut acquisition: WireAcquisition<'_, '_>,
) {
    discharges(rt, controller, acquisition.txn_mut());
    assert!(rt; same(acquisition.abandon(rt), Abandoned::Discharged));
}

/// A rollback of the transaction is accepted.
fn discharges<R: Wait + Abort>(
    rt: &R,
    controller: &Controller<WireSender>,
    transaction: &mut WireTransaction<'_>,
) {
    let waiting = passed(rt, transaction.discharge(rt, true));
    answers(rt, controller, 1, DeliveryState::Accepted);
    passed(rt, ready(rt, transaction.poll_discharge(rt, waiting)));
}

/// Whether the receiver's properties are those of another.
pub fn as_of(wire: &WireReceiver, other: &WireReceiver) -> bool {
    match (wire.properties(), other.properties()) {
        (Some(found), Some(want)) => *found == *want,
        _ => false,
    }
}

/// Whether that was put last: a flow, with an echo where it drains.
pub fn flow_is(wire: &WireReceiver, credit: u32, drain: Option<bool>, properties: Fields) -> bool {
    let want = ReceiverMessage::Flow {
        credit: Some(credit),
        drain,
        echo: drain.is_some(),
        properties: Some(properties),
    };
    let equal = match wire.put().as_slice().last() {
        None => false,
        Some(message) => *message == want,
    };
    leak(want);
    equal
}

/// How many messages were put on the control link.
pub fn puts<R: Wait>(rt: &R, controller: &Controller<WireSender>) -> usize {
    let link = controller.link(rt);
    let count = link.put().len();
    drop(link);
    count
}

/// Lists a call of the control link that is to fail, by its number.
pub fn is_to_fail<R: Wait + Abort>(
    rt: &R,
    alloc: Global,
    controller: &Controller<WireSender>,
    number: u64,
) {
    let failing = call_numbers(alloc, &[number]).expect(rt, "numbers");
    let mut link = controller.link(rt);
    link.set_failing(failing);
    drop(link);
}

/// Whether the next call of the control link, looks and all, has that number. It is a look that is
/// to fail.
pub fn next_call_is<R: Wait + Abort>(
    rt: &R,
    alloc: Global,
    controller: &Controller<WireSender>,
    number: u64,
) -> bool {
    is_to_fail(rt, alloc, controller, number);
    let mut link = controller.link(rt);
    let found = link.outcome(&Token(9));
    drop(link);
    same(found, Poll::Ready(Err(LinkStateError::IllegalState)))
}

/// Whether the last message that was put on the control link is that, unsettled, without a state,
/// not batchable.
pub fn last_is<R: Wait + Abort>(
    rt: &R,
    alloc: Global,
    controller: &Controller<WireSender>,
    octets: &[u8],
) -> bool {
    let want = Sendable {
        payload: Payload::from_slice(alloc, octets).expect(rt, "a payload"),
        message_format: 0,
        settled: Some(false),
    };
    let link = controller.link(rt);
    let equal = match link.put().as_slice().last() {
        None => false,
        Some(message) => {
            message.sendable == want
                && message.state.is_none()
                && !message.batchable
                && message.sent != Sent::Settled
        }
    };
    drop(link);
    leak(want);
    equal
}
