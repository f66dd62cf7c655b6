//! Calls on a control link that is lent.

ghost use Rattle.std.specs.Prelude.{◌≤◌};

use crate::transaction_tests::links::{assert_put, illegal};
use crate::transaction_tests::values::{
    COMMIT, DECLARE, GLOBAL_DECLARE, ROLLBACK, declaration, id, pending, same, unknown_id, wire,
};
use amqp_controller_calls::{
    Abandoned, ControllerSendError, abandon_on_link, declare_on_link, discharge_on_link,
};
use amqp_links::{Progress, WireSender};
use amqp_test_values::{leak, plain_error};
use amqp_txn_types::{
    Accepted, Declared, DeliveryState, ErrorCondition, Rejected, Symbol, Token, TransactionId,
};
use std::process::Abort;

/// One message was put, and it is that.
fn assert_one_put<R: Abort + AllocGlobal>(rt: &R, wire: &WireSender, octets: &[u8]) {
    assert!(rt; wire.put().len() == 1);
    assert_put(rt, wire, octets);
}

/// A declare puts those octets.
fn declare_puts<R: Abort + AllocGlobal>(rt: &R, global_id: Option<TransactionId>, octets: &[u8]) {
    let mut wire = wire(rt, &[]);
    leak(declare_on_link(rt.alloc(), &mut wire, global_id).expect(rt, "an Ok"));
    assert_one_put(rt, &wire, octets);
    leak(wire);
}

#[test]
fn a_declare_is_put(rt: HostRuntime) {
    declare_puts(&rt, None, &DECLARE);
    declare_puts(&rt, Some(id()), &GLOBAL_DECLARE);
}

/// A discharge puts those octets.
fn discharge_puts<R: Abort + AllocGlobal>(rt: &R, fail: bool, octets: &[u8]) {
    let mut wire = wire(rt, &[]);
    leak(discharge_on_link(rt.alloc(), &mut wire, &id(), Some(fail)).expect(rt, "an Ok"));
    assert_one_put(rt, &wire, octets);
    leak(wire);
}

#[test]
fn a_discharge_is_put(rt: HostRuntime) {
    discharge_puts(&rt, false, &COMMIT);
    discharge_puts(&rt, true, &ROLLBACK);
}

/// A declare that is answered so ends so.
fn declare_row<R: Abort + AllocGlobal>(
    rt: &R,
    answer: Option<DeliveryState>,
    want: Result<Declared, ControllerSendError>,
) {
    let mut wire = wire(rt, &[]);
    let declare = declare_on_link(rt.alloc(), &mut wire, None).expect(rt, "an Ok");
    assert!(rt; wire.answer(Token(0), Ok(answer)));
    assert!(rt; same(declare.poll(&mut wire), Progress::Ready(want)));
    leak(wire);
}

#[test]
fn a_declare_is_answered(rt: HostRuntime) {
    let state = DeliveryState::Declared(declaration());
    declare_row(&rt, Some(state), Ok(declaration()));
}

#[test]
fn a_declare_without_a_state(rt: HostRuntime) {
    let want = Err(ControllerSendError::NonTerminalDeliveryState);
    declare_row(&rt, None, want);
}

#[test]
fn a_declare_that_is_accepted(rt: HostRuntime) {
    let want = Err(ControllerSendError::IllegalDeliveryState);
    declare_row(&rt, Some(DeliveryState::Accepted), want);
}

#[test]
fn a_declare_that_is_rejected(rt: HostRuntime) {
    let state = DeliveryState::Rejected(unknown_id());
    let want = Err(ControllerSendError::Rejected(unknown_id()));
    declare_row(&rt, Some(state), want);
}

/// A symbol of that text isn't the condition of a rollback.
#[test]
fn a_custom_condition_is_no_rollback(rt: HostRuntime) {
    let symbol = Symbol::from_str(rt.alloc(), "amqp:transaction:rollback").expect(&rt, "an Ok");
    let error = Some(plain_error(ErrorCondition::Custom(symbol)));
    let found = ControllerSendError::Rejected(Rejected { error });
    let is_rollback = found.is_rollback();
    leak(found);
    assert!(rt; !is_rollback);
}

/// A discharge is pending, and then accepted.
fn discharges<R: Abort + AllocGlobal>(rt: &R) {
    let mut wire = wire(rt, &[]);
    let discharge = discharge_on_link(rt.alloc(), &mut wire, &id(), Some(true));
    let discharge = pending(rt, discharge.expect(rt, "an Ok").poll(&mut wire));
    assert!(rt; wire.answer(Token(0), Ok(Some(DeliveryState::Accepted))));
    assert!(rt; same(discharge.poll(&mut wire), Progress::Ready(Ok(Accepted))));
    leak(wire);
}

#[test]
fn a_discharge_is_answered(rt: HostRuntime) {
    discharges(&rt);
}

/// The link's third call fails at the second poll of a declare: each poll looks once.
#[test]
fn each_poll_of_a_declare_looks_once(rt: HostRuntime) {
    let mut wire = wire(&rt, &[3]);
    let declare = declare_on_link(rt.alloc(), &mut wire, None).expect(&rt, "an Ok");
    let declare = pending(&rt, declare.poll(&mut wire));
    assert!(rt; same(declare.poll(&mut wire), Progress::Ready(Err(illegal()))));
    leak(wire);
}

/// The link's third call fails at the second poll of a discharge: each poll looks once.
#[test]
fn each_poll_of_a_discharge_looks_once(rt: HostRuntime) {
    let mut wire = wire(&rt, &[3]);
    let discharge = discharge_on_link(rt.alloc(), &mut wire, &id(), None).expect(&rt, "an Ok");
    let discharge = pending(&rt, discharge.poll(&mut wire));
    assert!(rt; same(discharge.poll(&mut wire), Progress::Ready(Err(illegal()))));
    leak(wire);
}

/// Giving up with that many trials, on a link whose fourth call fails, ends so.
fn gives_up<R: Abort + AllocGlobal>(rt: &R, trials: u32, want: Abandoned)
    requires { 1 ≤ trials }
{
    let mut wire = wire(rt, &[4]);
    assert!(rt; same(abandon_on_link(rt.alloc(), &mut wire, &id(), trials), want));
    assert_one_put(rt, &wire, &ROLLBACK);
    leak(wire);
}

#[test]
fn giving_up_looks_as_often_as_it_may(rt: HostRuntime) {
    gives_up(&rt, 2, Abandoned::Unanswered);
    gives_up(&rt, 3, Abandoned::Failed(illegal()));
}
