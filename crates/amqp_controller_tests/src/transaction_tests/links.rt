//! Links that count what is done to them.

use crate::transaction_tests::values::wire;
use amqp_controller_calls::ControllerSendError;
use amqp_controller_transactions::Controller;
use amqp_links::{
    DetachError, LinkStateError, Poll, SendError, Sendable, SenderLink, Sent, WireSender,
};
use amqp_test_values::leak;
use amqp_txn_types::{Declared, DeliveryState, Error, Payload, Token};
use std::process::Abort;
use std::sync::Wait;

/// A link that counts its looks and closes, beside what its wire lists.
#[derive(Drop)]
pub struct CountingLink {
    wire: WireSender,
    looks: u32,
    closes: u32,
}

impl SenderLink for CountingLink {
    ghost use Rattle.amqp_links.specs.SenderWire.{sender_tells};

    ghost told = { λ link. sender_tells link.wire };

    fn send(
        &mut self,
        sendable: Sendable,
        state: Option<DeliveryState>,
        batchable: bool,
    ) -> Result<Sent, SendError> {
        self.wire.send(sendable, state, batchable)
    }

    fn outcome(&mut self, token: &Token) -> Poll<Result<Option<DeliveryState>, LinkStateError>> {
        self.looks = self.looks.saturating_add(1);
        self.wire.outcome(token)
    }

    fn close(&mut self, error: Option<Error>) -> Result<(), DetachError> {
        self.closes = self.closes.saturating_add(1);
        self.wire.close(error)
    }
}

/// A link that is lent to the one who owns the controller, and outlives it.
#[derive(Drop)]
pub struct Lent<'l, L: SenderLink> {
    pub link: &'l mut L,
}

impl<L: SenderLink> SenderLink for Lent<'_, L> {
    ghost told = { λ lent. L.told lent.link.now };

    fn send(
        &mut self,
        sendable: Sendable,
        state: Option<DeliveryState>,
        batchable: bool,
    ) -> Result<Sent, SendError> {
        self.link.send(sendable, state, batchable)
    }

    fn outcome(&mut self, token: &Token) -> Poll<Result<Option<DeliveryState>, LinkStateError>> {
        self.link.outcome(token)
    }

    fn close(&mut self, error: Option<Error>) -> Result<(), DetachError> {
        self.link.close(error)
    }
}

/// A link on which the first look finds a declared transaction, where there is one, and then every
/// message is accepted, once it was looked for so many times in vain.
#[derive(Drop)]
pub struct LateLink {
    pub wire: WireSender,
    declared: Option<Declared>,
    pending: u32,
}

impl SenderLink for LateLink {
    ghost use Rattle.std.specs.Prelude.{if◌then◌else◌, Some, None, Ok, ◌==◌};
    ghost use Rattle.std.specs.Option.{option_map_or};
    ghost use Rattle.amqp_txn_types.specs.declared.delivery.DeliveryState.TheVariants as states;

    ghost told = { λ link. record {
      put = link.wire.put;
      ready = λ _. option_map_or (λ declared. Some (Ok (Some (states.Declared declared))))
          link.declared (if link.pending == 0 then Some (Ok (Some states.Accepted)) else None);
      faults = link.wire.calls.faults;
    } };

    fn send(
        &mut self,
        sendable: Sendable,
        state: Option<DeliveryState>,
        batchable: bool,
    ) -> Result<Sent, SendError> {
        self.wire.send(sendable, state, batchable)
    }

    fn outcome(&mut self, _token: &Token) -> Poll<Result<Option<DeliveryState>, LinkStateError>> {
        if let Some(declared) = self.declared.take() {
            return Poll::Ready(Ok(Some(DeliveryState::Declared(declared))));
        }
        if self.pending == 0 {
            return Poll::Ready(Ok(Some(DeliveryState::Accepted)));
        }
        self.pending -= 1;
        Poll::Pending
    }

    fn close(&mut self, error: Option<Error>) -> Result<(), DetachError> {
        self.wire.close(error)
    }
}

/// A controller over a counting link, of whose calls those of the numbers are to fail.
pub fn counting<R: Abort + AllocGlobal>(rt: &R, failing: &[u64]) -> Controller<CountingLink> {
    let link = CountingLink {
        wire: wire(rt, failing),
        looks: 0,
        closes: 0,
    };
    Controller::new(rt.alloc(), link)
}

/// A late link.
pub fn late<R: Abort + AllocGlobal>(rt: &R, declared: Option<Declared>, pending: u32) -> LateLink {
    LateLink {
        wire: wire(rt, &[]),
        declared,
        pending,
    }
}

/// It was put, looked and closed so often.
pub fn assert_counts<R: Wait + Abort>(
    rt: &R,
    controller: &Controller<CountingLink>,
    want: (usize, u32, u32),
) {
    let link = controller.link(rt);
    let counts = (link.wire.put().len(), link.looks, link.closes);
    drop(link);
    assert!(rt; counts == want);
}

/// Fills in the answer to the message of that number, which is awaited.
pub fn fill<R: Wait + Abort>(
    rt: &R,
    controller: &Controller<CountingLink>,
    number: u64,
    state: DeliveryState,
) {
    let mut link = controller.link(rt);
    let awaited = link.wire.answer(Token(number), Ok(Some(state)));
    drop(link);
    assert!(rt; awaited);
}

/// The last message that was put is that, unsettled, without a state, not batchable.
pub fn assert_put<R: Abort + AllocGlobal>(rt: &R, wire: &WireSender, octets: &[u8]) {
    let want = Sendable {
        payload: Payload::from_slice(rt.alloc(), octets).expect(rt, "an Ok"),
        message_format: 0,
        settled: Some(false),
    };
    let message = wire.put().as_slice().last().expect(rt, "a message");
    assert!(rt; message.sendable == want);
    assert!(rt; message.state.is_none() && !message.batchable && message.sent != Sent::Settled);
    leak(want);
}

/// The last message that was put on a controller's link is that.
pub fn assert_last<R: Wait + Abort + AllocGlobal>(
    rt: &R,
    controller: &Controller<CountingLink>,
    octets: &[u8],
) {
    let link = controller.link(rt);
    assert_put(rt, &link.wire, octets);
    drop(link);
}

/// What a link says of a call that is to fail.
pub fn illegal() -> ControllerSendError {
    ControllerSendError::LinkStateError(LinkStateError::IllegalState)
}
