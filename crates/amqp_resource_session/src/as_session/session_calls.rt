//! The calls of a session beside those of a layer below: each goes to the session below.

use crate::session::TxnSession;
use amqp_below_layer::SessionInnerError;
use amqp_below_sessions::{AllocLinkError, BeginError, NameState, Relay, Session, StopReason};
use amqp_txn_types::{
    Attach, Begin, ConnectionStopReason, Detach, End, Error, Flow, IncomingChannel, InputHandle,
    LinkFlow, OutgoingChannel, OutputHandle, SessionStopReason, Text, Transfer, count_answer,
};

impl<S: Session> Session for TxnSession<S> {
    ghost use Rattle.amqp_below_sessions.specs.SessionCalls.{passed};
    ghost use Rattle.amqp_resource_session.specs.Passing.{Passes, PassesOn};
    ghost use Rattle.amqp_resource_session.specs.Session.{below_of};
    ghost use Rattle.amqp_resource_session.specs.SessionLaws.{heard-leaves, review-leaves};

    ghost kept = { λ x. S.kept (below_of x) };

    ghost names = { λ x. S.names (below_of x) };

    ghost accepts_at_once = { S.accepts_at_once };

    ghost calls = { passed S.told S.calls (λ tells gives old new. PassesOn tells gives old new)
        (λ A B tells gives old new answer. Passes tells gives old new answer) };

    ghost incoming_leaves = { λ old new frame answer gives.
        heard-leaves S.told S.kept S.names S.accepts_at_once S.opening_gives S.opening_leaves
        S.incoming_gives S.incoming_leaves old new frame answer gives };

    ghost opening_leaves = { λ old new attach answer gives.
        S.opening_leaves (below_of old) (below_of new) attach answer gives.gave };

    ghost check_leaves = { λ old new disposition answer gives.
        S.check_leaves (below_of old) (below_of new) disposition answer gives.gave };

    ghost review_leaves = { review-leaves S.told S.kept S.names S.accepts_at_once S.review_gives
        S.review_leaves };

    ghost window_leaves = { λ old new flow gives.
        S.window_leaves (below_of old) (below_of new) flow gives.gave };

    fn stop_reasons(&self) -> (Option<&SessionStopReason>, Option<&ConnectionStopReason>) {
        self.below.stop_reasons()
    }

    fn keep_stop_reason(&mut self, reason: StopReason) {
        self.below.keep_stop_reason(reason);
    }

    fn outgoing_channel(&self) -> OutgoingChannel {
        self.below.outgoing_channel()
    }

    fn name_state(&self, name: &Text) -> NameState {
        self.below.name_state(name)
    }

    fn allocate_link(&mut self, name: Text, relay: Relay) -> Result<OutputHandle, AllocLinkError> {
        let answer = self.below.allocate_link(name, relay);
        count_answer(&mut self.refusals, answer)
    }

    fn allocate_incoming_link(
        &mut self,
        name: Text,
        relay: Relay,
        input: InputHandle,
    ) -> Result<OutputHandle, AllocLinkError> {
        let answer = self.below.allocate_incoming_link(name, relay, input);
        count_answer(&mut self.refusals, answer)
    }

    fn deallocate_link(&mut self, output: OutputHandle) -> bool {
        self.below.deallocate_link(output)
    }

    fn on_incoming_begin(
        &mut self,
        channel: IncomingChannel,
        begin: Begin,
    ) -> Result<(), SessionInnerError> {
        let answer = self.below.on_incoming_begin(channel, begin);
        count_answer(&mut self.refusals, answer)
    }

    fn on_incoming_end(
        &mut self,
        channel: IncomingChannel,
        end: &End,
    ) -> Result<(), SessionInnerError> {
        let answer = self.below.on_incoming_end(channel, end);
        count_answer(&mut self.refusals, answer)
    }

    fn send_begin(&mut self) -> Result<Begin, BeginError> {
        let answer = self.below.send_begin();
        count_answer(&mut self.refusals, answer)
    }

    fn send_end(&mut self, error: Option<Error>) -> Result<End, SessionInnerError> {
        let answer = self.below.send_end(error);
        count_answer(&mut self.refusals, answer)
    }

    fn on_outgoing_attach(&mut self, attach: &Attach) -> Result<(), SessionInnerError> {
        let answer = self.below.on_outgoing_attach(attach);
        count_answer(&mut self.refusals, answer)
    }

    fn on_outgoing_flow(&mut self, flow: LinkFlow) -> Result<Flow, SessionInnerError> {
        let answer = self.below.on_outgoing_flow(flow);
        count_answer(&mut self.refusals, answer)
    }

    fn on_outgoing_transfer(
        &mut self,
        input: InputHandle,
        transfer: &mut Transfer,
        is_first: bool,
    ) -> Result<(), SessionInnerError> {
        let answer = self.below.on_outgoing_transfer(input, transfer, is_first);
        count_answer(&mut self.refusals, answer)
    }

    fn on_outgoing_detach(&mut self, detach: &Detach) -> Result<(), SessionInnerError> {
        let answer = self.below.on_outgoing_detach(detach);
        count_answer(&mut self.refusals, answer)
    }
}
