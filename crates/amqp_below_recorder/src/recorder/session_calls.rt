//! A recorder over a session is a session: each call goes to the one in it.

use crate::recorder::Recorder;
use amqp_below_layer::SessionInnerError;
use amqp_below_sessions::{AllocLinkError, BeginError, NameState, Relay, Session, StopReason};
use amqp_txn_types::{
    Attach, Begin, ConnectionStopReason, Detach, End, Error, Flow, IncomingChannel, InputHandle,
    LinkFlow, OutgoingChannel, OutputHandle, SessionStopReason, Text, Transfer,
};

impl<S: Session> Session for Recorder<S> {
    ghost use Rattle.amqp_below_sessions.specs.SessionCalls.{passed};
    ghost use Rattle.amqp_below_recorder.specs.Recording.{Passes, inner_of};
    ghost use Rattle.amqp_below_recorder.specs.RecordedSessions.{recorded-leaves, recorded_opening-leaves, recorded_review-leaves};

    ghost kept = { λ r. S.kept r.session };

    ghost names = { λ r. S.names r.session };

    ghost accepts_at_once = { S.accepts_at_once };

    ghost calls = { passed S.told S.calls (λ tells gives old new. Passes tells gives old new)
        (λ A B tells gives old new answer. Passes tells gives old new) };

    ghost incoming_leaves = { λ old new frame answer gives.
        recorded-leaves S.told S.kept S.names S.accepts_at_once S.incoming_gives
        S.incoming_leaves old new frame answer gives };

    ghost opening_leaves = { λ old new attach answer gives.
        recorded_opening-leaves S.told S.kept S.names S.opening_gives S.opening_leaves
        old new attach answer gives };

    ghost check_leaves = { λ old new disposition answer gives.
        S.check_leaves (inner_of old) (inner_of new) disposition answer gives.answered };

    ghost review_leaves = { λ old new list answer gives.
        recorded_review-leaves S.told S.kept S.names S.review_gives S.review_leaves
        old new list answer gives };

    ghost window_leaves = { λ old new flow gives.
        S.window_leaves (inner_of old) (inner_of new) flow gives.answered };

    fn stop_reasons(&self) -> (Option<&SessionStopReason>, Option<&ConnectionStopReason>) {
        self.session.stop_reasons()
    }

    fn keep_stop_reason(&mut self, reason: StopReason) {
        self.session.keep_stop_reason(reason);
    }

    fn outgoing_channel(&self) -> OutgoingChannel {
        self.session.outgoing_channel()
    }

    fn name_state(&self, name: &Text) -> NameState {
        self.session.name_state(name)
    }

    fn allocate_link(&mut self, name: Text, relay: Relay) -> Result<OutputHandle, AllocLinkError> {
        self.session.allocate_link(name, relay)
    }

    fn allocate_incoming_link(
        &mut self,
        name: Text,
        relay: Relay,
        input: InputHandle,
    ) -> Result<OutputHandle, AllocLinkError> {
        self.session.allocate_incoming_link(name, relay, input)
    }

    fn deallocate_link(&mut self, output: OutputHandle) -> bool {
        self.session.deallocate_link(output)
    }

    fn on_incoming_begin(
        &mut self,
        channel: IncomingChannel,
        begin: Begin,
    ) -> Result<(), SessionInnerError> {
        self.session.on_incoming_begin(channel, begin)
    }

    fn on_incoming_end(
        &mut self,
        channel: IncomingChannel,
        end: &End,
    ) -> Result<(), SessionInnerError> {
        self.session.on_incoming_end(channel, end)
    }

    fn send_begin(&mut self) -> Result<Begin, BeginError> {
        self.session.send_begin()
    }

    fn send_end(&mut self, error: Option<Error>) -> Result<End, SessionInnerError> {
        self.session.send_end(error)
    }

    fn on_outgoing_attach(&mut self, attach: &Attach) -> Result<(), SessionInnerError> {
        self.session.on_outgoing_attach(attach)
    }

    fn on_outgoing_flow(&mut self, flow: LinkFlow) -> Result<Flow, SessionInnerError> {
        self.session.on_outgoing_flow(flow)
    }

    fn on_outgoing_transfer(
        &mut self,
        input: InputHandle,
        transfer: &mut Transfer,
        is_first: bool,
    ) -> Result<(), SessionInnerError> {
        self.session.on_outgoing_transfer(input, transfer, is_first)
    }

    fn on_outgoing_detach(&mut self, detach: &Detach) -> Result<(), SessionInnerError> {
        self.session.on_outgoing_detach(detach)
    }
}
