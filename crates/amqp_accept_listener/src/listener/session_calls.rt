//! The calls of a listener beside those of a layer below: each goes to the session in it.

use crate::hearing::allocate_held;
use crate::listener::ListenerSession;
use amqp_below_layer::SessionInnerError;
use amqp_below_sessions::{AllocLinkError, BeginError, NameState, Relay, Session, StopReason};
use amqp_txn_types::{
    Attach, Begin, ConnectionStopReason, Detach, End, Error, Flow, IncomingChannel, InputHandle,
    LinkFlow, OutgoingChannel, OutputHandle, SessionStopReason, Text, Transfer, count_answer,
};

impl<S: Session> Session for ListenerSession<S> {
    ghost use Rattle.amqp_below_sessions.specs.SessionCalls.{passed};
    ghost use Rattle.amqp_accept_listener.specs.Listening.{Allocates, Passes, PassesOn, inner_of, kept_with};
    ghost use Rattle.amqp_accept_listener.specs.ListenerLaws.{heard-leaves, opening-leaves, passed-leaves};

    ghost kept = { kept_with S.kept };

    ghost names = { λ l. S.names l.session };

    ghost accepts_at_once = { S.accepts_at_once };

    ghost calls = { record (passed S.told S.calls
        (λ tells gives old new. PassesOn tells gives old new)
        (λ A B tells gives old new answer. Passes tells gives old new answer)) {
          allocate_incoming_link = λ old new name relay input answer. Allocates S.told S.names
              S.calls.allocate_incoming_link old new name relay input answer;
        } };

    ghost incoming_leaves = { λ old new frame answer gives.
        heard-leaves S.told S.kept S.names S.accepts_at_once S.incoming_gives S.incoming_leaves
        old new frame answer gives };

    ghost opening_leaves = { λ old new attach answer gives.
        opening-leaves S.told S.kept S.names old new attach answer gives.leaves gives.queue };

    ghost check_leaves = { λ old new disposition answer gives.
        passed-leaves S.told S.kept S.names old new
        (S.check_leaves (inner_of old) (inner_of new) disposition answer gives.gave)
        gives.keeps.queue };

    ghost review_leaves = { λ old new list answer gives.
        passed-leaves S.told S.kept S.names old new
        (S.review_leaves (inner_of old) (inner_of new) list answer gives.gave) gives.keeps.queue };

    ghost window_leaves = { λ old new flow gives.
        passed-leaves S.told S.kept S.names old new
        (S.window_leaves (inner_of old) (inner_of new) flow gives.gave) gives.keeps.queue };

    fn stop_reasons(&self) -> (Option<&SessionStopReason>, Option<&ConnectionStopReason>) {
        self.session.stop_reasons()
    }

    fn keep_stop_reason(&mut self, reason: StopReason) {
        self.session.keep_stop_reason(reason);
    }

    fn outgoing_channel(&self) -> OutgoingChannel {
        self.session.outgoing_channel()
    }

    fn name_state(&self, name: &Text) -> NameState {
        self.session.name_state(name)
    }

    fn allocate_link(&mut self, name: Text, relay: Relay) -> Result<OutputHandle, AllocLinkError> {
        let answer = self.session.allocate_link(name, relay);
        count_answer(&mut self.refusals, answer)
    }

    fn allocate_incoming_link(
        &mut self,
        name: Text,
        relay: Relay,
        input: InputHandle,
    ) -> Result<OutputHandle, AllocLinkError> {
        let answer = allocate_held(&mut self.session, &mut self.held, name, relay, input);
        count_answer(&mut self.refusals, answer)
    }

    fn deallocate_link(&mut self, output: OutputHandle) -> bool {
        self.session.deallocate_link(output)
    }

    fn on_incoming_begin(
        &mut self,
        channel: IncomingChannel,
        begin: Begin,
    ) -> Result<(), SessionInnerError> {
        let answer = self.session.on_incoming_begin(channel, begin);
        count_answer(&mut self.refusals, answer)
    }

    fn on_incoming_end(
        &mut self,
        channel: IncomingChannel,
        end: &End,
    ) -> Result<(), SessionInnerError> {
        let answer = self.session.on_incoming_end(channel, end);
        count_answer(&mut self.refusals, answer)
    }

    fn send_begin(&mut self) -> Result<Begin, BeginError> {
        let answer = self.session.send_begin();
        count_answer(&mut self.refusals, answer)
    }

    fn send_end(&mut self, error: Option<Error>) -> Result<End, SessionInnerError> {
        let answer = self.session.send_end(error);
        count_answer(&mut self.refusals, answer)
    }

    fn on_outgoing_attach(&mut self, attach: &Attach) -> Result<(), SessionInnerError> {
        let answer = self.session.on_outgoing_attach(attach);
        count_answer(&mut self.refusals, answer)
    }

    fn on_outgoing_flow(&mut self, flow: LinkFlow) -> Result<Flow, SessionInnerError> {
        let answer = self.session.on_outgoing_flow(flow);
        count_answer(&mut self.refusals, answer)
    }

    fn on_outgoing_transfer(
        &mut self,
        input: InputHandle,
        transfer: &mut Transfer,
        is_first: bool,
    ) -> Result<(), SessionInnerError> {
        let answer = self.session.on_outgoing_transfer(input, transfer, is_first);
        count_answer(&mut self.refusals, answer)
    }

    fn on_outgoing_detach(&mut self, detach: &Detach) -> Result<(), SessionInnerError> {
        let answer = self.session.on_outgoing_detach(detach);
        count_answer(&mut self.refusals, answer)
    }
}
