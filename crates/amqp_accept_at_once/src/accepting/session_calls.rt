//! The calls of an accepting listener beside those of a layer below: each is its listener's.

use crate::accepting::AcceptingListener;
use amqp_accept_listener::ListenerSession;
use amqp_below_layer::{LayerBelow, SessionInnerError, Tells};
use amqp_below_sessions::{AllocLinkError, BeginError, NameState, Relay, Session, StopReason};
use amqp_txn_types::{
    Attach, Begin, ConnectionStopReason, Detach, End, Error, Flow, IncomingChannel, InputHandle,
    LinkFlow, OutgoingChannel, OutputHandle, SessionStopReason, Text, Transfer, count_answer,
};

impl<S: Session> Session for AcceptingListener<S> {
    ghost use Rattle.std.specs.Prelude.{true};
    ghost use Rattle.amqp_below_sessions.specs.SessionCalls.{passed};
    ghost use Rattle.amqp_accept_at_once.specs.AtOnce.{AcceptsOver, Passes, PassesOn, listener_of};
    ghost use Rattle.amqp_accept_listener.specs.Listening.{inner_of};
    ghost use Rattle.amqp_accept_listener.specs.ListenerLaws.{heard-leaves as listener-leaves, opening-leaves, passed-leaves};
    ghost use Rattle.amqp_accept_at_once.specs.AtOnceLaws.{heard-leaves};

    ghost kept = { λ l. ⟦<ListenerSession<S> as Session>⟧.kept (listener_of l) };

    ghost names = { λ l. ⟦<ListenerSession<S> as Session>⟧.names (listener_of l) };

    ghost accepts_at_once = { true };

    ghost calls = { passed ⟦<ListenerSession<S> as Tells>⟧.told
        ⟦<ListenerSession<S> as Session>⟧.calls
        (λ tells gives old new. PassesOn tells gives old new)
        (λ A B tells gives old new answer. Passes tells gives old new answer) };

    ghost incoming_leaves = { λ old new frame answer gives. heard-leaves
        ⟦<ListenerSession<S> as Tells>⟧.told ⟦<ListenerSession<S> as Session>⟧.kept
        ⟦<ListenerSession<S> as Session>⟧.names S.accepts_at_once
        ⟦<ListenerSession<S> as LayerBelow>⟧.incoming_gives
        (λ a b came given gave. listener-leaves S.told S.kept S.names S.accepts_at_once
        S.incoming_gives S.incoming_leaves a b came given gave)
        (AcceptsOver ⟦<ListenerSession<S> as Session>⟧.kept
        ⟦<ListenerSession<S> as Session>⟧.calls.allocate_incoming_link
        ⟦<ListenerSession<S> as Session>⟧.calls.outgoing_flow
        ⟦<ListenerSession<S> as Session>⟧.calls.deallocate_link) old new frame answer gives };

    ghost opening_leaves = { λ old new attach answer gives.
        opening-leaves S.told S.kept S.names (listener_of old) (listener_of new) attach answer
        gives.gave.leaves gives.gave.queue };

    ghost check_leaves = { λ old new disposition answer gives.
        passed-leaves S.told S.kept S.names (listener_of old) (listener_of new)
        (S.check_leaves (inner_of (listener_of old)) (inner_of (listener_of new)) disposition
        answer gives.gave.gave) gives.gave.keeps.queue };

    ghost review_leaves = { λ old new list answer gives.
        passed-leaves S.told S.kept S.names (listener_of old) (listener_of new)
        (S.review_leaves (inner_of (listener_of old)) (inner_of (listener_of new)) list answer
        gives.gave.gave) gives.gave.keeps.queue };

    ghost window_leaves = { λ old new flow gives.
        passed-leaves S.told S.kept S.names (listener_of old) (listener_of new)
        (S.window_leaves (inner_of (listener_of old)) (inner_of (listener_of new)) flow
        gives.gave.gave) gives.gave.keeps.queue };

    fn stop_reasons(&self) -> (Option<&SessionStopReason>, Option<&ConnectionStopReason>) {
        self.listener.stop_reasons()
    }

    fn keep_stop_reason(&mut self, reason: StopReason) {
        self.listener.keep_stop_reason(reason);
    }

    fn outgoing_channel(&self) -> OutgoingChannel {
        self.listener.outgoing_channel()
    }

    fn name_state(&self, name: &Text) -> NameState {
        self.listener.name_state(name)
    }

    fn allocate_link(&mut self, name: Text, relay: Relay) -> Result<OutputHandle, AllocLinkError> {
        let answer = self.listener.allocate_link(name, relay);
        count_answer(&mut self.refusals, answer)
    }

    fn allocate_incoming_link(
        &mut self,
        name: Text,
        relay: Relay,
        input: InputHandle,
    ) -> Result<OutputHandle, AllocLinkError> {
        let answer = self.listener.allocate_incoming_link(name, relay, input);
        count_answer(&mut self.refusals, answer)
    }

    fn deallocate_link(&mut self, output: OutputHandle) -> bool {
        self.listener.deallocate_link(output)
    }

    fn on_incoming_begin(
        &mut self,
        channel: IncomingChannel,
        begin: Begin,
    ) -> Result<(), SessionInnerError> {
        let answer = self.listener.on_incoming_begin(channel, begin);
        count_answer(&mut self.refusals, answer)
    }

    fn on_incoming_end(
        &mut self,
        channel: IncomingChannel,
        end: &End,
    ) -> Result<(), SessionInnerError> {
        let answer = self.listener.on_incoming_end(channel, end);
        count_answer(&mut self.refusals, answer)
    }

    fn send_begin(&mut self) -> Result<Begin, BeginError> {
        let answer = self.listener.send_begin();
        count_answer(&mut self.refusals, answer)
    }

    fn send_end(&mut self, error: Option<Error>) -> Result<End, SessionInnerError> {
        let answer = self.listener.send_end(error);
        count_answer(&mut self.refusals, answer)
    }

    fn on_outgoing_attach(&mut self, attach: &Attach) -> Result<(), SessionInnerError> {
        let answer = self.listener.on_outgoing_attach(attach);
        count_answer(&mut self.refusals, answer)
    }

    fn on_outgoing_flow(&mut self, flow: LinkFlow) -> Result<Flow, SessionInnerError> {
        let answer = self.listener.on_outgoing_flow(flow);
        count_answer(&mut self.refusals, answer)
    }

    fn on_outgoing_transfer(
        &mut self,
        input: InputHandle,
        transfer: &mut Transfer,
        is_first: bool,
    ) -> Result<(), SessionInnerError> {
        let answer = self
            .listener
            .on_outgoing_transfer(input, transfer, is_first);
        count_answer(&mut self.refusals, answer)
    }

    fn on_outgoing_detach(&mut self, detach: &Detach) -> Result<(), SessionInnerError> {
        let answer = self.listener.on_outgoing_detach(detach);
        count_answer(&mut self.refusals, answer)
    }
}
