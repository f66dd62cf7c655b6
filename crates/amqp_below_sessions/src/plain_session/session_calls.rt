//! The calls of a plain session beside those of a layer below.

ghost use Rattle.std.specs.Prelude.{◌≡◌, None, Some, cond, false, option_map};
ghost use Rattle.amqp_below_sessions.specs.Numbers.{numbered};
ghost use Rattle.amqp_below_sessions.specs.Plain.{IsStopFault, RefusedOnlyBy, mapped_fault, outgoing_fault};
ghost use Rattle.amqp_below_sessions.specs.Sessions.{first_of};

use crate::link_frames::{name_state, place_link, place_mapped_link};
use crate::numbers::SessionNumbers;
use crate::plain_session::PlainSession;
use crate::relay::{NameState, Relay};
use crate::session::Session;
use crate::session_errors::{AllocLinkError, BeginError};
use crate::state_moves::{begin_received, begin_sent, end_received, end_sent, require_mapped};
use crate::stop_reason::StopReason;
use amqp_below_layer::SessionInnerError;
use amqp_txn_types::{
    Attach, Begin, ConnectionStopReason, Detach, End, Error, Flow, IncomingChannel, InputHandle,
    LinkFlow, OutgoingChannel, OutputHandle, SessionState, SessionStopReason, Text, Transfer,
    TryClone, refuse,
};

impl Session for PlainSession {
    ghost use Rattle.amqp_below_sessions.specs.PlainCalls.{PlainAllocates, PlainAllocatesIncoming, PlainBegins, PlainBegun, PlainEnded, PlainEnds, PlainFlows, PlainFrees, PlainSends, PlainStops};
    ghost use Rattle.amqp_below_sessions.specs.PlainFrames.{PlainChecks};
    ghost use Rattle.amqp_below_sessions.specs.PlainSessions.{kept_of, names_of};

    ghost kept = { kept_of };

    ghost names = { names_of };

    ghost accepts_at_once = { false };

    ghost calls = { record {
      stop = PlainStops;
      allocate_link = PlainAllocates;
      allocate_incoming_link = PlainAllocatesIncoming;
      deallocate_link = PlainFrees;
      begin_received = λ old new channel begin answer. PlainBegun old new channel begin answer;
      end_received = λ old new _ _ answer. PlainEnded old new answer;
      begin_sent = PlainBegins;
      end_sent = PlainEnds;
      outgoing_attach = λ old new _ answer. PlainChecks old new answer;
      outgoing_flow = PlainFlows;
      outgoing_transfer = λ old new _ before after is_first answer.
          PlainSends old new before after is_first answer;
      outgoing_detach = λ old new _ answer. PlainChecks old new answer;
    } };

    ghost incoming_leaves = { λ old new frame answer gives. gives.leaves };

    ghost opening_leaves = { λ old new attach answer gives. gives.leaves };

    ghost check_leaves = { λ old new disposition answer gives. gives.leaves };

    ghost review_leaves = { λ old new list answer gives. gives.leaves };

    ghost window_leaves = { λ old new flow gives. gives.leaves };

    fn stop_reasons(&self) -> (Option<&SessionStopReason>, Option<&ConnectionStopReason>) {
        (self.stop.as_ref(), self.connection_stop.as_ref())
    }

    fn keep_stop_reason(&mut self, reason: StopReason) {
        match reason {
            StopReason::Session(reason) => keep_first(&mut self.stop, reason),
            StopReason::Connection(reason) => keep_first(&mut self.connection_stop, reason),
        }
    }

    fn outgoing_channel(&self) -> OutgoingChannel {
        self.channel
    }

    fn name_state(&self, name: &Text) -> NameState {
        name_state(&self.links, name)
    }

    fn allocate_link(&mut self, name: Text, relay: Relay) -> Result<OutputHandle, AllocLinkError> {
        if let Some(reason) = &self.stop {
            let error = stop_fault(reason);
            return refuse(&mut self.refusals, error);
        }
        match place_link(&mut self.links, self.begin.handle_max, name, relay) {
            Ok(output) => Ok(output),
            Err(error) => refuse(&mut self.refusals, error),
        }
    }

    fn allocate_incoming_link(
        &mut self,
        name: Text,
        relay: Relay,
        input: InputHandle,
    ) -> Result<OutputHandle, AllocLinkError> {
        if let Some(reason) = &self.stop {
            let error = stop_fault(reason);
            return refuse(&mut self.refusals, error);
        }
        match place_mapped_link(&mut self.links, self.begin.handle_max, name, relay, input) {
            Ok(output) => Ok(output),
            Err(error) => refuse(&mut self.refusals, error),
        }
    }

    fn deallocate_link(&mut self, output: OutputHandle) -> bool {
        self.links.free(output)
    }

    fn on_incoming_begin(
        &mut self,
        channel: IncomingChannel,
        begin: Begin,
    ) -> Result<(), SessionInnerError> {
        let mut numbers = self.numbers;
        numbers.note_begin(&begin);
        drop(begin);
        let Some(state) = begin_received(self.state) else {
            return refuse(&mut self.refusals, SessionInnerError::IllegalState);
        };
        self.numbers = numbers;
        self.incoming = Some(channel);
        self.state = state;
        Ok(())
    }

    fn on_incoming_end(
        &mut self,
        channel: IncomingChannel,
        end: &End,
    ) -> Result<(), SessionInnerError> {
        let Some(state) = end_received(self.state) else {
            return refuse(&mut self.refusals, SessionInnerError::IllegalState);
        };
        self.state = state;
        Ok(())
    }

    fn send_begin(&mut self) -> Result<Begin, BeginError> {
        let Some(state) = begin_sent(self.state) else {
            return refuse(&mut self.refusals, BeginError::IllegalState);
        };
        let Ok(mut begin) = self.begin.try_clone() else {
            return refuse(&mut self.refusals, BeginError::NoMemory);
        };
        begin.remote_channel = remote_channel(self.incoming);
        self.state = state;
        Ok(begin)
    }

    fn send_end(&mut self, error: Option<Error>) -> Result<End, SessionInnerError> {
        let Some(state) = end_sent(error.is_some(), self.state) else {
            drop(error);
            return refuse(&mut self.refusals, SessionInnerError::IllegalState);
        };
        self.state = state;
        Ok(End { error })
    }

    fn on_outgoing_attach(&mut self, attach: &Attach) -> Result<(), SessionInnerError> {
        match require_mapped(self.state) {
            Ok(()) => Ok(()),
            Err(error) => refuse(&mut self.refusals, error),
        }
    }

    fn on_outgoing_flow(&mut self, flow: LinkFlow) -> Result<Flow, SessionInnerError> {
        let sent = self.numbers.flow_with(&self.begin, flow);
        match require_mapped(self.state) {
            Ok(()) => Ok(sent),
            Err(error) => {
                drop(sent);
                refuse(&mut self.refusals, error)
            }
        }
    }

    fn on_outgoing_transfer(
        &mut self,
        input: InputHandle,
        transfer: &mut Transfer,
        is_first: bool,
    ) -> Result<(), SessionInnerError> {
        match check_outgoing(self.state, is_first, transfer.delivery_tag.is_some()) {
            Ok(()) => {
                transfer.delivery_id = number_transfer(&mut self.numbers, is_first);
                Ok(())
            }
            Err(error) => refuse(&mut self.refusals, error),
        }
    }

    fn on_outgoing_detach(&mut self, detach: &Detach) -> Result<(), SessionInnerError> {
        match require_mapped(self.state) {
            Ok(()) => Ok(()),
            Err(error) => refuse(&mut self.refusals, error),
        }
    }
}

/// Keeps the first of some reasons.
fn keep_first<R: Drop>(kept: &mut Option<R>, reason: R)
    ensures { kept.new ≡ first_of kept.old reason }
{
    if kept.is_none() {
        *kept = Some(reason);
    }
}

/// The stop reason as the fault of an allocation. The only other answer is out of memory.
fn stop_fault(reason: &SessionStopReason) -> AllocLinkError
    ensures { IsStopFault reason.now result }
{
    match reason.try_clone() {
        Ok(copy) => AllocLinkError::SessionStopped(copy),
        Err(_) => AllocLinkError::NoMemory,
    }
}

/// The channel of the peer's begin, as a begin that answers it has it.
fn remote_channel(incoming: Option<IncomingChannel>) -> Option<u16>
    ensures { result ≡ option_map (λ channel. channel.0) incoming }
{
    match incoming {
        None => None,
        Some(channel) => Some(channel.0),
    }
}

/// Whether a transfer may be sent: a first one needs a tag.
fn check_outgoing(
    state: SessionState,
    is_first: bool,
    tagged: bool,
) -> Result<(), SessionInnerError>
    ensures { RefusedOnlyBy (mapped_fault state (outgoing_fault is_first tagged)) result }
{
    let Ok(()) = require_mapped(state) else {
        return Err(SessionInnerError::IllegalState);
    };
    match (is_first, tagged) {
        (true, false) => Err(SessionInnerError::IllegalState),
        (true, true) => Ok(()),
        (false, _) => Ok(()),
    }
}

/// Counts a transfer that is sent, and gives the number of its delivery where it is the first one.
fn number_transfer(numbers: &mut SessionNumbers, is_first: bool) -> Option<u32>
    ensures number { result ≡ cond is_first (Some numbers.old.next_delivery_id) None }
    ensures numbers { numbers.new ≡ numbered is_first numbers.old }
{
    numbers.count_outgoing();
    if is_first {
        Some(numbers.next_delivery())
    } else {
        None
    }
}
