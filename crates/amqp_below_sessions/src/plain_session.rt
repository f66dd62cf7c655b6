//! A session that keeps its links and hands what comes to them.

ghost use Rattle.std.specs.Prelude.{◌≡◌, None, [], cond, option_copied};
ghost use Rattle.amqp_below_sessions.specs.Links.{link_at, relay_in};
ghost use Rattle.amqp_below_sessions.specs.Numbers.{at_first};
ghost use Rattle.amqp_below_sessions.specs.Plain.{is_due};
ghost use Rattle.amqp_below_sessions.specs.PlainSessions.{begin_of, channel_of, connection_stop_of, incoming_of, links_of, numbers_of, refusals_of, slots_of, state_of, stop_of, untold_of, vetoes_of};

mod frame_calls;
mod session_calls;
mod transactional_calls;

use crate::link_frames::{control_error, place_control_link, takes_all};
use crate::links::Links;
use crate::numbers::SessionNumbers;
use crate::relay::Relay;
use crate::state_moves::require_mapped;
use amqp_below_layer::{LayerBelow, SessionInnerError, Tells, Verdict};
use amqp_txn_types::{
    Attach, Begin, ConnectionStopReason, Disposition, Flow, Frame, Frames, IncomingChannel,
    NoMemory, OutgoingChannel, OutputHandle, SessionState, SessionStopReason, refuse,
};
use std::alloc::Global;

/// A session with links, each with a name, an output handle and, once it is attached, an input
/// handle. It counts each call that it answers with an Err, and each review that it vetoes: one of
/// frames that it wouldn't all take.
///
/// Of what comes for a link it keeps the link's part of each flow, in the link's [`Relay`], and how
/// many transfers came. A transfer and its payload are let go, and so are dispositions: what needs
/// them stands above, or puts the session into a `Recorder`, since it tells none of the lists of a
/// layer. Of a flow it also notes the peer's windows, and of a begin the windows and the channel.
///
/// [`Relay`]: crate::Relay
#[derive(Drop)]
pub struct PlainSession {
    state: SessionState,
    channel: OutgoingChannel,
    incoming: Option<IncomingChannel>,
    begin: Begin,
    numbers: SessionNumbers,
    links: Links,
    /// How many transfers came since the last flow that told the session's window.
    transfers_since_window: u64,
    stop: Option<SessionStopReason>,
    connection_stop: Option<ConnectionStopReason>,
    refusals: u64,
    vetoes: u64,
    alloc: Global,
}

impl PlainSession {
    /// A session in this state without links. The windows and the greatest handle are those of
    /// `begin`. It makes its lists on `alloc`, and takes no memory.
    pub fn new(
        alloc: Global,
        channel: OutgoingChannel,
        state: SessionState,
        begin: Begin,
    ) -> PlainSession
        ensures state { state_of result ≡ state }
        ensures channel { channel_of result ≡ channel }
        ensures incoming { incoming_of result ≡ None }
        ensures begin { begin_of result ≡ begin }
        ensures numbers { numbers_of result ≡ at_first begin }
        ensures slots { slots_of result ≡ [] }
        ensures next { (links_of result).next ≡ 0 }
        ensures untold { untold_of result ≡ 0 }
        ensures stop { stop_of result ≡ None }
        ensures connection { connection_stop_of result ≡ None }
        ensures refusals { refusals_of result ≡ 0 }
        ensures vetoes { vetoes_of result ≡ 0 }
    {
        PlainSession {
            state,
            channel,
            incoming: None,
            numbers: SessionNumbers::new(&begin),
            begin,
            links: Links::new(alloc),
            transfers_since_window: 0,
            stop: None,
            connection_stop: None,
            refusals: 0,
            vetoes: 0,
            alloc,
        }
    }

    /// What is passed on to the link under an output handle; `None` where it isn't in use.
    pub fn relay(&self, output: OutputHandle) -> Option<&Relay>
        ensures { option_copied result ≡ relay_in (link_at (slots_of self.now) output.0) }
    {
        match self.links.link(output) {
            None => None,
            Some(link) => Some(&link.relay),
        }
    }
}

impl Tells for PlainSession {
    ghost use Rattle.amqp_below_sessions.specs.PlainSessions.{told_of};

    ghost told = { told_of };
}

impl LayerBelow for PlainSession {
    ghost use Rattle.std.specs.Prelude.{false};
    ghost use Rattle.amqp_below_sessions.specs.PlainFrames.{PlainChecks, PlainOpens, PlainTakes, PlainWindow};
    ghost use Rattle.amqp_below_sessions.specs.PlainReviewing.{PlainReviews, TakesEach, plain-goes-on, plain-stays-on, plain-window-stays-on};

    ghost incoming_gives = { PlainTakes };

    ghost opening_gives = { PlainOpens };

    ghost check_gives = { λ old new _ answer. PlainChecks old new answer };

    ghost window_gives = { PlainWindow };

    ghost review_gives = { PlainReviews };

    ghost takes = { TakesEach };

    ghost sure = { false };

    ghost goes_on = { plain-goes-on };

    ghost stays_on = { λ old new _ answer gives. plain-stays-on old new answer gives };

    ghost window_stays_on = { plain-window-stays-on };

    fn local_state(&self) -> SessionState {
        self.state
    }

    fn on_incoming_frame(&mut self, frame: Frame) -> Result<Frames, SessionInnerError> {
        match frame {
            Frame::Attach(attach) => self.hear_attach(attach),
            Frame::Flow(flow) => self.hear_flow(flow),
            Frame::Transfer { transfer, payload } => self.hear_transfer(transfer, payload),
            Frame::Disposition(disposition) => self.hear_disposition(disposition),
            Frame::Detach(detach) => self.hear_detach(detach),
        }
    }

    fn on_control_attach(&mut self, attach: &Attach) -> Result<Frames, SessionInnerError> {
        if self.stop.is_some() {
            return refuse(&mut self.refusals, SessionInnerError::IllegalState);
        }
        match place_control_link(self.alloc, &mut self.links, self.begin.handle_max, attach) {
            Ok(()) => Ok(Frames::new(self.alloc)),
            Err(fault) => { refuse(&mut self.refusals, control_error(fault)) }
        }
    }

    fn on_outgoing_disposition(
        &mut self,
        disposition: &Disposition,
    ) -> Result<(), SessionInnerError> {
        match require_mapped(self.state) {
            Ok(()) => Ok(()),
            Err(error) => refuse(&mut self.refusals, error),
        }
    }

    fn maybe_outgoing_session_flow(&mut self) -> Option<Flow> {
        let window = self.begin.incoming_window;
        if is_due(self.state, self.transfers_since_window, window) {
            self.transfers_since_window = 0;
            Some(self.numbers.window_flow(&self.begin))
        } else {
            None
        }
    }

    fn review(&mut self, frames: &Frames) -> Result<Verdict, NoMemory> {
        if takes_all(self.state, &self.links, frames.as_slice()) {
            Ok(Verdict::Accept)
        } else {
            self.vetoes = self.vetoes.saturating_add(1);
            Ok(Verdict::Veto)
        }
    }
}

/// One of two, by a test.
fn either(first: bool, one: SessionNumbers, other: SessionNumbers) -> SessionNumbers
    ensures { result ≡ cond first one other }
{
    if first { one } else { other }
}

/// Whether the flow that tells the session's window is due: the transfers that came since the last
/// one are one at least, and half of the window.
fn is_due(state: SessionState, came: u64, window: u32) -> bool
    ensures { result ≡ is_due state came window }
{
    matches!(state, SessionState::Mapped) && came >= 1 && came >= (window / 2) as u64
}
