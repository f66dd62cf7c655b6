//! A session with links.

use crate::relay::{NameState, Relay};
use crate::session_errors::{AllocLinkError, BeginError};
use crate::stop_reason::StopReason;
use amqp_below_layer::{LayerBelow, SessionInnerError};
use amqp_txn_types::{
    Attach, Begin, ConnectionStopReason, Detach, Disposition, End, Error, Flow, IncomingChannel,
    InputHandle, LinkFlow, OutgoingChannel, OutputHandle, SessionStopReason, Text, Transfer,
};

/// A session that keeps links, begins and ends. Part 2 of the standard, section 2.5 (sessions).
///
/// Its incoming frame calls are those of [`LayerBelow`], whose rules on lists and refusals are the
/// rules here too: every Err counts as a refusal. What each call answers and leaves is the call's
/// own relation (`calls`); what it leaves of the names is said for every session. The four calls
/// that begin and end it move its state so, and no other call moves it:
///
/// | state | [`send_begin`] | [`on_incoming_begin`] | [`send_end`] | [`on_incoming_end`] |
/// |---|---|---|---|---|
/// | `Unmapped` | `BeginSent` | `BeginReceived` | | |
/// | `BeginSent` | | `Mapped` | `EndSent`, `Discarding` with an error | |
/// | `BeginReceived` | `Mapped` | | `EndSent`, `Discarding` with an error | |
/// | `Mapped` | | | `EndSent`, `Discarding` with an error | `EndReceived` |
/// | `EndSent` | | | | `Unmapped` |
/// | `EndReceived` | | | `Unmapped` | |
/// | `Discarding` | | | | `Unmapped` |
///
/// [`send_begin`]: Session::send_begin
/// [`on_incoming_begin`]: Session::on_incoming_begin
/// [`send_end`]: Session::send_end
/// [`on_incoming_end`]: Session::on_incoming_end
pub trait Session: LayerBelow {
    ghost use Rattle.std.specs.Prelude.{◌≡◌, Bool, List, Option, Result, is_some, option_copied};
    ghost use Rattle.amqp_txn_types.specs.declared.performatives.Attach.{Attach};
    ghost use Rattle.amqp_txn_types.specs.declared.performatives.Disposition.{Disposition};
    ghost use Rattle.amqp_txn_types.specs.declared.performatives.Flow.{Flow};
    ghost use Rattle.amqp_txn_types.specs.declared.performatives.Frame.{Frame};
    ghost use Rattle.amqp_below_layer.specs.Told.{Checks};
    ghost use Rattle.amqp_below_layer.specs.declared.inner_error.SessionInnerError.{SessionInnerError};
    ghost use Rattle.amqp_below_layer.specs.declared.verdict.Verdict.{Verdict};
    ghost use Rattle.amqp_txn_types.specs.declared.items.NoMemory.{NoMemory};
    ghost use Rattle.amqp_below_sessions.specs.declared.relay.NameState.TheVariants.{Taken, Waiting};
    ghost use Rattle.amqp_below_sessions.specs.declared.stop_reason.StopReason.TheVariants as reasons;
    ghost use Rattle.amqp_below_sessions.specs.Names.{FreesLink, Names, PlacesLink, SameNames};
    ghost use Rattle.amqp_below_sessions.specs.SessionStates.{begin_received, begin_sent, end_received, end_sent};
    ghost use Rattle.amqp_below_sessions.specs.Sessions.{Kept, Leaves, LeavesFrame, LeavesOpening, Moves, StoppedBy, stopped_for};
    ghost use Rattle.amqp_below_sessions.specs.SessionCalls.{SessionCalls};

    /// What it keeps beside its links: its channel, why it and its connection stopped, and the
    /// attaches that wait at it to be accepted. A session that is no listener has none, as one
    /// whose queue is closed.
    ghost kept: { Self → Kept };

    /// How it knows each name, and the name of the link under each output handle.
    ghost names: { Self → Names };

    /// Whether an attach that comes may open its link at once, whatever its target is. The attach
    /// of a control link may do so in every session.
    ghost accepts_at_once: { Bool };

    /// What each call answers and leaves, beside those of a layer below.
    ghost calls: { SessionCalls Self };

    /// Why the session and its connection stopped, each where it did.
    fn stop_reasons(&self) -> (Option<&SessionStopReason>, Option<&ConnectionStopReason>)
        ensures session { option_copied result.0 ≡ (kept self.now).stop }
        ensures connection { option_copied result.1 ≡ (kept self.now).connection };

    /// Keeps why the session or its connection stopped. The first reason of each is kept.
    fn keep_stop_reason(&mut self, reason: StopReason)
        ensures told { Self.told self.new ≡ Self.told self.old }
        ensures kept { kept self.new ≡ stopped_for (kept self.old) reason }
        ensures names { SameNames (names self.old) (names self.new) }
        ensures gives { calls.stop self.old self.new reason };

    /// The channel of the frames that it sends.
    fn outgoing_channel(&self) -> OutgoingChannel
        ensures { result ≡ (kept self.now).channel };

    /// How it knows the name of a link.
    fn name_state(&self, name: &Text) -> NameState
        ensures { result ≡ (names self.now).known name.now };

    /// Gives a link an output handle, before the peer attaches it (section 2.6.2). The handle is
    /// one that no link has, and the name one that isn't known.
    fn allocate_link(&mut self, name: Text, relay: Relay) -> Result<OutputHandle, AllocLinkError>
        ensures told { Checks (Self.told self.old) (Self.told self.new) result }
        ensures kept { kept self.new ≡ kept self.old }
        ensures stopped { StoppedBy (kept self.old).stop result }
        ensures names { PlacesLink (names self.old) (names self.new) name Waiting result }
        ensures gives { calls.allocate_link self.old self.new name relay result };

    /// Gives a link that the peer attached an output handle, and maps the peer's handle to it.
    fn allocate_incoming_link(
        &mut self,
        name: Text,
        relay: Relay,
        input: InputHandle,
    ) -> Result<OutputHandle, AllocLinkError>
        ensures told { Checks (Self.told self.old) (Self.told self.new) result }
        ensures kept { kept self.new ≡ kept self.old }
        ensures stopped { StoppedBy (kept self.old).stop result }
        ensures names { PlacesLink (names self.old) (names self.new) name Taken result }
        ensures gives { calls.allocate_incoming_link self.old self.new name relay input result };

    /// Frees an output handle with its link; false where it isn't in use.
    fn deallocate_link(&mut self, output: OutputHandle) -> bool
        ensures told { Self.told self.new ≡ Self.told self.old }
        ensures kept { kept self.new ≡ kept self.old }
        ensures found { result ≡ is_some ((names self.old).at output) }
        ensures names { FreesLink ((names self.old).at output) (names self.old)
            (names self.new) output }
        ensures gives { calls.deallocate_link self.old self.new output result };

    /// A begin that came on a channel (section 2.7.2).
    fn on_incoming_begin(
        &mut self,
        channel: IncomingChannel,
        begin: Begin,
    ) -> Result<(), SessionInnerError>
        ensures told { Moves (begin_received (Self.told self.old).fixed.state) (Self.told self.old)
            (Self.told self.new) result }
        ensures leaves { Leaves (kept self.old) (kept self.new) (names self.old) (names self.new) }
        ensures gives { calls.begin_received self.old self.new channel begin result };

    /// An end that came on a channel (section 2.7.8).
    fn on_incoming_end(
        &mut self,
        channel: IncomingChannel,
        end: &End,
    ) -> Result<(), SessionInnerError>
        ensures told { Moves (end_received (Self.told self.old).fixed.state) (Self.told self.old)
            (Self.told self.new) result }
        ensures leaves { Leaves (kept self.old) (kept self.new) (names self.old) (names self.new) }
        ensures gives { calls.end_received self.old self.new channel end.now result };

    /// The begin to be sent.
    fn send_begin(&mut self) -> Result<Begin, BeginError>
        ensures told { Moves (begin_sent (Self.told self.old).fixed.state) (Self.told self.old)
            (Self.told self.new) result }
        ensures leaves { Leaves (kept self.old) (kept self.new) (names self.old) (names self.new) }
        ensures gives { calls.begin_sent self.old self.new result };

    /// The end to be sent, with the error.
    fn send_end(&mut self, error: Option<Error>) -> Result<End, SessionInnerError>
        ensures told { Moves (end_sent (is_some error) (Self.told self.old).fixed.state)
            (Self.told self.old)
            (Self.told self.new) result }
        ensures leaves { Leaves (kept self.old) (kept self.new) (names self.old) (names self.new) }
        ensures gives { calls.end_sent self.old self.new error result };

    /// Whether an attach that is about to be sent may be sent.
    fn on_outgoing_attach(&mut self, attach: &Attach) -> Result<(), SessionInnerError>
        ensures told { Checks (Self.told self.old) (Self.told self.new) result }
        ensures leaves { Leaves (kept self.old) (kept self.new) (names self.old) (names self.new) }
        ensures gives { calls.outgoing_attach self.old self.new attach.now result };

    /// The flow that carries a link's flow, with the session's own numbers.
    fn on_outgoing_flow(&mut self, flow: LinkFlow) -> Result<Flow, SessionInnerError>
        ensures told { Checks (Self.told self.old) (Self.told self.new) result }
        ensures leaves { Leaves (kept self.old) (kept self.new) (names self.old) (names self.new) }
        ensures gives { calls.outgoing_flow self.old self.new flow result };

    /// Whether a transfer that is about to be sent may be sent. The first transfer of a delivery
    /// gets the delivery's id, a continuation gets none.
    fn on_outgoing_transfer(
        &mut self,
        input: InputHandle,
        transfer: &mut Transfer,
        is_first: bool,
    ) -> Result<(), SessionInnerError>
        ensures told { Checks (Self.told self.old) (Self.told self.new) result }
        ensures leaves { Leaves (kept self.old) (kept self.new) (names self.old) (names self.new) }
        ensures gives { calls.outgoing_transfer self.old self.new input transfer.old transfer.new
            is_first result };

    /// Whether a detach that is about to be sent may be sent.
    fn on_outgoing_detach(&mut self, detach: &Detach) -> Result<(), SessionInnerError>
        ensures told { Checks (Self.told self.old) (Self.told self.new) result }
        ensures leaves { Leaves (kept self.old) (kept self.new) (names self.old) (names self.new) }
        ensures gives { calls.outgoing_detach self.old self.new detach.now result };

    /// An incoming frame call leaves what is kept, but that an attach may wait in the queue now;
    /// and of the names it leaves what a frame of its kind may.
    ghost incoming_leaves: { (old new : Self) (frame : Frame)
        (answer : Result (List Frame) SessionInnerError)
        → Self.incoming_gives old new frame answer
        → LeavesFrame accepts_at_once (kept old) (kept new) (names old) (names new) frame answer };

    /// The attach of a control link leaves what is kept, and where it is opened its name is taken.
    ghost opening_leaves: { (old new : Self) (attach : Attach)
        (answer : Result (List Frame) SessionInnerError)
        → Self.opening_gives old new attach answer
        → LeavesOpening (kept old) (kept new) (names old) (names new) attach answer };

    /// The check of a disposition leaves what is kept and the names.
    ghost check_leaves: { (old new : Self) (disposition : Disposition)
        (answer : Result Unit SessionInnerError)
        → Self.check_gives old new disposition answer
        → Leaves (kept old) (kept new) (names old) (names new) };

    /// A review leaves what is kept and the names.
    ghost review_leaves: { (old new : Self) (list : List Frame) (answer : Result Verdict NoMemory)
        → Self.review_gives old new list answer
        → Leaves (kept old) (kept new) (names old) (names new) };

    /// Asking for the window leaves what is kept and the names.
    ghost window_leaves: { (old new : Self) (flow : Option Flow) → Self.window_gives old new flow
        → Leaves (kept old) (kept new) (names old) (names new) };

    /// Why the session stopped, where it did.
    final fn session_stop_reason(&self) -> Option<&SessionStopReason>
        ensures { option_copied result ≡ (kept self.now).stop }
    {
        self.stop_reasons().0
    }

    /// Keeps why the session stopped. The first reason is kept.
    final fn set_session_stop_reason(&mut self, reason: SessionStopReason)
        ensures told { Self.told self.new ≡ Self.told self.old }
        ensures kept { kept self.new ≡ stopped_for (kept self.old) (reasons.Session reason) }
        ensures names { SameNames (names self.old) (names self.new) }
        ensures gives { calls.stop self.old self.new (reasons.Session reason) }
    {
        self.keep_stop_reason(StopReason::Session(reason));
    }

    /// Why the connection stopped, where it did.
    final fn connection_stop_reason(&self) -> Option<&ConnectionStopReason>
        ensures { option_copied result ≡ (kept self.now).connection }
    {
        self.stop_reasons().1
    }

    /// Keeps why the connection stopped. The first reason is kept.
    final fn set_connection_stop_reason(&mut self, reason: ConnectionStopReason)
        ensures told { Self.told self.new ≡ Self.told self.old }
        ensures kept { kept self.new ≡ stopped_for (kept self.old) (reasons.Connection reason) }
        ensures names { SameNames (names self.old) (names self.new) }
        ensures gives { calls.stop self.old self.new (reasons.Connection reason) }
    {
        self.keep_stop_reason(StopReason::Connection(reason));
    }
}
