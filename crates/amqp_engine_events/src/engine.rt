//! The engine of a session: one call for each event.

ghost use Rattle.std.specs.Prelude.{◌≡◌, Err, IfErr, MatchBool, Ok, false, is_some, not};
ghost use Rattle.std.specs.Bool.{OnFalse, OnTrue};
ghost use Rattle.amqp_txn_types.specs.Counts.{Rose};
ghost use Rattle.amqp_below_layer.specs.declared.inner_error.SessionInnerError.TheVariants as faults;
ghost use Rattle.amqp_below_sessions.specs.declared.stop_reason.StopReason.TheVariants as reasons;
ghost use Rattle.amqp_engine_events.specs.declared.turn.Running.TheVariants as runnings;
ghost use Rattle.amqp_engine_events.specs.Calls.{OrNoMemory};
ghost use Rattle.amqp_engine_events.specs.Begins.{SendsBegin};
ghost use Rattle.amqp_engine_events.specs.Controls.{ControlsEnd, ControlsLinks, ControlsOthers, ControlsTransactions, draws_ids, is_served};
ghost use Rattle.amqp_engine_events.specs.Ends.{AnswersOutcome, EndsSession, Finishes, TakesEnd};
ghost use Rattle.amqp_engine_events.specs.Faults.{EndsFor, error_of_fault, is_cut_off};
ghost use Rattle.amqp_engine_events.specs.Incoming.{OnBegin, OnEnd, OnLink, TakesBegin, TakesLink, is_unexpected};
ghost use Rattle.amqp_engine_events.specs.Outgoing.{SendsLink};
ghost use Rattle.amqp_engine_events.specs.Reasons.{KeepsStop};
ghost use Rattle.amqp_engine_events.specs.States.{awaits_end, is_mapped};
ghost use Rattle.amqp_engine_events.specs.Turns.{CausedBy, Unasked, quiet};

use crate::begin::{ClientBegin, send_begin};
use crate::controls::SessionControl;
use crate::end::{end_session, finish, take_end};
use crate::faults::end_for;
use crate::incoming::{take_begin, take_link};
use crate::outgoing::send_link;
use crate::serve::{is_end, serve};
use crate::states::is_mapped;
use crate::turn::{SessionFrame, SessionFrameBody, Turn};
use amqp_below_ids::IdSource;
use amqp_below_layer::{SessionInnerError, Tells};
use amqp_below_sessions::{
    BeginError, HandleDeclare, HandleDischarge, ListenerSessionEndpoint, Session,
};
use amqp_txn_types::{Begin, ConnectionStopReason, Error, IncomingChannel, LinkFrame};
use std::alloc::Global;
use std::marker::Model;

/// The engine of a session: it takes one event a call, makes the session's calls that belong to it,
/// and answers what is to be sent.
///
/// It keeps nothing beside the session: that the peer's end is awaited is the session's state
/// `EndSent` or `Discarding`.
#[derive(Drop)]
pub struct SessionEngine<S> {
    session: S,
    alloc: Global,
}

impl<S> Model for SessionEngine<S> {
    ghost Value = { S };

    ghost view = { λ engine. engine.session };
}

impl<S> SessionEngine<S> {
    ghost use Rattle.std.specs.Borrow.{Lends, sem};
    ghost use Rattle.amqp_engine_events.specs.contracts.engine.SessionEngine.{the_row};

    /// The engine of a session in whatever state it is: what the session has still to send, as its
    /// begin, is its owner's to send. Turns take their memory from `alloc`.
    pub fn new(alloc: Global, session: S) -> Self
        ensures { result ≡ session }
    {
        SessionEngine { session, alloc }
    }

    /// The session.
    pub fn session(&self) -> &S
        ensures { result.now ≡ self.now }
    {
        &self.session
    }

    /// The session, to be changed: links are accepted and attached on it, and its listener is
    /// closed.
    ///
    /// The engine keeps nothing of the session beside it, so each later event is answered by the
    /// state that it is left in. Frames that its calls give are the caller's to send, before those
    /// of any later turn. That holds of its end too: once the session has sent it, the engine
    /// awaits the peer's, and sends none.
    pub fn session_mut(&mut self) -> &mut S
        ensures* writes_back { sem 𝓛 (Lends (the_row S.row) S.row self.entry result (λ w. w)) }
        ensures value { result.now ≡ self.old }
    {
        &mut self.session
    }
}

impl<S: Session> SessionEngine<S> {
    /// Begins a session of this side: its begin is to be sent, and the peer's is awaited. It takes
    /// no memory of its own; later turns take it from `alloc`.
    ///
    /// # Errors
    ///
    /// The session's refusal to send a begin, with the session.
    pub fn begin_client_session(
        alloc: Global,
        session: S,
    ) -> Result<(ClientBegin<S>, Begin), (S, BeginError)>
        ensures begins { SendsBegin S.told S.kept S.names S.calls.begin_sent session result }
        ensures cause { IfErr result (λ refused.
            Rose (S.told session).refusals (S.told refused.0).refusals) }
    {
        match send_begin(session) {
            Ok((session, begin)) => Ok((ClientBegin::new(alloc, session), begin)),
            Err(refused) => Err(refused),
        }
    }

    /// A frame that came for the session.
    ///
    /// While the peer's end is awaited a begin or a link's frame is dropped. Else a link's frame
    /// goes through the session by `take_frame`, and a begin is given to it. An end in the state
    /// `Mapped` is given to it, keeps why the session stopped, and is answered with an end without
    /// an error; one that is awaited is given to it. Either is the session's last turn.
    ///
    /// # Errors
    ///
    /// - `IllegalState` for an end in any other state.
    /// - What the session refused. Where it refuses to send its end, the peer's end has been taken
    ///   and the reason is kept.
    /// - `NoMemory` where the reason why the connection stopped can't be copied, which leaves the
    ///   session as it was: the end has to be given again, or the session dropped.
    pub fn on_incoming(&mut self, frame: SessionFrame) -> Result<Turn, SessionInnerError>
        ensures link { OnLink frame.body (λ link.
            MatchBool (awaits_end (S.told self.old).fixed.state)
            (Unasked self.old self.new (Ok (quiet runnings.Waiting)) result)
            (TakesLink S.told S.incoming_gives S.check_gives S.window_gives self.old self.new link
            result)) }
        ensures begin { OnBegin frame.body (λ begin.
            MatchBool (awaits_end (S.told self.old).fixed.state)
            (Unasked self.old self.new (Ok (quiet runnings.Waiting)) result)
            (TakesBegin S.told S.kept S.names S.calls.begin_received self.old self.new
            (record { 0 = frame.channel }) begin result)) }
        ensures end { OnEnd frame.body (λ end. TakesEnd S.told S.kept S.names S.calls.end_received
            S.calls.stop S.calls.end_sent self.old self.new (record { 0 = frame.channel }) end
            result) }
        ensures cause { CausedBy (is_unexpected (S.told self.old).fixed.state frame.body)
            (Rose (S.told self.old).refusals (S.told self.new).refusals) result }
    {
        let channel = IncomingChannel(frame.channel);
        match frame.body {
            SessionFrameBody::Begin(begin) => {
                take_begin(self.alloc, &mut self.session, channel, begin)
            }
            SessionFrameBody::Link(link) => take_link(self.alloc, &mut self.session, link),
            SessionFrameBody::End(end) => take_end(self.alloc, &mut self.session, channel, end),
        }
    }

    /// A frame that a link of the session sends: it is to be sent as the session's outgoing call of
    /// that frame leaves it, a link's flow as the flow that the session makes of it.
    ///
    /// # Errors
    ///
    /// - `IllegalState` where the state isn't `Mapped`.
    /// - What the session refused.
    /// - `NoMemory` where there is no room for the frame, which is made before the session is
    ///   asked.
    pub fn on_outgoing_link_frames(&mut self, frame: LinkFrame) -> Result<Turn, SessionInnerError>
        ensures sends { MatchBool (is_mapped (S.told self.old).fixed.state)
            (OrNoMemory self.old self.new (SendsLink S.told S.kept S.names S.calls.outgoing_attach
            S.calls.outgoing_flow S.calls.outgoing_transfer S.check_gives S.calls.outgoing_detach
            self.old self.new frame result) result)
            (Unasked self.old self.new (Err faults.IllegalState) result) }
        ensures cause { CausedBy (not (is_mapped (S.told self.old).fixed.state))
            (Rose (S.told self.old).refusals (S.told self.new).refusals) result }
    {
        if !is_mapped(self.session.local_state()) {
            drop(frame);
            return Err(SessionInnerError::IllegalState);
        }
        send_link(self.alloc, &mut self.session, frame)
    }

    /// Ends the session for a fault, with the condition of that name.
    ///
    /// | fault | condition | text |
    /// |---|---|---|
    /// | `UnattachedHandle`, `HandleInUse` | the session's of that name | |
    /// | `IllegalState` | `amqp:illegal-state` | |
    /// | `UnknownTxnId` | `amqp:transaction:unknown-id` | |
    /// | `RemoteAttachingLinkNameNotFound` | `amqp:internal-error` | `Link name is not found` |
    /// | `TransferFrameToSender` | `amqp:not-allowed` | `Found Transfer frame sent Sender link` |
    /// | `NoMemory` | `amqp:internal-error` | |
    /// | `RemoteEnded`, `RemoteEndedWithError` | no error | |
    ///
    /// # Errors
    ///
    /// - `ConnectionStopped` where that is the fault: nothing is sent then, and the session is as
    ///   it was.
    /// - What the session refused.
    /// - `NoMemory` where memory runs out for the text or for the copy of the connection's reason,
    ///   which leaves the session as it was.
    pub fn on_error(&mut self, kind: &SessionInnerError) -> Result<Turn, SessionInnerError>
        ensures ends { EndsFor self.old self.new (λ answer. EndsSession S.told S.kept S.names
            S.calls.end_sent self.old self.new (error_of_fault kind.now) answer) kind.now result }
        ensures cause { OnFalse (is_cut_off kind.now) (CausedBy false
            (Rose (S.told self.old).refusals (S.told self.new).refusals) result) }
    {
        end_for(self.alloc, &mut self.session, kind)
    }

    /// Ends the session: its end is sent where it still owes one.
    ///
    /// # Errors
    ///
    /// What the session refused.
    pub fn end_session(&mut self, error: Option<Error>) -> Result<Turn, SessionInnerError>
        ensures ends { EndsSession S.told S.kept S.names S.calls.end_sent self.old self.new error
            result }
        ensures cause { CausedBy false (Rose (S.told self.old).refusals (S.told self.new).refusals)
            result }
    {
        end_session(self.alloc, &mut self.session, error)
    }

    /// The session, once its engine has done its work: the reason that the outcome tells is kept,
    /// where none is; else the session stays as it is. The outcome is answered, but that the
    /// connection stopped is no fault of the session: that is answered Ok.
    ///
    /// # Errors
    ///
    /// That of the outcome. Where no reason was kept, the error of a `RemoteEndedWithError` is in
    /// the reason and in the answer; where it can't be copied, the answer is `NoMemory`.
    pub fn finish(
        self,
        outcome: Result<(), SessionInnerError>,
    ) -> (S, Result<(), SessionInnerError>)
        ensures keeps { Finishes S.told S.kept S.names S.calls.stop self result.0 outcome }
        ensures answer { AnswersOutcome (is_some (S.kept self).stop) outcome result.1 }
    {
        let SessionEngine {
            mut session,
            alloc: _,
        } = self;
        let answer = finish(&mut session, outcome);
        (session, answer)
    }

    /// Keeps why the connection stopped. The first reason is kept.
    pub fn note_connection_stop(&mut self, reason: ConnectionStopReason)
        ensures { KeepsStop S.told S.kept S.names S.calls.stop self.old self.new
            (reasons.Connection reason) }
    {
        self.session.set_connection_stop_reason(reason);
    }
}

impl<S: ListenerSessionEndpoint> SessionEngine<S> {
    /// Begins a session of a listener: its begin is to be sent, and it is ready where the peer's
    /// had come. It takes no memory of its own; later turns take it from `alloc`.
    ///
    /// # Errors
    ///
    /// The session's refusal to send a begin, with the session.
    pub fn begin_listener_session(
        alloc: Global,
        session: S,
    ) -> Result<(SessionEngine<S>, Begin), (S, BeginError)>
        ensures begins { SendsBegin S.told S.kept S.names S.calls.begin_sent session result }
        ensures cause { IfErr result (λ refused.
            Rose (S.told session).refusals (S.told refused.0).refusals) }
    {
        match send_begin(session) {
            Ok((session, begin)) => Ok((SessionEngine::new(alloc, session), begin)),
            Err(refused) => Err(refused),
        }
    }
}

impl<S: Session + HandleDeclare + HandleDischarge> SessionEngine<S> {
    /// What is asked of the session: each control by the session's call of that name, whose answer
    /// is the reply. An end keeps why the session stops, and ends it.
    ///
    /// # Errors
    ///
    /// - `IllegalState` where the state isn't `Mapped`, for every control but an end.
    /// - What the session refused, for an end, a disposition and a commit.
    /// - `NoMemory` where memory runs out for the reason of an end or the room for a disposition,
    ///   which are made before the session is asked.
    pub fn on_control<G: IdSource>(
        &mut self,
        control: SessionControl,
        ids: &mut G,
    ) -> Result<Turn, SessionInnerError>
        ensures unserved { OnFalse (is_served (⟦<S as Tells>⟧.told self.old).fixed.state control)
            (Unasked self.old self.new (Err faults.IllegalState) result) }
        ensures end { ControlsEnd ⟦<S as Tells>⟧.told S.kept S.names S.calls.stop S.calls.end_sent
            self.old self.new control result }
        ensures links { OnTrue (is_mapped (⟦<S as Tells>⟧.told self.old).fixed.state)
            (ControlsLinks ⟦<S as Tells>⟧.told S.kept S.names S.calls.allocate_link
            S.calls.allocate_incoming_link S.calls.deallocate_link self.old self.new control
            result) }
        ensures transactions { OnTrue (is_mapped (⟦<S as Tells>⟧.told self.old).fixed.state)
            (ControlsTransactions ⟦<S as Tells>⟧.told S.allocate_gives S.commit_gives
            S.rollback_gives self.old self.new (G.next ids.old) (G.next ids.new) control result) }
        ensures others { OnTrue (is_mapped (⟦<S as Tells>⟧.told self.old).fixed.state)
            (ControlsOthers ⟦<S as Tells>⟧.told S.kept S.names S.check_gives self.old self.new
            control result) }
        ensures start { G.start ids.new ≡ G.start ids.old }
        ensures draws { OnFalse (draws_ids (⟦<S as Tells>⟧.told self.old).fixed.state control)
            (ids.new ≡ ids.old) }
        ensures cause { CausedBy
            (not (is_served (⟦<S as Tells>⟧.told self.old).fixed.state control))
            (Rose (⟦<S as Tells>⟧.told self.old).refusals (⟦<S as Tells>⟧.told self.new).refusals)
            result }
    {
        if !is_end(&control) && !is_mapped(self.session.local_state()) {
            drop(control);
            return Err(SessionInnerError::IllegalState);
        }
        serve(self.alloc, &mut self.session, control, ids)
    }
}
