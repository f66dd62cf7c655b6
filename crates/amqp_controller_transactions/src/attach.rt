//! A control link that waits for the peer's attach.

ghost use Rattle.std.specs.Prelude.{◌≡◌};
ghost use Rattle.amqp_controller_transactions.specs.Attaches.{IsStopped, PollsAttach};

use crate::controller::Controller;
use amqp_below_sessions::{NameState, SenderAttachError, Session};
use amqp_links::{Progress, WireSender};
use amqp_txn_types::{LinkEnd, SessionStopReason, TryClone};
use std::alloc::Global;
use std::marker::Model;

/// A control link whose attach is to be sent, and which the peer hasn't attached yet. A contract
/// sees its end. Part 2 of the standard, section 2.6.3 (establishing a link).
#[derive(Debug, Drop)]
pub struct Attaching {
    end: LinkEnd,
    alloc: Global,
}

impl Model for Attaching {
    ghost use Rattle.amqp_txn_types.specs.declared.performatives.LinkEnd.{LinkEnd};

    ghost Value = { LinkEnd };

    ghost view = { λ a. a.end };
}

impl Attaching {
    pub(crate) fn new(alloc: Global, end: LinkEnd) -> Self
        ensures { result ≡ end }
    {
        Attaching { end, alloc }
    }

    /// Looks once whether the peer attached the link: `Ready(Ok)` exactly where the session knows
    /// its name as that of an attached link, and `Pending` exactly where it doesn't and keeps no
    /// reason why it stopped.
    ///
    /// # Errors
    ///
    /// `SessionStopped` with that reason, or `NoMemory` where memory runs out for its copy.
    pub fn poll<S: Session>(
        self,
        session: &mut S,
    ) -> Progress<Attaching, Result<Controller<WireSender>, SenderAttachError>>
        ensures answer { PollsAttach ((S.names session.old).known self.name)
            (S.kept session.old).stop self result }
        ensures session { session.new ≡ session.old }
    {
        if session.name_state(&self.end.name) == NameState::Taken {
            let Attaching { end, alloc } = self;
            let link = WireSender::new(alloc, end);
            return Progress::Ready(Ok(Controller::new(alloc, link)));
        }
        match session.session_stop_reason() {
            None => Progress::Pending(self),
            Some(reason) => Progress::Ready(Err(name_stop(reason))),
        }
    }
}

/// Why a link isn't attached where its session stopped.
fn name_stop(reason: &SessionStopReason) -> SenderAttachError
    ensures { IsStopped reason.now result }
{
    match reason.try_clone() {
        Ok(copy) => SenderAttachError::SessionStopped(copy),
        Err(_) => SenderAttachError::NoMemory,
    }
}
