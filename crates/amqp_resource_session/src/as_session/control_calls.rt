//! Control links that are opened by a call.

use crate::session::TxnSession;
use amqp_below_layer::{LayerBelow, SessionInnerError};
use amqp_txn_types::{Attach, Frames};

/// A session that opens control links. Part 4 of the standard, section 4.2 (declaring).
///
/// A link that is opened has a number, from 0 in the order in which they were opened. Every Err
/// counts as a refusal: it comes only where the count of refusals rose in the call, or stands at
/// its last value, 2^64 - 1.
pub trait HandleControlLink: LayerBelow {
    ghost use Rattle.std.specs.Prelude.{ℕ, List, Result};
    ghost use Rattle.amqp_txn_types.specs.declared.performatives.Attach.{Attach as Opening};
    ghost use Rattle.amqp_txn_types.specs.declared.performatives.Frame.{Frame as Given};
    ghost use Rattle.amqp_below_layer.specs.Told.{Opens};
    ghost use Rattle.amqp_below_layer.specs.declared.inner_error.SessionInnerError.{SessionInnerError as Fault};
    ghost use Rattle.amqp_resource_session.specs.Opening.{frames_of};

    /// What the attach of a control link answers and leaves: the session before and after, the
    /// attach, the answer.
    ghost control_attach_gives: { Self → Self → Opening → Result (ℕ × List Given) Fault → Type 0 };

    /// An attach to a coordinator: Ok opens the control link, and gives its number and the frames
    /// to be sent back.
    fn on_incoming_control_attach(
        &mut self,
        attach: &Attach,
    ) -> Result<(u64, Frames), SessionInnerError>
        ensures told { Opens (Self.told self.old) (Self.told self.new) attach.now
            (frames_of result) }
        ensures gives { control_attach_gives self.old self.new attach.now result };
}

impl<S: LayerBelow> HandleControlLink for TxnSession<S> {
    ghost use Rattle.amqp_resource_session.specs.Hearing.{HearsControl};

    ghost control_attach_gives = { HearsControl S.told S.opening_gives };

    fn on_incoming_control_attach(
        &mut self,
        attach: &Attach,
    ) -> Result<(u64, Frames), SessionInnerError> {
        self.open(attach)
    }
}
