//! One frame through the layer below.

ghost use Rattle.std.specs.Prelude.{◌≡◌, ◌≤◌, length, OnErr};
ghost use Rattle.amqp_txn_types.specs.Frames.{is_transfer};
ghost use Rattle.amqp_below_layer.specs.Told.{Checks};
ghost use Rattle.amqp_below_layer.specs.Reviewing.{TakesOn};
ghost use Rattle.amqp_below_layer.specs.OneFrame.{ChecksFrame, ChecksGiven, GivesWindow, TakesFrame, TakesThrough};

use crate::answers::Answers;
use crate::inner_error::SessionInnerError;
use crate::layer::LayerBelow;
use amqp_txn_types::{Flow, Frame};

/// A refusal, and whether the frame was taken before it.
#[derive(Debug, Drop, PartialEq)]
pub struct TakeError {
    /// Whether the incoming call had answered Ok: then a disposition given back was refused.
    pub taken: bool,
    /// The layer's error.
    pub error: SessionInnerError,
}

/// The check of a frame that is given back, which is one of dispositions alone.
fn check_frame<S: LayerBelow>(below: &mut S, frame: &Frame) -> Result<(), SessionInnerError>
    ensures told { Checks (S.told below.old) (S.told below.new) result }
    ensures checks { ChecksFrame S.check_gives below.old below.new frame.now result }
{
    match frame {
        Frame::Disposition(disposition) => below.on_outgoing_disposition(disposition),
        Frame::Attach(_) | Frame::Flow(_) | Frame::Transfer { .. } | Frame::Detach(_) => Ok(()),
    }
}

/// Passes each disposition that is given back through the check below, in order. The error is that
/// of the first check that refused.
pub fn check_given<S: LayerBelow>(below: &mut S, given: &[Frame]) -> Result<(), SessionInnerError>
    ensures told { Checks (S.told below.old) (S.told below.new) result }
    ensures checks { ChecksGiven S.check_gives below.old below.new given.now result }
    ensures some { OnErr result (1 ≤ length given.now) }
{
    for frame in given {
        check_frame(below, frame)?;
    }
    Ok(())
}

fn is_transfer(frame: &Frame) -> bool
    ensures { result ≡ is_transfer frame.now }
{
    matches!(frame, Frame::Transfer { .. })
}

/// The session's window, which is asked for after a transfer alone.
fn window_after<S: LayerBelow>(below: &mut S, after_transfer: bool) -> Option<Flow>
    ensures told { S.told below.new ≡ S.told below.old }
    ensures gives { GivesWindow S.window_gives after_transfer below.old below.new result }
{
    if after_transfer {
        below.maybe_outgoing_session_flow()
    } else {
        None
    }
}

/// The incoming call for the frame, a check of each disposition given back and, after a transfer,
/// the session's window. It takes no memory of its own.
#[inline(always)]
pub fn take_frame<S: LayerBelow>(below: &mut S, frame: Frame) -> Result<Answers, TakeError>
    ensures told { TakesFrame (S.told below.old) (S.told below.new) frame result }
    ensures through { TakesThrough S.incoming_gives S.check_gives S.window_gives below.old below.new
        frame result }
    ensures on { TakesOn S.takes S.sure below.old below.new frame result }
{
    let with_window = is_transfer(&frame);
    let given = match below.on_incoming_frame(frame) {
        Ok(given) => given,
        Err(error) => {
            return Err(TakeError {
                taken: false,
                error,
            });
        }
    };
    if let Err(error) = check_given(below, given.as_slice()) {
        return Err(TakeError { taken: true, error });
    }
    let window = window_after(below, with_window);
    Ok(Answers { given, window })
}
