//! Parts of what a step answers.

ghost use Rattle.std.specs.Prelude.{◌≡◌, ◌<◌, ◌+◌, ◌^◌, cond, false};
ghost use Rattle.amqp_below_sessions.specs.declared.transacting.CommitFault.TheVariants as commit_faults;
ghost use Rattle.amqp_resource_record.specs.declared.stop.StepError.TheVariants as errors;
ghost use Rattle.amqp_resource_session.specs.Steps.{fault_of, is_unknown, nothing_drawn};

use amqp_below_ids::Drawn;
use amqp_below_layer::{SessionInnerError, TakeError};
use amqp_below_sessions::CommitFault;
use amqp_resource_record::StepError;
use std::alloc::Global;

/// A refusal below, and how many frames of the step were taken before and with it.
#[derive(Debug, Drop)]
pub struct HandError {
    pub error: SessionInnerError,
    pub handed: usize,
}

/// The refusal of a frame of a commit, so many of its frames having been taken before it.
pub fn refused_after(refusal: TakeError, before: usize) -> CommitFault
    requires { before < 2 ^ 63 }
    ensures { result ≡ commit_faults.Refused refusal.error (before + cond refusal.taken 1 0) }
{
    let refused = handed_with(refusal, before);
    CommitFault::Refused {
        error: refused.error,
        handed: refused.handed,
    }
}

/// The refusal of a frame, so many having been taken before it.
pub fn handed_with(refusal: TakeError, before: usize) -> HandError
    requires { before < 2 ^ 63 }
    ensures handed { result.handed ≡ before + cond refusal.taken 1 0 }
    ensures error { result.error ≡ refusal.error }
{
    let TakeError { taken, error } = refusal;
    HandError {
        error,
        handed: if taken { before + 1 } else { before },
    }
}

/// The fault that a step is answered with, so many of its frames having been taken.
pub fn faulted(error: SessionInnerError, handed: usize) -> StepError
    ensures { result ≡ errors.Fault error handed }
{
    StepError::Fault { error, handed }
}

/// The ids of a step that draws none.
pub fn no_draws(alloc: Global) -> Drawn
    ensures { result ≡ nothing_drawn }
{
    Drawn::new(alloc)
}

/// What a refusal below is given as: an unknown id is the session's own answer alone.
pub fn fault_of(error: SessionInnerError) -> SessionInnerError
    ensures fault { result ≡ fault_of error }
    ensures known { is_unknown result ≡ false }
{
    match error {
        SessionInnerError::UnknownTxnId => SessionInnerError::IllegalState,
        other => other,
    }
}
