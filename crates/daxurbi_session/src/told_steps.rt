//! One step of a session, over a layer that is told for it.

ghost use Rattle.std.specs.Prelude.{◌≡◌, ◌<◌, ◌-◌, ◌^◌, None};
ghost use Rattle.amqp_resource_session.specs.Session.{opened_of, stop_of};
ghost use Rattle.daxurbi_session.specs.ToldSteps.{ToldStep, told_for};

use crate::slot_ids::SlotIds;
use amqp_below_ids::Drawn;
use amqp_below_layer::Exchanges;
use amqp_resource_record::{Reply, Step, StepError};
use amqp_resource_session::TxnSession;
use daxurbi_layer::{BelowAnswer, ToldLayer};
use std::alloc::Global;

/// What the layer below is told for a step: a veto is told for a control message alone.
pub fn told_for(step: &Step, answer: BelowAnswer) -> BelowAnswer
    ensures { result ≡ told_for step.now answer }
{
    match step {
        Step::Control { .. } => answer,
        _ => match answer {
            BelowAnswer::Veto => BelowAnswer::Take,
            answer => answer,
        },
    }
}

/// One step over a layer that is told this, which stands below the session for the step alone: its
/// answer, and what the layer took.
pub fn told_step(
    session: &mut TxnSession<ToldLayer>,
    ids: &mut SlotIds,
    step: &Step,
    alloc: Global,
    told: BelowAnswer,
) -> (Result<(Drawn, Reply), StepError>, Exchanges)
    requires runs { stop_of session.old ≡ None }
    requires links { opened_of session.old < 2 ^ 64 - 1 }
    ensures { ToldStep session.old session.new ids.old ids.new step.now told result.1 result.0 }
{
    let idle = session.swap_below(ToldLayer::new(alloc, told));
    let answer = session.step(step, ids);
    let used = session.swap_below(idle);
    (answer, used.into_taken())
}
