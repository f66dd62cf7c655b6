//! One step of a session, with its entry and its receipt.

ghost use Rattle.std.specs.Prelude.{◌≡◌, ◌<◌, ◌≤◌, ◌-◌, ◌^◌, [], length, vec_capacity, IfOk, OnErr, OnOk, None};
ghost use Rattle.amqp_resource_session.specs.Session.{below_of, held_of, stop_of};
ghost use Rattle.amqp_resource_shared.specs.Draws.{most_drawn};
ghost use Rattle.amqp_resource_shared.specs.Kept.{Kept};
ghost use Rattle.amqp_resource_shared.specs.OneStep.{Appended, Causes, DidSo, stopped_after, stopped_by};

use crate::draws::copy_into;
use crate::receipt::{Receipt, StoppedAt};
use crate::reply_code::code_of;
use crate::room::Room;
use amqp_below_ids::IdSource;
use amqp_below_layer::LayerBelow;
use amqp_resource_record::{Entry, Step, StepError};
use amqp_resource_session::TxnSession;

/// Keeps the step where the error stops the session.
fn note_stop(stopped: &mut Option<StoppedAt>, step: Step, error: &StepError)
    ensures { stopped.new ≡ stopped_by stopped.old step error.now }
{
    match error {
        StepError::Fault { error: _, handed } => {
            *stopped = Some(StoppedAt {
                step,
                handed: *handed,
            });
        }
        StepError::Ended(_) => *stopped = Some(StoppedAt { step, handed: 0 }),
        StepError::Stopped(_) => {}
        StepError::NoMemory => {}
    }
}

/// One step of a session that runs, in room that was made for it. Its entry is appended; an error
/// that stops the session has its step kept.
///
/// # Requires
///
/// The session runs, what is kept with it is as a lock keeps it, and the room is that of the step.
pub(crate) fn answer_step<S: LayerBelow, G: IdSource>(
    session: &mut TxnSession<S>,
    ids: &mut G,
    entries: &mut Vec<Entry>,
    stopped: &mut Option<StoppedAt>,
    room: Room,
    step: &Step,
) -> Result<Receipt, StepError>
    requires kept { Kept (held_of session.old) (stop_of session.old) (S.told (below_of session.old))
        (G.start ids.old) (G.next ids.old) entries.old.items stopped.old }
    requires runs { stop_of session.old ≡ None }
    requires place { length entries.old.items < vec_capacity entries.old }
    requires bound { length entries.old.items < 2 ^ 64 - 1 }
    requires copies { (room.kept ≡ step.now) × (room.told ≡ step.now) }
    requires draws { (room.draws.ids ≡ []) × (most_drawn step.now ≤ room.draws.spare) }
    ensures kept { Kept (held_of session.new) (stop_of session.new) (S.told (below_of session.new))
        (G.start ids.new) (G.next ids.new) entries.new.items stopped.new }
    ensures made { IfOk result (λ receipt. Appended entries.old.items entries.new.items step.now
        receipt) }
    ensures same { OnErr result (entries.new.items ≡ entries.old.items) }
    ensures stopped { stopped.new ≡ stopped_after stopped.old step.now result }
    ensures below { OnOk result (DidSo entries.old.items entries.new.items
        (S.told (below_of session.old)) (S.told (below_of session.new))) }
    ensures causes { Causes S.sure entries.old.items (S.told (below_of session.old))
        (S.told (below_of session.new)) (stop_of session.new) step.now result }
{
    let Room { kept, told, draws } = room;
    match session.step(step, ids) {
        Ok((drawn, reply)) => {
            let draws = copy_into(draws, &drawn);
            let receipt = Receipt::new(entries.len(), told, draws, code_of(&reply));
            let entry = Entry {
                step: kept,
                drawn,
                reply,
            };
            entries.push_reserved(entry);
            Ok(receipt)
        }
        Err(error) => {
            note_stop(stopped, kept, &error);
            Err(error)
        }
    }
}
