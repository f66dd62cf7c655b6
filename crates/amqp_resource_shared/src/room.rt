//! What a step is going to need, made before it.

ghost use Rattle.std.specs.Prelude.{◌≡◌, ◌<◌, ◌≤◌, ◌-◌, ◌^◌, [], length, vec_capacity, IfOk, OnOk};
ghost use Rattle.amqp_resource_shared.specs.Draws.{most_drawn};

use crate::draws::room_for_draws;
use amqp_below_ids::Drawn;
use amqp_resource_record::{Entry, Step};
use amqp_txn_types::{NoMemory, TryClone};
use std::alloc::Global;

/// Two copies of a step and room for its draws: all that can't be made once it was answered.
#[derive(Drop)]
pub(crate) struct Room {
    /// The step for its entry, or for the place where the session stopped.
    pub(crate) kept: Step,
    /// The step for its receipt.
    pub(crate) told: Step,
    /// Room for the draws of the receipt.
    pub(crate) draws: Drawn,
}

/// Makes the room of a step, and a place for its entry. The only error is out of memory.
pub(crate) fn make_room(
    alloc: Global,
    entries: &mut Vec<Entry>,
    step: &Step,
) -> Result<Room, NoMemory>
    ensures same { entries.new.items ≡ entries.old.items }
    ensures place { OnOk result (length entries.new.items < vec_capacity entries.new) }
    ensures bound { OnOk result (length entries.new.items < 2 ^ 64 - 1) }
    ensures copies { IfOk result (λ room. (room.kept ≡ step.now) × (room.told ≡ step.now)) }
    ensures draws { IfOk result (λ room. (room.draws.ids ≡ [])
        × (most_drawn step.now ≤ room.draws.spare)) }
{
    let kept = step.try_clone()?;
    let told = step.try_clone()?;
    let draws = room_for_draws(alloc, step)?;
    entries.reserve(1)?;
    Ok(Room { kept, told, draws })
}
