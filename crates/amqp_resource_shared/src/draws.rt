//! Room for the ids that a step draws.

ghost use Rattle.std.specs.Prelude.{◌≡◌, ◌≤◌, [], length, IfOk};
ghost use Rattle.amqp_resource_shared.specs.Draws.{is_control, most_drawn};

use amqp_below_ids::Drawn;
use amqp_resource_record::Step;
use amqp_txn_types::NoMemory;
use std::alloc::Global;

/// Whether the step is a message on a control link.
fn is_control(step: &Step) -> bool
    ensures { result ≡ is_control step.now }
{
    match step {
        Step::Frame(_) => false,
        Step::Control { .. } => true,
        Step::LinkEnd { .. } => false,
        Step::LocalEnd(_) => false,
        Step::RemoteEnd(_) => false,
        Step::ConnectionStop(_) => false,
    }
}

/// Room for as many ids as the step may draw. The only error is out of memory.
pub(crate) fn room_for_draws(alloc: Global, step: &Step) -> Result<Drawn, NoMemory>
    ensures { IfOk result (λ room. (room.ids ≡ []) × (most_drawn step.now ≤ room.spare)) }
{
    let mut room = Drawn::new(alloc);
    if is_control(step) {
        room.make_room()?;
    }
    Ok(room)
}

/// The same ids, in room that was made before.
///
/// # Requires
///
/// The room has no ids yet, and place for all of these, of which there are at most 16.
pub(crate) fn copy_into(room: Drawn, drawn: &Drawn) -> Drawn
    requires none { room.ids ≡ [] }
    requires room { length drawn.now.ids ≤ room.spare }
    requires few { length drawn.now.ids ≤ 16 }
    ensures { result.ids ≡ drawn.now.ids }
{
    let mut copy = room;
    for place in 0..drawn.len() {
        match drawn.get(place) {
            None => unreachable!(),
            Some(id) => copy.push(*id),
        }
    }
    copy.trim();
    copy
}
