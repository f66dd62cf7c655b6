//! Events that are played one after another.

ghost use Rattle.std.specs.Prelude.{◌<◌, length, IfOk, OnErr};
ghost use Rattle.txn_program_agree.specs.Playing.{IsBegun, PlayedAll, PlayedSome};

use amqp_below_ids::IdSource;
use amqp_below_layer::LayerBelow;
use amqp_txn_types::NoMemory;
use txn_world::{Event, Happened, World};

/// Plays the events in order: how many of them were skipped. Out of memory is the only error; the
/// first of the events were played then.
pub(crate) fn play<S: LayerBelow, G: IdSource>(
    world: &mut World<S, G>,
    events: &[Event],
) -> Result<usize, NoMemory>
    requires begun { IsBegun S.sure world.old.sides }
    requires few { length events.now < 4294967295 }
    ensures all { IfOk result (λ skipped.
        PlayedAll S.told G.next S.sure world.old world.new events.now skipped) }
    ensures some { OnErr result
        (PlayedSome S.told G.next S.sure world.old world.new events.now) }
{
    let mut skipped = 0;
    for event in events {
        match world.event(event)? {
            Happened::Skipped => skipped += 1,
            _ => {}
        }
    }
    Ok(skipped)
}
