//! The events of a relay, one after another.

ghost use Rattle.std.specs.Prelude.{IfOk, OnErr};
ghost use Rattle.txn_relay.specs.Playing.{HadAll, HadSome};

use crate::event::RelayEvent;
use crate::relay::Relay;
use amqp_below_ids::{IdSource, ListIds};
use amqp_txn_types::NoMemory;
use txn_world::Happened;

/// Lets the relay have the events in order: how many of them were skipped. Out of memory is the
/// only error; the relay had the first of the events then.
pub(crate) fn play(relay: &mut Relay, events: &[RelayEvent]) -> Result<usize, NoMemory>
    ensures all { IfOk result (λ skipped. HadAll (record {
      next = ⟦<ListIds as IdSource>⟧.next;
      start = ⟦<ListIds as IdSource>⟧.start;
    }) relay.old
        relay.new events.now skipped) }
    ensures some { OnErr result (HadSome (record {
      next = ⟦<ListIds as IdSource>⟧.next;
      start = ⟦<ListIds as IdSource>⟧.start;
    }) relay.old relay.new
        events.now) }
{
    let mut skipped = 0;
    for event in events {
        match relay.event(*event)? {
            Happened::Skipped => skipped += 1,
            _ => {}
        }
    }
    Ok(skipped)
}
