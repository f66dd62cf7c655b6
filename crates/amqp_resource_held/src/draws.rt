//! Ids drawn for a declare.

ghost use Rattle.std.specs.Prelude.{◌≡◌, ◌≤◌, [], MatchOption};
ghost use Rattle.amqp_below_ids.specs.Ids.{Drew};
ghost use Rattle.amqp_resource_log.specs.Live.{kept};
ghost use Rattle.amqp_resource_held.specs.Draws.{DrewLive, DrewUnused};

use amqp_below_ids::{Drawn, IdSource};
use amqp_resource_log::LiveWork;
use amqp_txn_types::TransactionId;

/// Draws up to 16 ids, to the first that isn't live, and gives back the room that is left then.
pub fn draw_unused<G: IdSource>(
    work: &LiveWork,
    ids: &mut G,
    drawn: &mut Drawn,
) -> Option<TransactionId>
    requires none { drawn.old.ids ≡ [] }
    requires room { 16 ≤ drawn.old.spare }
    ensures unused { MatchOption result (DrewLive (kept work.now) drawn.new.ids)
        (λ id. DrewUnused (kept work.now) drawn.new.ids id) }
    ensures drew { Drew (G.next ids.old) (G.next ids.new) drawn.new.ids }
    ensures start { G.start ids.new ≡ G.start ids.old }
{
    for _turn in 0..16usize {
        let id = ids.draw();
        drawn.push(id);
        if !work.is_live(&id) {
            drawn.trim();
            return Some(id);
        }
    }
    None
}
