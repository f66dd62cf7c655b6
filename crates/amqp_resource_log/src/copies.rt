//! Copies of the work of an id, by its places.

ghost use Rattle.std.specs.Prelude.{◌≡◌, ◌≤◌, ◌+◌, IfOk, length, map};
ghost use Rattle.amqp_txn_types.specs.Frames.{stripped};
ghost use Rattle.amqp_resource_log.specs.Cells.{frames_in, places_from};

use crate::cell_list::CellList;
use crate::looks::Looks;
use amqp_txn_types::{Frame, NoMemory, TransactionId, TryClone, strip};
use std::alloc::Global;
use std::collections::VecDeque;
use std::sync::ledger::Ledger;

/// Copies of the work at the places of an id, in order, each without its transactional state: at
/// most one look for each. The only error is out of memory.
pub fn copy_places<L: Ledger>(
    alloc: Global,
    cells: &CellList,
    places: &VecDeque<usize>,
    id: &TransactionId,
    looks: &mut Looks<L>,
) -> Result<Vec<Frame>, NoMemory>
    requires { places.now.items ≡ places_from 0 id.now cells.now.cells }
    ensures list { IfOk result (λ list. list.items ≡ map stripped (frames_in cells.now.cells id.now)) }
    ensures looks { looks.new ≤ looks.old + length (frames_in cells.now.cells id.now) }
{
    let mut list = Vec::new(alloc);
    for at in 0..places.len() {
        let copy = cells.lend(places[at], looks).try_clone()?;
        list.push(strip(copy))?;
    }
    Ok(list)
}
