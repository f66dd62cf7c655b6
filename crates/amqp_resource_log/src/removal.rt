//! All work of an id taken out of the cells, by its places.

ghost use Rattle.std.specs.Prelude.{◌≡◌, ◌≤◌, ◌+◌, ◌++◌, [], IfNone, OnSome, count_by, length, map, vec_capacity};
ghost use Rattle.amqp_txn_types.specs.Frames.{stripped};
ghost use Rattle.amqp_resource_log.specs.Cells.{after_taken, emptied, frames_in, is_dead_cell, places_from};

use crate::cell_list::CellList;
use crate::looks::Looks;
use amqp_txn_types::{Frame, TransactionId, TxnWorkFrame, strip};
use std::collections::VecDeque;
use std::sync::ledger::Ledger;

/// Takes the work at the first place of an id: one look, and one dead cell more.
#[inline(always)]
fn take_next<L: Ledger>(
    cells: &mut CellList,
    dead: &mut usize,
    places: &mut VecDeque<usize>,
    id: TransactionId,
    looks: &mut Looks<L>,
) -> Option<TxnWorkFrame>
    requires places { places.old.items ≡ places_from 0 id cells.old.cells }
    requires dead { dead.old ≡ count_by is_dead_cell cells.old.cells }
    ensures places { places.new.items ≡ places_from 0 id cells.new.cells }
    ensures dead { dead.new ≡ count_by is_dead_cell cells.new.cells }
    ensures rest { emptied id cells.new.cells ≡ emptied id cells.old.cells }
    ensures taken { frames_in cells.old.cells id
        ≡ after_taken result (frames_in cells.new.cells id) }
    ensures none { IfNone result ((frames_in cells.old.cells id ≡ []) × (looks.new ≡ looks.old)) }
    ensures looks { OnSome result (looks.new ≡ looks.old + 1) }
{
    match places.pop_front() {
        Some(place) => {
            let (_, work) = cells.take(place, looks);
            *dead += 1;
            Some(work)
        }
        None => None,
    }
}

/// Takes the work at the places of an id out, in order, each without its transactional state, into
/// a list that has room for it.
pub fn strip_places<L: Ledger>(
    cells: &mut CellList,
    dead: &mut usize,
    mut places: VecDeque<usize>,
    id: TransactionId,
    mut list: Vec<Frame>,
    looks: &mut Looks<L>,
) -> Vec<Frame>
    requires places { places.items ≡ places_from 0 id cells.old.cells }
    requires dead { dead.old ≡ count_by is_dead_cell cells.old.cells }
    requires room { length list.items + length (frames_in cells.old.cells id)
        ≤ vec_capacity list }
    ensures list { result.items ≡ list.items ++ map stripped (frames_in cells.old.cells id) }
    ensures cells { cells.new.cells ≡ emptied id cells.old.cells }
    ensures dead { dead.new ≡ count_by is_dead_cell cells.new.cells }
    ensures looks { looks.new ≡ looks.old + length (frames_in cells.old.cells id) }
{
    while let Some(work) = take_next(cells, dead, &mut places, id, looks) {
        list.push_reserved(strip(work));
    }
    list
}

/// Lets the work at the places of an id go.
pub fn drop_places<L: Ledger>(
    cells: &mut CellList,
    dead: &mut usize,
    mut places: VecDeque<usize>,
    id: TransactionId,
    looks: &mut Looks<L>,
)
    requires places { places.items ≡ places_from 0 id cells.old.cells }
    requires dead { dead.old ≡ count_by is_dead_cell cells.old.cells }
    ensures cells { cells.new.cells ≡ emptied id cells.old.cells }
    ensures dead { dead.new ≡ count_by is_dead_cell cells.new.cells }
    ensures looks { looks.new ≡ looks.old + length (frames_in cells.old.cells id) }
{
    while let Some(work) = take_next(cells, dead, &mut places, id, looks) {
        drop(work);
    }
}
