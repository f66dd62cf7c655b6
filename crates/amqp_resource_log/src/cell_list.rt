//! The cells of the log, which are read by looks alone.

ghost use Rattle.std.specs.Prelude.{◌≡◌, ◌<◌, ◌≤◌, ◌+◌, ◌^◌, ◌++◌, ◌∷◌, [], Some, true, is_some, length, slice_get, slice_set, take, option_and_then, OnOk, IfNone, OnSome};
ghost use Rattle.std.specs.List.{SwappedAt};
ghost use Rattle.amqp_resource_log.specs.Cells.{id_of, work_at};

use crate::cell::Cell;
use crate::looks::Looks;
use amqp_txn_types::{NoMemory, TransactionId, TxnWorkFrame};
use std::alloc::Global;
use std::marker::Model;
use std::mem::replace;
use std::sync::ledger::Ledger;

/// The cells of the log. Only [`CellList::take`], [`CellList::lend`] and [`CellList::bring`] read a
/// cell, and each counts a look where it is live: so nobody reads kept work without counting it.
#[derive(Drop)]
pub struct CellList {
    cells: Vec<Cell>,
}

impl Model for CellList {
    ghost use Rattle.std.specs.Prelude.{◌-◌};
    ghost use Rattle.std.specs.Vec.{vec_capacity, vec_len};
    ghost use Rattle.amqp_resource_log.specs.Cells.{Listing};

    ghost Value = { Listing };

    ghost view = { λ list. record {
      cells = list.cells.items;
      room = vec_capacity list.cells - vec_len list.cells;
    } };
}

impl CellList {
    /// No cell. It takes no memory; later growth takes it from `alloc`.
    pub fn new(alloc: Global) -> Self
        ensures { result.cells ≡ [] }
    {
        CellList {
            cells: Vec::new(alloc),
        }
    }

    /// How many cells there are.
    pub fn len(&self) -> usize
        ensures { result ≡ length self.now.cells }
    {
        self.cells.len()
    }

    /// Makes room for one more cell. The only error is out of memory.
    #[inline(always)]
    pub fn reserve(&mut self) -> Result<(), NoMemory>
        ensures cells { self.new.cells ≡ self.old.cells }
        ensures room { OnOk result (0 < self.new.room) }
    {
        match self.cells.reserve(1) {
            Ok(()) => Ok(()),
            Err(_) => Err(NoMemory),
        }
    }

    /// Adds a live cell at the end, for which there is room.
    #[inline(always)]
    pub fn push(&mut self, txn_id: TransactionId, work: TxnWorkFrame)
        requires { 0 < self.old.room }
        ensures { self.new.cells ≡ self.old.cells ++ Cell.Live txn_id work ∷ [] }
    {
        self.cells.push_reserved(Cell::Live { txn_id, work });
    }

    /// Takes what a live cell holds out of it, which is dead then: one look.
    #[inline(always)]
    pub fn take<L: Ledger>(
        &mut self,
        place: usize,
        looks: &mut Looks<L>,
    ) -> (TransactionId, TxnWorkFrame)
        requires { is_some (work_at self.old.cells place) ≡ true }
        ensures taken { slice_get self.old.cells place ≡ Some (Cell.Live result.0 result.1) }
        ensures cells { self.new.cells ≡ slice_set self.old.cells place Cell.Dead }
        ensures looks { looks.new ≡ looks.old + 1 }
        ensures small { length self.old.cells < 2 ^ 64 }
    {
        looks.tick();
        let Cell::Live { txn_id, work } = replace(&mut self.cells[place], Cell::Dead) else {
            unreachable!()
        };
        (txn_id, work)
    }

    /// The work of a live cell, which stays in it: one look.
    pub fn lend<L: Ledger>(&self, place: usize, looks: &mut Looks<L>) -> &TxnWorkFrame
        requires { is_some (work_at self.now.cells place) ≡ true }
        ensures work { Some result.now ≡ work_at self.now.cells place }
        ensures looks { looks.new ≡ looks.old + 1 }
    {
        looks.tick();
        let Cell::Live { work, .. } = &self.cells[place] else {
            unreachable!()
        };
        work
    }

    /// Brings a live cell to another place and answers its id: one look. A dead cell, which isn't
    /// one, stays where it is.
    pub fn bring<L: Ledger>(
        &mut self,
        place: usize,
        to: usize,
        looks: &mut Looks<L>,
    ) -> Option<TransactionId>
        requires place { place < length self.old.cells }
        requires to { to ≤ place }
        ensures id { result ≡ option_and_then id_of (slice_get self.old.cells place) }
        ensures dead { IfNone result ((self.new.cells ≡ self.old.cells)
            × (looks.new ≡ looks.old)) }
        ensures live { OnSome result (SwappedAt self.old.cells self.new.cells to place) }
        ensures looks { OnSome result (looks.new ≡ looks.old + 1) }
    {
        match &self.cells[place] {
            Cell::Live { txn_id, .. } => {
                let id = *txn_id;
                looks.tick();
                self.cells.swap(to, place);
                Some(id)
            }
            Cell::Dead => None,
        }
    }

    /// Leaves the first so many cells.
    pub fn truncate(&mut self, len: usize)
        ensures { self.new.cells ≡ take len self.old.cells }
    {
        self.cells.truncate(len);
    }
}
