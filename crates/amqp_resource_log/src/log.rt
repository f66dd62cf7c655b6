//! The log of the work under live transactions.

ghost use Rattle.std.specs.Prelude.{◌≡◌, ◌≤◌, ◌<◌, ◌↔◌, IsTrue, ◌+◌, ◌++◌, ◌∷◌, [], Some, None, cond, true, false, is_some, length, slice_get, take, filter, count_by, map, vec_capacity, IfErr, IfOk, IfSome, IsOk, OnOk, OnErr};
ghost use Rattle.std.specs.HashMap.{spare};
ghost use Rattle.std.specs.List.{IsDistinct};
ghost use Rattle.std.specs.Map.{keys_of, lookup};
ghost use Rattle.amqp_txn_types.specs.declared.id.TransactionId.{TransactionId};
ghost use Rattle.amqp_txn_types.specs.Frames.{stripped};
ghost use Rattle.amqp_txn_types.specs.Ids.{same_id};
ghost use Rattle.amqp_resource_log.specs.Cells.{EndsId, SameLog, arrived, closed_up, dead_count, frames_of, is_live_cell, is_live, live_count, live_ids, places, places_from, compacted, with_arrival, without_work, work_at};
ghost use Rattle.amqp_resource_log.specs.Index.{homes_in, places_kept};

use crate::cell_list::CellList;
use crate::copies::copy_places;
use crate::index::{
    Index, add_place, drop_place, first_place, home_of, move_place, place_count, take_id,
};
use crate::live_id::LiveId;
use crate::looks::Looks;
use crate::removal::{drop_places, strip_places};
use amqp_txn_types::{Frame, NoMemory, TransactionId, TxnWorkFrame};
use indexmap::IndexMap;
use std::alloc::Global;
use std::collections::VecDeque;
use std::marker::Model;
use std::sync::ledger::Ledger;

/// Moves the live cells to the front, in their order, and their places with them: one look at each.
/// Their number is answered.
fn move_live<L: Ledger>(cells: &mut CellList, index: &mut Index, looks: &mut Looks<L>) -> usize
    requires { (t : TransactionId) → places_kept index.old.entries t
        ≡ places_from 0 t cells.old.cells }
    ensures cells { take result cells.new.cells ≡ filter is_live_cell cells.old.cells }
    ensures index { (t : TransactionId) → places_kept index.new.entries t
        ≡ places_from 0 t (filter is_live_cell cells.old.cells) }
    ensures homes { homes_in index.new.entries ≡ homes_in index.old.entries }
    ensures spare { spare index.new ≡ spare index.old }
    ensures looks { looks.new ≡ looks.old + count_by is_live_cell cells.old.cells }
{
    let mut kept = 0;
    for place in 0..cells.len() {
        if let Some(txn_id) = cells.bring(place, kept, looks) {
            move_place(index, txn_id, kept);
            kept += 1;
        }
    }
    kept
}

/// The work under live transactions, in the order in which it came, and for each live id where
/// its work stands.
#[derive(Drop)]
pub struct ArrivalLog {
    cells: CellList,
    index: Index,
    dead: usize,
    alloc: Global,
}

impl Model for ArrivalLog {
    ghost use Rattle.std.specs.HashMap.{spare};
    ghost use Rattle.amqp_resource_log.specs.Cells.{Log};
    ghost use Rattle.amqp_resource_log.specs.Index.{Indexed, homes_in};

    ghost Value = { Log };

    ghost view = { λ log. record {
      cells = log.cells.cells;
      homes = homes_in log.index.entries;
      room = spare log.index;
    } };

    ghost invariant = { λ log. Indexed log.cells.cells log.index.entries log.dead };
}

impl ArrivalLog {
    /// A log without cells, of which no id is live. It takes no memory; later growth takes it
    /// from `alloc`.
    pub fn new(alloc: Global) -> Self
        ensures cells { result.cells ≡ [] }
        ensures homes { result.homes ≡ [] }
    {
        ArrivalLog {
            cells: CellList::new(alloc),
            index: IndexMap::new(alloc),
            dead: 0,
            alloc,
        }
    }

    /// How many cells are dead.
    pub fn dead(&self) -> usize
        ensures { result ≡ dead_count self.now }
    {
        self.dead
    }

    /// How many cells are live.
    pub fn live(&self) -> usize
        ensures { result ≡ live_count self.now }
    {
        self.cells.len() - self.dead
    }

    /// Whether the id is live.
    pub fn is_live(&self, txn_id: &TransactionId) -> bool
        ensures { result ≡ is_live self.now txn_id.now }
    {
        self.index.contains_key(txn_id)
    }

    /// How many ids are live.
    pub fn len(&self) -> usize
        ensures { result ≡ length self.now.homes }
    {
        self.index.len()
    }

    /// Whether no id is live.
    pub fn is_empty(&self) -> bool
        ensures { IsTrue result ↔ (length self.now.homes ≡ 0) }
    {
        self.index.is_empty()
    }

    /// The link of a live id, if it was declared on one; `None` where the id isn't live.
    pub fn home(&self, txn_id: &TransactionId) -> Option<Option<u64>>
        ensures { result ≡ lookup (same_id txn_id.now) self.now.homes }
    {
        home_of(&self.index, *txn_id)
    }

    /// The place of the id's first live cell; `None` where it has none.
    pub fn first(&self, txn_id: &TransactionId) -> Option<usize>
        ensures first { result ≡ slice_get (places self.now txn_id.now) 0 }
        ensures live { IfSome result (λ place. is_some (work_at self.now.cells place) ≡ true) }
    {
        first_place(&self.index, *txn_id)
    }

    /// How many cells are live with the id: so many frames are kept for it.
    pub fn count(&self, txn_id: &TransactionId) -> usize
        ensures { result ≡ length (frames_of self.now txn_id.now) }
    {
        place_count(&self.index, *txn_id)
    }

    /// Makes room for one more live id. The only error is out of memory.
    pub fn make_room(&mut self) -> Result<(), NoMemory>
        ensures same { SameLog self.old self.new }
        ensures room { OnOk result (0 < self.new.room) }
        ensures stays { self.old.room ≤ self.new.room }
    {
        match self.index.reserve(1) {
            Ok(()) => Ok(()),
            Err(_) => Err(NoMemory),
        }
    }

    /// Opens an id, declared on no link, as [`ArrivalLog::open_on`] does.
    ///
    /// # Requires
    ///
    /// The id isn't live.
    pub fn open_id(&mut self, txn_id: TransactionId) -> Result<(), NoMemory>
        requires { is_live self.old txn_id ≡ false }
        ensures fresh { frames_of self.new txn_id ≡ [] }
        ensures cells { self.new.cells ≡ self.old.cells }
        ensures ok { OnOk result (live_ids self.new ≡ live_ids self.old ++ txn_id ∷ []) }
        ensures homes { OnOk result (self.new.homes ≡ self.old.homes ++ (txn_id, None) ∷ []) }
        ensures err { OnErr result (self.new.homes ≡ self.old.homes) }
        ensures room { self.old.room ≤ self.new.room + 1 }
        ensures succeeds { 0 < self.old.room → IsOk result }
    {
        self.open_on(txn_id, None)
    }

    /// Opens an id that was declared on a link, if it was on one; there may be room for it. Where
    /// memory runs out, the only error, nothing changes.
    ///
    /// # Requires
    ///
    /// The id isn't live.
    pub fn open_on(&mut self, txn_id: TransactionId, home: Option<u64>) -> Result<(), NoMemory>
        requires { is_live self.old txn_id ≡ false }
        ensures fresh { frames_of self.new txn_id ≡ [] }
        ensures cells { self.new.cells ≡ self.old.cells }
        ensures homes { OnOk result (self.new.homes ≡ self.old.homes ++ (txn_id, home) ∷ []) }
        ensures found { OnOk result ((t : TransactionId) → lookup (same_id t) self.new.homes
            ≡ cond (same_id txn_id t) (Some home) (lookup (same_id t) self.old.homes)) }
        ensures distinct { IsDistinct same_id (keys_of self.new.homes) }
        ensures err { OnErr result (self.new.homes ≡ self.old.homes) }
        ensures room { self.old.room ≤ self.new.room + 1 }
        ensures succeeds { 0 < self.old.room → IsOk result }
    {
        let live = LiveId {
            home,
            places: VecDeque::new(self.alloc),
        };
        match self.index.insert(txn_id, live) {
            Ok(_) => Ok(()),
            Err(_) => Err(NoMemory),
        }
    }

    /// Ends an id that has no live cell; nothing changes where it isn't live. It takes no memory.
    ///
    /// # Requires
    ///
    /// The id has no live cell.
    pub fn end(&mut self, txn_id: &TransactionId)
        requires { frames_of self.old txn_id.now ≡ [] }
        ensures cells { self.new.cells ≡ self.old.cells }
        ensures ended { EndsId txn_id.now self.old self.new }
    {
        let _places = take_id(&mut self.index, txn_id, self.alloc);
    }

    /// Adds work under a live id, as the last of the log. Where memory runs out, the only error,
    /// nothing changes and the work comes back.
    ///
    /// # Requires
    ///
    /// The id is live.
    pub fn append(
        &mut self,
        txn_id: &TransactionId,
        work: TxnWorkFrame,
    ) -> Result<(), (TxnWorkFrame, NoMemory)>
        requires { is_live self.old txn_id.now ≡ true }
        ensures ok { OnOk result (self.new ≡ with_arrival self.old txn_id.now work) }
        ensures err { IfErr result (λ unkept. (unkept.0 ≡ work) × (self.new ≡ self.old)) }
    {
        let Ok(()) = self.cells.reserve() else {
            return Err((work, NoMemory));
        };
        let Ok(true) = add_place(&mut self.index, *txn_id, self.cells.len()) else {
            return Err((work, NoMemory));
        };
        self.cells.push(*txn_id, work);
        Ok(())
    }

    /// Adds work under an id, as the last of the log, and says whether the id is live: for one
    /// that isn't, and where memory runs out, nothing changes and the work is let go.
    #[inline(always)]
    pub fn keep(&mut self, txn_id: &TransactionId, work: TxnWorkFrame) -> Result<bool, NoMemory>
        ensures live { IfOk result (λ live. live ≡ is_live self.old txn_id.now) }
        ensures log { self.new ≡ arrived result self.old txn_id.now work }
    {
        let Ok(()) = self.cells.reserve() else {
            drop(work);
            return Err(NoMemory);
        };
        match add_place(&mut self.index, *txn_id, self.cells.len()) {
            Ok(true) => {
                self.cells.push(*txn_id, work);
                Ok(true)
            }
            Ok(false) => {
                drop(work);
                Ok(false)
            }
            Err(error) => {
                drop(work);
                Err(error)
            }
        }
    }

    /// Takes the work of a live cell out, which is dead then: one look. It takes no memory.
    ///
    /// # Requires
    ///
    /// The cell at the place is live.
    pub fn take<L: Ledger>(&mut self, place: usize, looks: &mut Looks<L>) -> TxnWorkFrame
        requires { is_some (work_at self.old.cells place) ≡ true }
        ensures work { Some result ≡ work_at self.old.cells place }
        ensures log { self.new ≡ without_work self.old place }
        ensures looks { looks.new ≡ looks.old + 1 }
    {
        let (txn_id, work) = self.cells.take(place, looks);
        drop_place(&mut self.index, txn_id, place);
        self.dead += 1;
        work
    }

    /// Copies of all work of an id, in order, each without its transactional state: at most one
    /// look for each. None of an id that isn't live. The only error is out of memory.
    pub fn copy_all<L: Ledger>(
        &self,
        txn_id: &TransactionId,
        looks: &mut Looks<L>,
    ) -> Result<Vec<Frame>, NoMemory>
        ensures list { IfOk result (λ list. list.items
            ≡ map stripped (frames_of self.now txn_id.now)) }
        ensures looks { looks.new ≤ looks.old + length (frames_of self.now txn_id.now) }
    {
        match self.index.get(txn_id) {
            Some(live) => copy_places(self.alloc, &self.cells, &live.places, txn_id, looks),
            None => Ok(Vec::new(self.alloc)),
        }
    }

    /// Ends an id and takes all its work out, in order, each without its transactional state, into
    /// a list that has room for it: one look for each. Where the id isn't live nothing changes.
    /// It takes no memory.
    ///
    /// # Requires
    ///
    /// The list has room for the work.
    pub fn take_all<L: Ledger>(
        &mut self,
        txn_id: &TransactionId,
        list: Vec<Frame>,
        looks: &mut Looks<L>,
    ) -> Vec<Frame>
        requires { length list.items + length (frames_of self.old txn_id.now)
            ≤ vec_capacity list }
        ensures list { result.items ≡ list.items ++ map stripped (frames_of self.old txn_id.now) }
        ensures ended { EndsId txn_id.now self.old self.new }
        ensures looks { looks.new ≡ looks.old + length (frames_of self.old txn_id.now) }
    {
        let places = take_id(&mut self.index, txn_id, self.alloc);
        strip_places(
            &mut self.cells,
            &mut self.dead,
            places,
            *txn_id,
            list,
            looks,
        )
    }

    /// Ends an id and lets all its work go: one look for each. Where the id isn't live nothing
    /// changes. It takes no memory.
    pub fn drop_all<L: Ledger>(&mut self, txn_id: &TransactionId, looks: &mut Looks<L>)
        ensures ended { EndsId txn_id.now self.old self.new }
        ensures looks { looks.new ≡ looks.old + length (frames_of self.old txn_id.now) }
    {
        let places = take_id(&mut self.index, txn_id, self.alloc);
        drop_places(&mut self.cells, &mut self.dead, places, *txn_id, looks);
    }

    /// Leaves the live cells, in their order, and none that is dead: one look at each. It takes no
    /// memory.
    pub fn close_up<L: Ledger>(&mut self, looks: &mut Looks<L>)
        ensures log { self.new ≡ closed_up self.old }
        ensures looks { looks.new ≡ looks.old + live_count self.old }
    {
        let live = move_live(&mut self.cells, &mut self.index, looks);
        self.cells.truncate(live);
        self.dead = 0;
    }

    /// Closes the log up where more cells are dead than live. It takes no memory.
    #[inline(always)]
    pub fn compact<L: Ledger>(&mut self, looks: &mut Looks<L>)
        ensures log { self.new ≡ compacted self.old }
        ensures frames { (t : TransactionId) → frames_of self.new t ≡ frames_of self.old t }
        ensures homes { self.new.homes ≡ self.old.homes }
        ensures room { self.new.room ≡ self.old.room }
        ensures live { live_count self.new ≡ live_count self.old }
        ensures few { dead_count self.new ≤ live_count self.new }
        ensures looks { looks.new + dead_count self.new ≤ looks.old + dead_count self.old }
    {
        if self.live() < self.dead() {
            self.close_up(looks);
        }
    }
}
