//! What is kept for the live ids, as one value.

ghost use Rattle.std.specs.Prelude.{◌≡◌, ◌≤◌, ◌+◌, ◌++◌, ◌∷◌, ◌↔◌, [], IsTrue, Some, None, IfOk, cond, length, map, is_some, vec_capacity, OnOk};
ghost use Rattle.std.specs.Option.{option_map};
ghost use Rattle.amqp_txn_types.specs.declared.id.TransactionId.{TransactionId};
ghost use Rattle.amqp_txn_types.specs.Frames.{stripped};
ghost use Rattle.amqp_txn_types.specs.Ids.{same_id};
ghost use Rattle.amqp_txn_types.specs.Works.{frame_of_work};
ghost use Rattle.amqp_resource_log.specs.Cells.{live_ids};
ghost use Rattle.amqp_resource_log.specs.Live.{HasPlace, Keeps, KeepsPlaces, LetsGo, SameKept, UsesPlace, frame_count, frames_kept, home_of, kept, owed};

use crate::log::ArrivalLog;
use crate::looks::Looks;
use amqp_txn_types::{Frame, NoMemory, TransactionId, TxnWorkFrame};
use std::alloc::Global;
use std::marker::Model;
use std::sync::ledger::Ledger;

/// The live ids, each with the number of the control link that it was declared on (none for an id
/// that the session allocated without a control message) and with its work in order of arrival.
#[derive(Drop)]
pub struct LiveWork {
    log: ArrivalLog,
}

impl Model for LiveWork {
    ghost use Rattle.amqp_resource_log.specs.Live.{Agrees, Live};

    ghost Value = { Live };

    ghost view = { λ work. work.log };

    ghost invariant = { λ work. Agrees work.log.homes work.log };
}

impl LiveWork {
    /// No live id. It takes no memory; later growth takes it from `alloc`.
    pub fn new(alloc: Global) -> Self
        ensures kept { (t : TransactionId) → kept result t ≡ None }
        ensures ids { live_ids result ≡ [] }
        ensures owed { owed result ≡ 0 }
        ensures frames { frame_count result ≡ 0 }
    {
        LiveWork {
            log: ArrivalLog::new(alloc),
        }
    }

    /// How many ids are live.
    pub fn len(&self) -> usize
        ensures { result ≡ length (live_ids self.now) }
    {
        self.log.len()
    }

    /// Whether no id is live.
    pub fn is_empty(&self) -> bool
        ensures { IsTrue result ↔ ((t : TransactionId) → kept self.now t ≡ None) }
    {
        self.log.is_empty()
    }

    /// How many frames are kept for the live ids, all together.
    pub fn frame_count(&self) -> usize
        ensures { result ≡ frame_count self.now }
    {
        self.log.live()
    }

    /// How many dead cells are yet to be taken out of the log: the looks that are owed for frames
    /// taken so far.
    pub fn owed(&self) -> usize
        ensures { result ≡ owed self.now }
    {
        self.log.dead()
    }

    /// Whether the id is live.
    pub fn is_live(&self, txn_id: &TransactionId) -> bool
        ensures { result ≡ is_some (kept self.now txn_id.now) }
    {
        self.log.is_live(txn_id)
    }

    /// The link that a live id was declared on, if it was on one; `None` where it isn't live.
    pub fn home(&self, txn_id: &TransactionId) -> Option<Option<u64>>
        ensures { result ≡ option_map home_of (kept self.now txn_id.now) }
    {
        self.log.home(txn_id)
    }

    /// How many frames are kept for the id: none where it isn't live.
    pub fn count(&self, txn_id: &TransactionId) -> usize
        ensures { result ≡ length (frames_kept (kept self.now txn_id.now)) }
    {
        self.log.count(txn_id)
    }

    /// Makes room for one more live id. The only error is out of memory.
    pub fn make_room(&mut self) -> Result<(), NoMemory>
        ensures same { SameKept self.old self.new }
        ensures ids { live_ids self.new ≡ live_ids self.old }
        ensures owed { owed self.new ≡ owed self.old }
        ensures stays { KeepsPlaces self.old self.new }
        ensures room { OnOk result (HasPlace self.new) }
    {
        self.log.make_room()
    }

    /// Adds an id without frames, for which there is room. It takes no memory.
    ///
    /// # Requires
    ///
    /// There is room, as [`LiveWork::make_room`] makes it, and the id isn't live.
    pub fn add(&mut self, txn_id: TransactionId, home: Option<u64>)
        requires room { HasPlace self.old }
        requires unused { kept self.old txn_id ≡ None }
        ensures kept { (t : TransactionId) → kept self.new t
            ≡ cond (same_id t txn_id) (Some (home, [])) (kept self.old t) }
        ensures ids { live_ids self.new ≡ live_ids self.old ++ txn_id ∷ [] }
        ensures owed { owed self.new ≡ owed self.old }
        ensures frames { frame_count self.new ≡ frame_count self.old }
        ensures room { UsesPlace self.old self.new }
    {
        let Ok(()) = self.log.open_on(txn_id, home) else {
            unreachable!()
        };
    }

    /// Keeps work for an id, as its last, and says whether the id is live: for one that isn't, and
    /// where memory runs out, nothing changes and the work is let go.
    #[inline(always)]
    pub fn keep(&mut self, txn_id: &TransactionId, work: TxnWorkFrame) -> Result<bool, NoMemory>
        ensures kept { Keeps self.old self.new txn_id.now (frame_of_work work) result }
        ensures ids { live_ids self.new ≡ live_ids self.old }
        ensures owed { owed self.new ≡ owed self.old }
        ensures room { KeepsPlaces self.old self.new }
    {
        self.log.keep(txn_id, work)
    }

    /// Copies of all that is kept for an id, in order, each without its transactional state: at most
    /// one look for each. None of an id that isn't live. The only error is out of memory.
    pub fn copy_all<L: Ledger>(
        &self,
        txn_id: &TransactionId,
        looks: &mut Looks<L>,
    ) -> Result<Vec<Frame>, NoMemory>
        ensures list { IfOk result (λ list. list.items
            ≡ map stripped (frames_kept (kept self.now txn_id.now))) }
        ensures looks { looks.new ≤ looks.old + length (frames_kept (kept self.now txn_id.now)) }
    {
        self.log.copy_all(txn_id, looks)
    }

    /// Ends an id and takes all that is kept for it out, in order, each without its transactional
    /// state, into a list that has room for it. Where the id isn't live nothing changes. It takes
    /// no memory.
    ///
    /// # Requires
    ///
    /// The list has room for the frames.
    pub fn take_all<L: Ledger>(
        &mut self,
        txn_id: &TransactionId,
        list: Vec<Frame>,
        looks: &mut Looks<L>,
    ) -> Vec<Frame>
        requires { length list.items + length (frames_kept (kept self.old txn_id.now))
            ≤ vec_capacity list }
        ensures list { result.items
            ≡ list.items ++ map stripped (frames_kept (kept self.old txn_id.now)) }
        ensures gone { LetsGo self.old self.new txn_id.now looks.old looks.new }
    {
        self.log.take_all(txn_id, list, looks)
    }

    /// Ends an id and lets all that is kept for it go. Where the id isn't live nothing changes. It
    /// takes no memory.
    pub fn drop_all<L: Ledger>(&mut self, txn_id: &TransactionId, looks: &mut Looks<L>)
        ensures { LetsGo self.old self.new txn_id.now looks.old looks.new }
    {
        self.log.drop_all(txn_id, looks);
    }

    /// Takes the dead cells out where they are more than the frames that are kept: one look for
    /// each of these. It takes no memory.
    #[inline(always)]
    pub fn compact<L: Ledger>(&mut self, looks: &mut Looks<L>)
        ensures same { SameKept self.old self.new }
        ensures ids { live_ids self.new ≡ live_ids self.old }
        ensures room { KeepsPlaces self.old self.new }
        ensures few { owed self.new ≤ frame_count self.new }
        ensures looks { looks.new + owed self.new ≤ looks.old + owed self.old }
    {
        self.log.compact(looks);
    }
}
