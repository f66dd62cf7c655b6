//! A session behind its lock.

ghost use Rattle.std.specs.Prelude.{◌≡◌, ◌<◌, [], length, option_copied, slice_get, IfOk, IfSome, OnErr, OnOk, Err, None, ℕ, sum_by};
ghost use Rattle.std.specs.Sync.Mutex.{mutex_guard_value};
ghost use Rattle.amqp_resource_record.specs.declared.stop.StepError.TheVariants as errors;
ghost use Rattle.amqp_resource_session.specs.Session.{StandsFor, held_of, stop_of, told_of};
ghost use Rattle.amqp_resource_shared.specs.Close.{ClosedBy, NotMissing, closed_of, why_of};
ghost use Rattle.amqp_resource_shared.specs.Kept.{Kept};
ghost use Rattle.amqp_resource_shared.specs.OneStep.{Appended, Causes, Counts, DidSo, stopped_after};

use crate::close::{CloseWhy, Closed};
use crate::receipt::Receipt;
use crate::shared_state::SharedState;
use amqp_below_ids::IdSource;
use amqp_below_layer::LayerBelow;
use amqp_resource_record::{Entry, Step, StepError};
use amqp_resource_session::TxnSession;
use amqp_resource_shared_counts::Share;
use std::alloc::Global;
use std::sync::ledger::{Blank, Ledger};
use std::sync::{Mutex, MutexGuard, Wait};

/// A session, its ids and its entries under one lock, for threads that serve several links of it.
///
/// What lies under the lock is a [`SharedState`]. `L` names the ledger that counts the entries.
#[derive(Drop)]
pub struct SharedTxnSession<S: LayerBelow, G: IdSource, L: Ledger> {
    state: Mutex<SharedState<S, G, L>>,
}

/// A shared session while its lock is held. The lock is free again once it is dropped.
#[derive(Drop)]
pub struct Locked<'a, S: LayerBelow, G: IdSource, L: Ledger> {
    guard: MutexGuard<'a, SharedState<S, G, L>>,
}

impl<S: LayerBelow, G: IdSource, L: Ledger> SharedTxnSession<S, G, L> {
    /// A shared session without entries, and the share that has every part of the ledger and counts
    /// no step. It takes no memory; entries and receipts take theirs from `alloc`.
    ///
    /// # Requires
    ///
    /// The blank is that of `L`, with at least one part. The session stands for no entry and hasn't
    /// stopped, the layer below has taken nothing where it tells what it took, and the source is at
    /// its start where it tells that.
    pub fn new(
        blank: Blank,
        alloc: Global,
        session: TxnSession<S>,
        ids: G,
    ) -> (SharedTxnSession<S, G, L>, Share<L>)
        requires name { blank.name ≡ L.name }
        requires parts { (blank.parts ≡ L.parts) × (0 < blank.parts) }
        requires fresh { StandsFor session [] × (stop_of session ≡ None) }
        requires taken { IfSome (told_of S.told session).taken (λ taken. taken ≡ []) }
        requires start { IfSome (G.start ids) (λ start. (n : ℕ) → G.next ids n ≡ start n) }
        ensures { (result.1.parts ≡ L.parts) × (result.1.count ≡ 0) }
    {
        let (book, mut part) = blank.open::<L>();
        let none = part.empty();
        let state = SharedState::new(alloc, session, ids, book, none);
        (
            SharedTxnSession {
                state: Mutex::new(state),
            },
            Share::new(part),
        )
    }

    /// Waits for the lock and takes it.
    pub fn lock<R: Wait>(&self, rt: &R) -> Locked<'_, S, G, L> {
        Locked {
            guard: self.state.lock(rt),
        }
    }

    /// Takes session, ids and entries out, adds the shares up and compares the receipts with the
    /// entries. It waits for nobody, and takes n log n comparisons for n receipts.
    ///
    /// # Errors
    ///
    /// All is handed back beside the first of these:
    ///
    /// - `Missing` exactly where the shares count another number of steps than there are entries;
    ///   never where they have all parts of the ledger.
    /// - `Repeated` exactly where two receipts have one number, with two such.
    /// - `Differs` exactly where a receipt isn't of the entry with its number, with such a one.
    /// - `NoMemory` where memory runs out in the search for a number that two receipts have.
    pub fn close(
        self,
        shares: Vec<Share<L>>,
        receipts: Vec<Receipt>,
    ) -> Result<Closed<S, G>, (Closed<S, G>, CloseWhy)>
        ensures kept { Kept (held_of (closed_of result).session)
            (stop_of (closed_of result).session) (told_of S.told (closed_of result).session)
            (G.start (closed_of result).ids) (G.next (closed_of result).ids)
            (closed_of result).entries (closed_of result).stopped }
        ensures why { ClosedBy (sum_by (λ s. s.count) shares.items) (closed_of result).entries
            receipts.items (why_of result) }
        ensures whole { sum_by (λ s. s.parts) shares.items ≡ L.parts
            → NotMissing (why_of result) }
    {
        let SharedTxnSession { state } = self;
        state.into_inner().close(shares, receipts)
    }
}

impl<'a, S: LayerBelow, G: IdSource, L: Ledger> Locked<'a, S, G, L> {
    /// The entry with this number; `None` from the number of entries on.
    pub fn entry(&self, number: usize) -> Option<&Entry>
        ensures { option_copied result
            ≡ slice_get (mutex_guard_value self.now.guard).entries number }
    {
        self.guard.entry(number)
    }

    /// How many entries there are.
    pub fn len(&self) -> usize
        ensures { result ≡ length (mutex_guard_value self.now.guard).entries }
    {
        self.guard.len()
    }

    /// One step of the session under the lock. Its entry is appended, the share counts one step
    /// more, and the receipt is that of the entry.
    ///
    /// Copies of the step and room for entry and draws are made first.
    ///
    /// # Errors
    ///
    /// Entries and share stay as they were.
    ///
    /// - `Stopped` exactly where the session had stopped, with the code of its first stop. It takes
    ///   no memory, and nothing changes.
    /// - `Ended` for the three ends, with the step's own value.
    /// - `Fault` with an unknown id for a frame under an id that isn't live, and with any other
    ///   error where the layer below refused a plain frame or the answer of a post, or ran out of
    ///   memory for a commit.
    /// - `NoMemory` where memory runs out; the session goes on.
    ///
    /// The first `Fault` or `Ended` stops the session: its step is kept, with how many of its
    /// frames were taken below.
    pub fn step(&mut self, share: &mut Share<L>, step: &Step) -> Result<Receipt, StepError>
        ensures halted { IfSome (mutex_guard_value self.old.guard).stop (λ code.
            (result ≡ Err (errors.Stopped code))
            × (mutex_guard_value self.new.guard ≡ mutex_guard_value self.old.guard)) }
        ensures made { IfOk result (λ receipt. Appended (mutex_guard_value self.old.guard).entries
            (mutex_guard_value self.new.guard).entries step.now receipt) }
        ensures same { OnErr result ((mutex_guard_value self.new.guard).entries
            ≡ (mutex_guard_value self.old.guard).entries) }
        ensures stopped { (mutex_guard_value self.new.guard).stopped
            ≡ stopped_after (mutex_guard_value self.old.guard).stopped step.now result }
        ensures below { OnOk result (DidSo (mutex_guard_value self.old.guard).entries
            (mutex_guard_value self.new.guard).entries (mutex_guard_value self.old.guard).told
            (mutex_guard_value self.new.guard).told) }
        ensures causes { (mutex_guard_value self.old.guard).stop ≡ None
            → Causes S.sure (mutex_guard_value self.old.guard).entries
            (mutex_guard_value self.old.guard).told (mutex_guard_value self.new.guard).told
            (mutex_guard_value self.new.guard).stop step.now result }
        ensures counts { Counts share.old.count share.new.count result }
        ensures parts { share.new.parts ≡ share.old.parts }
    {
        self.guard.step(share, step)
    }
}
