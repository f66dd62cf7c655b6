//! A session: what it keeps, the layer below, and whether it stopped.

ghost use Rattle.std.specs.Prelude.{◌≡◌, ◌≤◌, ◌<◌, ◌+◌, ◌*◌, ◌-◌, ◌^◌, ◌↔◌, [], List, None, IfOk, IsTrue, map};
ghost use Rattle.amqp_resource_record.specs.declared.entry.Entry.{Entry};
ghost use Rattle.amqp_resource_record.specs.Links.{attached_count};
ghost use Rattle.amqp_resource_record.specs.Live.{is_live};
ghost use Rattle.amqp_resource_session.specs.StepClauses.{StepSays};
ghost use Rattle.amqp_txn_types.specs.Frames.{stripped};
ghost use Rattle.amqp_resource_log.specs.Live.{frames_kept, kept};
ghost use Rattle.amqp_resource_held.specs.Looks.{dues, frames_added, frames_ended, unless_no_memory};
ghost use Rattle.amqp_resource_session.specs.Session.{FitsTogether, IsFresh, StandsFor, StopAfter, bare_frames_on, below_of, frame_count_of, held_of, is_live_on, opened_of, owed_of, pending, refusals_of, stop_of, vetoes_of};

use crate::dispatch::take_step;
use amqp_below_ids::{Drawn, IdSource};
use amqp_below_layer::LayerBelow;
use amqp_resource_held::{Held, keeps_nothing};
use amqp_resource_log::Looks;
use amqp_resource_record::{Drawn16, Reply, Step, StepError, StopCode, code_of_end, code_of_fault};
use amqp_txn_types::{Frames, NoMemory, SessionState, TransactionId};
use std::alloc::Global;
use std::marker::Brand;
use std::mem::replace;
use std::sync::ledger::{Blank, Ledger};

/// A session that serves transactions over a layer below. Part 4 of the standard, section 4.4.
///
/// It keeps the frames that come under each live transaction and hands them below when it commits,
/// where they are accepted there.
/// Once a refusal below, a frame under an id that isn't live or an end stopped it, it takes no step
/// and no frame any more.
#[derive(Drop)]
pub struct TxnSession<S> {
    pub(crate) held: Held,
    pub(crate) below: S,
    pub(crate) stop: Option<StopCode>,
    pub(crate) refusals: u64,
    pub(crate) vetoes: u64,
    alloc: Global,
}

/// The code that a session keeps after an answer.
fn stop_after(answer: &Result<(Drawn, Reply), StepError>) -> Option<StopCode>
    ensures { StopAfter answer.now result }
{
    match answer {
        Ok(_) => None,
        Err(StepError::Fault { error, .. }) => Some(code_of_fault(error)),
        Err(StepError::Ended(reason)) => Some(code_of_end(reason)),
        Err(StepError::Stopped(code)) => Some(*code),
        Err(StepError::NoMemory) => None,
    }
}

impl<S> TxnSession<S> {
    /// The allocator that the session grows on.
    pub(crate) fn allocator(&self) -> Global {
        self.alloc
    }
}

impl<S: LayerBelow> TxnSession<S> {
    /// A session over the layer below, whatever state that is in: no live id, no link opened, not
    /// stopped. It takes no memory; later growth takes it from `alloc`.
    pub fn new(alloc: Global, below: S) -> TxnSession<S>
        ensures stands { StandsFor result [] }
        ensures stop { stop_of result ≡ None }
        ensures below { below_of result ≡ below }
        ensures refusals { refusals_of result ≡ 0 }
        ensures vetoes { vetoes_of result ≡ 0 }
        ensures fits { FitsTogether result }
        ensures owed { owed_of result ≡ 0 }
    {
        TxnSession {
            held: Held::new(alloc),
            below,
            stop: None,
            refusals: 0,
            vetoes: 0,
            alloc,
        }
    }

    /// Whether no id is live, no link was opened so far, no look is owed, the session hasn't
    /// stopped and the layer below is mapped.
    pub fn is_fresh(&self) -> bool
        ensures { IsTrue result ↔ IsFresh S.told self.now }
    {
        if !keeps_nothing(&self.held) {
            return false;
        }
        if self.held.work.owed() != 0 {
            return false;
        }
        if self.stop.is_some() {
            return false;
        }
        self.below.local_state() == SessionState::Mapped
    }

    /// Whether the id is live: declared on a link that is open, or allocated by a call of the
    /// session, and not discharged since.
    pub fn is_live(&self, txn_id: &TransactionId) -> bool
        ensures kept { result ≡ is_live_on self.now txn_id.now }
        ensures as_record { (r : List Entry) → StandsFor self.now r
            → result ≡ is_live r txn_id.now }
    {
        self.held.work.is_live(txn_id)
    }

    /// How many control links were opened so far.
    pub fn links_opened(&self) -> u64
        ensures kept { result ≡ opened_of self.now }
        ensures as_record { (r : List Entry) → StandsFor self.now r → result ≡ attached_count r }
    {
        self.held.opened
    }

    /// The looks that the log of the work owes for frames taken so far.
    pub fn owed(&self) -> usize
        ensures { result ≡ owed_of self.now }
    {
        self.held.work.owed()
    }

    /// The code of the session's first stop.
    pub fn stop_code(&self) -> Option<StopCode>
        ensures { result ≡ stop_of self.now }
    {
        self.stop
    }

    /// The layer below.
    pub fn below(&self) -> &S
        ensures { result.now ≡ below_of self.now }
    {
        &self.below
    }

    /// Copies of the frames that a commit of the id would hand below, in order, each without its
    /// transactional state; `None` where the id isn't live. The only error is out of memory.
    pub fn pending(&self, txn_id: &TransactionId) -> Result<Option<Frames>, NoMemory>
        ensures kept { IfOk result (λ found. found ≡ bare_frames_on self.now txn_id.now) }
        ensures as_record { (r : List Entry) → StandsFor self.now r
            → IfOk result (λ found. found ≡ pending r txn_id.now) }
    {
        if !self.is_live(txn_id) {
            return Ok(None);
        }
        let frames = self.copy_kept::<Brand>(txn_id, Blank::new(1))?;
        Ok(Some(frames))
    }

    /// Copies of the frames that are kept for an id, each without its transactional state, by looks
    /// that are counted in a blank ledger.
    fn copy_kept<L: Ledger>(&self, txn_id: &TransactionId, blank: Blank) -> Result<Frames, NoMemory>
        requires name { blank.name ≡ L.name }
        requires parts { blank.parts ≡ L.parts }
        requires some { 0 < blank.parts }
        ensures { IfOk result (λ frames. frames
            ≡ map stripped (frames_kept (kept (held_of self.now).work txn_id.now))) }
    {
        let mut looks = Looks::<L>::new(blank);
        let frames = self.held.work.copy_all(txn_id, &mut looks)?;
        Ok(Frames::from_vec(frames))
    }

    /// Puts another layer below the session, and gives back the one that stood there. What the
    /// session keeps, its counts and its stop stay as they were.
    pub fn swap_below(&mut self, below: S) -> S
        ensures given { result ≡ below_of self.old }
        ensures below { below_of self.new ≡ below }
        ensures held { held_of self.new ≡ held_of self.old }
        ensures stop { stop_of self.new ≡ stop_of self.old }
        ensures refusals { refusals_of self.new ≡ refusals_of self.old }
        ensures vetoes { vetoes_of self.new ≡ vetoes_of self.old }
    {
        replace(&mut self.below, below)
    }

    /// The layer below, taken out of the session.
    pub fn into_below(self) -> S
        ensures { result ≡ below_of self }
    {
        self.below
    }

    /// One step, with its reply and the ids that it drew from the source.
    ///
    /// Errors: `Stopped` on a session that had stopped, with the code of its first stop. `Ended`
    /// for the three ends, with the step's own value; a copy of its error may run out of memory.
    /// `Fault` with an unknown id for work under an id that isn't live, and with any other error
    /// where the layer below refused a plain frame or the answer of a post, or ran out of memory
    /// for a commit; `handed` counts the step's frames that were taken. Each of these stops the
    /// session. A refused attach of a control link and a vetoed commit are replies, and the session
    /// goes on. `NoMemory` leaves the session as it was.
    ///
    /// Its clauses are those of [`step_counted`](Self::step_counted) but for those on looks.
    ///
    /// # Requires
    ///
    /// That fewer than 2^64 - 1 control links were opened, where the session hasn't stopped.
    pub fn step<G: IdSource>(
        &mut self,
        step: &Step,
        ids: &mut G,
    ) -> Result<(Drawn16, Reply), StepError>
        requires { stop_of self.old ≡ None → opened_of self.old < 2 ^ 64 - 1 }
        ensures { StepSays S.told S.sure S.review_gives S.check_gives G.next G.start self.old
            self.new ids.old ids.new step.now result }
    {
        self.step_blank::<G, Brand>(step, ids, Blank::new(1))
    }

    /// One step, whose looks are counted in a blank ledger.
    fn step_blank<G: IdSource, L: Ledger>(
        &mut self,
        step: &Step,
        ids: &mut G,
        blank: Blank,
    ) -> Result<(Drawn16, Reply), StepError>
        requires room { stop_of self.old ≡ None → opened_of self.old < 2 ^ 64 - 1 }
        requires name { blank.name ≡ L.name }
        requires parts { blank.parts ≡ L.parts }
        requires some { 0 < blank.parts }
        ensures { StepSays S.told S.sure S.review_gives S.check_gives G.next G.start self.old
            self.new ids.old ids.new step.now result }
    {
        let mut looks = Looks::<L>::new(blank);
        self.step_counted(step, ids, &mut looks)
    }

    /// One step as by [`step`](Self::step), which counts its looks into the log of the work.
    ///
    /// # Requires
    ///
    /// What [`step`](Self::step) requires.
    pub fn step_counted<G: IdSource, L: Ledger>(
        &mut self,
        step: &Step,
        ids: &mut G,
        looks: &mut Looks<L>,
    ) -> Result<(Drawn16, Reply), StepError>
        requires room { stop_of self.old ≡ None → opened_of self.old < 2 ^ 64 - 1 }
        ensures says { StepSays S.told S.sure S.review_gives S.check_gives G.next G.start self.old
            self.new ids.old ids.new step.now result }
        // The looks of the step and those owed after it are at most those owed before it and two
        // for each frame that it ends, and a step that ran out of memory ends none. While the
        // session hasn't stopped, no more are owed than frames are kept.
        ensures looks { looks.new + owed_of self.new ≤ looks.old + owed_of self.old
            + 2 * unless_no_memory result (frames_ended (held_of self.old) step.now) }
        ensures few { stop_of self.new ≡ None → owed_of self.new ≤ frame_count_of self.new }
        // Two looks at most come for each frame that is kept.
        ensures dues { looks.new + dues (held_of self.new).work
            ≤ looks.old + dues (held_of self.old).work + 2 * frames_added step.now }
    {
        if let Some(code) = self.stop {
            return Err(StepError::Stopped(code));
        }
        let result = take_step(
            &mut self.held,
            &mut self.below,
            self.alloc,
            step,
            ids,
            looks,
        );
        self.held.work.compact(looks);
        self.stop = stop_after(&result);
        result
    }
}
