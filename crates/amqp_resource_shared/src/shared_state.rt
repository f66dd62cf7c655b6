//! What lies under the lock.

ghost use Rattle.std.specs.Prelude.{◌≡◌, [], length, option_copied, slice_get, IfOk, IfSome, OnErr, OnOk, Err, None, ℕ, sum_by};
ghost use Rattle.amqp_resource_record.specs.declared.stop.StepError.TheVariants as errors;
ghost use Rattle.amqp_resource_session.specs.Session.{StandsFor, below_of, held_of, stop_of, told_of};
ghost use Rattle.amqp_resource_shared.specs.Close.{ClosedBy, NotMissing, closed_of, why_of};
ghost use Rattle.amqp_resource_shared.specs.Kept.{Kept};
ghost use Rattle.amqp_resource_shared.specs.OneStep.{Appended, Causes, Counts, DidSo, stopped_after};

use crate::close::{CloseWhy, Closed, why_closed};
use crate::one_step::answer_step;
use crate::receipt::{Receipt, StoppedAt};
use crate::room::make_room;
use amqp_below_ids::IdSource;
use amqp_below_layer::LayerBelow;
use amqp_resource_record::{Entries, Entry, Step, StepError};
use amqp_resource_session::TxnSession;
use amqp_resource_shared_counts::{Share, add_up};
use std::alloc::Global;
use std::marker::Model;
use std::sync::ledger::{Book, Ledger, Share as Part};

/// A session with its ids, its entries and the book that counts them: what a
/// [`SharedTxnSession`](crate::SharedTxnSession) has under its lock.
///
/// The entries are always a legal record, for which the session stands while it runs, and the layer
/// below has taken the work of that record; after a stop the first frames of the step that stopped
/// follow.
#[derive(Drop)]
pub struct SharedState<S: LayerBelow, G: IdSource, L: Ledger> {
    session: TxnSession<S>,
    ids: G,
    entries: Vec<Entry>,
    stopped: Option<StoppedAt>,
    book: Book<L>,
    none: Part<L>,
    alloc: Global,
}

impl<S: LayerBelow, G: IdSource, L: Ledger> Model for SharedState<S, G, L> {
    ghost use Rattle.std.specs.Prelude.{◌≡◌, length};
    ghost use Rattle.amqp_resource_session.specs.Session.{below_of, held_of, stop_of};
    ghost use Rattle.amqp_resource_shared.specs.Kept.{Kept};
    ghost use Rattle.amqp_resource_shared.specs.SharedView.{SharedView};

    ghost Value = { SharedView };

    ghost view = { λ state. record {
      entries = state.entries.items;
      stopped = state.stopped;
      stop = stop_of state.session;
      told = S.told (below_of state.session);
    } };

    ghost invariant = { λ state. Kept (held_of state.session) (stop_of state.session)
        (S.told (below_of state.session)) (G.start state.ids) (G.next state.ids)
        state.entries.items state.stopped
        × (state.book.total ≡ length state.entries.items)
        × (state.none.parts ≡ 0) × (state.none.amount ≡ 0) };
}

impl<S: LayerBelow, G: IdSource, L: Ledger> SharedState<S, G, L> {
    /// A fresh session with ids at their start, over a layer that has taken nothing so far.
    pub(crate) fn new(
        alloc: Global,
        session: TxnSession<S>,
        ids: G,
        book: Book<L>,
        none: Part<L>,
    ) -> SharedState<S, G, L>
        requires fresh { StandsFor session [] × (stop_of session ≡ None) }
        requires taken { IfSome (told_of S.told session).taken (λ taken. taken ≡ []) }
        requires start { IfSome (G.start ids) (λ start. (n : ℕ) → G.next ids n ≡ start n) }
        requires book { (book.total ≡ 0) × (none.parts ≡ 0) × (none.amount ≡ 0) }
        ensures { (result.entries ≡ []) × (result.stopped ≡ None) × (result.stop ≡ None) }
    {
        SharedState {
            session,
            ids,
            entries: Vec::new(alloc),
            stopped: None,
            book,
            none,
            alloc,
        }
    }

    /// The entry with this number; `None` from the number of entries on.
    pub fn entry(&self, number: usize) -> Option<&Entry>
        ensures { option_copied result ≡ slice_get self.now.entries number }
    {
        self.entries.get(number)
    }

    /// How many entries there are.
    pub fn len(&self) -> usize
        ensures { result ≡ length self.now.entries }
    {
        self.entries.len()
    }

    /// One step of the session, as [`Locked::step`](crate::Locked::step) makes it.
    pub fn step(&mut self, share: &mut Share<L>, step: &Step) -> Result<Receipt, StepError>
        ensures halted { IfSome self.old.stop (λ code.
            (result ≡ Err (errors.Stopped code)) × (self.new ≡ self.old)) }
        ensures made { IfOk result (λ receipt. Appended self.old.entries self.new.entries step.now
            receipt) }
        ensures same { OnErr result (self.new.entries ≡ self.old.entries) }
        ensures stopped { self.new.stopped ≡ stopped_after self.old.stopped step.now result }
        ensures below { OnOk result (DidSo self.old.entries self.new.entries self.old.told
            self.new.told) }
        ensures causes { self.old.stop ≡ None
            → Causes S.sure self.old.entries self.old.told self.new.told self.new.stop step.now
            result }
        ensures counts { Counts share.old.count share.new.count result }
        ensures parts { share.new.parts ≡ share.old.parts }
    {
        if let Some(code) = self.session.stop_code() {
            return Err(StepError::Stopped(code));
        }
        let Ok(room) = make_room(self.alloc, &mut self.entries, step) else {
            return Err(StepError::NoMemory);
        };
        let answer = answer_step(
            &mut self.session,
            &mut self.ids,
            &mut self.entries,
            &mut self.stopped,
            room,
            step,
        );
        match answer {
            Ok(receipt) => {
                share.add_one(&mut self.book);
                Ok(receipt)
            }
            Err(error) => Err(error),
        }
    }

    /// Takes all of it apart, as [`SharedTxnSession::close`](crate::SharedTxnSession::close) does.
    pub(crate) fn close(
        self,
        shares: Vec<Share<L>>,
        receipts: Vec<Receipt>,
    ) -> Result<Closed<S, G>, (Closed<S, G>, CloseWhy)>
        ensures kept { Kept (held_of (closed_of result).session)
            (stop_of (closed_of result).session) (told_of S.told (closed_of result).session)
            (G.start (closed_of result).ids) (G.next (closed_of result).ids)
            (closed_of result).entries (closed_of result).stopped }
        ensures entries { (closed_of result).entries ≡ self.entries }
        ensures stopped { (closed_of result).stopped ≡ self.stopped }
        ensures why { ClosedBy (sum_by (λ s. s.count) shares.items) self.entries receipts.items
            (why_of result) }
        ensures whole { sum_by (λ s. s.parts) shares.items ≡ L.parts
            → NotMissing (why_of result) }
    {
        let SharedState {
            session,
            ids,
            entries,
            stopped,
            mut book,
            none,
            alloc,
        } = self;
        let held = add_up(&mut book, none, shares);
        let why = why_closed(alloc, entries.as_slice(), held, receipts);
        let closed = Closed {
            session,
            ids,
            entries: Entries::from_vec(entries),
            stopped,
        };
        match why {
            None => Ok(closed),
            Some(why) => Err((closed, why)),
        }
    }
}
