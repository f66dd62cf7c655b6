//! A run of workers on one session.

ghost use Rattle.std.specs.Prelude.{◌≡◌, ◌≤◌, ◌+◌, ℕ, length, sum_by, IfSome};
ghost use Rattle.std.specs.List.{count_by};
ghost use Rattle.amqp_below_recorder.specs.Recording.{IsFresh, is_unused};
ghost use Rattle.txn_program_threads.specs.Gathered.{IsGathered};
ghost use Rattle.txn_program_threads.specs.Runs.{RunsThreads};
ghost use Rattle.txn_program_threads.specs.Works.{attach_told};

use crate::ending::{end, end_ungathered};
use crate::gathering::{Gathered, gather};
use crate::starting::run_workers;
use crate::threads_ran::ThreadsRan;
use crate::worker::Workplace;
use amqp_below_ids::{CountIds, IdSource};
use amqp_below_layer::{LayerBelow, Tells};
use amqp_below_recorder::Recorder;
use amqp_resource_session::TxnSession;
use amqp_resource_shared::{Share, SharedTxnSession};
use std::alloc::Global;
use std::marker::Brand;
use std::sync::Wait;
use std::sync::ledger::{Blank, Ledger};
use std::thread::Threads;
use txn_gate::Gate;

/// Runs the workers and puts what they gave back together; `None` where memory runs out.
fn work_together<
    S: LayerBelow + Send,
    G: IdSource + Send,
    L: Ledger + Send + Sync,
    H: Gate + Sync,
    R: Threads + Wait + Sync,
>(place: &Workplace<'_, S, G, L, H, R>, all: Share<L>, workers: u32) -> Option<Gathered<L>>
    requires rounds { place.now.rounds ≤ 1000 }
    requires few { workers ≤ 8 }
    requires share { (all.parts ≡ workers + 1) × (all.count ≡ 0) }
    ensures parts { IfSome result (λ r. sum_by (λ s. s.parts) r.shares.items ≡ workers + 1) }
    ensures counts { IfSome result (λ r. sum_by (λ s. s.count) r.shares.items
        ≡ length r.receipts.items) }
    ensures gathered { IfSome result (λ r. IsGathered workers place.now.rounds workers
        r.receipts.items r.done) }
    ensures once { IfSome result (λ r. (i : ℕ) → count_by (attach_told i) r.receipts.items ≤ 1) }
{
    let worked = run_workers(place, all, workers)?;
    gather(place.alloc, worked, workers, place.rounds)
}

/// The run, in one ledger.
fn serve_in<
    S: LayerBelow + Send,
    L: Ledger + Send + Sync,
    H: Gate + Sync,
    R: Threads + Wait + Sync,
>(
    rt: &R,
    alloc: Global,
    blank: Blank,
    below: Recorder<S>,
    workers: u32,
    rounds: u32,
    gate: &H,
) -> ThreadsRan<S>
    requires name { blank.name ≡ L.name }
    requires parts { (blank.parts ≡ L.parts) × (blank.parts ≡ workers + 1) }
    requires fresh { IsFresh (is_unused below) (⟦<Recorder<S> as Tells>⟧.told below) }
    requires refusals { (⟦<Recorder<S> as Tells>⟧.told below).refusals ≡ 0 }
    requires workers { (1 ≤ workers) × (workers ≤ 8) }
    requires rounds { (1 ≤ rounds) × (rounds ≤ 1000) }
    ensures { RunsThreads ⟦<Recorder<S> as Tells>⟧.told workers rounds result }
{
    let session = TxnSession::new(alloc, below);
    let (shared, all) = SharedTxnSession::<Recorder<S>, CountIds, L>::new(
        blank,
        alloc,
        session,
        CountIds::new(),
    );
    let place = Workplace {
        rt,
        shared: &shared,
        gate,
        alloc,
        rounds,
    };
    let Some(gathered) = work_together(&place, all, workers) else {
        return end_ungathered(shared.close(Vec::new(alloc), Vec::new(alloc)));
    };
    let Gathered {
        shares,
        receipts,
        done,
    } = gathered;
    end(shared.close(shares, receipts), done)
}

/// Starts so many workers of so many rounds each on one session over the recorder, each in a thread
/// of its own, joins them, and closes the session. A worker for which no thread can be made works
/// in the caller's. Before each of its steps a worker passes the gate, with its number from 1 and
/// its turn from 1.
///
/// It promises nothing of which worker comes first, nor of how long one waits, nor that workers
/// run beside each other.
///
/// # Requires
///
/// The recorder is fresh, as [`Recorder::is_fresh`] tests, and has counted no refusal. There are 1
/// to 8 workers, of 1 to 1,000 rounds each.
pub fn serve_threads<S: LayerBelow + Send, H: Gate + Sync, R: Threads + Wait + Sync>(
    rt: &R,
    alloc: Global,
    below: Recorder<S>,
    workers: u32,
    rounds: u32,
    gate: &H,
) -> ThreadsRan<S>
    requires fresh { IsFresh (is_unused below) (⟦<Recorder<S> as Tells>⟧.told below) }
    requires refusals { (⟦<Recorder<S> as Tells>⟧.told below).refusals ≡ 0 }
    requires workers { (1 ≤ workers) × (workers ≤ 8) }
    requires rounds { (1 ≤ rounds) × (rounds ≤ 1000) }
    ensures { RunsThreads ⟦<Recorder<S> as Tells>⟧.told workers rounds result }
{
    let blank = Blank::new(u64::from(workers) + 1);
    serve_in::<S, Brand, H, R>(rt, alloc, blank, below, workers, rounds, gate)
}
