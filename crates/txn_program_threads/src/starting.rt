//! Workers in threads of their own.

ghost use Rattle.std.specs.Prelude.{◌≡◌, ◌≤◌, ◌+◌, IfSome, length};
ghost use Rattle.txn_program_threads.specs.Each.{EachFrom};
ghost use Rattle.txn_program_threads.specs.Gathered.{IsWorkOf};

use crate::worker::{Work, Workplace, run_worker};
use amqp_below_ids::IdSource;
use amqp_below_layer::LayerBelow;
use amqp_resource_shared::Share;
use std::alloc::Global;
use std::sync::Wait;
use std::sync::ledger::Ledger;
use std::thread;
use std::thread::Threads;
use txn_gate::Gate;

/// What a worker is given.
#[derive(Drop)]
pub(crate) struct Job<L: Ledger> {
    /// Its number, from 1.
    number: u32,
    /// Its share, with one part.
    share: Share<L>,
}

/// What is given to the workers, and the share that is left.
#[derive(Drop)]
pub(crate) struct Jobs<L: Ledger> {
    left: Share<L>,
    jobs: Vec<Job<L>>,
}

/// What the workers gave back, in the order of their numbers, and the share that is left.
#[derive(Drop)]
pub(crate) struct Worked<L: Ledger> {
    /// The share that is left, with one part.
    pub(crate) left: Share<L>,
    /// What each worker gave back.
    pub(crate) works: Vec<Work<L>>,
}

/// Cuts a share for each worker; `None` where memory runs out.
fn make_jobs<L: Ledger>(alloc: Global, all: Share<L>, workers: u32) -> Option<Jobs<L>>
    requires few { workers ≤ 8 }
    requires share { (all.parts ≡ workers + 1) × (all.count ≡ 0) }
    ensures left { IfSome result (λ r. (r.left.parts ≡ 1) × (r.left.count ≡ 0)) }
    ensures all { IfSome result (λ r. length r.jobs.items ≡ workers) }
    ensures each { IfSome result (λ r. EachFrom
        (λ n j. (j.number ≡ n) × (j.share.parts ≡ 1) × (j.share.count ≡ 0)) 1 r.jobs.items) }
{
    let mut left = all;
    let mut jobs = Vec::new(alloc);
    for made in 0..workers {
        let share = left.split(1);
        let number = made + 1;
        jobs.push(Job { number, share }).ok()?;
    }
    Some(Jobs { left, jobs })
}

/// Runs the workers of these jobs beside each other, each in a thread of its own where one can be
/// made; `None` where memory runs out.
fn run_jobs<
    S: LayerBelow + Send,
    G: IdSource + Send,
    L: Ledger + Send + Sync,
    H: Gate + Sync,
    R: Threads + Wait + Sync,
>(rt: &R, place: &Workplace<'_, S, G, L, H, R>, jobs: Vec<Job<L>>) -> Option<Vec<Work<L>>>
    requires rounds { place.now.rounds ≤ 1000 }
    requires each { EachFrom (λ n j. (j.number ≡ n) × (j.share.parts ≡ 1)
        × (j.share.count ≡ 0)) 1 jobs.items }
    ensures all { IfSome result (λ v. length v.items ≡ length jobs.items) }
    ensures each { IfSome result (λ v. EachFrom (λ n w. IsWorkOf n w.number place.now.rounds
        w.share.parts w.share.count w.receipts.items w.done) 1 v.items) }
{
    let one = |job: Job<L>| -> Work<L>
        requires { (place.now.rounds ≤ 1000) × (job.share.parts ≡ 1) × (job.share.count ≡ 0) }
        ensures { IsWorkOf job.number result.number place.entry.now.rounds result.share.parts
            result.share.count result.receipts.items result.done }
    {
        let Job { number, share } = job;
        run_worker(place, number, share)
    };
    match thread::map_vec(rt, jobs, &one) {
        Ok(works) => Some(works),
        Err(_) => None,
    }
}

/// Runs so many workers beside each other, each in a thread of its own where one can be made;
/// `None` where memory runs out.
///
/// # Requires
///
/// The place asks for at most 1,000 rounds, there are at most 8 workers, and the share has one part
/// more than workers and counts nothing.
pub(crate) fn run_workers<
    S: LayerBelow + Send,
    G: IdSource + Send,
    L: Ledger + Send + Sync,
    H: Gate + Sync,
    R: Threads + Wait + Sync,
>(place: &Workplace<'_, S, G, L, H, R>, all: Share<L>, workers: u32) -> Option<Worked<L>>
    requires rounds { place.now.rounds ≤ 1000 }
    requires few { workers ≤ 8 }
    requires share { (all.parts ≡ workers + 1) × (all.count ≡ 0) }
    ensures left { IfSome result (λ r. (r.left.parts ≡ 1) × (r.left.count ≡ 0)) }
    ensures all { IfSome result (λ r. length r.works.items ≡ workers) }
    ensures each { IfSome result (λ r. EachFrom (λ n w. IsWorkOf n w.number place.now.rounds
        w.share.parts w.share.count w.receipts.items w.done) 1 r.works.items) }
{
    let Jobs { left, jobs } = make_jobs(place.alloc, all, workers)?;
    let works = run_jobs(place.rt, place, jobs)?;
    Some(Worked { left, works })
}
