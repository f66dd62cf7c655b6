//! One worker: its attach, then its rounds.

ghost use Rattle.std.specs.Prelude.{◌≡◌, ◌≤◌, ◌<◌, ◌+◌, ◌*◌, [], false, IfSome, MatchOption, OnSome};
ghost use Rattle.amqp_resource_shared.specs.Receipts.{is_told, step_told};
ghost use Rattle.txn_program_threads.specs.AtWork.{IsReady, SameWorker};
ghost use Rattle.txn_program_threads.specs.Tallies.{closed, tally_of};
ghost use Rattle.txn_program_threads.specs.Works.{AreOfWorker, GainedOne, HasMade, IsWork, MadeRounds, NoneRefused, StillTold, ToldId, ToldLink, one_declare, one_discharge, one_post};
ghost use Rattle.txn_program_threads.specs.WorkerSteps.{IsReadable};

use crate::worker_steps::{worker_attach, worker_declare, worker_discharge, worker_post};
use amqp_below_ids::IdSource;
use amqp_below_layer::LayerBelow;
use amqp_resource_record::Step;
use amqp_resource_shared::{Receipt, ReplyCode, Share, SharedTxnSession};
use amqp_txn_types::TransactionId;
use std::alloc::Global;
use std::sync::Wait;
use std::sync::ledger::Ledger;
use txn_gate::Gate;

/// Where workers work: what all of them share.
#[derive(Drop)]
pub struct Workplace<'a, S: LayerBelow, G: IdSource, L: Ledger, H: Gate, R: Wait> {
    /// The runtime, by which they wait for the lock.
    pub rt: &'a R,
    /// The session under its lock.
    pub shared: &'a SharedTxnSession<S, G, L>,
    /// The gate that each passes before each of its steps.
    pub gate: &'a H,
    /// What steps and receipts take their memory from.
    pub alloc: Global,
    /// How many rounds each makes, at most 1,000.
    pub rounds: u32,
}

/// What a worker gives back.
#[derive(Drop)]
pub struct Work<L: Ledger> {
    /// Its number, from 1.
    pub number: u32,
    /// Its share, which counts the steps that it made.
    pub share: Share<L>,
    /// The receipts of these steps, in order.
    pub receipts: Vec<Receipt>,
    /// Whether it made all of its rounds.
    pub done: bool,
}

/// A worker at its work. Its turn is the number of its receipts and one.
struct Worker<L: Ledger> {
    number: u32,
    share: Share<L>,
    receipts: Vec<Receipt>,
}

/// Makes the step under one lock of its own. None where it has no reply.
fn step_under_lock<S: LayerBelow, G: IdSource, L: Ledger, H: Gate, R: Wait>(
    place: &Workplace<'_, S, G, L, H, R>,
    share: &mut Share<L>,
    step: &Step,
) -> Option<Receipt>
    requires { IsReadable step.now }
    ensures count { MatchOption result (share.new.count ≡ share.old.count)
        (λ receipt. share.new.count ≡ share.old.count + 1) }
    ensures parts { share.new.parts ≡ share.old.parts }
    ensures made { IfSome result (λ receipt. (step_told receipt ≡ step.now)
        × (is_told closed receipt ≡ false)) }
{
    let made = place.shared.lock(place.rt).step(share, step);
    match made {
        Ok(receipt) => Some(receipt),
        Err(error) => {
            drop(error);
            None
        }
    }
}

/// Passes the gate, makes the step and keeps its receipt. None where the step has no reply.
fn make_step<S: LayerBelow, G: IdSource, L: Ledger, H: Gate, R: Wait>(
    place: &Workplace<'_, S, G, L, H, R>,
    worker: &mut Worker<L>,
    step: Step,
) -> Option<ReplyCode>
    requires reads { IsReadable step }
    requires ready { IsReady 1 place.now.rounds worker.old }
    ensures ready { IsReady 0 place.now.rounds worker.new }
    ensures kept { SameWorker worker.old worker.new }
    ensures made { MatchOption result (worker.new.receipts.items ≡ worker.old.receipts.items)
        (λ code. GainedOne worker.old.receipts.items worker.new.receipts.items step code) }
{
    place
        .gate
        .pass(worker.number, worker.receipts.len() as u32 + 1);
    let made = step_under_lock(place, &mut worker.share, &step);
    drop(step);
    let receipt = made?;
    let code = receipt.code();
    worker.receipts.push_reserved(receipt);
    Some(code)
}

/// Attaches the worker's link, and returns its number.
fn attach<S: LayerBelow, G: IdSource, L: Ledger, H: Gate, R: Wait>(
    place: &Workplace<'_, S, G, L, H, R>,
    worker: &mut Worker<L>,
) -> Option<u64>
    requires first { worker.old.receipts.items ≡ [] }
    requires ready { IsReady 1 place.now.rounds worker.old }
    ensures ready { IsReady 0 place.now.rounds worker.new }
    ensures kept { SameWorker worker.old worker.new }
    ensures receipts { AreOfWorker worker.old.number place.now.rounds worker.new.receipts.items }
    ensures link { IfSome result (ToldLink worker.new.receipts.items) }
    ensures made { OnSome result (MadeRounds 0 (tally_of is_told worker.new.receipts.items)) }
{
    let Ok(step) = worker_attach(place.alloc, worker.number) else {
        return None;
    };
    match make_step(place, worker, step)? {
        ReplyCode::Attached { link } => Some(link),
        _ => None,
    }
}

/// Declares a transaction on the link, and returns its id.
fn declare<S: LayerBelow, G: IdSource, L: Ledger, H: Gate, R: Wait>(
    place: &Workplace<'_, S, G, L, H, R>,
    worker: &mut Worker<L>,
    link: u64,
) -> Option<TransactionId>
    requires link { ToldLink worker.old.receipts.items link }
    requires receipts { AreOfWorker worker.old.number place.now.rounds worker.old.receipts.items }
    requires good { NoneRefused worker.old.receipts.items }
    requires ready { IsReady 1 place.now.rounds worker.old }
    ensures ready { IsReady 0 place.now.rounds worker.new }
    ensures kept { SameWorker worker.old worker.new }
    ensures receipts { AreOfWorker worker.old.number place.now.rounds worker.new.receipts.items }
    ensures id { IfSome result (ToldId worker.new.receipts.items) }
    ensures link { ToldLink worker.new.receipts.items link }
    ensures made { OnSome result (HasMade worker.old.receipts.items worker.new.receipts.items
        one_declare) }
{
    let Ok(step) = worker_declare(place.alloc, link) else {
        return None;
    };
    match make_step(place, worker, step)? {
        ReplyCode::Declared(id) => Some(id),
        _ => None,
    }
}

/// Posts once under the id.
fn post<S: LayerBelow, G: IdSource, L: Ledger, H: Gate, R: Wait>(
    place: &Workplace<'_, S, G, L, H, R>,
    worker: &mut Worker<L>,
    id: TransactionId,
    delivery: u32,
) -> Option<()>
    requires id { ToldId worker.old.receipts.items id }
    requires delivery { delivery < 2 * place.now.rounds }
    requires receipts { AreOfWorker worker.old.number place.now.rounds worker.old.receipts.items }
    requires good { NoneRefused worker.old.receipts.items }
    requires ready { IsReady 1 place.now.rounds worker.old }
    ensures ready { IsReady 0 place.now.rounds worker.new }
    ensures kept { SameWorker worker.old worker.new }
    ensures receipts { AreOfWorker worker.old.number place.now.rounds worker.new.receipts.items }
    ensures told { StillTold worker.old.receipts.items worker.new.receipts.items }
    ensures made { OnSome result (HasMade worker.old.receipts.items worker.new.receipts.items
        one_post) }
{
    let Ok(step) = worker_post(place.alloc, worker.number, delivery, id) else {
        return None;
    };
    match make_step(place, worker, step)? {
        ReplyCode::Frames(_) => Some(()),
        _ => None,
    }
}

/// Discharges the id on the link.
fn discharge<S: LayerBelow, G: IdSource, L: Ledger, H: Gate, R: Wait>(
    place: &Workplace<'_, S, G, L, H, R>,
    worker: &mut Worker<L>,
    link: u64,
    id: TransactionId,
    round: u32,
) -> Option<()>
    requires link { ToldLink worker.old.receipts.items link }
    requires id { ToldId worker.old.receipts.items id }
    requires round { (1 ≤ round) × (round ≤ place.now.rounds) }
    requires receipts { AreOfWorker worker.old.number place.now.rounds worker.old.receipts.items }
    requires good { NoneRefused worker.old.receipts.items }
    requires ready { IsReady 1 place.now.rounds worker.old }
    ensures ready { IsReady 0 place.now.rounds worker.new }
    ensures kept { SameWorker worker.old worker.new }
    ensures receipts { AreOfWorker worker.old.number place.now.rounds worker.new.receipts.items }
    ensures told { StillTold worker.old.receipts.items worker.new.receipts.items }
    ensures made { OnSome result (HasMade worker.old.receipts.items worker.new.receipts.items
        (one_discharge round)) }
{
    let Ok(step) = worker_discharge(place.alloc, link, id, round) else {
        return None;
    };
    match make_step(place, worker, step)? {
        ReplyCode::Accepted(_) => Some(()),
        _ => None,
    }
}

/// One round: a declare, two posts under its id, and its discharge.
fn make_round<S: LayerBelow, G: IdSource, L: Ledger, H: Gate, R: Wait>(
    place: &Workplace<'_, S, G, L, H, R>,
    worker: &mut Worker<L>,
    link: u64,
    made: u32,
) -> Option<()>
    requires link { ToldLink worker.old.receipts.items link }
    requires round { (made < place.now.rounds) × (place.now.rounds ≤ 1000) }
    requires receipts { AreOfWorker worker.old.number place.now.rounds worker.old.receipts.items }
    requires ready { IsReady 4 place.now.rounds worker.old }
    requires made { MadeRounds made (tally_of is_told worker.old.receipts.items) }
    ensures ready { IsReady 0 place.now.rounds worker.new }
    ensures kept { SameWorker worker.old worker.new }
    ensures receipts { AreOfWorker worker.old.number place.now.rounds worker.new.receipts.items }
    ensures link { ToldLink worker.new.receipts.items link }
    ensures made { OnSome result
        (MadeRounds (made + 1) (tally_of is_told worker.new.receipts.items)) }
{
    let id = declare(place, worker, link)?;
    post(place, worker, id, 2 * made)?;
    post(place, worker, id, 2 * made + 1)?;
    discharge(place, worker, link, id, made + 1)
}

/// The attach and all rounds.
fn make_rounds<S: LayerBelow, G: IdSource, L: Ledger, H: Gate, R: Wait>(
    place: &Workplace<'_, S, G, L, H, R>,
    worker: &mut Worker<L>,
) -> Option<()>
    requires rounds { place.now.rounds ≤ 1000 }
    requires first { worker.old.receipts.items ≡ [] }
    requires ready { IsReady (1 + 4 * place.now.rounds) place.now.rounds worker.old }
    ensures ready { IsReady 0 place.now.rounds worker.new }
    ensures kept { worker.new.number ≡ worker.old.number }
    ensures receipts { AreOfWorker worker.old.number place.now.rounds worker.new.receipts.items }
    ensures made { OnSome result
        (MadeRounds place.now.rounds (tally_of is_told worker.new.receipts.items)) }
{
    let link = attach(place, worker)?;
    for made in 0..place.rounds {
        make_round(place, worker, link, made)?;
    }
    Some(())
}

/// Works as the worker of that number: attaches a link and makes the rounds, and stops at the first
/// step that isn't answered with `Attached`, `Declared`, `Frames` or `Accepted`.
///
/// Before each step it passes the gate with its number and its turn, from 1.
///
/// # Requires
///
/// The place asks for at most 1,000 rounds, and the share has one part and counts nothing.
pub fn run_worker<S: LayerBelow, G: IdSource, L: Ledger, H: Gate, R: Wait>(
    place: &Workplace<'_, S, G, L, H, R>,
    number: u32,
    share: Share<L>,
) -> Work<L>
    requires rounds { place.now.rounds ≤ 1000 }
    requires share { (share.parts ≡ 1) × (share.count ≡ 0) }
    ensures number { result.number ≡ number }
    ensures work { IsWork number place.now.rounds result.share.parts result.share.count
        result.receipts.items result.done }
{
    let Ok(receipts) = Vec::with_capacity(place.alloc, 4 * place.rounds as usize + 1) else {
        return Work {
            number,
            share,
            receipts: Vec::new(place.alloc),
            done: false,
        };
    };
    let mut worker = Worker {
        number,
        share,
        receipts,
    };
    let done = make_rounds(place, &mut worker).is_some();
    let Worker {
        number,
        share,
        receipts,
    } = worker;
    Work {
        number,
        share,
        receipts,
        done,
    }
}
