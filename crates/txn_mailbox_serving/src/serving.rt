//! Two senders beside one server.

ghost use Rattle.std.specs.Prelude.{◌≡◌, ◌<◌, ◌+◌, ◌≤◌, ◌^◌, true, false, [], length, IfOk, IfErr, vec_capacity};
ghost use Rattle.crossbeam_queue.specs.Passes.{view, IsPassOf};
ghost use Rattle.amqp_resource_session.specs.Session.{IsFresh};
ghost use Rattle.txn_mailbox_queue.specs.Order.{sender_view, view_of};
ghost use Rattle.txn_mailbox_serving.specs.Steps.{first_attach, second_attach};
ghost use Rattle.txn_mailbox_serving.specs.Serving.{Begins, KeepsLists, ServedSoFar, Serves};

use crate::copies::Copies;
use crate::ready::{Ready, make_ready};
use crate::senders::{end, start};
use crate::server::{Served, Server};
use amqp_below_ids::IdSource;
use amqp_below_layer::LayerBelow;
use amqp_resource_record::{Step, Steps};
use amqp_resource_session::TxnSession;
use std::alloc::Global;
use std::marker::Brand;
use std::sync::Wait;
use std::thread;
use std::thread::Threads;
use txn_gate::Gate;
use txn_mailbox_queue::{
    Lengths, Queue, Seat, count_items, give_first, give_second, take, take_in_first, take_in_second,
};

/// What the server has to do: the two attaches, and then the steps of both lists.
#[derive(Drop)]
struct Work<S, G> {
    server: Server<S, G>,
    first_attach: Step,
    second_attach: Step,
    copies: Copies,
}

/// The passes of the queue.
#[derive(Drop)]
struct Seats {
    first: Seat,
    second: Seat,
    server: Seat,
}

/// Makes the two attaches, and then serves the items in the order in which they come, until all
/// were taken. After a stop it takes the rest without a step.
fn serve_all<L: Lengths, R: Wait, S: LayerBelow, G: IdSource>(
    rt: &R,
    queue: &Queue<L>,
    mut seat: Seat,
    work: Work<S, G>,
) -> (Seat, Server<S, G>)
    requires queue { IsPassOf queue.now seat × (view seat ≡ view_of false false true 0 0 []) }
    requires begins { Begins S.told L.first L.second work }
    ensures queue { IsPassOf queue.now result.0
        × (view result.0 ≡ view_of false false true 0 0 (view result.0).taken) }
    ensures all { length (view result.0).taken ≡ L.first + L.second }
    ensures served { ServedSoFar S.told S.sure G.next G.start work.server.session work.server.ids
        work.copies.first.items work.copies.second.items work.first_attach work.second_attach
        (view result.0).taken result.1 }
{
    let Work {
        mut server,
        first_attach,
        second_attach,
        mut copies,
    } = work;
    let count = copies.first.len() + copies.second.len();
    server.serve(first_attach, 2);
    server.serve(second_attach, 2);
    for i in 0..count {
        let item = take(rt, queue, &mut seat);
        let step = copies.take_out(item);
        server.serve(step, item.sender);
    }
    drop(copies);
    (seat, server)
}

/// Runs both senders beside the server, and gives the passes back.
fn serve_beside<
    L: Lengths + Sync,
    R: Threads + Wait + Sync,
    S: LayerBelow + Drop,
    G: IdSource + Drop,
    H: Gate + Sync,
>(rt: &R, queue: &Queue<L>, gate: &H, seats: Seats, work: Work<S, G>) -> (Seats, Server<S, G>)
    requires first { IsPassOf queue.now seats.first × (view seats.first ≡ sender_view 0 0) }
    requires second { IsPassOf queue.now seats.second × (view seats.second ≡ sender_view 1 0) }
    requires server { IsPassOf queue.now seats.server
        × (view seats.server ≡ view_of false false true 0 0 []) }
    requires begins { Begins S.told L.first L.second work }
    ensures first { IsPassOf queue.now result.0.first
        × (view result.0.first ≡ sender_view 0 L.first) }
    ensures second { IsPassOf queue.now result.0.second
        × (view result.0.second ≡ sender_view 1 L.second) }
    ensures server { IsPassOf queue.now result.0.server
        × (view result.0.server ≡ view_of false false true 0 0 (view result.0.server).taken) }
    ensures all { length (view result.0.server).taken ≡ L.first + L.second }
    ensures served { ServedSoFar S.told S.sure G.next G.start work.server.session work.server.ids
        work.copies.first.items work.copies.second.items work.first_attach work.second_attach
        (view result.0.server).taken result.1 }
{
    thread::scope(
        thread::scope_env(),
        rt,
        move |scope| -> (Seats, Server<S, G>)
            requires { IsPassOf queue.now seats.first × (view seats.first ≡ sender_view 0 0)
                × IsPassOf queue.now seats.second × (view seats.second ≡ sender_view 1 0)
                × IsPassOf queue.now seats.server
                × (view seats.server ≡ view_of false false true 0 0 [])
                × Begins S.told L.first L.second work }
            ensures { IsPassOf queue.entry.now result.0.first
                × (view result.0.first ≡ sender_view 0 L.first)
                × IsPassOf queue.entry.now result.0.second
                × (view result.0.second ≡ sender_view 1 L.second)
                × IsPassOf queue.entry.now result.0.server
                × (view result.0.server
                ≡ view_of false false true 0 0 (view result.0.server).taken)
                × (length (view result.0.server).taken ≡ L.first + L.second)
                × ServedSoFar S.told S.sure G.next G.start work.server.session work.server.ids
                work.copies.first.items work.copies.second.items work.first_attach
                work.second_attach (view result.0.server).taken result.1 }
        {
            let first_count = work.copies.first.len();
            let second_count = work.copies.second.len();
            let Seats {
                first,
                second,
                server,
            } = seats;
            let first = start(scope, rt, queue, gate, first, 0, first_count);
            let second = start(scope, rt, queue, gate, second, 1, second_count);
            let (seat, served) = serve_all(rt, queue, server, work);
            let seats = Seats {
                first: end(rt, queue, first, 0, first_count),
                second: end(rt, queue, second, 1, second_count),
                server: seat,
            };
            (seats, served)
        },
    )
}

/// Serves two lists, once all that takes memory is made.
fn serve_ready<
    L: Lengths + Sync,
    R: Threads + Wait + Sync,
    S: LayerBelow + Drop,
    G: IdSource + Drop,
    H: Gate + Sync,
>(rt: &R, ready: Ready<L>, session: TxnSession<S>, ids: G, gate: &H) -> Served<S, G>
    requires queue { IsPassOf ready.queue ready.seat
        × (view ready.seat ≡ view_of true true true 0 0 []) }
    requires lists { (L.first ≡ length ready.copies.first.items)
        × (L.second ≡ length ready.copies.second.items) }
    requires few { L.first + L.second < 2 ^ 32 }
    requires attaches { (ready.first_attach ≡ first_attach)
        × (ready.second_attach ≡ second_attach) }
    requires none { (ready.entries.items ≡ []) × (ready.marks.items ≡ []) }
    requires room { (L.first + L.second + 2 ≤ vec_capacity ready.entries)
        × (L.first + L.second + 2 ≤ vec_capacity ready.marks) }
    requires fresh { IsFresh S.told session }
    ensures { Serves S.told S.sure G.next G.start session result.session ids result.ids
        ready.copies.first.items ready.copies.second.items result.entries result.marks
        result.stop }
{
    let Ready {
        queue,
        mut seat,
        first_attach,
        second_attach,
        copies,
        entries,
        marks,
    } = ready;
    let server = Server {
        session,
        ids,
        entries,
        marks,
        stop: None,
    };
    let work = Work {
        server,
        first_attach,
        second_attach,
        copies,
    };
    let first = give_first(&queue, &mut seat);
    let second = give_second(&queue, &mut seat);
    let seats = Seats {
        first,
        second,
        server: seat,
    };
    let (seats, server) = serve_beside(rt, &queue, gate, seats, work);
    let Seats {
        first,
        second,
        server: mut seat,
    } = seats;
    take_in_first(&queue, &mut seat, first);
    take_in_second(&queue, &mut seat, second);
    count_items(&queue, &mut seat);
    server.into_served()
}

/// Serves copies of two lists, whose lengths have names.
fn serve_in<
    L: Lengths + Sync,
    R: Threads + Wait + Sync,
    S: LayerBelow + Drop,
    G: IdSource + Drop,
    H: Gate + Sync,
>(
    rt: &R,
    alloc: Global,
    copies: Copies,
    session: TxnSession<S>,
    ids: G,
    gate: &H,
) -> Result<Served<S, G>, (TxnSession<S>, G)>
    requires lists { (L.first ≡ length copies.first.items)
        × (L.second ≡ length copies.second.items) }
    requires few { length copies.first.items + length copies.second.items < 2 ^ 32 }
    requires fresh { IsFresh S.told session }
    ensures serves { IfOk result (λ served. Serves S.told S.sure G.next G.start session
        served.session ids served.ids copies.first.items copies.second.items served.entries
        served.marks served.stop) }
    ensures back { IfErr result (λ back. (back.0 ≡ session) × (back.1 ≡ ids)) }
{
    match make_ready::<L>(alloc, copies) {
        Ok(ready) => Ok(serve_ready(rt, ready, session, ids, gate)),
        Err(_) => Err((session, ids)),
    }
}

/// Serves the steps of two lists, which two threads put into one queue, in the order in which they
/// come. Two attaches come first: of the control links `c0` on handle 0 and `c1` on handle 1.
///
/// Sender 0 puts the first list and sender 1 the second, each in a thread of its own, which passes
/// the gate before each step, with turns from 1 on. Where no thread can be made, this thread puts
/// the list before it serves. After a stop the rest is taken from the queue and not served. How
/// the two lists interleave isn't promised. It may wait for the threads.
///
/// # Requires
///
/// The session is fresh, as [`TxnSession::is_fresh`] tests, and both lists together have fewer than
/// 2^32 steps.
///
/// # Errors
///
/// Out of memory, before any step: session and source come back as they were.
pub fn serve_two<
    R: Threads + Wait + Sync,
    S: LayerBelow + Drop,
    G: IdSource + Drop,
    H: Gate + Sync,
>(
    rt: &R,
    alloc: Global,
    session: TxnSession<S>,
    ids: G,
    first: &Steps,
    second: &Steps,
    gate: &H,
) -> Result<Served<S, G>, (TxnSession<S>, G)>
    requires fresh { IsFresh S.told session }
    requires few { length first.now + length second.now < 2 ^ 32 }
    // The entries are a legal run of the two attaches and then of both lists, each step of a list
    // once and after those before it, until the stop.
    ensures keeps { IfOk result (λ served. KeepsLists first.now second.now served.session
        served.entries served.marks served.stop) }
    // It is a run of the attaches and then of both lists in some order: so are the cause of the
    // stop, the ids drawn and what was taken below, after a fault the first frames of the next step.
    ensures serves { IfOk result (λ served. Serves S.told S.sure G.next G.start session
        served.session ids served.ids first.now second.now served.entries served.marks
        served.stop) }
    ensures back { IfErr result (λ back. (back.0 ≡ session) × (back.1 ≡ ids)) }
{
    match Copies::of(alloc, first, second) {
        Ok(copies) => serve_in::<Brand, R, S, G, H>(rt, alloc, copies, session, ids, gate),
        Err(_) => Err((session, ids)),
    }
}
