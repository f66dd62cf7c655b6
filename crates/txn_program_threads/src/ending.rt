//! The end of a run of workers, by what `close` answered.

ghost use Rattle.std.specs.Prelude.{◌≡◌, ◌<◌, ◌^◌, ◌⊎◌, false, length, true};
ghost use Rattle.amqp_resource_shared.specs.Close.{closed_of, why_of};
ghost use Rattle.txn_program_threads.specs.Runs.{EndsCounted, Leaves, RanOut};

use crate::counts::{count_refused, status_of};
use crate::threads_ran::ThreadsRan;
use amqp_below_ids::CountIds;
use amqp_below_layer::{LayerBelow, Tells};
use amqp_below_recorder::Recorder;
use amqp_resource_shared::{CloseWhy, Closed};
use txn_program_edges::status;
use txn_program_runs::ends_count;

/// The session of a run of workers, closed.
pub(crate) type ClosedRun<S> = Closed<Recorder<S>, CountIds>;

/// The end where memory ran out: nothing is counted.
fn end_without_memory<S: LayerBelow>(closed: ClosedRun<S>) -> ThreadsRan<S>
    ensures leaves { Leaves closed.session closed.entries closed.stopped result }
    ensures out { RanOut result }
{
    let Closed {
        session,
        ids,
        entries,
        stopped,
    } = closed;
    drop(ids);
    let stop = session.stop_code();
    ThreadsRan {
        status: status::NO_MEMORY,
        history: entries,
        stopped,
        entries: 0,
        commits: 0,
        rollbacks: 0,
        taken: 0,
        stop,
        why: None,
        refused: 0,
        below: session.into_below(),
    }
}

/// Whether the status says that all was made, though a worker isn't done.
fn is_short(status: u8, done: bool) -> bool
    ensures { result ≡ false → status ≡ 0 → done ≡ true }
{
    status == status::EVERY_STEP && !done
}

/// The end with the numbers of the history. Where nothing is refused and a worker isn't done all
/// the same, memory ran out for it.
fn end_counted<S: LayerBelow>(
    closed: ClosedRun<S>,
    why: Option<CloseWhy>,
    done: bool,
) -> ThreadsRan<S>
    requires { length closed.entries < 2 ^ 32 }
    ensures leaves { Leaves closed.session closed.entries closed.stopped result }
    ensures numbers { RanOut result
        ⊎ EndsCounted (⟦<Recorder<S> as Tells>⟧.told result.below) why done result }
{
    let refused = count_refused(closed.entries.as_slice());
    let stop = closed.session.stop_code();
    let status = status_of(stop, &why, refused, closed.entries.as_slice());
    if is_short(status, done) {
        drop(why);
        return end_without_memory(closed);
    }
    let commits = ends_count(closed.entries.as_slice(), false) as u32;
    let rollbacks = ends_count(closed.entries.as_slice(), true) as u32;
    let Closed {
        session,
        ids,
        entries,
        stopped,
    } = closed;
    drop(ids);
    let below = session.into_below();
    ThreadsRan {
        status,
        entries: entries.len(),
        history: entries,
        stopped,
        commits,
        rollbacks,
        taken: below.exchanges().len(),
        stop,
        why,
        refused,
        below,
    }
}

/// The end by what `close` answered, and whether all workers are done.
///
/// # Requires
///
/// There are fewer than 2^32 entries.
pub(crate) fn end<S: LayerBelow>(
    closed: Result<ClosedRun<S>, (ClosedRun<S>, CloseWhy)>,
    done: bool,
) -> ThreadsRan<S>
    requires { length (closed_of closed).entries < 2 ^ 32 }
    ensures leaves { Leaves (closed_of closed).session (closed_of closed).entries
        (closed_of closed).stopped result }
    ensures numbers { RanOut result ⊎ EndsCounted (⟦<Recorder<S> as Tells>⟧.told result.below)
        (why_of closed) done result }
{
    match closed {
        Ok(closed) => end_counted(closed, None, done),
        Err((closed, CloseWhy::NoMemory)) => end_without_memory(closed),
        Err((closed, why)) => end_counted(closed, Some(why), done),
    }
}

/// The end where memory ran out for the receipts: the cause is dropped.
pub(crate) fn end_ungathered<S: LayerBelow>(
    closed: Result<ClosedRun<S>, (ClosedRun<S>, CloseWhy)>,
) -> ThreadsRan<S>
    ensures leaves { Leaves (closed_of closed).session (closed_of closed).entries
        (closed_of closed).stopped result }
    ensures out { RanOut result }
{
    match closed {
        Ok(closed) => end_without_memory(closed),
        Err((closed, why)) => {
            drop(why);
            end_without_memory(closed)
        }
    }
}
