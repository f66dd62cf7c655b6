//! Steps over messages that are gone, within a queue.

ghost use Rattle.std.specs.Prelude.{ℕ, ◌≡◌, ◌<◌, ◌+◌, Some, length, slice_get, slice_set, IfSome};
ghost use Rattle.txn_broker_table.specs.declared.cell.Cell.{Cell as C};
ghost use Rattle.txn_broker_table.specs.Marks.{is_waiting_in};
ghost use Rattle.txn_broker_table.specs.Linking.{EndFits, Finds, LeadsOn, LinksFit, Prepared, Relinked, first_with, marks_of, queue_at};

use crate::cell::{Cell, Ends};

/// The next message that waits in a message's queue.
pub(crate) fn next_in_queue(cells: &[Cell], number: usize) -> Option<usize>
    requires fit { LinksFit cells.now }
    requires within { number < length cells.now }
    ensures { (queue : ℕ) → queue_at (marks_of cells.now) number ≡ Some queue
        → Finds (is_waiting_in queue) (marks_of cells.now) (number + 1) result }
{
    let mut at = cells[number].next;
    while let Some(other) = at {
        if cells[other].mark.waits {
            return at;
        }
        at = cells[other].next;
    }
    None
}

/// Sets where a message leads.
pub(crate) fn set_next(cells: &mut [Cell], number: usize, next: usize)
    requires within { number < length cells.old }
    ensures { (c : C) → slice_get cells.old number ≡ Some c
        → cells.new ≡ slice_set cells.old number (record c { next = Some next }) }
{
    cells[number].next = Some(next);
}

/// The next message that waits in a message's queue. The messages between, which are gone, are
/// unlinked, but for the queue's last one.
pub(crate) fn unlink_gone(cells: &mut [Cell], number: usize) -> Option<usize>
    requires fit { LinksFit cells.old }
    requires within { number < length cells.old }
    ensures fit { LinksFit cells.new }
    ensures relinked { Relinked cells.old cells.new }
    ensures found { IfSome result (λ n. (queue : ℕ)
        → queue_at (marks_of cells.old) number ≡ Some queue
        → LeadsOn (marks_of cells.old) queue number n) }
{
    let mut next = cells[number].next;
    while let Some(other) = next {
        if cells[other].mark.waits {
            return next;
        }
        let Some(further) = cells[other].next else {
            return None;
        };
        set_next(cells, number, further);
        next = Some(further);
    }
    None
}

/// Unlinks what is gone among the first so many waiting messages of a queue, of which this is one.
pub(crate) fn unlink_along(cells: &mut [Cell], number: usize, count: usize)
    requires fit { LinksFit cells.old }
    requires within { number < length cells.old }
    ensures fit { LinksFit cells.new }
    ensures relinked { Relinked cells.old cells.new }
{
    let mut at = number;
    for _ in 1..count {
        match unlink_gone(cells, at) {
            Some(next) => at = next,
            None => return,
        }
    }
}

/// Leads the last message of a queue, if there is one, to the message that is about to come. It
/// gives the queue's ends with that one.
pub(crate) fn extend_queue(cells: &mut [Cell], ends: Option<Ends>) -> Ends
    requires within { IfSome ends (λ e. e.last < length cells.old) }
    requires fit { LinksFit cells.old }
    ensures prepared { (queue : ℕ) → EndFits (marks_of cells.old) queue ends
        → Prepared cells.old queue cells.new }
    ensures first { result.first ≡ first_with (marks_of cells.old) ends }
    ensures last { result.last ≡ length cells.old }
{
    let number = cells.len();
    match ends {
        None => Ends {
            first: number,
            last: number,
        },
        Some(ends) => {
            set_next(cells, ends.last, number);
            Ends {
                first: ends.first,
                last: number,
            }
        }
    }
}
