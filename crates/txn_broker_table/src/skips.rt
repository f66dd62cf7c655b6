//! Steps over messages that are gone, by number.

ghost use Rattle.std.specs.Prelude.{◌≡◌, ◌≤◌, ◌<◌, ◌+◌, Some, length, slice_get, slice_set};
ghost use Rattle.txn_broker_table.specs.declared.cell.Cell.{Cell as C};
ghost use Rattle.txn_broker_table.specs.Marks.{Removes, gone, is_waiting};
ghost use Rattle.txn_broker_table.specs.Linking.{Faded, NonePasses, SkipsFit, marks_of};

use crate::cell::Cell;

/// Where the search for a waiting message goes on after one that is gone. What that one skips is
/// made more, so that later searches are shorter.
fn skip_on(cells: &mut [Cell], number: usize) -> usize
    requires fit { SkipsFit cells.old }
    requires within { number < length cells.old }
    ensures fit { SkipsFit cells.new }
    ensures marks { marks_of cells.new ≡ marks_of cells.old }
    ensures faded { Faded cells.old cells.new }
    ensures after { number < result }
    ensures bound { result ≤ length cells.old }
    ensures none { NonePasses is_waiting (marks_of cells.old) (number + 1) result }
{
    let to = cells[number].skip;
    if to >= cells.len() {
        return to;
    }
    if cells[to].mark.waits {
        return to;
    }
    let further = cells[to].skip;
    set_skip(cells, number, further);
    further
}

/// Sets what a message skips.
fn set_skip(cells: &mut [Cell], number: usize, to: usize)
    requires within { number < length cells.old }
    ensures { (c : C) → slice_get cells.old number ≡ Some c
        → cells.new ≡ slice_set cells.old number (record c { skip = to }) }
{
    cells[number].skip = to;
}

/// Takes a message out of its queue.
fn set_gone(cells: &mut [Cell], number: usize)
    requires within { number < length cells.old }
    ensures { (c : C) → slice_get cells.old number ≡ Some c
        → cells.new ≡ slice_set cells.old number (record c { mark = gone c.mark }) }
{
    cells[number].mark.waits = false;
}

/// The first waiting message from a number on, or how many messages there are.
fn first_waiting(cells: &mut [Cell], from: usize) -> usize
    requires fit { SkipsFit cells.old }
    ensures fit { SkipsFit cells.new }
    ensures marks { marks_of cells.new ≡ marks_of cells.old }
    ensures faded { Faded cells.old cells.new }
    ensures from { from ≤ result }
    ensures none { NonePasses is_waiting (marks_of cells.old) from result }
{
    let mut at = from;
    while at < cells.len() {
        if cells[at].mark.waits {
            return at;
        }
        at = skip_on(cells, at);
    }
    at
}

/// Takes the messages from one number up to, but not with, another out of their queues.
pub(crate) fn remove_range(cells: &mut [Cell], from: usize, to: usize)
    requires fit { SkipsFit cells.old }
    ensures fit { SkipsFit cells.new }
    ensures faded { Faded cells.old cells.new }
    ensures removes { Removes from to (marks_of cells.old) (marks_of cells.new) }
{
    let end = to.min(cells.len());
    let mut at = first_waiting(cells, from);
    while at < end {
        set_gone(cells, at);
        at = first_waiting(cells, at + 1);
    }
}
