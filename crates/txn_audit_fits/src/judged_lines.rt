//! How far lines are explained.

ghost use Rattle.std.specs.Prelude.{◌≡◌, drop, length, take};
ghost use Rattle.txn_program_lines.specs.Cutting.{lines_of};

use txn_program_lines::first_line;

/// How far lines are explained.
#[derive(Drop)]
pub enum Judged<'a> {
    /// Those before these.
    Explained(&'a [u8]),
    /// Those before these, and the first of these isn't; where these are none, a line is missing.
    Departs(&'a [u8]),
}

/// How many lines there are.
pub fn count_lines(octets: &[u8]) -> usize
    ensures { result ≡ length (lines_of octets.now) }
{
    let mut count = 0;
    let mut rest = octets;
    while !rest.is_empty() {
        let (_line, after) = first_line(rest);
        count += 1;
        rest = after;
    }
    count
}

/// The lines after so many of these; none where there are no more.
pub fn lines_from(octets: &[u8], count: usize) -> &[u8]
    ensures { lines_of result.now ≡ drop count (lines_of octets.now) }
{
    let mut passed = 0;
    let mut rest = octets;
    while !rest.is_empty() {
        if passed == count {
            return rest;
        }
        let (_line, after) = first_line(rest);
        passed += 1;
        rest = after;
    }
    rest
}

/// The first of the items, that many or all.
pub fn front_of<T>(items: &[T], count: usize) -> &[T]
    ensures { result.now ≡ take count items.now }
{
    &items[..count.min(items.len())]
}
