//! The first line of a report that isn't explained, and what was wanted in its place.

ghost use Rattle.std.specs.Prelude.{◌≡◌, ◌++◌, ◌∷◌, [], OnOk, IfOk, string_bytes, map};
ghost use Rattle.txn_program_lines.specs.Cutting.{lines_of};
ghost use Rattle.txn_audit_fits.specs.Telling.{difference_text, found_text, shown, wanted_text};

use crate::judged_lines::{front_of, lines_from};
use amqp_txn_types::NoMemory;
use std::alloc::Global;
use txn_program_lines::first_line;
use txn_program_report::{put, put_number};

/// Where the lines of a report stop being explained.
#[derive(Drop)]
pub struct Difference {
    /// How many lines stand before the first that isn't explained, or before a missing one.
    pub before: usize,
    /// What was wanted after them.
    pub wanted: Wanted,
}

/// What was wanted in place of a line.
#[derive(Drop)]
pub enum Wanted {
    /// These words: a line, or what a line must be.
    Words(&'static str),
    /// This line.
    Text(String),
}

impl Difference {
    /// The difference in one line, without a line feed: the number of the line in this report,
    /// counted from 1, what was wanted, and the first 64 octets of what stands there, of which those
    /// outside printable ASCII are shown as `?`.
    ///
    /// # Errors
    ///
    /// - `NoMemory` where memory runs out.
    pub fn line_in(&self, alloc: Global, report: &[u8]) -> Result<String, NoMemory>
        ensures { IfOk result (λ text. string_bytes text
            ≡ difference_text self.now (lines_of report.now)) }
    {
        // No report has so many lines that the next has no number.
        let Some(number) = (self.before as u64).checked_add(1) else {
            return Err(NoMemory);
        };
        let mut text = String::new(alloc);
        put(&mut text, "line ")?;
        put_number(&mut text, number)?;
        put(&mut text, " of the report: wanted ")?;
        put_wanted(&mut text, &self.wanted)?;
        put(&mut text, ", found ")?;
        put_found(&mut text, lines_from(report, self.before))?;
        Ok(text)
    }
}

/// Appends what was wanted.
fn put_wanted(text: &mut String, wanted: &Wanted) -> Result<(), NoMemory>
    ensures { OnOk result (string_bytes text.new
        ≡ string_bytes text.old ++ wanted_text wanted.now) }
{
    match wanted {
        Wanted::Words(words) => put(text, words),
        Wanted::Text(line) => put(text, line.as_str()),
    }
}

/// Appends what stands there.
fn put_found(text: &mut String, lines: &[u8]) -> Result<(), NoMemory>
    ensures { OnOk result (string_bytes text.new
        ≡ string_bytes text.old ++ found_text (lines_of lines.now)) }
{
    if lines.is_empty() {
        return put(text, "no further line");
    }
    let (line, _others) = first_line(lines);
    put_shown(text, front_of(line, 64))
}

/// Appends octets, each as it is shown.
fn put_shown(text: &mut String, octets: &[u8]) -> Result<(), NoMemory>
    ensures { OnOk result (string_bytes text.new ≡ string_bytes text.old ++ map shown octets.now) }
{
    for octet in octets {
        put_octet(text, *octet)?;
    }
    Ok(())
}

/// Appends a printable octet of ASCII, or `?`.
fn put_octet(text: &mut String, octet: u8) -> Result<(), NoMemory>
    ensures { OnOk result (string_bytes text.new ≡ string_bytes text.old ++ shown octet ∷ []) }
{
    let shown = if octet >= b' ' && octet <= b'~' {
        octet
    } else {
        b'?'
    };
    text.push(char::from(shown))?;
    Ok(())
}
