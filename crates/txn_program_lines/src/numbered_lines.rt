//! Lines that are read one after another, and numbered from 1.

ghost use Rattle.std.specs.Prelude.{◌≡◌, ◌<◌, ◌∷◌, length};
ghost use Rattle.txn_program_lines.specs.Cutting.{lines_of};
ghost use Rattle.txn_program_lines.specs.Numbered.{lines_after};
ghost use Rattle.txn_program_lines.specs.Reads.{ReadsLines};

use crate::pieces::cut_line;
use crate::unread::Unread;
use std::alloc::Global;
use thiserror::Error as ThisError;

/// Why lines have no meaning.
#[derive(Clone, Copy, Debug, PartialEq, Eq, ThisError)]
pub enum SpellError {
    /// The line of that number, counted from 1, is the first that is outside the table.
    #[error("line {0} is outside the table")]
    Line(usize),
    /// An allocation failed.
    #[error("out of memory")]
    NoMemory,
}

/// What lines are read into, one after another.
pub trait LineReader {
    ghost use Rattle.std.specs.Prelude.{ℕ, List, Option};
    ghost use Rattle.txn_program_lines.specs.Reads.{ReadsLine};

    /// What a line makes of what those before it made; `None` where it is outside the table.
    ghost after_line: { Self → List ℕ → Option Self };

    /// Reads one line, without its line feed.
    fn read_line(&mut self, alloc: Global, line: &[u8]) -> Result<(), Unread>
        ensures { ReadsLine (after_line self.old line.now) self.new result };
}

/// Reads the lines of octets into the reader. A line ends at a line feed; a last one without it
/// isn't empty.
///
/// # Errors
///
/// - `Line` exactly where a line is outside the reader's table: the number of the first such line.
/// - `NoMemory` where memory runs out.
///
/// What the reader holds after an error isn't promised.
pub fn read_lines<L: LineReader>(
    alloc: Global,
    octets: &[u8],
    reader: &mut L,
) -> Result<(), SpellError>
    ensures { ReadsLines (lines_after L.after_line reader.old 1 (lines_of octets.now)) reader.new
        result }
{
    let mut number = 1;
    let mut rest = octets;
    while !rest.is_empty() {
        let (line, after) = first_line(rest);
        match reader.read_line(alloc, line) {
            Ok(()) => {}
            Err(Unread::OutsideTable) => return Err(SpellError::Line(number)),
            Err(Unread::NoMemory) => return Err(SpellError::NoMemory),
        }
        number += 1;
        rest = after;
    }
    Ok(())
}

/// The first line, and what follows its line feed.
pub fn first_line(octets: &[u8]) -> (&[u8], &[u8])
    requires { 0 < length octets.now }
    ensures lines { lines_of octets.now ≡ result.0.now ∷ lines_of result.1.now }
    ensures shorter { length result.1.now < length octets.now }
{
    let (line, after) = cut_line(octets);
    match after {
        None => (line, &[]),
        Some(after) => (line, after),
    }
}
