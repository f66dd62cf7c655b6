//! The steps of an input.

ghost use Rattle.txn_program_lines.specs.Lines.{input_steps};
ghost use Rattle.txn_program_lines.specs.Reads.{Spells};

use crate::numbered_lines::{LineReader, SpellError, read_lines};
use crate::step_lines::step_of_line;
use crate::unread::Unread;
use amqp_resource_record::Steps;
use std::alloc::Global;

impl LineReader for Steps {
    ghost use Rattle.txn_program_lines.specs.Lines.{step_of_line};
    ghost use Rattle.txn_program_lines.specs.Numbered.{with_item};

    ghost after_line = { with_item step_of_line };

    #[inline(always)]
    fn read_line(&mut self, alloc: Global, line: &[u8]) -> Result<(), Unread> {
        let step = step_of_line(alloc, line)?;
        self.append(step)?;
        Ok(())
    }
}

/// The steps that the lines spell, one for each line.
///
/// A line ends at a line feed, and its words are parted by exactly one space; what each line means
/// is a table of its own.
///
/// # Errors
///
/// - `Line` exactly where a line is outside the table: the number of the first such line.
/// - `NoMemory` where memory runs out.
pub fn spells(alloc: Global, octets: &[u8]) -> Result<Steps, SpellError>
    ensures { Spells result (input_steps octets.now) }
{
    let mut steps = Steps::new(alloc);
    match read_lines(alloc, octets, &mut steps) {
        Ok(()) => Ok(steps),
        Err(error) => {
            drop(steps);
            Err(error)
        }
    }
}
