//! The two lists of an input.

ghost use Rattle.std.specs.Prelude.{◌≡◌, ◌≤◌, ◌+◌, length, IfOk};
ghost use Rattle.txn_program_lines.specs.Reads.{Reads};
ghost use Rattle.txn_mailbox.specs.Lists.{SpellsLists, no_steps, sender_of, two_lists_of};

use amqp_resource_record::Steps;
use std::alloc::Global;
use txn_program_lines::{
    LineReader, SpellError, Unread, is_text, read_lines, step_of_words, word_at,
};

/// Who sends a step.
#[derive(Clone, Copy, Debug, PartialEq, Eq)]
pub enum Sender {
    /// `0`: the step stands in the first list.
    First,
    /// `1`: the step stands in the second list.
    Second,
}

/// The steps of two senders.
#[derive(Debug, Drop)]
pub struct TwoLists {
    /// Those of the first.
    pub first: Steps,
    /// Those of the second.
    pub second: Steps,
}

impl TwoLists {
    /// No steps. It takes no memory; later growth takes it from `alloc`.
    pub fn new(alloc: Global) -> Self
        ensures { result ≡ no_steps }
    {
        TwoLists {
            first: Steps::new(alloc),
            second: Steps::new(alloc),
        }
    }
}

impl LineReader for TwoLists {
    ghost use Rattle.txn_mailbox.specs.Lists.{with_line};

    ghost after_line = { with_line };

    #[tactic(auto, unfolding(crate::specs::Lists::with_line))]
    fn read_line(&mut self, alloc: Global, line: &[u8]) -> Result<(), Unread> {
        let (word, words) = word_at(Some(line))?;
        let sender = sender_of(word)?;
        let (kind, words) = word_at(words)?;
        let step = step_of_words(alloc, kind, words)?;
        match sender {
            Sender::First => self.first.append(step)?,
            Sender::Second => self.second.append(step)?,
        }
        Ok(())
    }
}

/// The sender that a word names.
fn sender_of(word: &[u8]) -> Result<Sender, Unread>
    ensures { Reads (λ sender. sender) result (sender_of word.now) }
{
    if is_text(word, "0") {
        Ok(Sender::First)
    } else if is_text(word, "1") {
        Ok(Sender::Second)
    } else {
        Err(Unread::OutsideTable)
    }
}

/// The two lists that the lines spell: each is `0` or `1`, a space, and the line of a step.
///
/// # Errors
///
/// - `Line` exactly where a line is outside the table: the number of the first such line.
/// - `NoMemory` where memory runs out.
pub fn two_lists_of(alloc: Global, octets: &[u8]) -> Result<TwoLists, SpellError>
    ensures spells { SpellsLists result (two_lists_of octets.now) }
    ensures few { IfOk result (λ lists.
        length lists.first + length lists.second ≤ length octets.now + 1) }
{
    let mut lists = TwoLists::new(alloc);
    match read_lines(alloc, octets, &mut lists) {
        Ok(()) => Ok(lists),
        Err(error) => {
            drop(lists);
            Err(error)
        }
    }
}
