//! What is written of a mailbox.

ghost use Rattle.std.specs.Prelude.{◌≡◌, ◌==◌, string_bytes, IfOk};
ghost use Rattle.std.specs.List.{count_by};
ghost use Rattle.txn_mailbox.specs.Texts.{counts_text};

use amqp_resource_record::Stop;
use amqp_txn_types::NoMemory;
use std::alloc::Global;
use txn_program_report::{put_count, put_stop};

/// How many entries there are, how many of them each sender sent, how many frames were taken, and
/// the stop, a line each. The only error is out of memory.
#[tactic(auto, unfolding(crate::specs::Texts::counts_text))]
pub(crate) fn counts_string(
    alloc: Global,
    entries: usize,
    marks: &[u8],
    taken: usize,
    stop: &Stop,
) -> Result<String, NoMemory>
    ensures { IfOk result
        (λ text. string_bytes text ≡ counts_text entries marks.now taken stop.now) }
{
    let mut out = String::new(alloc);
    put_count(&mut out, "entries ", entries)?;
    put_count(&mut out, "sent 0 ", sent_by(marks, 0))?;
    put_count(&mut out, "sent 1 ", sent_by(marks, 1))?;
    put_count(&mut out, "taken ", taken)?;
    put_stop(&mut out, stop)?;
    Ok(out)
}

/// How many entries are of that sender.
fn sent_by(marks: &[u8], sender: u8) -> usize
    ensures { result ≡ count_by (λ mark. mark == sender) marks.now }
{
    marks.iter().filter(|mark| **mark == sender).count()
}
