//! The end of a run.

ghost use Rattle.std.specs.Prelude.{◌≡◌, List, ℕ, string_bytes, IfOk};
ghost use Rattle.txn_program_edges.specs.Writing.{EndsWith, Wrote};

use amqp_below_streams::ByteSink;
use amqp_txn_types::NoMemory;
use txn_program_edges::{status, write_and_end};

/// Writes the text of a status, where there was memory for it, and returns the status that the
/// program then ends with.
pub fn write_text<O: ByteSink>(status: u8, text: Result<String, NoMemory>, output: &mut O) -> u8
    ensures status { EndsWith (O.faults output.old) (O.faults output.new) status result }
    ensures written { (these : List ℕ) → IfOk text (λ text. string_bytes text ≡ these) →
        Wrote (O.written output.old) (O.written output.new) result these }
{
    match text {
        Ok(text) => write_and_end(status, text.as_str().as_bytes(), output),
        Err(_) => status::NO_MEMORY,
    }
}
