//! The numbers of a run of workers, as a text.

ghost use Rattle.std.specs.Prelude.{◌≡◌, IfOk, string_bytes};
ghost use Rattle.txn_program_threads.specs.Ends.{threads_text};

use crate::threads_ran::ThreadsRan;
use amqp_txn_types::NoMemory;
use std::alloc::Global;
use txn_program_report::put_count;

/// How many workers there were, and how many entries, accepted commits, accepted rollbacks and
/// frames that were taken came of them, a line each. The only error is out of memory.
pub(crate) fn threads_string<S>(
    alloc: Global,
    workers: u32,
    ran: &ThreadsRan<S>,
) -> Result<String, NoMemory>
    ensures { IfOk result (λ text. string_bytes text ≡ threads_text workers ran.now) }
{
    let mut out = String::new(alloc);
    put_count(&mut out, "workers ", workers as usize)?;
    put_count(&mut out, "entries ", ran.entries)?;
    put_count(&mut out, "commits ", ran.commits as usize)?;
    put_count(&mut out, "rollbacks ", ran.rollbacks as usize)?;
    put_count(&mut out, "taken ", ran.taken)?;
    Ok(out)
}
