//! The summary of a made run.

ghost use Rattle.std.specs.Prelude.{◌≡◌, ◌≤◌, length, string_bytes, IfOk};
ghost use Rattle.amqp_txn_codec.specs.Reading.{message_of};
ghost use Rattle.txn_program_runs.specs.Made.{ends_by, ends_count, made_text, step_ends_by};

use amqp_resource_record::{Entry, Reply, Step};
use amqp_txn_codec::{ControlMessageBody, decode, rolls_back};
use amqp_txn_types::NoMemory;
use std::alloc::Global;
use txn_program_report::put_count;

/// How many entries there are, accepted commits and rollbacks among them, and frames that were
/// taken, a line each. The only error is out of memory.
#[tactic(auto, unfolding(crate::specs::Made::made_text))]
pub(crate) fn summary_string(
    alloc: Global,
    entries: &[Entry],
    taken: usize,
) -> Result<String, NoMemory>
    ensures { IfOk result (λ text. string_bytes text ≡ made_text entries.now taken) }
{
    let mut out = String::new(alloc);
    put_count(&mut out, "steps ", entries.len())?;
    put_count(&mut out, "commits ", ends_count(entries, false))?;
    put_count(&mut out, "rollbacks ", ends_count(entries, true))?;
    put_count(&mut out, "taken ", taken)?;
    Ok(out)
}

/// How many accepted discharges were rollbacks, or else commits.
pub fn ends_count(entries: &[Entry], rollback: bool) -> usize
    ensures count { result ≡ ends_count rollback entries.now }
    ensures few { result ≤ length entries.now }
{
    entries
        .iter()
        .filter(|entry| step_ends_by(rollback, &entry.step, &entry.reply))
        .count()
}

/// Whether the step is such a discharge, and was accepted.
fn step_ends_by(rollback: bool, step: &Step, reply: &Reply) -> bool
    ensures { result ≡ step_ends_by rollback step.now reply.now }
{
    match (step, reply) {
        (Step::Control { payload, .. }, Reply::Accepted(_)) => ends_by(
            rollback,
            payload.as_slice(),
        ),
        _ => false,
    }
}

fn ends_by(rollback: bool, payload: &[u8]) -> bool
    ensures { result ≡ ends_by rollback (message_of payload.now) }
{
    match decode(payload) {
        Ok(ControlMessageBody::Discharge(discharge)) => rolls_back(discharge.fail) == rollback,
        _ => false,
    }
}
