//! Lines of replies to discharges.

ghost use Rattle.std.specs.Prelude.{◌≡◌, ◌++◌, true, false, IfOk, OnOk};
ghost use Rattle.amqp_txn_codec.specs.Discharges.{is_rollback};
ghost use Rattle.amqp_resource_record.specs.declared.step.Step.TheVariants as steps;
ghost use Rattle.amqp_resource_log.specs.Live.{kept};
ghost use Rattle.amqp_resource_held.specs.Held.{is_kept_on};
ghost use Rattle.txn_audit_fits.specs.Judging.{IsDischarge, JudgesHere, JudgesWork, Takes, outs_of_count};

use crate::difference::Wanted;
use crate::links::nothing_after;
use crate::outs::Outs;
use amqp_resource_held::{Held, drop_work, is_declared_on, take_work};
use amqp_resource_log::Looks;
use amqp_txn_codec::{Discharge, rolls_back};
use amqp_txn_types::{Frames, NoMemory, Payload, TransactionId};
use std::alloc::Global;
use std::sync::ledger::Ledger;
use txn_program_lines::is_text;

/// The line of a reply to a discharge on an open link.
pub fn judge_discharge<L: Ledger>(
    held: &mut Held,
    work: &mut Frames,
    alloc: Global,
    link: u64,
    payload: &Payload,
    discharge: Discharge,
    line: &[u8],
    looks: &mut Looks<L>,
    told: &mut Wanted,
) -> Result<Option<Outs>, NoMemory>
    requires { IsDischarge held.old link payload.now discharge }
    ensures { IfOk result (JudgesWork held.old held.new work.old work.new
        (steps.Control link payload.now) line.now) }
{
    if !is_declared_on(&held.work, discharge.txn_id, link) {
        return Ok(judge_unknown(held, link, payload, discharge, line, told));
    }
    if rolls_back(discharge.fail) {
        return Ok(judge_rollback(held, link, payload, discharge, line, looks, told));
    }
    judge_commit(
        held, work, alloc, link, payload, discharge, line, looks, told,
    )
}

/// The line of a reply to the discharge of an id that isn't live on its link: it is rejected.
fn judge_unknown(
    held: &Held,
    link: u64,
    payload: &Payload,
    discharge: Discharge,
    line: &[u8],
    told: &mut Wanted,
) -> Option<Outs>
    requires discharge { IsDischarge held.now link payload.now discharge }
    requires unknown { is_kept_on link (kept held.now.work discharge.txn_id) ≡ false }
    ensures { JudgesHere held.now held.now (steps.Control link payload.now) line.now result }
{
    nothing_after(line, "rejected unknown-id", told)
}

/// The line of a reply to a rollback: it is accepted.
fn judge_rollback<L: Ledger>(
    held: &mut Held,
    link: u64,
    payload: &Payload,
    discharge: Discharge,
    line: &[u8],
    looks: &mut Looks<L>,
    told: &mut Wanted,
) -> Option<Outs>
    requires discharge { IsDischarge held.old link payload.now discharge }
    requires known { is_kept_on link (kept held.old.work discharge.txn_id) ≡ true }
    requires rollback { is_rollback discharge.fail ≡ true }
    ensures { JudgesHere held.old held.new (steps.Control link payload.now) line.now result }
{
    let outs = nothing_after(line, "accepted", told);
    drop_work(held, discharge.txn_id, Some(link), looks);
    outs
}

/// The line of a reply to a commit: its frames are handed, or it is vetoed where it has some.
fn judge_commit<L: Ledger>(
    held: &mut Held,
    work: &mut Frames,
    alloc: Global,
    link: u64,
    payload: &Payload,
    discharge: Discharge,
    line: &[u8],
    looks: &mut Looks<L>,
    told: &mut Wanted,
) -> Result<Option<Outs>, NoMemory>
    requires discharge { IsDischarge held.old link payload.now discharge }
    requires known { is_kept_on link (kept held.old.work discharge.txn_id) ≡ true }
    requires commit { is_rollback discharge.fail ≡ false }
    ensures { IfOk result (JudgesWork held.old held.new work.old work.new
        (steps.Control link payload.now) line.now) }
{
    let count = held.work.count(&discharge.txn_id);
    if is_text(line, "accepted") {
        hand_work(held, work, alloc, link, discharge.txn_id, looks)?;
        return Ok(Some(outs_of_count(count)));
    }
    if count == 0 {
        *told = Wanted::Words("accepted");
        return Ok(None);
    }
    let outs = nothing_after(line, "rejected rollback", told);
    drop_work(held, discharge.txn_id, Some(link), looks);
    Ok(outs)
}

/// The lines after an accepted commit of that many frames.
fn outs_of_count(count: usize) -> Outs
    ensures { result ≡ outs_of_count count }
{
    if count == 0 { Outs::Nothing } else { Outs::Any }
}

/// Ends a live id, and puts its frames, each without its transactional state, at the end of the
/// work that was handed.
pub fn hand_work<L: Ledger>(
    held: &mut Held,
    work: &mut Frames,
    alloc: Global,
    link: u64,
    id: TransactionId,
    looks: &mut Looks<L>,
) -> Result<(), NoMemory>
    requires { is_kept_on link (kept held.old.work id) ≡ true }
    ensures { OnOk result (Takes held.old held.new work.old work.new id) }
{
    let room = Vec::with_capacity(alloc, held.work.count(&id))?;
    let more = take_work(held, id, Some(link), room, looks);
    append_all(work, more)
}

/// Appends the frames.
fn append_all(work: &mut Frames, more: Frames) -> Result<(), NoMemory>
    ensures { OnOk result (work.new ≡ work.old ++ more) }
{
    let mut more = more.into_vec();
    work.items.append(&mut more)?;
    Ok(())
}
