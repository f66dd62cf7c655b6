//! The steps of a worker.

ghost use Rattle.std.specs.Prelude.{◌≡◌, ◌++◌, codes, decimal, string_bytes, IfOk};
ghost use Rattle.txn_program_runs.specs.Made.{made_fail};
ghost use Rattle.txn_program_threads.specs.WorkerSteps.{IsReadable, SpellsDischarge, worker_attach, worker_declare, worker_discharge, worker_post};

use amqp_resource_record::Step;
use amqp_txn_codec::{ControlMessageBody, Declare, Discharge};
use amqp_txn_types::{Coordinator, Frame, NoMemory, Payload, Role, TargetArchetype, TransactionId};
use std::alloc::Global;
use txn_program_lines::{Delivery, attach_of, state_under, transfer_of};
use txn_program_report::{put, put_number};

/// The name of a worker's link.
fn link_name(alloc: Global, worker: u32) -> Result<String, NoMemory>
    ensures { IfOk result (λ name. string_bytes name ≡ codes "c" ++ decimal worker) }
{
    let mut name = String::new(alloc);
    put(&mut name, "c")?;
    put_number(&mut name, u64::from(worker))?;
    Ok(name)
}

/// The attach of a worker's control link.
#[tactic(auto, unfolding(crate::specs::WorkerSteps::worker_attach))]
pub(crate) fn worker_attach(alloc: Global, worker: u32) -> Result<Step, NoMemory>
    ensures step { IfOk result (λ step. step ≡ worker_attach worker) }
    ensures reads { IfOk result IsReadable }
{
    let name = link_name(alloc, worker)?;
    let target = TargetArchetype::Coordinator(Coordinator { capabilities: None });
    let attach = attach_of(alloc, name.as_str(), worker, Role::Sender, target)?;
    Ok(Step::Frame(Frame::Attach(attach)))
}

/// A declare on a link.
#[tactic(auto, unfolding(crate::specs::WorkerSteps::worker_declare))]
pub(crate) fn worker_declare(alloc: Global, link: u64) -> Result<Step, NoMemory>
    ensures step { IfOk result (λ step. step ≡ worker_declare link) }
    ensures reads { IfOk result IsReadable }
{
    let message = ControlMessageBody::Declare(Declare { global_id: None });
    let payload = message.encode(alloc)?;
    Ok(Step::Control { link, payload })
}

/// A settled post without octets, on the worker's handle and under the id.
#[tactic(auto, unfolding(crate::specs::WorkerSteps::worker_post))]
pub(crate) fn worker_post(
    alloc: Global,
    worker: u32,
    delivery: u32,
    id: TransactionId,
) -> Result<Step, NoMemory>
    ensures step { IfOk result (λ step. step ≡ worker_post worker delivery id) }
    ensures reads { IfOk result IsReadable }
{
    let delivery = Delivery {
        handle: worker,
        delivery_id: Some(delivery),
        settled: Some(true),
    };
    let transfer = transfer_of(alloc, delivery, state_under(id, None))?;
    let payload = Payload::from_slice(alloc, &[])?;
    Ok(Step::Frame(Frame::Transfer { transfer, payload }))
}

/// The discharge of an id on a link: a rollback in each third round.
#[tactic(auto, unfolding(crate::specs::WorkerSteps::worker_discharge))]
pub(crate) fn worker_discharge(
    alloc: Global,
    link: u64,
    id: TransactionId,
    round: u32,
) -> Result<Step, NoMemory>
    ensures step { IfOk result (λ step. step ≡ worker_discharge link id round) }
    ensures reads { IfOk result IsReadable }
    ensures spells { IfOk result (SpellsDischarge id round) }
{
    let message = ControlMessageBody::Discharge(Discharge {
        txn_id: id,
        fail: fail_of(round),
    });
    let payload = message.encode(alloc)?;
    Ok(Step::Control { link, payload })
}

fn fail_of(round: u32) -> Option<bool>
    ensures { result ≡ made_fail round }
{
    if round % 3 == 0 { Some(true) } else { None }
}
