//! The steps of a made run: transactions in pairs, every third rolled back.

ghost use Rattle.std.specs.Prelude.{◌≡◌, ◌≤◌, ◌++◌, IfOk, OnOk};
ghost use Rattle.txn_program_runs.specs.Made.{made, made_alone, made_attach, made_declare, made_discharge, made_fail, made_from, made_pair, made_post, two_posts};

use amqp_below_ids::numbered_id;
use amqp_resource_record::{Step, Steps};
use amqp_txn_codec::{ControlMessageBody, Declare, Discharge};
use amqp_txn_types::{Coordinator, Frame, NoMemory, Payload, Role, TargetArchetype};
use std::alloc::Global;
use txn_program_lines::{Delivery, attach_of, state_under, transfer_of};

/// The steps of that many transactions: an attach, and then the transactions in pairs, of which
/// each third is rolled back. The only error is out of memory.
pub(crate) fn made(alloc: Global, count: u32) -> Result<Steps, NoMemory>
    requires { count ≤ 20000 }
    ensures { IfOk result (λ steps. steps ≡ made count) }
{
    let mut steps = Steps::with_room(alloc, 5 * count as usize + 1)?;
    steps.append(made_attach(alloc)?)?;
    append_transactions(alloc, &mut steps, count)?;
    Ok(steps)
}

/// Appends the steps of that many transactions.
#[inline(always)]
fn append_transactions(alloc: Global, steps: &mut Steps, count: u32) -> Result<(), NoMemory>
    requires { count ≤ 20000 }
    ensures { OnOk result (steps.new ≡ steps.old ++ made_from count 1 0) }
{
    let mut left = count;
    let mut number = 1;
    let mut delivery = 0;
    while left >= 2 {
        append_pair(alloc, steps, number, delivery)?;
        left -= 2;
        number += 2;
        delivery += 6;
    }
    if left == 1 {
        append_alone(alloc, steps, number, delivery)?;
    }
    Ok(())
}

/// Appends the steps of two transactions together, with three times a post of each.
#[inline(always)]
fn append_pair(alloc: Global, steps: &mut Steps, number: u32, delivery: u32) -> Result<(), NoMemory>
    requires number { number ≤ 20000 }
    requires delivery { delivery ≤ 60000 }
    ensures { OnOk result (steps.new ≡ steps.old ++ made_pair number delivery) }
{
    steps.append(made_declare(alloc)?)?;
    steps.append(made_declare(alloc)?)?;
    append_two_posts(alloc, steps, number, delivery)?;
    append_two_posts(alloc, steps, number, delivery + 2)?;
    append_two_posts(alloc, steps, number, delivery + 4)?;
    steps.append(made_discharge(alloc, number)?)?;
    steps.append(made_discharge(alloc, number + 1)?)
}

/// Appends a post of a transaction, and one of the next.
#[inline(always)]
fn append_two_posts(
    alloc: Global,
    steps: &mut Steps,
    number: u32,
    delivery: u32,
) -> Result<(), NoMemory>
    requires number { number ≤ 20000 }
    requires delivery { delivery ≤ 70000 }
    ensures { OnOk result (steps.new ≡ steps.old ++ two_posts number delivery) }
{
    steps.append(made_post(alloc, number, delivery)?)?;
    steps.append(made_post(alloc, number + 1, delivery + 1)?)
}

/// Appends the steps of a transaction alone.
fn append_alone(
    alloc: Global,
    steps: &mut Steps,
    number: u32,
    delivery: u32,
) -> Result<(), NoMemory>
    requires number { number ≤ 20000 }
    requires delivery { delivery ≤ 60000 }
    ensures { OnOk result (steps.new ≡ steps.old ++ made_alone number delivery) }
{
    steps.append(made_declare(alloc)?)?;
    steps.append(made_post(alloc, number, delivery)?)?;
    steps.append(made_post(alloc, number, delivery + 1)?)?;
    steps.append(made_post(alloc, number, delivery + 2)?)?;
    steps.append(made_discharge(alloc, number)?)
}

/// The attach of the control link.
#[tactic(auto, unfolding(crate::specs::Made::made_attach))]
fn made_attach(alloc: Global) -> Result<Step, NoMemory>
    ensures { IfOk result (λ step. step ≡ made_attach) }
{
    let target = TargetArchetype::Coordinator(Coordinator { capabilities: None });
    let attach = attach_of(alloc, "c", 0, Role::Sender, target)?;
    Ok(Step::Frame(Frame::Attach(attach)))
}

#[tactic(auto, unfolding(crate::specs::Made::made_declare))]
#[inline(always)]
fn made_declare(alloc: Global) -> Result<Step, NoMemory>
    ensures { IfOk result (λ step. step ≡ made_declare) }
{
    let message = ControlMessageBody::Declare(Declare { global_id: None });
    Ok(Step::Control {
        link: 0,
        payload: message.encode(alloc)?,
    })
}

/// A settled post, whose payload is the transaction's number.
#[tactic(auto, unfolding(crate::specs::Made::made_post))]
#[inline(always)]
fn made_post(alloc: Global, number: u32, delivery: u32) -> Result<Step, NoMemory>
    ensures { IfOk result (λ step. step ≡ made_post number delivery) }
{
    let delivery = Delivery {
        handle: 1,
        delivery_id: Some(delivery),
        settled: Some(true),
    };
    let state = state_under(numbered_id(u64::from(number)), None);
    let transfer = transfer_of(alloc, delivery, state)?;
    let payload = Payload::from_slice(alloc, &number.to_be_bytes())?;
    Ok(Step::Frame(Frame::Transfer { transfer, payload }))
}

/// The discharge of a transaction: a rollback of each third one.
#[tactic(auto, unfolding(crate::specs::Made::made_discharge))]
#[inline(always)]
fn made_discharge(alloc: Global, number: u32) -> Result<Step, NoMemory>
    ensures { IfOk result (λ step. step ≡ made_discharge number) }
{
    let message = ControlMessageBody::Discharge(Discharge {
        txn_id: numbered_id(u64::from(number)),
        fail: made_fail(number),
    });
    Ok(Step::Control {
        link: 0,
        payload: message.encode(alloc)?,
    })
}

fn made_fail(number: u32) -> Option<bool>
    ensures { result ≡ made_fail number }
{
    if number % 3 == 0 { Some(true) } else { None }
}
