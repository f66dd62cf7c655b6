//! What is made before a step is.

ghost use Rattle.std.specs.Prelude.{◌≡◌, ◌<◌, ◌≤◌, ◌+◌, ◌^◌, true, [], length, vec_capacity, IfOk};
ghost use Rattle.crossbeam_queue.specs.Passes.{view, IsPassOf};
ghost use Rattle.txn_mailbox_queue.specs.Order.{view_of};
ghost use Rattle.txn_mailbox_serving.specs.Steps.{control_attach, first_attach, second_attach};

use crate::copies::Copies;
use amqp_resource_record::{Entry, Step};
use amqp_txn_types::{Coordinator, Frame, NoMemory, Role, TargetArchetype};
use std::alloc::Global;
use txn_mailbox_queue::{Lengths, Queue, Seat, open_queue};
use txn_program_lines::attach_of;

/// All that takes memory but the steps themselves.
pub struct Ready<L: Lengths> {
    /// A queue with room for all steps.
    pub queue: Queue<L>,
    /// The pass of the queue that may do all.
    pub seat: Seat,
    /// The attach that is made first.
    pub first_attach: Step,
    /// The attach that is made next.
    pub second_attach: Step,
    /// The copies of both lists.
    pub copies: Copies,
    /// Room for all entries.
    pub entries: Vec<Entry>,
    /// Room for all marks.
    pub marks: Vec<u8>,
}

/// Makes all that takes memory but the steps themselves, for copies of both lists. The only error
/// is out of memory.
///
/// # Requires
///
/// Both lists together have fewer than 2^32 steps.
pub fn make_ready<L: Lengths>(alloc: Global, copies: Copies) -> Result<Ready<L>, NoMemory>
    requires { length copies.first.items + length copies.second.items < 2 ^ 32 }
    ensures queue { IfOk result (λ ready. IsPassOf ready.queue ready.seat) }
    ensures view { IfOk result (λ ready. view ready.seat ≡ view_of true true true 0 0 []) }
    ensures attaches { IfOk result (λ ready. (ready.first_attach ≡ first_attach)
        × (ready.second_attach ≡ second_attach)) }
    ensures copies { IfOk result (λ ready. ready.copies ≡ copies) }
    ensures none { IfOk result (λ ready. (ready.entries.items ≡ []) × (ready.marks.items ≡ [])) }
    ensures room { IfOk result (λ ready.
        (length copies.first.items + length copies.second.items + 2
        ≤ vec_capacity ready.entries)
        × (length copies.first.items + length copies.second.items + 2
        ≤ vec_capacity ready.marks)) }
{
    let count = copies.first.len() + copies.second.len();
    let (queue, seat) = open_queue::<L>(alloc, count)?;
    let entries = Vec::with_capacity(alloc, count + 2)?;
    let marks = Vec::with_capacity(alloc, count + 2)?;
    let (first_attach, second_attach) = two_attaches(alloc)?;
    Ok(Ready {
        queue,
        seat,
        first_attach,
        second_attach,
        copies,
        entries,
        marks,
    })
}

/// The attaches of two control links, `c0` on handle 0 and `c1` on handle 1. The only error is out
/// of memory.
fn two_attaches(alloc: Global) -> Result<(Step, Step), NoMemory>
    ensures { IfOk result (λ both. (both.0 ≡ first_attach) × (both.1 ≡ second_attach)) }
{
    let first = control_attach(alloc, "c0", 0)?;
    match control_attach(alloc, "c1", 1) {
        Ok(second) => Ok((first, second)),
        Err(error) => {
            drop(first);
            Err(error)
        }
    }
}

/// The attach of a control link. The only error is out of memory.
fn control_attach(alloc: Global, name: &str, handle: u32) -> Result<Step, NoMemory>
    ensures { IfOk result (λ step. step ≡ control_attach name.now handle) }
{
    let target = TargetArchetype::Coordinator(Coordinator { capabilities: None });
    let attach = attach_of(alloc, name, handle, Role::Sender, target)?;
    Ok(Step::Frame(Frame::Attach(attach)))
}
