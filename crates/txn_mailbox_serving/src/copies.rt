//! Copies of two lists of steps, which are taken out one by one.

ghost use Rattle.std.specs.Prelude.{ℕ, ◌≡◌, ◌<◌, drop, length, slice_get, Some, IfOk};
ghost use Rattle.txn_mailbox_serving.specs.Steps.{list_of};

use amqp_resource_record::{Step, Steps};
use amqp_txn_types::{NoMemory, TryClone};
use std::alloc::Global;
use std::mem;
use txn_mailbox_queue::Item;

/// The copies. In the place of a step that was taken out stands another.
#[derive(Drop)]
pub struct Copies {
    /// Those of the first sender.
    pub first: Vec<Step>,
    /// Those of the second sender.
    pub second: Vec<Step>,
}

impl Copies {
    /// Copies both lists. The only error is out of memory.
    pub fn of(alloc: Global, first: &Steps, second: &Steps) -> Result<Copies, NoMemory>
        ensures first { IfOk result (λ copies. copies.first.items ≡ first.now) }
        ensures second { IfOk result (λ copies. copies.second.items ≡ second.now) }
    {
        Ok(Copies {
            first: copy_of(alloc, first)?,
            second: copy_of(alloc, second)?,
        })
    }

    /// Takes the step out that an item names.
    ///
    /// # Requires
    ///
    /// The item's place is one of its sender's list.
    pub fn take_out(&mut self, item: Item) -> Step
        requires sender { item.sender < 2 }
        requires place { item.place
            < length (list_of self.old.first.items self.old.second.items item.sender) }
        ensures step { slice_get (list_of self.old.first.items self.old.second.items item.sender)
            item.place ≡ Some result }
        ensures left { (k n : ℕ) → k < 2 → (k ≡ item.sender → item.place < n)
            → drop n (list_of self.new.first.items self.new.second.items k)
            ≡ drop n (list_of self.old.first.items self.old.second.items k) }
        ensures first { length self.new.first.items ≡ length self.old.first.items }
        ensures second { length self.new.second.items ≡ length self.old.second.items }
    {
        if item.sender == 0 {
            take_at(&mut self.first, item.place)
        } else {
            take_at(&mut self.second, item.place)
        }
    }
}

/// A copy of the steps. The only error is out of memory.
fn copy_of(alloc: Global, steps: &Steps) -> Result<Vec<Step>, NoMemory>
    ensures { IfOk result (λ copy. copy.items ≡ steps.now) }
{
    let mut copy = Vec::with_capacity(alloc, steps.len())?;
    for place in 0..steps.len() {
        let Some(step) = steps.get(place) else {
            unreachable!()
        };
        copy.push_reserved(step.try_clone()?);
    }
    Ok(copy)
}

/// Takes the step at a place out, and leaves another there.
fn take_at(steps: &mut Vec<Step>, place: usize) -> Step
    requires { place < length steps.old.items }
    ensures step { slice_get steps.old.items place ≡ Some result }
    ensures left { (n : ℕ) → place < n → drop n steps.new.items ≡ drop n steps.old.items }
    ensures length { length steps.new.items ≡ length steps.old.items }
{
    mem::replace(&mut steps[place], Step::LocalEnd(None))
}
