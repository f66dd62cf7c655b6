//! Lists of steps, each kept where its entry will stand.

ghost use Rattle.std.specs.Prelude.{◌≡◌, ◌↔◌, ◌++◌, ◌∷◌, [], length, map, slice_get, option_copied, IsTrue, OnOk, OnErr, IfOk, IfErr};
ghost use Rattle.amqp_resource_record.specs.Waiting.{awaiting};

use crate::entry::Entry;
use crate::reply::Reply;
use crate::step::Step;
use amqp_below_ids::Drawn;
use amqp_txn_types::{NoMemory, TryClone};
use std::alloc::Global;
use std::marker::Model;

/// Steps, in order.
///
/// A contract sees the list of the steps. Each is kept as an entry that has no answer yet, so that
/// a run fills the answers in, and takes no memory for its record.
#[derive(Debug, Drop)]
pub struct Steps {
    entries: Vec<Entry>,
}

impl Model for Steps {
    ghost use Rattle.std.specs.Prelude.{◌≡◌, List, map};
    ghost use Rattle.amqp_resource_record.specs.declared.step.Step.{Step};
    ghost use Rattle.amqp_resource_record.specs.Entries.{steps_of};
    ghost use Rattle.amqp_resource_record.specs.Waiting.{awaiting};

    ghost Value = { List Step };

    ghost view = { λ s. steps_of s.entries.items };

    ghost invariant = { λ s. s.entries.items ≡ map awaiting (steps_of s.entries.items) };
}

/// The entry of a step that isn't answered yet.
#[inline(always)]
fn awaiting(alloc: Global, step: Step) -> Entry
    ensures { result ≡ awaiting step }
{
    Entry {
        step,
        drawn: Drawn::new(alloc),
        reply: Reply::NoLink,
    }
}

impl Steps {
    /// No steps. It takes no memory; later growth takes it from `alloc`.
    pub fn new(alloc: Global) -> Self
        ensures { result ≡ [] }
    {
        Steps {
            entries: Vec::new(alloc),
        }
    }

    /// No steps, with room for that many. The only error is out of memory.
    pub fn with_room(alloc: Global, count: usize) -> Result<Self, NoMemory>
        ensures { IfOk result (λ steps. steps ≡ []) }
    {
        Ok(Steps {
            entries: Vec::with_capacity(alloc, count)?,
        })
    }

    /// How many steps there are.
    pub fn len(&self) -> usize
        ensures { result ≡ length self.now }
    {
        self.entries.len()
    }

    /// Whether there are none.
    pub fn is_empty(&self) -> bool
        ensures { IsTrue result ↔ (self.now ≡ []) }
    {
        self.entries.is_empty()
    }

    /// The step at `index`, counted from 0; `None` from the length on.
    pub fn get(&self, index: usize) -> Option<&Step>
        ensures { option_copied result ≡ slice_get self.now index }
    {
        match self.entries.get(index) {
            None => None,
            Some(entry) => Some(&entry.step),
        }
    }

    /// The places of the steps: each an entry without ids, whose reply is yet to be made.
    pub fn into_entries(self) -> Vec<Entry>
        ensures { result.items ≡ map awaiting self }
    {
        self.entries
    }

    /// Appends the step. Where memory runs out the step comes back, and the list is as it was.
    #[inline(always)]
    pub fn push(&mut self, step: Step) -> Result<(), (Step, NoMemory)>
        ensures ok { OnOk result (self.new ≡ self.old ++ step ∷ []) }
        ensures err { IfErr result (λ refused. (refused.0 ≡ step) × (self.new ≡ self.old)) }
    {
        let Ok(()) = self.entries.reserve(1) else {
            return Err((step, NoMemory));
        };
        let alloc = *self.entries.allocator();
        self.entries.push_reserved(awaiting(alloc, step));
        Ok(())
    }

    /// Appends the step. Where memory runs out, the only error, the step is let go, and the list is
    /// as it was.
    #[inline(always)]
    pub fn append(&mut self, step: Step) -> Result<(), NoMemory>
        ensures ok { OnOk result (self.new ≡ self.old ++ step ∷ []) }
        ensures err { OnErr result (self.new ≡ self.old) }
    {
        self.entries.reserve(1)?;
        let alloc = *self.entries.allocator();
        self.entries.push_reserved(awaiting(alloc, step));
        Ok(())
    }
}

impl TryClone for Steps {
    fn try_clone(&self) -> Result<Self, NoMemory> {
        let mut steps = Steps::with_room(*self.entries.allocator(), self.entries.len())?;
        for entry in self.entries.as_slice() {
            steps.append(entry.step.try_clone()?)?;
        }
        Ok(steps)
    }
}

impl PartialEq for Steps {
    ghost use Rattle.std.specs.Cmp.Lexicographic.{pointwise, lists_per};
    ghost use Rattle.amqp_resource_record.specs.contracts.step.StepPartialEq.TheImpl.Laws as step_laws;

    ghost eq = { pointwise ⟦<Step as PartialEq>⟧.eq };

    ghost laws = { lists_per step_laws.laws-law };

    fn eq(&self, other: &Self) -> bool {
        self.entries.as_slice() == other.entries.as_slice()
    }
}
