//! One entry of a session's record.

ghost use Rattle.std.specs.Prelude.{◌≡◌, IfOk};

use crate::reply::Reply;
use crate::step::Step;
use amqp_below_ids::Drawn;
use amqp_txn_types::{Items, NoMemory, TryClone};

/// A step with the ids that it drew and its reply.
///
/// A step that draws nothing has no ids here; only a declare draws.
#[derive(Debug, Drop, PartialEq)]
pub struct Entry {
    /// What the session was asked to do.
    pub step: Step,
    /// The ids that it drew for that, in order.
    pub drawn: Drawn,
    /// What it answered.
    pub reply: Reply,
}

impl TryClone for Entry {
    fn try_clone(&self) -> Result<Self, NoMemory> {
        let drawn = self.drawn.try_clone()?;
        let (step, reply) = copied(&self.step, &self.reply)?;
        Ok(Entry { step, drawn, reply })
    }
}

fn copied(step: &Step, reply: &Reply) -> Result<(Step, Reply), NoMemory>
    ensures { IfOk result (λ copy. (copy.0 ≡ step.now) × (copy.1 ≡ reply.now)) }
{
    Ok((step.try_clone()?, reply.try_clone()?))
}

/// The entries of a run, in order: its record. The place of an entry is its number, from 0.
pub type Entries = Items<Entry>;

/// The ids that one step drew, at most 16.
pub type Drawn16 = Drawn;
