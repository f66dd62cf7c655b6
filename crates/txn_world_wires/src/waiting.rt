//! The items that wait on the forward wire.

ghost use Rattle.std.specs.Prelude.{◌≡◌, ◌∷◌, ◌++◌, [], List, MatchOption, IfOk, OnOk, OnErr, drop, option_to_list};
ghost use Rattle.txn_parties.specs.declared.item.Item.{Item};
ghost use Rattle.txn_parties.specs.declared.item.Item.TheVariants as items;
ghost use Rattle.txn_parties.specs.Items.{step_of};
ghost use Rattle.txn_world_wires.specs.Tags.{item_of};

use crate::tag::Tag;
use amqp_resource_record::Step;
use amqp_txn_codec::{ControlMessageBody, Declare, Discharge};
use amqp_txn_types::{Frame, NoMemory, TransactionId};
use std::alloc::Global;
use std::collections::VecDeque;
use std::marker::Model;

/// An item that waits to arrive, with the step that it is. A contract sees the item.
#[derive(Debug, Drop)]
pub struct Waiting {
    tag: Tag,
    step: Step,
}

impl Model for Waiting {
    ghost use Rattle.std.specs.Prelude.{◌≡◌};
    ghost use Rattle.txn_parties.specs.declared.item.Item.{Item};
    ghost use Rattle.txn_parties.specs.Items.{step_of};
    ghost use Rattle.txn_world_wires.specs.Tags.{item_of};

    ghost Value = { Item };

    ghost view = { λ q. item_of q.tag q.step };

    ghost invariant = { λ q. step_of (item_of q.tag q.step) ≡ q.step };
}

impl Waiting {
    /// The declare of a transaction, without a global id.
    pub fn declare(alloc: Global, txn: u32, link: u64) -> Result<Self, NoMemory>
        ensures { IfOk result (λ item. item ≡ items.Declare txn link) }
    {
        let message = ControlMessageBody::Declare(Declare { global_id: None });
        Ok(Waiting {
            tag: Tag::Declare { txn, link },
            step: Step::Control {
                link,
                payload: message.encode(alloc)?,
            },
        })
    }

    /// The discharge of a transaction.
    pub fn discharge(
        alloc: Global,
        txn: u32,
        link: u64,
        id: TransactionId,
        rollback: bool,
    ) -> Result<Self, NoMemory>
        ensures { IfOk result (λ item. item ≡ items.Discharge txn link id rollback) }
    {
        let message = ControlMessageBody::Discharge(Discharge {
            txn_id: id,
            fail: Some(rollback),
        });
        Ok(Waiting {
            tag: Tag::Discharge {
                txn,
                link,
                id,
                rollback,
            },
            step: Step::Control {
                link,
                payload: message.encode(alloc)?,
            },
        })
    }

    /// The end of a control link.
    pub fn link_end(link: u64) -> Self
        ensures { result ≡ items.LinkEnd link }
    {
        Waiting {
            tag: Tag::LinkEnd { link },
            step: Step::LinkEnd { link },
        }
    }

    /// A frame.
    pub fn frame(frame: Frame) -> Self
        ensures { result ≡ items.Frame frame }
    {
        Waiting {
            tag: Tag::Frame,
            step: Step::Frame(frame),
        }
    }

    /// The step that the item is.
    pub fn step(&self) -> &Step
        ensures { result.now ≡ step_of self.now }
    {
        &self.step
    }

    /// What the item is, and its step.
    pub fn into_parts(self) -> (Tag, Step)
        ensures item { item_of result.0 result.1 ≡ self }
        ensures step { result.1 ≡ step_of self }
    {
        (self.tag, self.step)
    }
}

/// The items that wait, in order. A contract sees them as a list.
#[derive(Drop)]
pub struct ForwardWire {
    items: VecDeque<Waiting>,
}

impl Model for ForwardWire {
    ghost use Rattle.std.specs.Prelude.{List};
    ghost use Rattle.txn_parties.specs.declared.item.Item.{Item};

    ghost Value = { List Item };

    ghost view = { λ w. w.items.items };
}

impl ForwardWire {
    /// No item.
    pub fn new(alloc: Global) -> Self
        ensures { result ≡ [] }
    {
        ForwardWire {
            items: VecDeque::new(alloc),
        }
    }

    /// Puts an item after all others. Where memory runs out the wire is as it was.
    pub fn put(&mut self, item: Waiting) -> Result<(), NoMemory>
        ensures ok { OnOk result (self.new ≡ self.old ++ item ∷ []) }
        ensures err { OnErr result (self.new ≡ self.old) }
    {
        match self.items.push_back(item) {
            Ok(()) => Ok(()),
            Err(unkept) => {
                drop(unkept);
                Err(NoMemory)
            }
        }
    }

    /// Takes back the item that was put last.
    pub fn take_back(&mut self)
        ensures { (list : List Item) (item : Item) → self.old ≡ list ++ item ∷ []
            → self.new ≡ list }
    {
        let last = self.items.pop_back();
        drop(last);
    }

    /// The first item.
    pub fn first(&self) -> Option<&Waiting>
        ensures { MatchOption result (self.now ≡ [])
            (λ item. (rest : List Item) × (self.now ≡ item.now ∷ rest)) }
    {
        self.items.front()
    }

    /// The first item, which leaves the wire.
    pub fn pop(&mut self) -> Option<Waiting>
        ensures item { self.old ≡ option_to_list result ++ self.new }
        ensures rest { self.new ≡ drop 1 self.old }
    {
        self.items.pop_front()
    }
}
