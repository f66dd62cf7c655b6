//! The transactions of a resource.

ghost use Rattle.std.specs.Prelude.{◌≡◌, cond, [], None, Some, option_map, OnOk, OnErr};
ghost use Rattle.std.specs.Borrow.{sem};
ghost use Rattle.amqp_txn_types.specs.declared.id.TransactionId.{TransactionId};
ghost use Rattle.amqp_txn_types.specs.Ids.{same_id};
ghost use Rattle.amqp_resource_coordinator.specs.Managed.{work_under};

use crate::resource_transaction::ResourceTransaction;
use amqp_txn_types::{NoMemory, TransactionId};
use indexmap::IndexMap;
use std::alloc::Global;
use std::marker::Model;

/// A map of ids to the work of their transactions.
#[derive(Drop)]
pub struct TransactionManager {
    transactions: IndexMap<TransactionId, ResourceTransaction>,
    alloc: Global,
}

impl Model for TransactionManager {
    ghost use Rattle.amqp_resource_coordinator.specs.Managed.{Managed};

    ghost Value = { Managed };

    ghost view = { λ m. m.transactions.entries };
}

impl TransactionManager {
    ghost use Rattle.amqp_resource_coordinator.specs.Lends.{LendsWork};

    /// No transaction. It takes no memory; later growth takes it from `alloc`.
    pub fn new(alloc: Global) -> Self
        ensures { (t : TransactionId) → work_under result t ≡ None }
    {
        TransactionManager {
            transactions: IndexMap::new(alloc),
            alloc,
        }
    }

    /// Adds a transaction without work. The only error is out of memory, which changes nothing.
    ///
    /// # Requires
    ///
    /// The id isn't held.
    pub fn insert(&mut self, txn_id: TransactionId) -> Result<(), NoMemory>
        requires absent { work_under self.old txn_id ≡ None }
        ensures ok { OnOk result ((t : TransactionId) → work_under self.new t
            ≡ cond (same_id txn_id t) (Some []) (work_under self.old t)) }
        ensures err { OnErr result (self.new ≡ self.old) }
    {
        match self
            .transactions
            .insert(txn_id, ResourceTransaction::new(self.alloc))
        {
            Ok(_) => Ok(()),
            Err(_) => Err(NoMemory),
        }
    }

    /// The work of a transaction, to be changed in place; `None` exactly where the id isn't held.
    pub fn get_mut(&mut self, txn_id: &TransactionId) -> Option<&mut ResourceTransaction>
        ensures* writes_back { sem 𝓛 (LendsWork self.entry txn_id.now result) }
        ensures value { option_map (λ work. work.now) result ≡ work_under self.old txn_id.now }
    {
        self.transactions.get_mut(txn_id)
    }

    /// Takes a transaction out, with its work; `None` exactly where the id isn't held.
    pub fn remove(&mut self, txn_id: &TransactionId) -> Option<ResourceTransaction>
        ensures value { result ≡ work_under self.old txn_id.now }
        ensures removed { (t : TransactionId) → work_under self.new t
            ≡ cond (same_id txn_id.now t) None (work_under self.old t) }
    {
        self.transactions.swap_remove(txn_id)
    }
}
