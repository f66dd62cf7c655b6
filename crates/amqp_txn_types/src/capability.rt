//! What a coordinator can do.

ghost use Rattle.std.specs.Prelude.{◌≡◌, IfOk};
ghost use Rattle.amqp_txn_types.specs.Symbols.{symbol_of_capability};

use crate::items::NoMemory;
use crate::text::Symbol;
use std::alloc::Global;

/// A capability of a coordinator, as it stands in the capabilities of a [`Coordinator`] target.
///
/// Part 4 of the standard, section 4.5.7 (transaction capability).
///
/// [`Coordinator`]: crate::Coordinator
#[derive(Clone, Copy, Debug, PartialEq, Eq)]
pub enum TxnCapability {
    /// Transactions of one resource.
    LocalTransactions,
    /// Transactions over several resources.
    DistributedTransactions,
    /// Local transactions that may become distributed ones.
    PromotableTransactions,
    /// Several live transactions in one session.
    MultiTxnsPerSsn,
    /// One transaction over several sessions of a connection.
    MultiSsnsPerTxn,
}

impl TxnCapability {
    /// The capability's symbol as text, with its prefix `amqp:`.
    pub fn as_str(&self) -> &'static str
        ensures { result.now ≡ symbol_of_capability self.now }
    {
        match self {
            TxnCapability::LocalTransactions => "amqp:local-transactions",
            TxnCapability::DistributedTransactions => "amqp:distributed-transactions",
            TxnCapability::PromotableTransactions => "amqp:promotable-transactions",
            TxnCapability::MultiTxnsPerSsn => "amqp:multi-txns-per-ssn",
            TxnCapability::MultiSsnsPerTxn => "amqp:multi-ssns-per-txn",
        }
    }

    /// The capability's symbol. The only error is out of memory.
    pub fn to_symbol(&self, alloc: Global) -> Result<Symbol, NoMemory>
        ensures { IfOk result (λ symbol. symbol ≡ symbol_of_capability self.now) }
    {
        Symbol::from_str(alloc, self.as_str())
    }
}
