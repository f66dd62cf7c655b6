//! The work of one transaction.

ghost use Rattle.std.specs.Prelude.{◌≡◌, ◌∷◌, ◌++◌, [], List, drop, slice_get, OnErr, IfOk};
ghost use Rattle.amqp_txn_types.specs.declared.frames.TxnWorkFrame.TheVariants as works;
ghost use Rattle.amqp_resource_coordinator.specs.Posts.{presumed_of_post};

use amqp_txn_types::{
    Disposition, NoMemory, Payload, TransactionId, Transfer, TxnWorkFrame, presumed_disposition,
};
use std::alloc::Global;
use std::collections::VecDeque;
use std::marker::Model;

/// The work of one transaction, in the order in which it came.
///
/// Section 4.4 (transactional work) of the standard: it is kept until the transaction is
/// discharged.
#[derive(Drop)]
pub struct ResourceTransaction {
    frames: VecDeque<TxnWorkFrame>,
}

impl Model for ResourceTransaction {
    ghost use Rattle.std.specs.Prelude.{List};
    ghost use Rattle.amqp_txn_types.specs.declared.frames.TxnWorkFrame.{TxnWorkFrame};

    ghost Value = { List TxnWorkFrame };

    ghost view = { λ t. t.frames.items };
}

impl ResourceTransaction {
    /// No work. It takes no memory; later growth takes it from `alloc`.
    pub fn new(alloc: Global) -> Self
        ensures { result ≡ [] }
    {
        ResourceTransaction {
            frames: VecDeque::new(alloc),
        }
    }

    /// Keeps a post as the last of the work, and answers the disposition that tells its presumptive
    /// outcome: that of a commit. There is none for a post that is settled or has no delivery id.
    ///
    /// Section 4.4.1 (transactional posting) of the standard. The only error is out of memory,
    /// which leaves the work as it was.
    pub fn on_incoming_post(
        &mut self,
        txn_id: TransactionId,
        transfer: Transfer,
        payload: Payload,
    ) -> Result<Option<Disposition>, NoMemory>
        ensures kept { IfOk result (λ _. self.new ≡ self.old ++ works.Post transfer payload ∷ []) }
        ensures answer { IfOk result (λ answer. answer ≡ presumed_of_post txn_id transfer) }
        ensures err { OnErr result (self.new ≡ self.old) }
    {
        let answer = presumed_disposition(transfer.settled, transfer.delivery_id, txn_id);
        match self
            .frames
            .push_back(TxnWorkFrame::Post { transfer, payload })
        {
            Ok(()) => Ok(answer),
            Err(unkept) => {
                drop(unkept);
                drop(answer);
                Err(NoMemory)
            }
        }
    }

    /// Takes out the first of the work; `None` where there is none left. It takes no memory.
    pub fn take_first(&mut self) -> Option<TxnWorkFrame>
        ensures first { result ≡ slice_get self.old 0 }
        ensures rest { self.new ≡ drop 1 self.old }
    {
        self.frames.pop_front()
    }
}
