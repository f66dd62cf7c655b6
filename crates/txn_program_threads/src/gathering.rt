//! The shares and receipts of all workers.

ghost use Rattle.std.specs.Prelude.{◌≡◌, ◌≤◌, ◌+◌, ℕ, true, length, sum_by, IfSome};
ghost use Rattle.std.specs.List.{count_by};
ghost use Rattle.txn_program_threads.specs.Each.{EachFrom};
ghost use Rattle.txn_program_threads.specs.Gathered.{IsGathered, IsWorkOf};
ghost use Rattle.txn_program_threads.specs.Works.{attach_told};

use crate::starting::Worked;
use crate::worker::Work;
use amqp_resource_shared::{Receipt, Share};
use std::alloc::Global;
use std::sync::ledger::Ledger;

/// What all workers gave back.
#[derive(Drop)]
pub(crate) struct Gathered<L: Ledger> {
    /// All shares, that which is left among them.
    pub(crate) shares: Vec<Share<L>>,
    /// All receipts.
    pub(crate) receipts: Vec<Receipt>,
    /// Whether each worker made all of its rounds.
    pub(crate) done: bool,
}

/// Whether both are so.
fn both(one: bool, other: bool) -> bool
    ensures { result ≡ true → (one ≡ true) × (other ≡ true) }
{
    one && other
}

/// Puts the shares and the receipts of the workers together; `None` where memory runs out.
pub(crate) fn gather<L: Ledger>(
    alloc: Global,
    worked: Worked<L>,
    workers: u32,
    rounds: u32,
) -> Option<Gathered<L>>
    requires left { worked.left.count ≡ 0 }
    requires all { length worked.works.items ≡ workers }
    requires each { EachFrom (λ n w. IsWorkOf n w.number rounds w.share.parts w.share.count
        w.receipts.items w.done) 1 worked.works.items }
    ensures parts { IfSome result (λ r. sum_by (λ s. s.parts) r.shares.items
        ≡ worked.left.parts + workers) }
    ensures counts { IfSome result (λ r. sum_by (λ s. s.count) r.shares.items
        ≡ length r.receipts.items) }
    ensures gathered { IfSome result (λ r. IsGathered workers rounds workers r.receipts.items
        r.done) }
    ensures once { IfSome result (λ r. (i : ℕ) → count_by (attach_told i) r.receipts.items ≤ 1) }
{
    let Worked { left, mut works } = worked;
    let mut shares = Vec::new(alloc);
    let mut receipts = Vec::new(alloc);
    let mut done = true;
    shares.push(left).ok()?;
    while let Some(work) = works.pop() {
        let Work {
            number: _,
            share,
            receipts: mut told,
            done: all,
        } = work;
        shares.push(share).ok()?;
        receipts.append(&mut told).ok()?;
        done = both(done, all);
    }
    Some(Gathered {
        shares,
        receipts,
        done,
    })
}
