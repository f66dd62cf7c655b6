//! What `close` answers: with all shares and receipts, where a share is left out, where a number
//! comes twice, and where a receipt is of another session.

ghost use Rattle.std.specs.Prelude.{◌≡◌, ◌<◌};

use amqp_below_ids::CountIds;
use amqp_below_layer::OpenSession;
use amqp_resource_record::Step;
use amqp_resource_session::TxnSession;
use amqp_resource_shared::{CloseWhy, Receipt, Share, SharedTxnSession};
use amqp_test_values::leak;
use std::alloc::Global;
use std::marker::Brand;
use std::process::Abort;
use std::sync::Wait;
use std::sync::ledger::{Blank, Ledger};

type Shared<L> = SharedTxnSession<OpenSession, CountIds, L>;

/// A shared session over a layer that takes everything, and its first share.
fn opened<L: Ledger>(alloc: Global, blank: Blank) -> (Shared<L>, Share<L>)
    requires name { blank.name ≡ L.name }
    requires parts { (blank.parts ≡ L.parts) × (0 < blank.parts) }
    ensures { result.1.parts ≡ L.parts }
{
    let session = TxnSession::new(alloc, OpenSession::new(alloc));
    SharedTxnSession::new(blank, alloc, session, CountIds::new())
}

/// The end of a link that isn't open: it is answered `NoLink`.
fn end_link<L: Ledger, R: Wait + Abort>(
    rt: &R,
    shared: &Shared<L>,
    share: &mut Share<L>,
    link: u64,
) -> Receipt
    ensures { share.new.parts ≡ share.old.parts }
{
    let step = Step::LinkEnd { link };
    let made = shared.lock(rt).step(share, &step);
    made.expect(rt, "an Ok")
}

/// Two owners make a step each, and both shares and receipts are handed in.
fn closes_whole<L: Ledger, R: Wait + Abort>(rt: &R, alloc: Global, blank: Blank)
    requires name { blank.name ≡ L.name }
    requires parts { (blank.parts ≡ L.parts) × (blank.parts ≡ 2) }
{
    let (shared, mut first) = opened::<L>(alloc, blank);
    let mut second = first.split(1);
    let one = end_link(rt, &shared, &mut first, 0);
    let two = end_link(rt, &shared, &mut second, 1);
    let count = shared.lock(rt).len();
    assert!(rt; count == 2);
    let shares = vec![in alloc; second, first].expect(rt, "memory");
    let receipts = vec![in alloc; two, one].expect(rt, "memory");
    let closed = shared.close(shares, receipts);
    let is_closed = closed.is_ok();
    leak(closed);
    assert!(rt; is_closed);
}

#[test]
fn all_shares_and_receipts_are_those_of_the_entries(rt: HostRuntime) {
    closes_whole::<Brand, HostRuntime>(&rt, rt.alloc(), Blank::new(2));
}

/// Two owners make a step each, and one share is left out.
fn leaves_a_share_out<L: Ledger, R: Wait + Abort>(rt: &R, alloc: Global, blank: Blank)
    requires name { blank.name ≡ L.name }
    requires parts { (blank.parts ≡ L.parts) × (blank.parts ≡ 2) }
{
    let (shared, mut first) = opened::<L>(alloc, blank);
    let mut second = first.split(1);
    leak(end_link(rt, &shared, &mut first, 0));
    leak(end_link(rt, &shared, &mut second, 0));
    leak(second);
    let shares = vec![in alloc; first].expect(rt, "memory");
    let closed = shared.close(shares, Vec::new(alloc));
    let missing = match &closed {
        Err((_, CloseWhy::Missing { entries, held })) => *entries == 2 && *held == 1,
        _ => false,
    };
    assert!(rt; missing);
    leak(closed);
}

#[test]
fn a_share_left_out_is_missing(rt: HostRuntime) {
    leaves_a_share_out::<Brand, HostRuntime>(&rt, rt.alloc(), Blank::new(2));
}

/// The receipt of a step on a shared session of its own.
fn told_elsewhere<L: Ledger, R: Wait + Abort>(
    rt: &R,
    alloc: Global,
    blank: Blank,
    link: u64,
) -> Receipt
    requires name { blank.name ≡ L.name }
    requires parts { (blank.parts ≡ L.parts) × (0 < blank.parts) }
{
    let (shared, mut share) = opened::<L>(alloc, blank);
    let receipt = end_link(rt, &shared, &mut share, link);
    leak(share);
    leak(shared);
    receipt
}

/// Makes one step, the end of link 0, and closes with its share and these receipts; its own
/// receipt comes last, where it comes too.
fn why_with<L: Ledger, R: Wait + Abort>(
    rt: &R,
    alloc: Global,
    blank: Blank,
    others: Receipt,
    with_own: bool,
) -> Option<CloseWhy>
    requires name { blank.name ≡ L.name }
    requires parts { (blank.parts ≡ L.parts) × (0 < blank.parts) }
{
    let (shared, mut share) = opened::<L>(alloc, blank);
    let own = end_link(rt, &shared, &mut share, 0);
    let shares = vec![in alloc; share].expect(rt, "memory");
    let mut receipts = vec![in alloc; others].expect(rt, "memory");
    if with_own {
        receipts.push(own).expect(rt, "memory");
    } else {
        leak(own);
    }
    match shared.close(shares, receipts) {
        Ok(closed) => {
            leak(closed);
            None
        }
        Err((closed, why)) => {
            leak(closed);
            Some(why)
        }
    }
}

/// Whether the step is the end of that link.
fn is_end_of(step: &Step, number: u64) -> bool {
    match step {
        Step::LinkEnd { link } => *link == number,
        _ => false,
    }
}

#[test]
fn two_receipts_of_one_number_are_repeated(rt: HostRuntime) {
    let alloc = rt.alloc();
    let others = told_elsewhere::<Brand, HostRuntime>(&rt, alloc, Blank::new(1), 1);
    let why = why_with::<Brand, HostRuntime>(&rt, alloc, Blank::new(1), others, true);
    let repeated = match &why {
        Some(CloseWhy::Repeated { told, again }) => {
            is_end_of(told.step(), 1) && is_end_of(again.step(), 0)
        }
        _ => false,
    };
    assert!(rt; repeated);
    leak(why);
}

#[test]
fn a_receipt_of_another_step_differs(rt: HostRuntime) {
    let alloc = rt.alloc();
    let others = told_elsewhere::<Brand, HostRuntime>(&rt, alloc, Blank::new(1), 1);
    let why = why_with::<Brand, HostRuntime>(&rt, alloc, Blank::new(1), others, false);
    let differs = match &why {
        Some(CloseWhy::Differs { number, told }) => { *number == 0 && is_end_of(told.step(), 1) }
        _ => false,
    };
    assert!(rt; differs);
    leak(why);
}
