//! The end of a shared session: sums and comparisons.

ghost use Rattle.std.specs.Prelude.{◌≡◌, ◌<◌, Some, eqb, length, slice_get, IfOk, MatchOption};
ghost use Rattle.std.specs.List.{IsDistinct};
ghost use Rattle.amqp_resource_shared.specs.Close.{ClosedBy};
ghost use Rattle.amqp_resource_shared.specs.Receipts.{EachOfEntry, NotOfEntry, numbers_of};

use crate::receipt::{Receipt, StoppedAt};
use amqp_resource_record::{Entries, Entry};
use amqp_resource_session::TxnSession;
use amqp_resource_shared_counts::first_repeat;
use amqp_txn_types::NoMemory;
use std::alloc::Global;

/// What comes out of a shared session at its end.
#[derive(Drop)]
pub struct Closed<S, G> {
    /// The session, stopped or not.
    pub session: TxnSession<S>,
    /// The source, after all ids that were drawn.
    pub ids: G,
    /// The entries of all steps that were answered, in the order in which they were made.
    pub entries: Entries,
    /// The step at which the session stopped, where it did.
    pub stopped: Option<StoppedAt>,
}

/// Why shares and receipts don't agree with the entries.
#[derive(Debug, Drop)]
pub enum CloseWhy {
    /// The shares count another number of steps than there are entries.
    Missing {
        /// How many entries there are.
        entries: usize,
        /// How many steps the shares count.
        held: u64,
    },
    /// Two receipts have one number.
    Repeated {
        /// The earlier one.
        told: Receipt,
        /// The later one.
        again: Receipt,
    },
    /// A receipt isn't of the entry with its number, or there is no such entry.
    Differs {
        /// Its number.
        number: usize,
        /// The receipt.
        told: Receipt,
    },
    /// Memory ran out.
    NoMemory,
}

/// The numbers of receipts, in order.
fn numbers_in(alloc: Global, receipts: &[Receipt]) -> Result<Vec<usize>, NoMemory>
    ensures { IfOk result (λ numbers. numbers.items ≡ numbers_of receipts.now) }
{
    let mut numbers = Vec::new(alloc);
    for receipt in receipts {
        numbers.push(receipt.number())?;
    }
    Ok(numbers)
}

/// The places of two receipts with one number, the earlier first.
fn repeated_receipts(
    alloc: Global,
    receipts: &[Receipt],
) -> Result<Option<(usize, usize)>, NoMemory>
    ensures { IfOk result (λ found. MatchOption found (IsDistinct eqb (numbers_of receipts.now))
        (λ places. (places.0 < places.1) × (places.1 < length receipts.now)
        × (slice_get (numbers_of receipts.now) places.0
        ≡ slice_get (numbers_of receipts.now) places.1))) }
{
    let numbers = numbers_in(alloc, receipts)?;
    Ok(first_repeat(alloc, numbers.as_slice())?)
}

/// The place of the first receipt that isn't of the entry with its number.
fn first_different(entries: &[Entry], receipts: &[Receipt]) -> Option<usize>
    ensures { MatchOption result (EachOfEntry entries.now receipts.now)
        (λ place. (place < length receipts.now)
        × NotOfEntry entries.now (slice_get receipts.now place)) }
{
    for place in 0..receipts.len() {
        if !receipts[place].is_of_entry(entries) {
            return Some(place);
        }
    }
    None
}

/// Takes the receipt at a place out.
fn take_one(receipts: Vec<Receipt>, place: usize) -> Receipt
    requires { place < length receipts.items }
    ensures { slice_get receipts.items place ≡ Some result }
{
    let mut receipts = receipts;
    let told = receipts.remove(place);
    drop(receipts);
    told
}

/// Takes the receipts at two places out, of which the first comes before the second.
fn take_two(receipts: Vec<Receipt>, first: usize, second: usize) -> (Receipt, Receipt)
    requires order { first < second }
    requires within { second < length receipts.items }
    ensures told { slice_get receipts.items first ≡ Some result.0 }
    ensures again { slice_get receipts.items second ≡ Some result.1 }
{
    let mut receipts = receipts;
    let again = receipts.remove(second);
    let told = take_one(receipts, first);
    (told, again)
}

/// The first cause, in their order; `None` where sums and receipts agree with the entries.
pub(crate) fn why_closed(
    alloc: Global,
    entries: &[Entry],
    held: u64,
    receipts: Vec<Receipt>,
) -> Option<CloseWhy>
    ensures { ClosedBy held entries.now receipts.items result }
{
    if entries.len() as u64 != held {
        return Some(CloseWhy::Missing {
            entries: entries.len(),
            held,
        });
    }
    let Ok(repeated) = repeated_receipts(alloc, receipts.as_slice()) else {
        return Some(CloseWhy::NoMemory);
    };
    if let Some(places) = repeated {
        let (told, again) = take_two(receipts, places.0, places.1);
        return Some(CloseWhy::Repeated { told, again });
    }
    if let Some(place) = first_different(entries, receipts.as_slice()) {
        let told = take_one(receipts, place);
        let number = told.number();
        return Some(CloseWhy::Differs { number, told });
    }
    None
}
