//! Which transaction ids of a record are live, by looking at every entry.

ghost use Rattle.std.specs.Prelude.{◌≡◌, suc, drop};
ghost use Rattle.std.specs.List.{list_any};
ghost use Rattle.amqp_txn_codec.specs.Reading.{message_of};
ghost use Rattle.amqp_resource_record.specs.Entries.{declares, discharges, message_discharges, step_link};
ghost use Rattle.amqp_resource_record.specs.Live.{since, home, entries_since, undischarged, is_live, is_held_on, is_link, is_open_at};

use crate::entry::Entry;
use crate::open_links::is_open;
use crate::reply::Reply;
use crate::step::Step;
use amqp_txn_codec::{ControlMessageBody, decode};
use amqp_txn_types::{TransactionError, TransactionId};

/// The place of the last entry that declared the id, counted from 0; `None` where none did.
///
/// Part 4 of the standard, section 4.2 (declaring a transaction).
#[tactic(auto, unfolding(crate::specs::Live::since))]
pub fn since(entries: &[Entry], txn_id: &TransactionId) -> Option<usize>
    ensures { result ≡ since entries.now txn_id.now }
{
    let mut last = None;
    for (place, entry) in entries.iter().enumerate() {
        if is_declare_of(entry, txn_id) {
            last = Some(place);
        }
    }
    last
}

/// The link on which the id was last declared; `None` where it never was.
#[tactic(auto, unfolding(crate::specs::Live::home))]
pub fn home(entries: &[Entry], txn_id: &TransactionId) -> Option<u64>
    ensures { result ≡ home entries.now txn_id.now }
{
    match since(entries, txn_id) {
        None => None,
        Some(place) => match entries.get(place) {
            None => None,
            Some(entry) => link_named(&entry.step),
        },
    }
}

/// Whether the id is live after these entries: it was declared, no discharge of it was accepted or
/// vetoed since, and the link that declared it is open.
///
/// Part 4 of the standard, sections 4.1 to 4.3. It looks at every entry a few times.
#[tactic(auto, unfolding(crate::specs::Live::is_live))]
pub fn is_live(entries: &[Entry], txn_id: &TransactionId) -> bool
    ensures { result ≡ is_live entries.now txn_id.now }
{
    is_undischarged(entries, txn_id) && is_open_at(entries, home(entries, txn_id))
}

/// Whether the id is live and the link is its home, so that a discharge of it on this link is
/// accepted, or a commit vetoed.
pub fn is_held_on(entries: &[Entry], link: u64, txn_id: &TransactionId) -> bool
    ensures { result ≡ is_held_on entries.now link txn_id.now }
{
    is_live(entries, txn_id) && is_link(link, home(entries, txn_id))
}

/// The entries after the last declare of the id, none where it never was declared.
#[tactic(auto, unfolding(crate::specs::Live::entries_since))]
pub fn entries_since<'a>(entries: &'a [Entry], txn_id: &TransactionId) -> &'a [Entry]
    ensures { result.now ≡ entries_since entries.now txn_id.now }
{
    match since(entries, txn_id) {
        Some(place) => entries_after(entries, place),
        None => &[],
    }
}

fn entries_after(entries: &[Entry], place: usize) -> &[Entry]
    ensures { result.now ≡ drop (suc place) entries.now }
{
    if place < entries.len() {
        &entries[place + 1..]
    } else {
        &[]
    }
}

#[tactic(auto, unfolding(crate::specs::Live::undischarged))]
fn is_undischarged(entries: &[Entry], txn_id: &TransactionId) -> bool
    ensures { result ≡ undischarged entries.now txn_id.now }
{
    match since(entries, txn_id) {
        None => false,
        Some(place) => !has_discharge_of(entries_after(entries, place), txn_id),
    }
}

fn has_discharge_of(entries: &[Entry], txn_id: &TransactionId) -> bool
    ensures { result ≡ list_any (discharges txn_id.now) entries.now }
{
    for entry in entries {
        if is_discharge_of(entry, txn_id) {
            return true;
        }
    }
    false
}

fn is_declare_of(entry: &Entry, txn_id: &TransactionId) -> bool
    ensures { result ≡ declares txn_id.now entry.now }
{
    match &entry.reply {
        Reply::Declared(declared) => txn_id == declared,
        _ => false,
    }
}

fn is_discharge_of(entry: &Entry, txn_id: &TransactionId) -> bool
    ensures { result ≡ discharges txn_id.now entry.now }
{
    match (&entry.step, &entry.reply) {
        (Step::Control { payload, .. }, Reply::Accepted(_)) => {
            spells_discharge(payload.as_slice(), txn_id)
        }
        (
            Step::Control { payload, .. },
            Reply::Rejected {
                error: TransactionError::Rollback,
                ..
            },
        ) => spells_discharge(payload.as_slice(), txn_id),
        _ => false,
    }
}

fn spells_discharge(payload: &[u8], txn_id: &TransactionId) -> bool
    ensures { result ≡ message_discharges txn_id.now (message_of payload.now) }
{
    match decode(payload) {
        Ok(ControlMessageBody::Discharge(discharge)) => *txn_id == discharge.txn_id,
        _ => false,
    }
}

fn link_named(step: &Step) -> Option<u64>
    ensures { result ≡ step_link step.now }
{
    match step {
        Step::Control { link, .. } | Step::LinkEnd { link } => Some(*link),
        _ => None,
    }
}

fn is_open_at(entries: &[Entry], home: Option<u64>) -> bool
    ensures { result ≡ is_open_at entries.now home }
{
    match home {
        Some(link) => is_open(entries, link),
        None => false,
    }
}

fn is_link(link: u64, home: Option<u64>) -> bool
    ensures { result ≡ is_link link home }
{
    match home {
        Some(home) => home == link,
        None => false,
    }
}
