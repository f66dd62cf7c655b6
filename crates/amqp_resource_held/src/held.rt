//! What a session keeps: the live ids with their frames, and the open control links with their ids.
//! An id or a link is found by its hash. But for making room in a full table nothing here walks all
//! of them.

ghost use Rattle.std.specs.Prelude.{◌≡◌, ◌<◌, ◌↔◌, IsTrue, [], ℕ, true, false, ◌&&◌, ◌==◌, nat_eq, OnOk, IfSome, None, Some, cond, length, map, vec_capacity, ◌≤◌};
ghost use Rattle.std.specs.List.{list_any};
ghost use Rattle.std.specs.Map.{lookup};
ghost use Rattle.std.specs.Option.{option_map};
ghost use Rattle.std.specs.HashMap.{spare};
ghost use Rattle.std.specs.HashSet.{spare as spare_ids};
ghost use Rattle.amqp_txn_types.specs.declared.id.TransactionId.{TransactionId};
ghost use Rattle.amqp_txn_types.specs.Frames.{stripped};
ghost use Rattle.amqp_txn_types.specs.Ids.{same_id};
ghost use Rattle.amqp_resource_log.specs.Live.{frame_count, frames_kept, home_of, kept, owed};
ghost use Rattle.amqp_resource_record.specs.Live.{is_link};
ghost use Rattle.amqp_resource_held.specs.Held.{HasRoom, SameHeld, Stands, Tied, ids_on, is_among, is_in, is_kept_on, unless_on};
ghost use Rattle.amqp_resource_held.specs.Changes.{Ended};
ghost use Rattle.amqp_resource_held.specs.Looks.{Adds, Pays, frames_for, frames_on};

use amqp_resource_log::{LiveWork, Looks};
use amqp_txn_types::{Frame, Frames, NoMemory, TransactionId};
use indexmap::{IndexMap, IndexSet};
use std::alloc::Global;
use std::sync::ledger::Ledger;

/// The open links, each with the live ids that were declared on it.
pub type OpenLinks = IndexMap<u64, IndexSet<TransactionId>>;

/// What a session keeps: the live ids with their work, the open links, and how many links were
/// opened.
#[derive(Drop)]
pub struct Held {
    pub work: LiveWork,
    pub links: OpenLinks,
    pub opened: u64,
}

impl Held {
    /// No live id, no link opened so far. It takes no memory; later growth takes it from `alloc`.
    pub fn new(alloc: Global) -> Held
        ensures stands { Stands result [] }
        ensures owed { owed result.work ≡ 0 }
        ensures frames { frame_count result.work ≡ 0 }
    {
        Held {
            work: LiveWork::new(alloc),
            links: IndexMap::new(alloc),
            opened: 0,
        }
    }
}

/// Whether no id is live and no link was opened so far.
pub fn keeps_nothing(held: &Held) -> bool
    ensures { IsTrue result ↔ Stands held.now [] }
{
    if !held.work.is_empty() {
        return false;
    }
    if !held.links.is_empty() {
        return false;
    }
    held.opened == 0
}

/// Whether the link is this one.
fn is_on(home: Option<u64>, link: u64) -> bool
    ensures { result ≡ is_link link home }
{
    match home {
        Some(home) => home == link,
        None => false,
    }
}

/// Whether the id is live and was declared on the link.
pub fn is_declared_on(work: &LiveWork, id: TransactionId, link: u64) -> bool
    ensures { result ≡ is_kept_on link (kept work.now id) }
{
    match work.home(&id) {
        Some(home) => is_on(home, link),
        None => false,
    }
}

/// Whether the link is open.
pub fn has_link(links: &OpenLinks, link: u64) -> bool
    ensures { result ≡ is_in links.now.entries link }
{
    links.contains_key(&link)
}

/// Opens a link, for which there is room.
pub fn open_link(links: &mut OpenLinks, alloc: Global, link: u64)
    requires { 0 < spare links.old }
    ensures { (k : ℕ) → ids_on links.new.entries k ≡ cond (link == k) (Some [])
        (ids_on links.old.entries k) }
{
    let Ok(_) = links.insert(link, IndexSet::new(alloc)) else {
        unreachable!()
    };
}

/// Makes room for one more id of a link.
fn make_room_on(links: &mut OpenLinks, link: u64) -> Result<(), NoMemory>
    ensures same { (k : ℕ) → ids_on links.new.entries k ≡ ids_on links.old.entries k }
    ensures room { OnOk result (IfSome (lookup (nat_eq link) links.new.entries)
        (λ ids. 0 < spare_ids ids)) }
{
    match links.get_mut(&link) {
        Some(ids) => match ids.reserve(1) {
            Ok(()) => Ok(()),
            Err(_) => Err(NoMemory),
        },
        None => Ok(()),
    }
}

/// Makes room for one more live id, declared on the link.
pub fn make_room(held: &mut Held, link: u64) -> Result<(), NoMemory>
    ensures same { SameHeld held.old held.new }
    ensures counts { Adds held.old.work held.new.work 0 }
    ensures room { OnOk result (HasRoom held.new link) }
{
    let Ok(()) = held.work.make_room() else {
        return Err(NoMemory);
    };
    make_room_on(&mut held.links, link)
}

/// Adds an id to those of its link, for which there is room.
fn add_id(ids: &mut IndexSet<TransactionId>, id: TransactionId)
    requires { 0 < spare_ids ids.old }
    ensures { (t : TransactionId) → list_any (same_id t) ids.new.keys ≡ cond (same_id id t) true
        (list_any (same_id t) ids.old.keys) }
{
    let Ok(_) = ids.insert(id) else {
        unreachable!()
    };
}

/// Adds an id to those of an open link, for which there is room.
fn add_on(links: &mut OpenLinks, link: u64, id: TransactionId)
    requires room { IfSome (lookup (nat_eq link) links.old.entries) (λ ids. 0 < spare_ids ids) }
    requires opened { is_in links.old.entries link ≡ true }
    ensures links { (k : ℕ) → is_in links.new.entries k ≡ is_in links.old.entries k }
    ensures ids { (k : ℕ) → (t : TransactionId) → is_among t (ids_on links.new.entries k) ≡ cond
        (link == k && same_id id t) true (is_among t (ids_on links.old.entries k)) }
{
    if let Some(ids) = links.get_mut(&link) {
        add_id(ids, id);
    }
}

/// Declares an id that isn't live on an open link, for which there is room.
pub fn declare_on(held: &mut Held, link: u64, id: TransactionId)
    requires room { HasRoom held.old link }
    requires opened { is_in held.old.links.entries link ≡ true }
    requires unused { kept held.old.work id ≡ None }
    ensures live { (t : TransactionId) → kept held.new.work t
        ≡ cond (same_id t id) (Some (Some link, [])) (kept held.old.work t) }
    ensures links { (k : ℕ) → is_in held.new.links.entries k ≡ is_in held.old.links.entries k }
    ensures tied { Tied held.old → Tied held.new }
    ensures opened { held.new.opened ≡ held.old.opened }
    ensures counts { Adds held.old.work held.new.work 0 }
{
    held.work.add(id, Some(link));
    add_on(&mut held.links, link, id);
}

/// Takes an id out of those of its link.
fn drop_id(ids: &mut IndexSet<TransactionId>, id: TransactionId)
    ensures { (t : TransactionId) → list_any (same_id t) ids.new.keys ≡ cond (same_id id t) false
        (list_any (same_id t) ids.old.keys) }
{
    let _was_among = ids.swap_remove(&id);
}

/// Takes an id out of those of the link that declared it, if one did.
fn drop_on(links: &mut OpenLinks, home: Option<u64>, id: TransactionId)
    ensures links { (k : ℕ) → is_in links.new.entries k ≡ is_in links.old.entries k }
    ensures ids { (k : ℕ) → (t : TransactionId) → is_among t (ids_on links.new.entries k) ≡ cond
        (is_link k home && same_id id t) false (is_among t (ids_on links.old.entries k)) }
{
    let Some(link) = home else {
        return;
    };
    if let Some(ids) = links.get_mut(&link) {
        drop_id(ids, id);
    }
}

/// Lets a live id go with what is kept for it: it is live no more, and none of those of the link
/// that declared it, if one did.
pub fn drop_work<L: Ledger>(
    held: &mut Held,
    id: TransactionId,
    home: Option<u64>,
    looks: &mut Looks<L>,
)
    requires { option_map home_of (kept held.old.work id) ≡ Some home }
    ensures ended { Ended held.old held.new id }
    ensures pays { Pays held.old.work held.new.work looks.old looks.new
        (length (frames_kept (kept held.old.work id))) 0 }
{
    held.work.drop_all(&id, looks);
    drop_on(&mut held.links, home, id);
}

/// Ends a live id as [`drop_work`] does, and takes its frames out, in order, each without its
/// transactional state, into an empty list that has room for them.
pub fn take_work<L: Ledger>(
    held: &mut Held,
    id: TransactionId,
    home: Option<u64>,
    list: Vec<Frame>,
    looks: &mut Looks<L>,
) -> Frames
    requires home { option_map home_of (kept held.old.work id) ≡ Some home }
    requires none { list.items ≡ [] }
    requires room { length (frames_kept (kept held.old.work id)) ≤ vec_capacity list }
    ensures frames { result ≡ map stripped (frames_kept (kept held.old.work id)) }
    ensures ended { Ended held.old held.new id }
    ensures pays { Pays held.old.work held.new.work looks.old looks.new
        (length (frames_kept (kept held.old.work id))) 0 }
{
    let frames = held.work.take_all(&id, list, looks);
    drop_on(&mut held.links, home, id);
    Frames::from_vec(frames)
}

/// Lets the ids go with what is kept for them.
fn drop_ids<L: Ledger>(work: &mut LiveWork, ids: &[TransactionId], looks: &mut Looks<L>)
    ensures kept { (t : TransactionId) → kept work.new t ≡ cond (list_any (same_id t) ids.now) None
        (kept work.old t) }
    ensures pays { Pays work.old work.new looks.old looks.new (frames_for work.old (Some ids.now))
        0 }
{
    for id in ids {
        work.drop_all(id, looks);
    }
}

/// Closes a link and lets go what was declared on it.
pub fn end_link<L: Ledger>(held: &mut Held, link: u64, looks: &mut Looks<L>)
    ensures live { Tied held.old → (t : TransactionId) → kept held.new.work t ≡ unless_on link
        (kept held.old.work t) }
    ensures links { (k : ℕ) → is_in held.new.links.entries k ≡ cond (link == k) false
        (is_in held.old.links.entries k) }
    ensures tied { Tied held.old → Tied held.new }
    ensures opened { held.new.opened ≡ held.old.opened }
    ensures pays { Pays held.old.work held.new.work looks.old looks.new (frames_on held.old link)
        0 }
{
    let Some(ids) = held.links.swap_remove(&link) else {
        return;
    };
    drop_ids(&mut held.work, ids.as_slice(), looks);
}
