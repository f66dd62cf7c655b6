//! The index of the log: the live ids, each with its link and the places of its live cells.

ghost use Rattle.std.specs.Prelude.{◌≡◌, ◌==◌, ◌≤◌, IfOk, length, position, slice_get, is_some};
ghost use Rattle.std.specs.Map.{lookup};
ghost use Rattle.std.specs.HashMap.{spare};
ghost use Rattle.amqp_txn_types.specs.Ids.{same_id};
ghost use Rattle.amqp_resource_log.specs.Index.{Without, Written, homes_in, moved_to, places_added, places_kept, without_place};

use crate::live_id::LiveId;
use amqp_txn_types::{NoMemory, TransactionId};
use indexmap::IndexMap;
use std::alloc::Global;
use std::collections::VecDeque;

/// The live ids, each with its link and the places of its live cells.
pub type Index = IndexMap<TransactionId, LiveId>;

/// The link of a live id, if it was declared on one; `None` where it isn't live.
pub fn home_of(index: &Index, id: TransactionId) -> Option<Option<u64>>
    ensures { result ≡ lookup (same_id id) (homes_in index.now.entries) }
{
    match index.get(&id) {
        Some(live) => Some(live.home),
        None => None,
    }
}

/// The first place of an id.
pub fn first_place(index: &Index, id: TransactionId) -> Option<usize>
    ensures { result ≡ slice_get (places_kept index.now.entries id) 0 }
{
    index.get(&id)?.places.front().copied()
}

/// How many places an id has.
pub fn place_count(index: &Index, id: TransactionId) -> usize
    ensures { result ≡ length (places_kept index.now.entries id) }
{
    match index.get(&id) {
        Some(live) => live.places.len(),
        None => 0,
    }
}

/// Adds a place to those of an id, and says whether the id is live: for one that isn't, and where
/// memory runs out, all places stay as they were.
#[inline(always)]
pub fn add_place(index: &mut Index, id: TransactionId, place: usize) -> Result<bool, NoMemory>
    ensures ok { IfOk result (λ live. live ≡ is_some (lookup (same_id id) index.old.entries)) }
    ensures written { Written (places_added result place) id index.old.entries index.new.entries }
    ensures spare { spare index.new ≡ spare index.old }
{
    let Some(live) = index.get_mut(&id) else {
        return Ok(false);
    };
    match live.places.push_back(place) {
        Ok(()) => Ok(true),
        Err(_) => Err(NoMemory),
    }
}

/// Where a place stands among some.
fn place_of(places: &VecDeque<usize>, place: usize) -> Option<usize>
    ensures { result ≡ position (λ n. n == place) places.now.items }
{
    places.iter().position(|n| *n == place)
}

/// Takes a place out of some.
fn drop_from(places: &mut VecDeque<usize>, place: usize)
    ensures { places.new.items ≡ without_place place places.old.items }
{
    if let Some(first) = places.front() {
        if *first == place {
            let _first = places.pop_front();
            return;
        }
    }
    if let Some(at) = place_of(places, place) {
        let _place = places.remove(at);
    }
}

/// Takes a place out of those of an id.
pub fn drop_place(index: &mut Index, id: TransactionId, place: usize)
    ensures written { Written (without_place place) id index.old.entries index.new.entries }
    ensures spare { spare index.new ≡ spare index.old }
{
    if let Some(live) = index.get_mut(&id) {
        drop_from(&mut live.places, place);
    }
}

/// Takes out the first of some places, and adds another after the rest.
fn move_in(places: &mut VecDeque<usize>, to: usize)
    ensures { places.new.items ≡ moved_to to places.old.items }
{
    if places.pop_front().is_some() {
        let Ok(()) = places.push_back(to) else {
            unreachable!()
        };
    }
}

/// Takes out the first place of an id, and adds another after the rest.
pub fn move_place(index: &mut Index, id: TransactionId, to: usize)
    ensures written { Written (moved_to to) id index.old.entries index.new.entries }
    ensures spare { spare index.new ≡ spare index.old }
{
    if let Some(live) = index.get_mut(&id) {
        move_in(&mut live.places, to);
    }
}

/// Takes an id out of the index, and gives its places: none where it isn't live.
pub fn take_id(index: &mut Index, id: &TransactionId, alloc: Global) -> VecDeque<usize>
    ensures places { result.items ≡ places_kept index.old.entries id.now }
    ensures without { Without id.now index.old.entries index.new.entries }
    ensures room { spare index.old ≤ spare index.new }
{
    match index.swap_remove(id) {
        Some(live) => live.places,
        None => VecDeque::new(alloc),
    }
}
