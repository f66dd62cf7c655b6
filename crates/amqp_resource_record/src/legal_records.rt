//! Whether a record is legal, and what it handed, by looking back at every entry.

ghost use Rattle.std.specs.Prelude.{◌≡◌, ◌≤◌, ◌↔◌, ◌++◌, IfOk, IsTrue, OnOk, length, take};
ghost use Rattle.amqp_resource_record.specs.Answers.{Answer};
ghost use Rattle.amqp_resource_record.specs.Legal.{IsLegal};
ghost use Rattle.amqp_resource_record.specs.Work.{work};

use crate::answers::is_answer;
use crate::entry::Entry;
use crate::handed::handed_by;
use amqp_below_ids::Drawn;
use amqp_txn_types::{Frames, NoMemory, TransactionId};
use std::alloc::Global;

/// Whether each entry is an answer after the entries before it.
///
/// Part 4 of the standard, sections 4.1 to 4.4. For each entry it looks at all before it a few
/// times, so it serves small records.
pub fn is_legal(entries: &[Entry]) -> bool
    ensures { IsTrue result ↔ IsLegal entries.now }
{
    for (place, entry) in entries.iter().enumerate() {
        if !is_entry_after(&entries[..place], entry) {
            return false;
        }
    }
    true
}

/// Whether the entry is an answer after these entries.
pub fn is_entry_after(entries: &[Entry], entry: &Entry) -> bool
    ensures { IsTrue result ↔ Answer entries.now entry.now.step entry.now.drawn.ids
        entry.now.reply }
{
    let count = entry.drawn.len();
    if count > 16 {
        return false;
    }
    let ids = padded_ids(&entry.drawn);
    is_answer(entries, &entry.step, &ids[..count], &entry.reply)
}

/// All frames that the entries handed to the layer below, in order. The only error is out of
/// memory.
pub fn work(alloc: Global, entries: &[Entry]) -> Result<Frames, NoMemory>
    ensures { IfOk result (λ frames. frames ≡ work entries.now) }
{
    let mut all = Frames::new(alloc);
    for (place, entry) in entries.iter().enumerate() {
        add_all(&mut all, handed_by(alloc, &entries[..place], entry)?)?;
    }
    Ok(all)
}

/// The ids, and more up to 16.
fn padded_ids(drawn: &Drawn) -> [TransactionId; 16]
    requires { length drawn.now.ids ≤ 16 }
    ensures { take (length drawn.now.ids) result ≡ drawn.now.ids }
{
    let mut ids = [TransactionId::from([0; 16]); 16];
    for place in 0..drawn.len() {
        match drawn.get(place) {
            Some(id) => ids[place] = *id,
            None => unreachable!(),
        }
    }
    ids
}

fn add_all(frames: &mut Frames, more: Frames) -> Result<(), NoMemory>
    ensures { OnOk result (frames.new ≡ frames.old ++ more) }
{
    for frame in more.into_vec() {
        frames.append(frame)?;
    }
    Ok(())
}
