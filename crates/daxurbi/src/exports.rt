//! The calls that a program makes.

ghost use Rattle.std.specs.Prelude.{◌≡◌, ◌==◌, IfSome, IfNone, None, false, length};
ghost use Rattle.rand_chacha.specs.ChaCha.{of_seed};
ghost use Rattle.amqp_below_ids.specs.Listed.{listed};
ghost use Rattle.amqp_txn_codec.specs.Reading.{message_of};
ghost use Rattle.daxurbi_session.specs.OctetIds.{ids_in};
ghost use Rattle.daxurbi_session.specs.SlotIds.{ids_of, uuids_of};
ghost use Rattle.daxurbi.specs.Calls.{Closes, IsOpened, Opens, PayloadId, ReadsMessage, Reports, StepsSlot, TellsPending, Writes, WritesPayload, is_ids};
ghost use Rattle.daxurbi.specs.Numbers.{kind_of};

use crate::codes::{
    ALREADY_OPEN, NO_MEMORY, NOT_A_MESSAGE, NOT_A_SEED, NOT_AN_ANSWER, NOT_AN_ID, NOT_IDS,
    NOT_LIVE, NOT_OPEN, OK, SHORT_BUFFER, answer_of, code_of_step, kind_of, number_of,
};
use crate::slot::Slot;
use crate::slot_calls::{put, take};
use amqp_txn_types::TransactionId;
use daxurbi_session::{MessageKind, SlotIds, SlotSession, message_in, payload_of};
use std::alloc::Global;

/// Writes the octets at the front of the buffer where they fit, and says how many there are.
fn write_out(octets: &[u8], out: &mut [u8], needed: &mut usize) -> u32
    ensures { Writes octets.now (record { octets = out.old; needed = needed.old })
        (record { octets = out.new; needed = needed.new }) result }
{
    *needed = octets.len();
    if octets.len() > out.len() {
        return SHORT_BUFFER;
    }
    out[..octets.len()].copy_from_slice(octets);
    OK
}

/// The seed of these octets, where there are 32.
fn seed_of(octets: &[u8]) -> Option<[u8; 32]>
    ensures some { IfSome result (λ seed. (seed ≡ octets.now) × (length octets.now ≡ 32)) }
    ensures none { IfNone result ((length octets.now == 32) ≡ false) }
{
    if octets.len() != 32 {
        return None;
    }
    let mut seed = [0; 32];
    seed.copy_from_slice(octets);
    Some(seed)
}

/// Whether so many octets are a list of ids.
fn is_id_list(octets: &[u8]) -> bool
    ensures { result ≡ is_ids octets.now }
{
    0 < octets.len() && octets.len() <= 1024 && octets.len() % 16 == 0
}

/// Opens a closed slot.
fn open(slot: &mut Slot, alloc: Global, ids: SlotIds) -> u32
    requires { slot.old.session.value ≡ None }
    ensures { IsOpened slot.new.session.value (ids_of ids) result }
{
    let Ok(session) = Box::new(alloc, SlotSession::new(alloc, ids)) else {
        return NO_MEMORY;
    };
    put(&mut slot.session, session);
    slot.is_open = true;
    OK
}

/// Opens a slot with a new session, whose ids are version 4 uuids of this seed.
///
/// The seed is 32 octets of the system's source of random numbers.
#[unsafe(no_mangle)]
pub extern "C" fn daxurbi_open(alloc: Global, slot: &mut Slot, seed: &[u8]) -> u32
    ensures { Opens slot.old.session.value slot.new.session.value (length seed.now == 32)
        (uuids_of (of_seed seed.now)) 10 result }
{
    if slot.is_open {
        return ALREADY_OPEN;
    }
    let Some(seed) = seed_of(seed) else {
        return NOT_A_SEED;
    };
    open(slot, alloc, SlotIds::from_seed(seed))
}

/// Opens a slot with a new session, whose ids are these, 16 octets each, the last one again and
/// again.
#[unsafe(no_mangle)]
pub extern "C" fn daxurbi_open_with_ids(alloc: Global, slot: &mut Slot, ids: &[u8]) -> u32
    ensures { Opens slot.old.session.value slot.new.session.value (is_ids ids.now)
        (listed (ids_in ids.now)) 11 result }
{
    if slot.is_open {
        return ALREADY_OPEN;
    }
    if !is_id_list(ids) {
        return NOT_IDS;
    }
    let Ok(ids) = SlotIds::from_octets(alloc, ids) else {
        return NO_MEMORY;
    };
    open(slot, alloc, ids)
}

/// Closes a slot, which may be opened again.
#[unsafe(no_mangle)]
pub extern "C" fn daxurbi_close(alloc: Global, slot: &mut Slot) -> u32
    ensures { Closes slot.old.session.value slot.new.session.value result }
{
    if !slot.is_open {
        return NOT_OPEN;
    }
    let session = take(&mut slot.session, alloc);
    slot.is_open = false;
    drop(session);
    OK
}

/// Makes the step that a line spells, with what the layer below answers to it.
#[unsafe(no_mangle)]
pub extern "C" fn daxurbi_step(alloc: Global, slot: &mut Slot, line: &[u8], answer: u32) -> u32
    ensures { StepsSlot slot.old.session.value slot.new.session.value line.now answer result }
{
    if !slot.is_open {
        return NOT_OPEN;
    }
    let Some(answer) = answer_of(answer) else {
        return NOT_AN_ANSWER;
    };
    let mut session = take(&mut slot.session, alloc);
    let stepped = session.step_line(line, answer);
    put(&mut slot.session, session);
    code_of_step(stepped)
}

/// Reads what the last step made, in lines.
#[unsafe(no_mangle)]
pub extern "C" fn daxurbi_report(
    alloc: Global,
    slot: &mut Slot,
    out: &mut [u8],
    needed: &mut usize,
) -> u32
    ensures same { slot.new.session.value ≡ slot.old.session.value }
    ensures text { Reports slot.old.session.value
        (record { octets = out.old; needed = needed.old })
        (record { octets = out.new; needed = needed.new }) result }
{
    if !slot.is_open {
        return NOT_OPEN;
    }
    let session = take(&mut slot.session, alloc);
    let report = session.report();
    put(&mut slot.session, session);
    match report {
        Ok(text) => write_out(text.as_str().as_bytes(), out, needed),
        Err(_) => NO_MEMORY,
    }
}

/// Reads which frames a commit of the id would hand, a line each.
#[unsafe(no_mangle)]
pub extern "C" fn daxurbi_pending(
    alloc: Global,
    slot: &mut Slot,
    id: &[u8],
    out: &mut [u8],
    needed: &mut usize,
) -> u32
    ensures same { slot.new.session.value ≡ slot.old.session.value }
    ensures text { TellsPending slot.old.session.value id.now
        (record { octets = out.old; needed = needed.old })
        (record { octets = out.new; needed = needed.new }) result }
{
    if !slot.is_open {
        return NOT_OPEN;
    }
    let Ok(id) = TransactionId::new(id) else {
        return NOT_AN_ID;
    };
    let session = take(&mut slot.session, alloc);
    let pending = session.pending(&id);
    put(&mut slot.session, session);
    match pending {
        Ok(Some(text)) => write_out(text.as_str().as_bytes(), out, needed),
        Ok(None) => NOT_LIVE,
        Err(_) => NO_MEMORY,
    }
}

/// The id of a message of this kind: of a declare without a global id none is looked at.
fn payload_id(kind: MessageKind, id: &[u8]) -> Option<TransactionId>
    ensures { PayloadId kind id.now result }
{
    let octets = if kind == MessageKind::Declare {
        &[]
    } else {
        id
    };
    TransactionId::new(octets).ok()
}

/// Writes the payload of a control message.
#[unsafe(no_mangle)]
pub extern "C" fn daxurbi_payload(kind: u32, id: &[u8], out: &mut [u8], needed: &mut usize) -> u32
    ensures { WritesPayload (kind_of kind) id.now
        (record { octets = out.old; needed = needed.old })
        (record { octets = out.new; needed = needed.new }) result }
{
    let Some(kind) = kind_of(kind) else {
        return NOT_A_MESSAGE;
    };
    let Some(id) = payload_id(kind, id) else {
        return NOT_AN_ID;
    };
    let mut octets = [0; 64];
    let len = payload_of(kind, id, &mut octets);
    write_out(&octets[..len], out, needed)
}

/// Reads the kind and the id of the control message that a payload spells.
#[unsafe(no_mangle)]
pub extern "C" fn daxurbi_message(
    payload: &[u8],
    kind: &mut u32,
    id: &mut [u8],
    needed: &mut usize,
) -> u32
    ensures { ReadsMessage (message_of payload.now) kind.old kind.new
        (record { octets = id.old; needed = needed.old })
        (record { octets = id.new; needed = needed.new }) result }
{
    let Some((found, found_id)) = message_in(payload) else {
        return NOT_A_MESSAGE;
    };
    *kind = number_of(found);
    match found_id {
        Some(found_id) => write_out(found_id.as_ref(), id, needed),
        None => write_out(&[], id, needed),
    }
}
