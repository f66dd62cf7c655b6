//! Lists, and the fields of the two messages.

ghost use Rattle.std.specs.Prelude.{◌≡◌, ◌≤◌, length, option_map, IsTrue, ◌↔◌};
ghost use Rattle.amqp_txn_codec.specs.Fields.{IsFail, IsDeclare};
ghost use Rattle.amqp_txn_codec.specs.Walks.{Finds, FoundOctet, FoundNumber, FoundId, FoundCut, FoundFields, FoundList, FoundDischarge};

use crate::section::after_prefix;
use amqp_txn_types::TransactionId;

/// A number in one octet, and what follows it.
fn octet_at(octets: &[u8]) -> Option<(u8, &[u8])>
    ensures { Finds (FoundOctet octets.now)
        (option_map (λ found. (found.0, found.1.now)) result) }
{
    match octets.split_first() {
        Some((first, rest)) => Some((*first, rest)),
        None => None,
    }
}

/// A number in four octets, big-endian, and what follows it.
fn number_at(octets: &[u8]) -> Option<(u32, &[u8])>
    ensures { Finds (FoundNumber octets.now)
        (option_map (λ found. (found.0, found.1.now)) result) }
{
    match octets.split_first_chunk::<4>() {
        Some((first, rest)) => Some((u32::from_be_bytes(*first), rest)),
        None => None,
    }
}

/// Whether the octets are these.
pub(crate) fn same_octets(octets: &[u8], spelled: &[u8]) -> bool
    ensures { IsTrue result ↔ (octets.now ≡ spelled.now) }
{
    octets == spelled
}

/// Null, or a boolean in either of its forms.
fn fail_of(octets: &[u8]) -> Option<Option<bool>>
    ensures { Finds (λ fail. IsFail fail octets.now) result }
{
    if same_octets(octets, b"\x40") {
        return Some(None);
    }
    if same_octets(octets, b"\x41") {
        return Some(Some(true));
    }
    if same_octets(octets, b"\x56\x01") {
        return Some(Some(true));
    }
    if same_octets(octets, b"\x42") {
        return Some(Some(false));
    }
    if same_octets(octets, b"\x56\x00") {
        return Some(Some(false));
    }
    None
}

/// An id of that length, at most 32, and what follows it.
fn cut_at(len: usize, octets: &[u8]) -> Option<(&[u8], &[u8])>
    ensures { Finds (FoundCut len octets.now)
        (option_map (λ found. (found.0.now, found.1.now)) result) }
{
    if len > 32 || len > octets.len() {
        return None;
    }
    Some(octets.split_at(len))
}

/// The octets of the id at the front, and the rest.
fn after_id(octets: &[u8]) -> Option<(&[u8], &[u8])>
    ensures { Finds (FoundId octets.now)
        (option_map (λ found. (found.0.now, found.1.now)) result) }
{
    if let Some(others) = after_prefix(&[0xa0], octets) {
        let (len, others) = octet_at(others)?;
        return cut_at(len as usize, others);
    }
    let others = after_prefix(&[0xb0], octets)?;
    let (len, others) = number_at(others)?;
    cut_at(len as usize, others)
}

fn id_of(octets: &[u8]) -> TransactionId
    requires { length octets.now ≤ 32 }
    ensures { result ≡ octets.now }
{
    match TransactionId::new(octets) {
        Ok(id) => id,
        Err(_) => unreachable!(),
    }
}

/// The fields of a list and what follows it, where so many octets of its size are the count.
fn fields_of(size: usize, within: usize, count: u32, octets: &[u8]) -> Option<(u32, &[u8], &[u8])>
    ensures { Finds (FoundFields size within count octets.now)
        (option_map (λ found. (found.0, found.1.now, found.2.now)) result) }
{
    if size < within || size - within > octets.len() {
        return None;
    }
    let (fields, rest) = octets.split_at(size - within);
    Some((count, fields, rest))
}

/// The count and the octets of the fields of a list in any of its forms, and what follows it.
pub(crate) fn after_list(octets: &[u8]) -> Option<(u32, &[u8], &[u8])>
    ensures { Finds (FoundList octets.now)
        (option_map (λ found. (found.0, found.1.now, found.2.now)) result) }
{
    if let Some(rest) = after_prefix(&[0x45], octets) {
        return Some((0, &[], rest));
    }
    if let Some(others) = after_prefix(&[0xc0], octets) {
        let (size, others) = octet_at(others)?;
        let (count, others) = octet_at(others)?;
        return fields_of(size as usize, 1, count as u32, others);
    }
    let others = after_prefix(&[0xd0], octets)?;
    let (size, others) = number_at(others)?;
    let (count, others) = number_at(others)?;
    fields_of(size as usize, 4, count, others)
}

/// The global id that the fields of a declare give.
pub(crate) fn declared(count: u32, fields: &[u8]) -> Option<Option<TransactionId>>
    ensures { Finds (IsDeclare count fields.now) result }
{
    if count == 0 {
        return if same_octets(fields, b"") {
            Some(None)
        } else {
            None
        };
    }
    if count != 1 {
        return None;
    }
    if same_octets(fields, b"\x40") {
        return Some(None);
    }
    let (octets, rest) = after_id(fields)?;
    if same_octets(rest, b"") {
        Some(Some(id_of(octets)))
    } else {
        None
    }
}

/// The id and the fail that the fields of a discharge give.
pub(crate) fn discharged(count: u32, fields: &[u8]) -> Option<(TransactionId, Option<bool>)>
    ensures { Finds (FoundDischarge count fields.now) result }
{
    let (octets, rest) = after_id(fields)?;
    let id = id_of(octets);
    if count == 1 {
        return if same_octets(rest, b"") {
            Some((id, None))
        } else {
            None
        };
    }
    if count != 2 {
        return None;
    }
    let fail = fail_of(rest)?;
    Some((id, fail))
}
