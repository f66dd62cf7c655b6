//! The words of a step line, each kind by its table.

ghost use Rattle.std.specs.Prelude.{◌≡◌, ◌≤◌, ◌+◌, ◌*◌, Some, None, MatchOption, length, take};
ghost use Rattle.std.specs.List.{list_all};
ghost use Rattle.std.specs.Str.{bytes_eq};
ghost use Rattle.txn_program_lines.specs.LineWords.{at_most, bool_of, decimal_of, name_of, number_after, octets_of, optional, outcome_of, payload_of, role_of, txn_id_of, u32_of, u64_of, is_name, is_name_octet};
ghost use Rattle.txn_program_lines.specs.Lines.{deliveries_at, delivery_at, ended, next, word_at};
ghost use Rattle.txn_program_lines.specs.Reads.{Reads, words_left};

use crate::pieces::cut_at;
use crate::unread::Unread;
use amqp_txn_types::{Modified, Outcome, Payload, Rejected, Role, TransactionId};
use hex::FromHexError;
use std::alloc::Global;

/// The transfer that a line names: its link, its delivery's number, and whether it is settled.
#[derive(Clone, Copy)]
pub struct Delivery {
    pub handle: u32,
    pub delivery_id: Option<u32>,
    pub settled: Option<bool>,
}

/// The deliveries of which a line tells the state.
#[derive(Clone, Copy)]
pub struct Deliveries {
    pub role: Role,
    pub first: u32,
    pub last: Option<u32>,
    pub settled: bool,
}

/// Whether the word is this text.
#[inline(always)]
pub fn is_text(word: &[u8], text: &str) -> bool
    ensures { result ≡ bytes_eq word.now text.now }
{
    word == text.as_bytes()
}

/// The first of the words that are left, and the others.
#[inline(always)]
pub fn word_at(words: Option<&[u8]>) -> Result<(&[u8], Option<&[u8]>), Unread>
    ensures { Reads (λ x. (x.0.now, words_left x.1)) result (word_at (words_left words.entry)) }
{
    let Some(octets) = words else {
        return Err(Unread::OutsideTable);
    };
    Ok(cut_at(octets, b' '))
}

/// That no word is left.
pub fn end_at(words: Option<&[u8]>) -> Result<(), Unread>
    ensures { Reads (λ x. x) result (ended (words_left words.entry)) }
{
    match words {
        None => Ok(()),
        Some(_) => Err(Unread::OutsideTable),
    }
}

/// A name, of 1 to 64 characters.
pub fn name_of(word: &[u8]) -> Result<&str, Unread>
    ensures { Reads (λ name. name.now) result (name_of word.now) }
{
    if !is_name(word) {
        return Err(Unread::OutsideTable);
    }
    match str::from_utf8(word) {
        Ok(name) => Ok(name),
        Err(_) => unreachable!(),
    }
}

fn is_name(word: &[u8]) -> bool
    ensures { result ≡ is_name word.now }
{
    let enough = 1 <= word.len();
    let few = word.len() <= 64;
    enough && few && are_name_octets(word)
}

fn are_name_octets(octets: &[u8]) -> bool
    ensures { result ≡ list_all is_name_octet octets.now }
{
    octets.iter().all(|octet| is_name_octet(*octet))
}

fn is_name_octet(octet: u8) -> bool
    ensures { result ≡ is_name_octet octet }
{
    (b'a' <= octet && octet <= b'z')
        || (b'A' <= octet && octet <= b'Z')
        || octet.is_ascii_digit()
        || octet == b'-'
        || octet == b'_'
        || octet == b'.'
}

/// A decimal number without leading zeros, up to the limit.
pub fn number_of(word: &[u8], limit: u64) -> Option<u64>
    ensures { result ≡ at_most limit (decimal_of word.now) }
{
    match word {
        [] => None,
        [b'0', others @ ..] => { if others.is_empty() { Some(0) } else { None } }
        _ => digits_of(word, limit),
    }
}

fn digits_of(word: &[u8], limit: u64) -> Option<u64>
    ensures { result ≡ at_most limit (number_after 0 word.now) }
{
    let mut number = 0;
    for octet in word {
        if !octet.is_ascii_digit() {
            return None;
        }
        let Some(longer) = with_digit(number, *octet - b'0', limit) else {
            return None;
        };
        number = longer;
    }
    Some(number)
}

/// The number with one more digit at its end, up to the limit.
fn with_digit(number: u64, digit: u8, limit: u64) -> Option<u64>
    ensures { result ≡ at_most limit (Some (10 * number + digit)) }
{
    let Some(tens) = number.checked_mul(10) else {
        return None;
    };
    match tens.checked_add(u64::from(digit)) {
        Some(longer) if longer <= limit => Some(longer),
        _ => None,
    }
}

/// A number up to 4,294,967,295.
pub fn u32_of(word: &[u8]) -> Option<u32>
    ensures { result ≡ u32_of word.now }
{
    match number_of(word, 4_294_967_295) {
        Some(number) if number <= 4_294_967_295 => Some(number as u32),
        _ => None,
    }
}

/// `true` or `false`; `None` for any other word.
pub fn bool_of(word: &[u8]) -> Option<bool>
    ensures { result ≡ bool_of word.now }
{
    if is_text(word, "true") {
        Some(true)
    } else if is_text(word, "false") {
        Some(false)
    } else {
        None
    }
}

/// `sender` or `receiver`; `None` for any other word.
pub fn role_of(word: &[u8]) -> Option<Role>
    ensures { result ≡ role_of word.now }
{
    if is_text(word, "sender") {
        Some(Role::Sender)
    } else if is_text(word, "receiver") {
        Some(Role::Receiver)
    } else {
        None
    }
}

/// An outcome by its name, with no more than the name; `None` for any other word.
pub fn outcome_of(word: &[u8]) -> Option<Outcome>
    ensures { result ≡ outcome_of word.now }
{
    if is_text(word, "accepted") {
        Some(Outcome::Accepted)
    } else if is_text(word, "rejected") {
        Some(Outcome::Rejected(Rejected { error: None }))
    } else if is_text(word, "released") {
        Some(Outcome::Released)
    } else if is_text(word, "modified") {
        Some(Outcome::Modified(Modified {
            delivery_failed: None,
            undeliverable_here: None,
            message_annotations: None,
        }))
    } else {
        None
    }
}

/// An outcome, or `-` for none.
pub fn optional_outcome_of(word: &[u8]) -> Result<Option<Outcome>, Unread>
    ensures { Reads (λ outcome. outcome) result (optional outcome_of word.now) }
{
    if is_text(word, "-") {
        return Ok(None);
    }
    match outcome_of(word) {
        Some(outcome) => Ok(Some(outcome)),
        None => Err(Unread::OutsideTable),
    }
}

/// The octets that hexadecimal digits spell.
fn octets_of(alloc: Global, word: &[u8]) -> Result<Vec<u8>, Unread>
    ensures { Reads (λ octets. octets.items) result (octets_of word.now) }
{
    match hex::decode(alloc, word) {
        Ok(octets) => Ok(octets),
        Err(FromHexError::OutOfMemory) => Err(Unread::NoMemory),
        Err(_) => Err(Unread::OutsideTable),
    }
}

/// The octets that at most 64 hexadecimal digits spell, at the front of a block, by their number.
fn short_octets_of(word: &[u8], block: &mut [u8; 32]) -> Option<usize>
    requires { length word.now ≤ 64 }
    ensures { MatchOption result (octets_of word.now ≡ None)
        (λ len. (len ≤ 32) × (octets_of word.now ≡ Some (take len block.new))) }
{
    let len = word.len() / 2;
    match hex::decode_to_slice(word, &mut block[..len]) {
        Ok(()) => Some(len),
        Err(_) => None,
    }
}

/// The id of a transaction, of 1 to 32 octets in at most 64 hexadecimal digits.
fn short_id_of(word: &[u8]) -> Result<TransactionId, Unread>
    requires { length word.now ≤ 64 }
    ensures { Reads (λ id. id) result (txn_id_of word.now) }
{
    let mut block = [0; 32];
    let Some(len) = short_octets_of(word, &mut block) else {
        return Err(Unread::OutsideTable);
    };
    if len == 0 {
        return Err(Unread::OutsideTable);
    }
    match TransactionId::new(&block[..len]) {
        Ok(id) => Ok(id),
        Err(_) => Err(Unread::OutsideTable),
    }
}

/// The id of a transaction, of 1 to 32 octets in hexadecimal digits.
pub fn txn_id_of(alloc: Global, word: &[u8]) -> Result<TransactionId, Unread>
    ensures { Reads (λ id. id) result (txn_id_of word.now) }
{
    if word.len() <= 64 {
        return short_id_of(word);
    }
    let octets = octets_of(alloc, word)?;
    if octets.is_empty() {
        return Err(Unread::OutsideTable);
    }
    match TransactionId::new(octets.as_slice()) {
        Ok(id) => Ok(id),
        Err(_) => Err(Unread::OutsideTable),
    }
}

/// The octets of a message in hexadecimal digits, or `-` for none.
pub fn payload_of(alloc: Global, word: &[u8]) -> Result<Payload, Unread>
    ensures { Reads (λ octets. octets) result (payload_of word.now) }
{
    if is_text(word, "-") {
        return Ok(Payload::new());
    }
    if word.len() <= 64 {
        let mut block = [0; 32];
        let Some(len) = short_octets_of(word, &mut block) else {
            return Err(Unread::OutsideTable);
        };
        if len == 0 {
            return Err(Unread::OutsideTable);
        }
        return Ok(Payload::from_slice(alloc, &block[..len])?);
    }
    let octets = octets_of(alloc, word)?;
    if octets.is_empty() {
        return Err(Unread::OutsideTable);
    }
    Ok(Payload::from_slice(alloc, octets.as_slice())?)
}

/// A name and the words after it.
pub fn name_at(words: Option<&[u8]>) -> Result<(&str, Option<&[u8]>), Unread>
    ensures { Reads (λ x. (x.0.now, words_left x.1)) result
        (next name_of (words_left words.entry)) }
{
    let (word, words) = word_at(words)?;
    Ok((name_of(word)?, words))
}

/// A number up to 4,294,967,295 and the words after it.
pub fn u32_at(words: Option<&[u8]>) -> Result<(u32, Option<&[u8]>), Unread>
    ensures { Reads (λ x. (x.0, words_left x.1)) result (next u32_of (words_left words.entry)) }
{
    let (word, words) = word_at(words)?;
    let Some(number) = u32_of(word) else {
        return Err(Unread::OutsideTable);
    };
    Ok((number, words))
}

/// A number up to 18,446,744,073,709,551,615 and the words after it.
#[inline(never)]
pub fn u64_at(words: Option<&[u8]>) -> Result<(u64, Option<&[u8]>), Unread>
    ensures { Reads (λ x. (x.0, words_left x.1)) result (next u64_of (words_left words.entry)) }
{
    let (word, words) = word_at(words)?;
    let Some(number) = number_of(word, u64::MAX) else {
        return Err(Unread::OutsideTable);
    };
    Ok((number, words))
}

/// A number up to 4,294,967,295 or `-`, and the words after it.
pub fn optional_u32_at(words: Option<&[u8]>) -> Result<(Option<u32>, Option<&[u8]>), Unread>
    ensures { Reads (λ x. (x.0, words_left x.1)) result
        (next (optional u32_of) (words_left words.entry)) }
{
    let (word, words) = word_at(words)?;
    if is_text(word, "-") {
        return Ok((None, words));
    }
    let Some(number) = u32_of(word) else {
        return Err(Unread::OutsideTable);
    };
    Ok((Some(number), words))
}

/// `true` or `false`, and the words after it.
pub fn bool_at(words: Option<&[u8]>) -> Result<(bool, Option<&[u8]>), Unread>
    ensures { Reads (λ x. (x.0, words_left x.1)) result (next bool_of (words_left words.entry)) }
{
    let (word, words) = word_at(words)?;
    let Some(flag) = bool_of(word) else {
        return Err(Unread::OutsideTable);
    };
    Ok((flag, words))
}

/// `true`, `false` or `-`, and the words after it.
pub fn optional_bool_at(words: Option<&[u8]>) -> Result<(Option<bool>, Option<&[u8]>), Unread>
    ensures { Reads (λ x. (x.0, words_left x.1)) result
        (next (optional bool_of) (words_left words.entry)) }
{
    let (word, words) = word_at(words)?;
    if is_text(word, "-") {
        return Ok((None, words));
    }
    let Some(flag) = bool_of(word) else {
        return Err(Unread::OutsideTable);
    };
    Ok((Some(flag), words))
}

/// A role and the words after it.
pub fn role_at(words: Option<&[u8]>) -> Result<(Role, Option<&[u8]>), Unread>
    ensures { Reads (λ x. (x.0, words_left x.1)) result (next role_of (words_left words.entry)) }
{
    let (word, words) = word_at(words)?;
    let Some(role) = role_of(word) else {
        return Err(Unread::OutsideTable);
    };
    Ok((role, words))
}

/// The words `H ID SET`, and those after them.
#[tactic(auto, unfolding(crate::specs::Lines::delivery_at))]
pub fn delivery_at(words: Option<&[u8]>) -> Result<(Delivery, Option<&[u8]>), Unread>
    ensures { Reads (λ x. (x.0, words_left x.1)) result (delivery_at (words_left words.entry)) }
{
    let (handle, words) = u32_at(words)?;
    let (delivery_id, words) = optional_u32_at(words)?;
    let (settled, words) = optional_bool_at(words)?;
    let delivery = Delivery {
        handle,
        delivery_id,
        settled,
    };
    Ok((delivery, words))
}

/// The words `ROLE FIRST LAST BOOL`, and those after them.
#[tactic(auto, unfolding(crate::specs::Lines::deliveries_at))]
pub fn deliveries_at(words: Option<&[u8]>) -> Result<(Deliveries, Option<&[u8]>), Unread>
    ensures { Reads (λ x. (x.0, words_left x.1)) result (deliveries_at (words_left words.entry)) }
{
    let (role, words) = role_at(words)?;
    let (first, words) = u32_at(words)?;
    let (last, words) = optional_u32_at(words)?;
    let (settled, words) = bool_at(words)?;
    let deliveries = Deliveries {
        role,
        first,
        last,
        settled,
    };
    Ok((deliveries, words))
}
