//! Words that several programs have: ids, lists of calls, and counts.

ghost use Rattle.std.specs.Prelude.{◌≡◌, ◌≤◌, ◌<◌, ◌==◌, length, IfOk, IfSome};
ghost use Rattle.std.specs.List.{slice_split};
ghost use Rattle.txn_program_lines.specs.LineWords.{between};
ghost use Rattle.txn_program_edges.specs.Words.{AreSome, call_of, count_of, each, id_of, call_list_of, id_list_of, id_words, list_words, seed_words};

use amqp_txn_types::{CallNumbers, Items, NoMemory, Text, TransactionId};
use hex::FromHexError;
use std::alloc::Global;
use txn_program_lines::{cut_at, is_text, number_of};

/// Ids, in order.
pub type TransactionIds = Items<TransactionId>;

/// The ids that declares draw.
#[derive(Debug, Drop, PartialEq)]
pub enum Ids {
    /// `ID ID ..`: 1 to 64 ids of 16 octets each, of which the last one repeats.
    Listed(TransactionIds),
    /// `--seed N`: the version 4 uuids of the generator that this number seeds.
    Seeded(u64),
}

/// The ids that the words name: a seed's, or those of a list.
pub fn id_words(alloc: Global, words: &[Text]) -> Result<Option<Ids>, NoMemory>
    ensures ids { IfOk result (λ ids. ids ≡ id_words words.now) }
    ensures some { IfOk result (λ ids. IfSome ids AreSome) }
{
    match words {
        [word, others @ ..] if is_text(word.as_str().as_bytes(), "--seed") => {
            Ok(seed_words(others))
        }
        _ => list_words(alloc, words),
    }
}

fn seed_words(words: &[Text]) -> Option<Ids>
    ensures ids { result ≡ seed_words words.now }
    ensures some { IfSome result AreSome }
{
    let [word] = words else {
        return None;
    };
    let Some(seed) = number_of(word.as_str().as_bytes(), u64::MAX) else {
        return None;
    };
    Some(Ids::Seeded(seed))
}

/// Words that list ids: 1 to 64 of them; `None` where they are anything else.
pub fn id_list_of(alloc: Global, words: &[Text]) -> Result<Option<TransactionIds>, NoMemory>
    ensures ids { IfOk result (λ ids. ids ≡ id_list_of words.now) }
    ensures some { IfOk result (λ ids. IfSome ids (λ ids. 0 < length ids)) }
{
    let Some(ids) = ids_of(alloc, words)? else {
        return Ok(None);
    };
    if ids.is_empty() || ids.len() > 64 {
        return Ok(None);
    }
    Ok(Some(ids))
}

fn list_words(alloc: Global, words: &[Text]) -> Result<Option<Ids>, NoMemory>
    ensures ids { IfOk result (λ ids. ids ≡ list_words words.now) }
    ensures some { IfOk result (λ ids. IfSome ids AreSome) }
{
    match id_list_of(alloc, words)? {
        Some(ids) => Ok(Some(Ids::Listed(ids))),
        None => Ok(None),
    }
}

/// The ids of the words, `None` where one of them is no ID.
fn ids_of(alloc: Global, words: &[Text]) -> Result<Option<TransactionIds>, NoMemory>
    ensures { IfOk result (λ ids. ids ≡ each id_of words.now) }
{
    let mut ids = TransactionIds::new(alloc);
    for word in words {
        let Some(id) = id_of(alloc, word.as_str().as_bytes())? else {
            return Ok(None);
        };
        match ids.push(id) {
            Ok(()) => {}
            Err((_, error)) => return Err(error),
        }
    }
    Ok(Some(ids))
}

/// The id that 32 hexadecimal digits spell, `None` where the word is anything else.
pub fn id_of(alloc: Global, word: &[u8]) -> Result<Option<TransactionId>, NoMemory>
    ensures { IfOk result (λ id. id ≡ id_of word.now) }
{
    match hex::decode(alloc, word) {
        Ok(octets) => Ok(id_of_sixteen(octets.as_slice())),
        Err(FromHexError::OutOfMemory) => Err(NoMemory),
        Err(_) => Ok(None),
    }
}

fn id_of_sixteen(octets: &[u8]) -> Option<TransactionId>
    ensures { result ≡ between 16 16 octets.now }
{
    if octets.len() < 16 || octets.len() > 16 {
        return None;
    }
    match TransactionId::new(octets) {
        Ok(id) => Some(id),
        Err(_) => unreachable!(),
    }
}

/// The numbers of a LIST, `None` where the word is no LIST.
pub fn call_list_of(alloc: Global, word: &[u8]) -> Result<Option<CallNumbers>, NoMemory>
    ensures { IfOk result (λ calls. calls ≡ call_list_of word.now) }
{
    let Some(calls) = calls_of(alloc, word)? else {
        return Ok(None);
    };
    if calls.is_empty() || calls.len() > 64 {
        return Ok(None);
    }
    Ok(Some(calls))
}

/// The numbers that commas part, `None` where a piece is no number of a LIST.
fn calls_of(alloc: Global, word: &[u8]) -> Result<Option<CallNumbers>, NoMemory>
    ensures { IfOk result (λ calls. calls ≡ each call_of (slice_split (λ b. b == 44) word.now)) }
{
    let mut calls = CallNumbers::new(alloc);
    let mut rest = Some(word);
    while let Some(octets) = rest {
        let (piece, after) = cut_at(octets, b',');
        let Some(call) = count_of(piece, u64::MAX) else {
            return Ok(None);
        };
        match calls.push(call) {
            Ok(()) => {}
            Err((_, error)) => return Err(error),
        }
        rest = after;
    }
    Ok(Some(calls))
}

/// A decimal number from 1 up to the limit, without leading zeros.
pub fn count_of(word: &[u8], limit: u64) -> Option<u64>
    ensures count { result ≡ count_of limit word.now }
    ensures within { IfSome result (λ count. (1 ≤ count) × (count ≤ limit)) }
{
    match number_of(word, limit) {
        Some(0) | None => None,
        found => found,
    }
}
