//! The words of a report, each by its table, and the ends of texts that they are put on.

ghost use Rattle.std.specs.Prelude.{◌≡◌, ◌≤◌, ◌++◌, ◌∷◌, decimal, length, string_bytes, IfSome, OnOk};
ghost use Rattle.hex.specs.Hex.{encode_lower};
ghost use Rattle.txn_program_report.specs.Report.{bool_word, error_word, handle_word, line, number_word, optional_outcome_word, optional_state_word, outcome_word, payload_word, reject_words, role_word, settled_word, state_word, stop_word};

use amqp_resource_record::{RejectText, StopCode};
use amqp_txn_types::{
    AsOctets, DeliveryState, Handle, NoMemory, Outcome, Payload, Role, TransactionError,
    TransactionId,
};
use std::alloc::Global;

/// Puts the text at the end.
#[inline(always)]
pub fn put(out: &mut String, text: &str) -> Result<(), NoMemory>
    ensures { OnOk result (string_bytes out.new ≡ string_bytes out.old ++ text.now) }
{
    out.push_str(text)?;
    Ok(())
}

/// Puts a space and the text at the end.
#[inline(always)]
pub fn put_word(out: &mut String, word: &str) -> Result<(), NoMemory>
    ensures { OnOk result (string_bytes out.new ≡ string_bytes out.old ++ 32 ∷ word.now) }
{
    out.push_str(" ")?;
    out.push_str(word)?;
    Ok(())
}

/// Puts the number at the end.
pub fn put_number(out: &mut String, number: u64) -> Result<(), NoMemory>
    ensures { OnOk result (string_bytes out.new ≡ string_bytes out.old ++ decimal number) }
{
    write!(out, "{number}")?;
    Ok(())
}

/// Puts the line of a count at the end: its name, a space with it, and the number.
pub fn put_count(out: &mut String, name: &str, count: usize) -> Result<(), NoMemory>
    ensures { OnOk result (string_bytes out.new
        ≡ string_bytes out.old ++ line (name.now ++ decimal count)) }
{
    put(out, name)?;
    put_number(out, count as u64)?;
    put(out, "\n")
}

/// Puts a space and the number at the end.
pub fn put_number_word(out: &mut String, number: u32) -> Result<(), NoMemory>
    ensures { OnOk result (string_bytes out.new ≡ string_bytes out.old ++ 32 ∷ decimal number) }
{
    put(out, " ")?;
    put_number(out, u64::from(number))
}

/// Puts a space and the number, or `-` for none, at the end.
#[inline(always)]
pub fn put_optional_number(out: &mut String, number: Option<u32>) -> Result<(), NoMemory>
    ensures { OnOk result (string_bytes out.new ≡ string_bytes out.old ++ 32 ∷ number_word number) }
{
    match number {
        None => put_word(out, "-"),
        Some(number) => put_number_word(out, number),
    }
}

/// Puts a space and the handle, or `-` for none, at the end.
#[inline(always)]
pub fn put_optional_handle(out: &mut String, handle: Option<Handle>) -> Result<(), NoMemory>
    ensures { OnOk result (string_bytes out.new ≡ string_bytes out.old ++ 32 ∷ handle_word handle) }
{
    match handle {
        None => put_word(out, "-"),
        Some(handle) => put_number_word(out, handle.0),
    }
}

/// Puts the octets in lower case hexadecimal digits at the end.
pub fn put_octets(alloc: Global, out: &mut String, octets: &[u8]) -> Result<(), NoMemory>
    ensures { OnOk result (string_bytes out.new ≡ string_bytes out.old ++ encode_lower octets.now) }
{
    if octets.len() <= 32 {
        let mut digits = [0; 64];
        if let Some(text) = short_digits(octets, &mut digits) {
            return put(out, text);
        }
    }
    let digits = hex::encode(alloc, octets)?;
    put(out, digits.as_str())
}

/// At most 32 octets in lower case hexadecimal digits, which stand in a block.
fn short_digits<'a>(octets: &[u8], digits: &'a mut [u8; 64]) -> Option<&'a str>
    requires { length octets.now ≤ 32 }
    ensures { IfSome result (λ text. text.now ≡ encode_lower octets.now) }
{
    let digits = &mut digits[..2 * octets.len()];
    hex::encode_to_slice(octets, digits).ok()?;
    str::from_utf8(digits).ok()
}

/// Puts the digits of an id at the end.
pub fn put_txn_id(alloc: Global, out: &mut String, id: TransactionId) -> Result<(), NoMemory>
    ensures { OnOk result (string_bytes out.new ≡ string_bytes out.old ++ encode_lower id) }
{
    put_octets(alloc, out, id.as_ref())
}

/// Puts a space and the digits of a payload, or `-` where it has no octets, at the end.
pub fn put_payload(alloc: Global, out: &mut String, payload: &Payload) -> Result<(), NoMemory>
    ensures { OnOk result (string_bytes out.new
        ≡ string_bytes out.old ++ 32 ∷ payload_word payload.now) }
{
    if payload.is_empty() {
        return put_word(out, "-");
    }
    put(out, " ")?;
    put_octets(alloc, out, payload.as_slice())
}

/// Puts a space and a delivery state, or `-` for none, at the end.
pub fn put_optional_state(
    alloc: Global,
    out: &mut String,
    state: &Option<DeliveryState>,
) -> Result<(), NoMemory>
    ensures { OnOk result (string_bytes out.new
        ≡ string_bytes out.old ++ 32 ∷ optional_state_word state.now) }
{
    put(out, " ")?;
    match state {
        None => put(out, "-"),
        Some(state) => put_state(alloc, out, state),
    }
}

fn put_state(alloc: Global, out: &mut String, state: &DeliveryState) -> Result<(), NoMemory>
    ensures { OnOk result (string_bytes out.new ≡ string_bytes out.old ++ state_word state.now) }
{
    match state {
        DeliveryState::Received { .. } => put(out, "received"),
        DeliveryState::Accepted => put(out, "accepted"),
        DeliveryState::Rejected(_) => put(out, "rejected"),
        DeliveryState::Released => put(out, "released"),
        DeliveryState::Modified(_) => put(out, "modified"),
        DeliveryState::Declared(declared) => {
            put(out, "declared:")?;
            put_txn_id(alloc, out, declared.txn_id)
        }
        DeliveryState::TransactionalState(under) => {
            put(out, "txn:")?;
            put_txn_id(alloc, out, under.txn_id)?;
            put(out, ":")?;
            put(out, optional_outcome_word(&under.outcome))
        }
    }
}

fn optional_outcome_word(outcome: &Option<Outcome>) -> &'static str
    ensures { result.now ≡ optional_outcome_word outcome.now }
{
    match outcome {
        None => "-",
        Some(outcome) => outcome_word(outcome),
    }
}

fn outcome_word(outcome: &Outcome) -> &'static str
    ensures { result.now ≡ outcome_word outcome.now }
{
    match outcome {
        Outcome::Accepted => "accepted",
        Outcome::Rejected(_) => "rejected",
        Outcome::Released => "released",
        Outcome::Modified(_) => "modified",
        Outcome::Declared(_) => "declared",
    }
}

pub fn bool_word(flag: bool) -> &'static str
    ensures { result.now ≡ bool_word flag }
{
    if flag { "true" } else { "false" }
}

pub fn settled_word(settled: Option<bool>) -> &'static str
    ensures { result.now ≡ settled_word settled }
{
    match settled {
        None => "-",
        Some(settled) => bool_word(settled),
    }
}

pub fn role_word(role: Role) -> &'static str
    ensures { result.now ≡ role_word role }
{
    match role {
        Role::Sender => "sender",
        Role::Receiver => "receiver",
    }
}

pub fn error_word(error: TransactionError) -> &'static str
    ensures { result.now ≡ error_word error }
{
    match error {
        TransactionError::UnknownId => "unknown-id",
        TransactionError::Rollback => "rollback",
        TransactionError::Timeout => "timeout",
    }
}

pub fn reject_words(text: RejectText) -> &'static str
    ensures { result.now ≡ reject_words text }
{
    match text {
        RejectText::Absent => "",
        RejectText::GlobalId => " global-id",
        RejectText::IdsRepeat => " ids-repeat",
    }
}

pub fn stop_word(code: StopCode) -> &'static str
    ensures { result.now ≡ stop_word code }
{
    match code {
        StopCode::Done => "done",
        StopCode::UnknownTxnId => "unknown-txn-id",
        StopCode::UnattachedHandle => "unattached-handle",
        StopCode::LinkNameNotFound => "link-name-not-found",
        StopCode::HandleInUse => "handle-in-use",
        StopCode::IllegalState => "illegal-state",
        StopCode::TransferToSender => "transfer-to-sender",
        StopCode::BelowConnectionStopped => "below-connection-stopped",
        StopCode::BelowRemoteEnded => "below-remote-ended",
        StopCode::BelowRemoteEndedWithError => "below-remote-ended-with-error",
        StopCode::BelowNoMemory => "below-no-memory",
        StopCode::Ended => "ended",
        StopCode::EndedWithError => "ended-with-error",
        StopCode::RemoteEnded => "remote-ended",
        StopCode::RemoteEndedWithError => "remote-ended-with-error",
        StopCode::ConnectionStopped => "connection-stopped",
        StopCode::NoMemory => "no-memory",
    }
}
