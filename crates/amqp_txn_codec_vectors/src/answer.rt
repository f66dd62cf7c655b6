//! The answer that a payload gets, in the words of the rows.

ghost use Rattle.std.specs.Prelude.{◌≡◌, IfOk, string_bytes};
ghost use Rattle.hex.specs.Hex.{encode_lower};
ghost use Rattle.amqp_txn_codec.specs.Reading.{message_of};
ghost use Rattle.amqp_txn_codec_vectors.specs.Answers.{answer_words, declare_words, fail_word};

use amqp_txn_codec::{ControlMessageBody, decode};
use amqp_txn_types::TransactionId;
use std::alloc::{AllocError, Global};

/// The answer that `decode` gives to these octets: `declare`, `declare-global ID`,
/// `discharge ID FAIL` or `not-control`, with ids in hexadecimal digits.
#[tactic(auto, unfolding(crate::specs::Answers::answer_words))]
pub fn answer_of(alloc: Global, octets: &[u8]) -> Result<String, AllocError>
    ensures { IfOk result (λ text. string_bytes text ≡ answer_words (message_of octets.now)) }
{
    match decode(octets) {
        Ok(ControlMessageBody::Declare(declare)) => declare_words(alloc, &declare.global_id),
        Ok(ControlMessageBody::Discharge(discharge)) => {
            let id = digits_of(alloc, &discharge.txn_id)?;
            let fail = fail_word(discharge.fail);
            format!(in alloc; "discharge {id} {fail}")
        }
        Err(_) => String::from_str(alloc, "not-control"),
    }
}

fn declare_words(alloc: Global, global_id: &Option<TransactionId>) -> Result<String, AllocError>
    ensures { IfOk result (λ text. string_bytes text ≡ declare_words global_id.now) }
{
    match global_id {
        None => String::from_str(alloc, "declare"),
        Some(id) => {
            let id = digits_of(alloc, id)?;
            format!(in alloc; "declare-global {id}")
        }
    }
}

fn digits_of(alloc: Global, id: &TransactionId) -> Result<String, AllocError>
    ensures { IfOk result (λ text. string_bytes text ≡ encode_lower id.now) }
{
    hex::encode(alloc, id.as_ref())
}

fn fail_word(fail: Option<bool>) -> &'static str
    ensures { result.now ≡ fail_word fail }
{
    match fail {
        None => "none",
        Some(true) => "true",
        Some(false) => "false",
    }
}
