//! `decode`, from the whole message down to the fields.

ghost use Rattle.std.specs.Prelude.{◌≡◌, [], ◌∷◌, MatchResult, option_map, option_copied, IsTrue, ◌↔◌};
ghost use Rattle.amqp_txn_codec.specs.declared.message.ControlMessageBody.{ControlMessageBody};
ghost use Rattle.amqp_txn_codec.specs.Messages.{SpellsMessage};
ghost use Rattle.amqp_txn_codec.specs.Reading.{message_of};
ghost use Rattle.amqp_txn_codec.specs.Sections.{body, footer};
ghost use Rattle.amqp_txn_codec.specs.Walks.{Finds, AfterDescriptor, SkipsTo, FoundKind, FoundBody, GivesMessage, WalksTo};

use crate::fields::{after_list, declared, discharged, same_octets};
use crate::message::{ControlMessageBody, Declare, Discharge, NotControl};
use crate::section::{after_descriptor, after_leading, after_optional, after_prefix};

/// The message that the octets spell: sections that are skipped, the amqp-value section with the
/// list of a declare or of a discharge, and a footer or none.
///
/// Parts 1 (encodings), 3 (section 3.2, message format) and 4 (section 4.5, coordination) of the
/// standard. It takes no memory, and its stack is constant however deep values lie within values.
/// It goes over the octets once, whatever they are: a section is walked only behind its own
/// descriptor, and no two sections of the table share one.
///
/// # Errors
///
/// `NotControl` exactly where the octets spell no message.
pub fn decode(bytes: &[u8]) -> Result<ControlMessageBody, NotControl>
    // The message is the one that the octets spell by the grammar.
    ensures exact { (message : ControlMessageBody)
        → (SpellsMessage bytes.now message ↔ (result ≡ Ok message)) }
    // The same by the function that contracts above speak of.
    ensures message { MatchResult result
        (λ m. message_of bytes.now ≡ Some m) (λ _. message_of bytes.now ≡ None) }
{
    match message_in(bytes) {
        Some(message) => Ok(message),
        None => Err(NotControl),
    }
}

fn message_in(bytes: &[u8]) -> Option<ControlMessageBody>
    ensures { Finds (WalksTo bytes.now) result }
{
    let start = after_leading(bytes);
    let (declares, count, fields, end) = after_body(start)?;
    if !is_end(end) {
        return None;
    }
    message_from(declares, count, fields)
}

/// Whether the body declares, the count and the octets of its fields, and what follows it.
fn after_body(octets: &[u8]) -> Option<(bool, u32, &[u8], &[u8])>
    ensures { Finds (FoundBody octets.now)
        (option_map (λ found. (found.0, found.1, found.2.now, found.3.now)) result) }
{
    let inner = after_prefix(&[0], octets)?;
    let value = after_amqp_value(inner)?;
    let described = after_prefix(&[0], value)?;
    let (declares, list) = after_kind(described)?;
    let (count, fields, rest) = after_list(list)?;
    Some((declares, count, fields, rest))
}

fn after_amqp_value(octets: &[u8]) -> Option<&[u8]>
    ensures { Finds (AfterDescriptor body.0 body.1 octets.now) (option_copied result) }
{
    after_descriptor(0x77, b"amqp:amqp-value:*", octets)
}

/// Whether the descriptor is that of a declare, or else that of a discharge, and what follows it.
fn after_kind(octets: &[u8]) -> Option<(bool, &[u8])>
    ensures { Finds (FoundKind octets.now)
        (option_map (λ found. (found.0, found.1.now)) result) }
{
    if let Some(list) = after_descriptor(0x31, b"amqp:declare:list", octets) {
        return Some((true, list));
    }
    let list = after_descriptor(0x32, b"amqp:discharge:list", octets)?;
    Some((false, list))
}

/// A footer, or nothing.
fn is_end(octets: &[u8]) -> bool
    ensures { IsTrue result ↔ SkipsTo (footer ∷ []) octets.now [] }
{
    same_octets(after_optional(0x78, b"amqp:footer:map", octets), b"")
}

fn message_from(declares: bool, count: u32, fields: &[u8]) -> Option<ControlMessageBody>
    ensures { Finds (GivesMessage declares count fields.now) result }
{
    if declares {
        let global_id = declared(count, fields)?;
        Some(ControlMessageBody::Declare(Declare { global_id }))
    } else {
        let (txn_id, fail) = discharged(count, fields)?;
        Some(ControlMessageBody::Discharge(Discharge { txn_id, fail }))
    }
}
