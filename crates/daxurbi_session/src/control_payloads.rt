//! Control messages as octets, without a session.

ghost use Rattle.std.specs.Prelude.{◌≡◌, ◌≤◌, Some, length};
ghost use Rattle.std.specs.Option.{option_map};
ghost use Rattle.amqp_txn_codec.specs.Canon.{IsWritten, canon};
ghost use Rattle.amqp_txn_codec.specs.Reading.{message_of};
ghost use Rattle.daxurbi_session.specs.Payloads.{discharge_kind, discharge_of, kind_and_id, message_of_kind};

use amqp_txn_codec::{ControlMessageBody, Declare, Discharge, decode};
use amqp_txn_types::TransactionId;

/// The kinds of control messages.
#[derive(Clone, Copy, Debug, PartialEq, Eq)]
pub enum MessageKind {
    /// A declare without a global id.
    Declare,
    /// A declare with a global id.
    DeclareGlobal,
    /// A discharge without `fail`, which commits.
    Discharge,
    /// A discharge with `fail` false, which commits.
    Commit,
    /// A discharge with `fail` true, which rolls back.
    Rollback,
}

fn discharge(txn_id: TransactionId, fail: Option<bool>) -> ControlMessageBody
    ensures { result ≡ discharge_of txn_id fail }
{
    ControlMessageBody::Discharge(Discharge { txn_id, fail })
}

/// The message of a kind, with its id where it has one.
fn message_of_kind(kind: MessageKind, id: TransactionId) -> ControlMessageBody
    ensures { result ≡ message_of_kind kind id }
{
    match kind {
        MessageKind::Declare => ControlMessageBody::Declare(Declare { global_id: None }),
        MessageKind::DeclareGlobal => ControlMessageBody::Declare(Declare {
            global_id: Some(id),
        }),
        MessageKind::Discharge => discharge(id, None),
        MessageKind::Commit => discharge(id, Some(false)),
        MessageKind::Rollback => discharge(id, Some(true)),
    }
}

/// Writes the payload of a message of this kind at the front, and says how long it is, at most 44.
/// The id is that of the message, where it has one.
pub fn payload_of(kind: MessageKind, id: TransactionId, out: &mut [u8; 64]) -> usize
    ensures len { result ≡ length (canon (message_of_kind kind id)) }
    ensures short { result ≤ 44 }
    ensures written { IsWritten (canon (message_of_kind kind id)) out.old out.new }
    ensures read { message_of (canon (message_of_kind kind id)) ≡ Some (message_of_kind kind id) }
{
    message_of_kind(kind, id).encode_into(out)
}

/// The kind of a discharge.
fn kind_of_discharge(fail: Option<bool>) -> MessageKind
    ensures { result ≡ discharge_kind fail }
{
    match fail {
        None => MessageKind::Discharge,
        Some(false) => MessageKind::Commit,
        Some(true) => MessageKind::Rollback,
    }
}

/// The kind and the id of the message that octets spell, where they spell one; a declare without a
/// global id has no id.
pub fn message_in(payload: &[u8]) -> Option<(MessageKind, Option<TransactionId>)>
    ensures { result ≡ option_map kind_and_id (message_of payload.now) }
{
    match decode(payload) {
        Err(_) => None,
        Ok(ControlMessageBody::Declare(Declare { global_id: None })) => {
            Some((MessageKind::Declare, None))
        }
        Ok(
            ControlMessageBody::Declare(
                Declare {
                    global_id: Some(id),
                },
            ),
        ) => { Some((MessageKind::DeclareGlobal, Some(id))) }
        Ok(ControlMessageBody::Discharge(Discharge { txn_id, fail })) => {
            Some((kind_of_discharge(fail), Some(txn_id)))
        }
    }
}
