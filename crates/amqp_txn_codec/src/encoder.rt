//! The canonical spelling of a message.

ghost use Rattle.std.specs.Prelude.{◌≡◌, ◌+◌, ◌≤◌, ◌++◌, length, take, drop, IfOk};
ghost use Rattle.amqp_txn_codec.specs.Canon.{canon, with_id, IsWritten};
ghost use Rattle.amqp_txn_codec.specs.Reading.{message_of};

use crate::message::ControlMessageBody;
use amqp_txn_types::{NoMemory, Payload, TransactionId};
use std::alloc::Global;

/// Writes the octets at `at`, and gives the place behind them.
fn append(out: &mut [u8], at: usize, octets: &[u8]) -> usize
    requires { at + length octets.now ≤ length out.old }
    ensures place { result ≡ at + length octets.now }
    ensures after { out.new
        ≡ take at out.old ++ (octets.now ++ drop (at + length octets.now) out.old) }
{
    let end = at + octets.len();
    out[at..end].copy_from_slice(octets);
    end
}

/// Writes a body whose list is an id and the field behind it, if any.
fn put_id(out: &mut [u8; 64], code: u8, count: u8, id: &TransactionId, tail: &[u8]) -> usize
    requires { length tail.now ≤ 1 }
    ensures len { result ≡ length (with_id code count id.now tail.now) }
    ensures short { result ≤ 44 }
    ensures written { IsWritten (with_id code count id.now tail.now) out.old out.new }
    ensures fits { length id.now ≤ 32 }
{
    let octets = id.as_ref();
    let size = octets.len() as u8;
    let fields = size + tail.len() as u8 + 3;
    let at = append(
        out,
        0,
        &[
            0, 0x53, 0x77, 0, 0x53, code, 0xc0, fields, count, 0xa0, size,
        ],
    );
    let at = append(out, at, octets);
    append(out, at, tail)
}

impl ControlMessageBody {
    /// Writes the canonical spelling at the front of `out`, and gives its length. The rest of
    /// `out` stays. It takes no memory.
    ///
    /// The canonical spelling has no section but the body, and descriptors by the number in one
    /// octet. It has at most 44 octets.
    #[tactic(auto, unfolding(crate::specs::Canon::canon_declare, crate::specs::Canon::canon_discharge))]
    pub fn encode_into(&self, out: &mut [u8; 64]) -> usize
        ensures len { result ≡ length (canon self.now) }
        ensures short { result ≤ 44 }
        ensures written { IsWritten (canon self.now) out.old out.new }
        // What is written is read as this message.
        ensures read { message_of (canon self.now) ≡ Some self.now }
    {
        match self {
            ControlMessageBody::Declare(declare) => match &declare.global_id {
                None => append(out, 0, b"\x00\x53\x77\x00\x53\x31\x45"),
                Some(id) => put_id(out, 0x31, 1, id, b""),
            },
            ControlMessageBody::Discharge(discharge) => match discharge.fail {
                None => put_id(out, 0x32, 1, &discharge.txn_id, b""),
                Some(true) => put_id(out, 0x32, 2, &discharge.txn_id, b"\x41"),
                Some(false) => put_id(out, 0x32, 2, &discharge.txn_id, b"\x42"),
            },
        }
    }

    /// The canonical spelling as a payload, which is read as this message.
    ///
    /// # Errors
    ///
    /// `NoMemory`: the payload can't be allocated.
    pub fn encode(&self, alloc: Global) -> Result<Payload, NoMemory>
        ensures text { IfOk result (λ payload. payload ≡ canon self.now) }
        ensures read { IfOk result (λ payload. message_of payload ≡ Some self.now) }
    {
        let mut out = [0; 64];
        let len = self.encode_into(&mut out);
        Payload::from_slice(alloc, &out[..len])
    }
}
