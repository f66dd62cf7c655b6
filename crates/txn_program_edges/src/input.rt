//! The octets of an input, up to a limit.

ghost use Rattle.std.specs.Prelude.{◌≤◌, ◌<◌, length, take, IfOk, OnErr};
ghost use Rattle.amqp_txn_types.specs.Counts.{Rose};
ghost use Rattle.txn_program_edges.specs.Reading.{Finds, IsEndAt, IsRead, source_of};

use amqp_below_streams::{ByteSource, Failed};
use amqp_txn_types::{Binary, NoMemory};
use std::alloc::Global;

/// What the reading of an input found.
#[derive(Debug, Drop, PartialEq)]
pub enum Reading {
    /// The source failed.
    Fault,
    /// It has more octets than the limit; that many and one more were read.
    TooLong,
    /// These are all of its octets.
    Whole(Binary),
}

/// Reads the input to its end, or to one octet past the limit. The only error is out of memory.
pub fn read_up_to<I: ByteSource>(
    alloc: Global,
    input: &mut I,
    limit: usize,
) -> Result<Reading, NoMemory>
    ensures found { IfOk result (Finds limit (source_of I.rest I.faults input.old)
        (source_of I.rest I.faults input.new)) }
{
    let mut octets = Vec::new(alloc);
    let mut chunk = [0; 4096];
    while octets.len() <= limit {
        let room = chunk.len().min((limit - octets.len()).saturating_add(1));
        let Ok(count) = next_octets(input, &mut chunk[..room]) else {
            return Ok(Reading::Fault);
        };
        if count == 0 {
            return Ok(Reading::Whole(Binary::from_vec(octets)));
        }
        octets.extend_from_slice(&chunk[..count])?;
    }
    Ok(Reading::TooLong)
}

/// The next octets, which go to the front of the buffer; 0 at the end.
fn next_octets<I: ByteSource>(input: &mut I, buffer: &mut [u8]) -> Result<usize, Failed>
    requires { 0 < length buffer.old }
    ensures within { IfOk result (λ count. count ≤ length buffer.old) }
    ensures octets { IfOk result (λ count.
        IsRead (I.rest input.old) (take count buffer.new) (I.rest input.new)) }
    ensures end { IfOk result (IsEndAt (I.rest input.old)) }
    ensures later { I.faults input.old ≤ I.faults input.new }
    ensures cause { OnErr result (Rose (I.faults input.old) (I.faults input.new)) }
{
    input.read(buffer)
}
