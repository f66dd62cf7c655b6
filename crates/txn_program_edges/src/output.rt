//! The text of an output.

ghost use Rattle.std.specs.Prelude.{◌≡◌, ◌≤◌, length, OnOk, OnErr};
ghost use Rattle.amqp_txn_types.specs.Counts.{Rose};
ghost use Rattle.amqp_txn_types.specs.Growing.{grown};
ghost use Rattle.txn_program_edges.specs.Writing.{EndsWith, Wrote, WroteFront};

use crate::status;
use amqp_below_streams::{ByteSink, Failed};

/// Appends the text, for which there is room. Where the sink fails, a front of it was appended.
pub fn write_all<O: ByteSink>(output: &mut O, text: &[u8]) -> Result<(), Failed>
    requires { length text.now ≤ O.spare output.old }
    ensures ok { OnOk result (O.written output.new ≡ grown (O.written output.old) text.now) }
    ensures front { OnErr result
        (WroteFront (O.written output.old) (O.written output.new) text.now) }
    ensures later { O.faults output.old ≤ O.faults output.new }
    ensures cause { OnErr result (Rose (O.faults output.old) (O.faults output.new)) }
{
    let mut rest = text;
    while !rest.is_empty() {
        let count = output.write(rest)?;
        rest = &rest[count..];
    }
    Ok(())
}

/// Writes the text of a status, for which room is made first, and returns the status that the
/// program then ends with: that one, or in its place [`status::NO_MEMORY`], where nothing is
/// written, or [`status::WRITE_FAULT`].
pub fn write_and_end<O: ByteSink>(status: u8, text: &[u8], output: &mut O) -> u8
    ensures status { EndsWith (O.faults output.old) (O.faults output.new) status result }
    ensures written { Wrote (O.written output.old) (O.written output.new) result text.now }
{
    if status == status::NO_MEMORY || output.reserve(text.len()).is_err() {
        return status::NO_MEMORY;
    }
    match write_all(output, text) {
        Ok(()) => status,
        Err(_) => status::WRITE_FAULT,
    }
}
