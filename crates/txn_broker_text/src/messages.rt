//! The lines of messages.

ghost use Rattle.std.specs.Prelude.{◌≡◌, ◌++◌, string_bytes, OnOk};
ghost use Rattle.std.specs.List.{flat_map};
ghost use Rattle.txn_broker_text.specs.Lines.{message_line};

use amqp_txn_types::NoMemory;
use std::alloc::Global;
use txn_broker_queues::Message;
use txn_program_report::{put, put_number, put_payload};

/// Puts the lines of some messages at the end. The only error is out of memory.
pub fn put_messages(alloc: Global, out: &mut String, messages: &[Message]) -> Result<(), NoMemory>
    ensures { OnOk result (string_bytes out.new
        ≡ string_bytes out.old ++ flat_map message_line messages.now) }
{
    for message in messages {
        put_message(alloc, out, message)?;
    }
    Ok(())
}

/// Puts the line `message NUMBER PAYLOAD` at the end.
fn put_message(alloc: Global, out: &mut String, message: &Message) -> Result<(), NoMemory>
    ensures { OnOk result (string_bytes out.new
        ≡ string_bytes out.old ++ message_line message.now) }
{
    put(out, "message ")?;
    put_number(out, u64::from(message.number))?;
    put_payload(alloc, out, &message.payload)?;
    put(out, "\n")
}
