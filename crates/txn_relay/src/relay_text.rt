//! The text of a relay.

ghost use Rattle.std.specs.Prelude.{◌≡◌, ◌++◌, string_bytes, IfOk, OnOk};
ghost use Rattle.txn_relay.specs.RelayText.{queue_text, relay_text};

use crate::moves::{FROM_NAME, TO_NAME};
use crate::relay::Relay;
use amqp_txn_types::NoMemory;
use std::alloc::Global;
use txn_broker_queues::Message;
use txn_broker_text::put_messages;
use txn_program_parties::put_stop_or_none;
use txn_program_report::{put, put_count};

/// The two queues with their messages, how many transactions heard Committed, how many events were
/// skipped, and why the session stopped. The only error is out of memory.
#[tactic(auto, unfolding(crate::specs::RelayText::relay_text))]
pub(crate) fn relay_string(alloc: Global, relay: &Relay, skipped: usize) -> Result<String, NoMemory>
    ensures { IfOk result (λ text. string_bytes text ≡ relay_text relay.now skipped) }
{
    let mut out = String::new(alloc);
    let from = relay.from_queue()?;
    put_queue(alloc, &mut out, FROM_NAME, from.as_slice())?;
    let to = relay.to_queue()?;
    put_queue(alloc, &mut out, TO_NAME, to.as_slice())?;
    put_count(&mut out, "heard ", relay.committed() as usize)?;
    put_count(&mut out, "skipped ", skipped)?;
    put_stop_or_none(&mut out, relay.stop())?;
    Ok(out)
}

/// Puts the lines of a queue at the end: `NAME N`, and those of its messages.
fn put_queue(
    alloc: Global,
    out: &mut String,
    name: &str,
    messages: &[Message],
) -> Result<(), NoMemory>
    ensures { OnOk result (string_bytes out.new
        ≡ string_bytes out.old ++ queue_text name.now messages.now) }
{
    put(out, name)?;
    put_count(out, " ", messages.len())?;
    put_messages(alloc, out, messages)
}
