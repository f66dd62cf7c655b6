//! The report of a run over a broker.

ghost use Rattle.std.specs.Prelude.{◌≡◌, ◌++◌, string_bytes, IfOk, OnOk};
ghost use Rattle.txn_broker_queues.specs.Taking.{taken_of};
ghost use Rattle.txn_broker_run.specs.Reporting.{broker_text, queue_text, queues_text};

use amqp_below_layer::Exchanges;
use amqp_resource_record::Driven;
use amqp_txn_types::{NoMemory, Text};
use std::alloc::Global;
use txn_broker_queues::{Broker, Message};
use txn_broker_text::put_messages;
use txn_program_report::{put, put_number, report_string};

/// The text of a report: the lines of each entry, the stop, how many frames of the stopping step
/// were taken, and the lines of each queue. The only error is out of memory.
pub fn broker_report(alloc: Global, driven: &Driven, broker: &Broker) -> Result<String, NoMemory>
    ensures { IfOk result (λ text. string_bytes text
        ≡ broker_text (taken_of broker.now) driven.now) }
{
    let mut out = report_string(alloc, driven, &Exchanges::new(alloc))?;
    put_queues(alloc, &mut out, broker)?;
    Ok(out)
}

/// Puts the lines of the queues at the end, by first attach.
fn put_queues(alloc: Global, out: &mut String, broker: &Broker) -> Result<(), NoMemory>
    ensures { OnOk result (string_bytes out.new
        ≡ string_bytes out.old ++ queues_text (taken_of broker.now)) }
{
    for index in 0..broker.queue_count() {
        let Some(name) = broker.queue_name(index) else {
            unreachable!()
        };
        let Some(messages) = broker.queue(name)? else {
            unreachable!()
        };
        put_queue(alloc, out, name, messages.as_slice())?;
    }
    Ok(())
}

/// Puts the lines of a queue at the end: `queue NAME N`, and those of its messages.
fn put_queue(
    alloc: Global,
    out: &mut String,
    name: &Text,
    messages: &[Message],
) -> Result<(), NoMemory>
    ensures { OnOk result (string_bytes out.new
        ≡ string_bytes out.old ++ queue_text name.now messages.now) }
{
    put(out, "queue ")?;
    put(out, name.as_str())?;
    put(out, " ")?;
    put_number(out, messages.len() as u64)?;
    put(out, "\n")?;
    put_messages(alloc, out, messages)
}
