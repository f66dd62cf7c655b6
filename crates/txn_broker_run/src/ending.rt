//! The run of a process.

ghost use Rattle.txn_broker_run.specs.Serving.{EndsBroker};
ghost use Rattle.txn_program_edges.specs.Reading.{source_of};
ghost use Rattle.txn_program_edges.specs.Writing.{sink_of};

use crate::runs::{BrokerRan, end, run_broker};
use amqp_below_streams::{ByteSink, ByteSource};
use amqp_txn_types::{Items, Text};
use std::alloc::Global;
use txn_broker_queues::Broker;
use txn_program_edges::{Fault, end_at_fault};

/// Does what the arguments of a process ask for, and returns the run: the process ends with its
/// status. Where there are no arguments, the text of why is written.
pub fn end_broker<I: ByteSource, O: ByteSink>(
    alloc: Global,
    arguments: Result<Items<Text>, Fault>,
    input: &mut I,
    output: &mut O,
) -> BrokerRan
    ensures { EndsBroker arguments
        (source_of I.rest I.faults input.old) (source_of I.rest I.faults input.new)
        (sink_of O.written O.faults O.spare output.old)
        (sink_of O.written O.faults O.spare output.new) result }
{
    match arguments {
        Ok(arguments) => {
            let ran = run_broker(alloc, arguments.as_slice(), input, output);
            drop(arguments);
            ran
        }
        Err(fault) => end(end_at_fault(fault, output), None, Broker::new(alloc)),
    }
}
