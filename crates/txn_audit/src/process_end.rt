//! The audit of a process.

ghost use Rattle.txn_program_edges.specs.Reading.{source_of};
ghost use Rattle.txn_program_edges.specs.Writing.{sink_of};
ghost use Rattle.txn_audit.specs.Auditing.{line_told};
ghost use Rattle.txn_audit.specs.Process.{EndsAudit};

use crate::audit_runs::{AuditRan, end, run_audit};
use amqp_below_streams::{ByteSink, ByteSource};
use amqp_txn_types::{Items, Text};
use std::alloc::Global;
use txn_program_edges::{Fault, end_at_fault};

/// Audits what the arguments of a process ask for: the process ends with the status. Where there
/// are no arguments, the text of why is written.
pub fn end_audit<I: ByteSource, O: ByteSink>(
    alloc: Global,
    arguments: Result<Items<Text>, Fault>,
    input: &mut I,
    output: &mut O,
) -> AuditRan
    ensures { EndsAudit arguments (source_of I.rest I.faults input.old)
        (source_of I.rest I.faults input.new) (sink_of O.written O.faults O.spare output.old)
        (sink_of O.written O.faults O.spare output.new) result.status
        (line_told result.why) }
{
    match arguments {
        Ok(arguments) => run_audit(alloc, arguments.as_slice(), input, output),
        Err(fault) => end(end_at_fault(fault, output)),
    }
}
