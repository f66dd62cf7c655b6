//! The top call: an audit over a source and a sink.

ghost use Rattle.std.specs.Prelude.{◌≡◌, ◌<◌, ◌+◌, None, Some, Ok, length, IfOk, IfSome, string_bytes};
ghost use Rattle.txn_program_edges.specs.declared.input.Reading.TheVariants as readings;
ghost use Rattle.txn_program_edges.specs.Reading.{source_of};
ghost use Rattle.txn_program_edges.specs.Writing.{EndsWith, Wrote, sink_of};
ghost use Rattle.txn_program_lines.specs.Cutting.{lines_of};
ghost use Rattle.txn_audit_fits.specs.Telling.{difference_text};
ghost use Rattle.txn_audit.specs.AuditInput.{audit_words};
ghost use Rattle.txn_audit.specs.Auditing.{Audits, Ends, IsAnswer, IsAnswerTo, answer_status, answer_text, answer_why, line_told};
ghost use Rattle.txn_audit.specs.Parting.{lines_left};

use crate::audit_input::{AuditInput, audit_words, read_parts};
use amqp_below_ids::ListIds;
use amqp_below_streams::{ByteSink, ByteSource};
use amqp_txn_types::{NoMemory, Text};
use std::alloc::Global;
use txn_audit_fits::{Difference, first_difference};
use txn_program_edges::{
    Reading, TransactionIds, Unserved, end_unserved, read_up_to, status, write_and_end,
};
use txn_program_lines::SpellError;

/// The most octets that an input may have: 4 MiB.
pub const INPUT_LIMIT: usize = 4_194_304;

/// The status of a report that no legal run explains.
const NO: u8 = 1;

/// What an audit left.
#[derive(Drop)]
pub struct AuditRan {
    /// The status that the program ends with: 0 where the report is that of a legal run, 1 where it
    /// isn't; 2, 3, 4 and 7 as for a run, where nothing was audited; 5 where the sink failed, and 6
    /// where memory ran out.
    pub status: u8,
    /// Where the report isn't that of a legal run: the first line that isn't explained, and what was
    /// wanted there, in one line without a line feed. None also where memory ran out for it.
    pub why: Option<String>,
}

/// Audits the report of the input with the ids of the arguments, and writes `yes` or `no`, or the
/// text of the status.
pub fn run_audit<I: ByteSource, O: ByteSink>(
    alloc: Global,
    words: &[Text],
    input: &mut I,
    output: &mut O,
) -> AuditRan
    ensures { Audits (audit_words words.now) (source_of I.rest I.faults input.old)
        (source_of I.rest I.faults input.new) (sink_of O.written O.faults O.spare output.old)
        (sink_of O.written O.faults O.spare output.new) result.status
        (line_told result.why) }
{
    match audit_words(alloc, words) {
        Ok(Some(ids)) => audit_input(alloc, &ids, input, output),
        Ok(None) => end(end_unserved(alloc, Unserved::Usage, output)),
        Err(_) => end(status::NO_MEMORY),
    }
}

/// Ends without a difference that could be told.
pub(crate) fn end(status: u8) -> AuditRan
    ensures status { result.status ≡ status }
    ensures told { line_told result.why ≡ None }
{
    AuditRan { status, why: None }
}

/// Audits the report of the input with these ids.
fn audit_input<I: ByteSource, O: ByteSink>(
    alloc: Global,
    ids: &TransactionIds,
    input: &mut I,
    output: &mut O,
) -> AuditRan
    requires { 0 < length ids.now }
    ensures { Audits (Some ids.now) (source_of I.rest I.faults input.old)
        (source_of I.rest I.faults input.new) (sink_of O.written O.faults O.spare output.old)
        (sink_of O.written O.faults O.spare output.new) result.status
        (line_told result.why) }
{
    match read_up_to(alloc, input, INPUT_LIMIT) {
        Ok(reading) => audit_reading(alloc, ids, reading, output),
        Err(_) => end(status::NO_MEMORY),
    }
}

/// Audits the report of what was read of the input.
fn audit_reading<O: ByteSink>(
    alloc: Global,
    ids: &TransactionIds,
    reading: Reading,
    output: &mut O,
) -> AuditRan
    requires { 0 < length ids.now }
    ensures { Ends ids.now reading (sink_of O.written O.faults O.spare output.old)
        (sink_of O.written O.faults O.spare output.new) result.status
        (line_told result.why) }
{
    match reading {
        Reading::Fault => end(end_unserved(alloc, Unserved::ReadFault, output)),
        Reading::TooLong => end(end_unserved(alloc, Unserved::TooLong, output)),
        Reading::Whole(octets) => audit_octets(alloc, ids, octets.as_slice(), output),
    }
}

/// Audits the report of the octets of an input.
fn audit_octets<O: ByteSink>(
    alloc: Global,
    ids: &TransactionIds,
    octets: &[u8],
    output: &mut O,
) -> AuditRan
    requires { 0 < length ids.now }
    ensures { Ends ids.now (readings.Whole octets.now)
        (sink_of O.written O.faults O.spare output.old)
        (sink_of O.written O.faults O.spare output.new) result.status
        (line_told result.why) }
{
    match answer_of(alloc, ids, octets) {
        Ok(answer) => end_answered(alloc, answer, output),
        Err(_) => end(status::NO_MEMORY),
    }
}

/// What an audit answers to the octets of an input.
#[derive(Drop)]
pub enum Answer {
    /// A legal run explains the report.
    Yes,
    /// None does; with the first line that isn't explained, where there was memory to tell it.
    No(Option<String>),
    /// The line of that number isn't a step, or there is no line `report` and it is wanted there.
    Unread(usize),
}

/// Writes the answer, and ends with its status.
fn end_answered<O: ByteSink>(alloc: Global, answer: Answer, output: &mut O) -> AuditRan
    ensures status { EndsWith (O.faults output.old) (O.faults output.new) (answer_status answer)
        result.status }
    ensures written { Wrote (O.written output.old) (O.written output.new) result.status
        (answer_text answer) }
    ensures told { line_told result.why ≡ answer_why answer }
{
    match answer {
        Answer::Yes => end(write_and_end(status::EVERY_STEP, b"yes\n", output)),
        Answer::No(why) => AuditRan {
            status: write_and_end(NO, b"no\n", output),
            why,
        },
        Answer::Unread(number) => end(end_unserved(alloc, Unserved::Line(number), output)),
    }
}

/// The answer to the octets of an input.
fn answer_of(alloc: Global, ids: &TransactionIds, octets: &[u8]) -> Result<Answer, NoMemory>
    requires { 0 < length ids.now }
    ensures { IfOk result (IsAnswer ids.now octets.now) }
{
    match read_parts(alloc, octets) {
        Ok(parts) => answer_of_parts(alloc, ids, &parts),
        Err(SpellError::Line(number)) => Ok(Answer::Unread(number)),
        Err(SpellError::NoMemory) => Err(NoMemory),
    }
}

/// The answer to the parts of an input.
fn answer_of_parts(
    alloc: Global,
    ids: &TransactionIds,
    parts: &AuditInput<'_>,
) -> Result<Answer, NoMemory>
    requires some { 0 < length ids.now }
    requires next { parts.now.next ≡ length parts.now.steps + 1 }
    ensures { IfOk result (IsAnswerTo ids.now
        (Ok (parts.now.steps, lines_left parts.now.report))) }
{
    let Some(lines) = parts.report else {
        return Ok(Answer::Unread(parts.next));
    };
    let mut source = ListIds::new(alloc, ids.as_slice())?;
    match first_difference(alloc, &parts.steps, &mut source, lines)? {
        None => Ok(Answer::Yes),
        Some(difference) => Ok(Answer::No(line_that_tells(alloc, &difference, lines))),
    }
}

/// The line that tells where the report departs; `None` where memory runs out for it.
fn line_that_tells(alloc: Global, difference: &Difference, lines: &[u8]) -> Option<String>
    ensures { IfSome result (λ line. string_bytes line
        ≡ difference_text difference.now (lines_of lines.now)) }
{
    match difference.line_in(alloc, lines) {
        Ok(line) => Some(line),
        Err(_) => None,
    }
}
